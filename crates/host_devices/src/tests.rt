use crate::{FileDisk, FileSource, FolderLanding, PrintSink};
use disk_model::{Disk, Side, Sink, Source};
use landing_core::Landing;
use std::fs;
use std::test::Fail;

#[test]
fn files_are_written_read_and_cut(rt: HostRuntime) -> Result<(), Fail> {
    fs::create_dir_all(&rt, "disk_here")?;
    let mut disk = FileDisk::new(&rt, "disk_here/s.left", "disk_here/s.right");
    assert!(rt; disk.write_at(Side::Left, 0, b"abc").is_ok());
    assert!(rt; disk.sync(Side::Left).is_ok());
    assert!(rt; disk.cut(Side::Left, 2).is_ok());
    let mut read = [0u8; 2];
    assert!(rt; disk.read_at(Side::Left, 0, &mut read).is_ok());
    assert!(rt; read == *b"ab");
    assert!(rt; disk.read_at(Side::Left, 1, &mut read).is_err());
    assert!(rt; disk.len(Side::Right) == Ok(0));
    assert_eq!(rt; disk.faults(), 1);
    let mut second = FileDisk::new(&rt, "disk_here/s.left", "disk_here/s.right");
    assert!(rt; second.len(Side::Left) == Ok(2));
    assert!(rt; second.read_at(Side::Left, 0, &mut read).is_ok());
    assert!(rt; read == *b"ab");
    assert!(rt; second.sync(Side::Left).is_ok());
    assert_eq!(rt; second.faults(), 0);
    fs::remove_dir_all(&rt, "disk_here")?;
    Ok(())
}

#[test]
fn a_file_with_no_folder_in_its_path_is_made_and_synced(rt: HostRuntime) -> Result<(), Fail> {
    let mut disk = FileDisk::new(&rt, "bare.left", "none_here/bare.right");
    assert!(rt; disk.sync(Side::Left).is_ok());
    assert!(rt; disk.sync(Side::Right).is_err());
    assert_eq!(rt; disk.faults(), 1);
    fs::remove_file(&rt, "bare.left")?;
    Ok(())
}

#[test]
fn texts_are_read_and_printed(rt: HostRuntime) -> Result<(), Fail> {
    fs::write(&rt, "text_here", "a")?;
    let mut source = FileSource::new(&rt, "text_here");
    let mut read = [0u8; 2];
    assert!(rt; source.read(&mut read) == Ok(1));
    assert!(rt; source.read(&mut read) == Ok(0));
    assert!(rt; PrintSink::new(&rt).write(b"printed\n").is_ok());
    fs::remove_file(&rt, "text_here")?;
    Ok(())
}

#[test]
fn folders_are_listed_and_read(rt: HostRuntime) -> Result<(), Fail> {
    let alloc = rt.alloc();
    fs::create_dir_all(&rt, "landing_here/in/sub")?;
    fs::write(&rt, "landing_here/in/b", "yes")?;
    fs::write(&rt, "landing_here/in/a", "no")?;
    fs::write(&rt, "landing_here/in/.a", "no")?;
    fs::write(&rt, "landing_here/in/_a", "no")?;
    let mut landing = FolderLanding::new(alloc, &rt, "landing_here");
    let listing = landing.list(alloc, "in").ok().ok_or("no listing")?;
    let mut names = Vec::new(alloc);
    for listed in listing.as_slice() {
        names.extend_from_slice(listed.file.as_str().as_bytes())?;
        names.push((listed.size % 10) as u8)?;
    }
    assert_eq!(rt; names.as_slice(), b"a\x02b\x03".as_slice());
    let mut read = [0u8; 2];
    assert!(rt; landing.read_at("in", "b", 1, &mut read).is_ok());
    assert!(rt; read == *b"es");
    assert!(rt; landing.read_at("in", "b", 2, &mut read).is_err());
    assert_eq!(rt; landing.faults(), 1);
    assert!(rt;
        landing
            .list(alloc, "none")
            .ok()
            .ok_or("no listing")?
            .is_empty()
    );
    fs::remove_dir_all(&rt, "landing_here")?;
    Ok(())
}
