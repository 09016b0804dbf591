// Reading and writing whole ranges of a file.
ghost use Rattle.std.specs.Prelude.{◌≡◌, ◌≤◌, length, IfOk};

use std::fs::File;
use std::io;
use std::io::ErrorKind;
use std::os::unix::fs::FileExt;

/// The place this many bytes behind another.
fn place_behind(at: u64, done: usize) -> io::Result<u64> {
    match at.checked_add(done as u64) {
        Some(place) => Ok(place),
        None => Err(ErrorKind::InvalidInput.into()),
    }
}

/// Reads from a place until the system has given as many bytes as `into` has, and answers that number.
/// It is an error where the system gives none before that, as at the file's end. Which bytes came is the
/// system's, and no clause says it.
pub(crate) fn read_whole(file: &File, at: u64, into: &mut [u8]) -> io::Result<usize>
    ensures { IfOk result (λ n. n ≡ length into.old) }
{
    let mut done = 0;
    while done < into.len() {
        let got = file.read_at(&mut into[done..], place_behind(at, done)?)?;
        if got == 0 {
            return Err(ErrorKind::UnexpectedEof.into());
        }
        done += got;
    }
    Ok(done)
}

/// Writes at a place until the system has taken as many bytes as the piece has, and answers that number.
/// It is an error where the system takes none before that.
pub(crate) fn write_whole(file: &File, at: u64, piece: &[u8]) -> io::Result<usize>
    ensures { IfOk result (λ n. n ≡ length piece.now) }
{
    let mut done = 0;
    while done < piece.len() {
        let put = file.write_at(&piece[done..], place_behind(at, done)?)?;
        if put == 0 {
            return Err(ErrorKind::WriteZero.into());
        }
        done += put;
    }
    Ok(done)
}
