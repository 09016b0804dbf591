// The commands over a store in memory.
ghost use Rattle.std.specs.Prelude.{◌≡◌};

use crate::{compact, metrics, show};
use disk_model::{SureDisk, SureSink};
use message_text::Refusal;
use std::alloc::Global;
use std::marker::Brand;
use std::process::Abort;
use std::sync::ledger::{Blank, Ledger};
use std::test::Fail;
use value_core::{Name, Steps};

/// A log of the epoch 1. Its first record defines a table `t` with one BIGINT column `a`, an expectation
/// `e` that warns, and a flow over the folder `in`; its second is a batch of one row, 7, that passed.
const LOG: [u8; 257] = [
    0xa5, b'L', b'D', b'P', b'S', b'T', b'O', b'R', b'E', 0, 0, 0, 0, 0, 0, 0, 1, 0xa5, 0, 0, 0, 0,
    0, 0, 0, 110, 1, 1, 1, 0, 0, 0, 0, 0, 0, 0, 1, 0, 0, 0, 0, 0, 0, 0, 1, b't', 0, 0, 0, 0, 0, 0,
    0, 1, b'x', 0, 0, 0, 0, 0, 0, 0, 0, 1, 0, 0, 0, 0, 0, 0, 0, 1, b'a', 3, 0, 0, 0, 0, 0, 0, 0, 1,
    0, 0, 0, 0, 0, 0, 0, 1, b'e', 0, 0, 0, 0, 0, 0, 0, 0, 1, 0, 0, 0, 0, 0, 0, 0, 1, b't', 0, 0, 0,
    0, 0, 0, 0, 0, 2, b'i', b'n', 0, 0, 0, 0, 0, 0, 0, 0, 0, 0, 0, 0, 0, 0, 0, 0, 0xa5, 0, 0, 0, 0,
    0, 0, 0, 111, 1, 2, 0, 0, 0, 0, 0, 0, 0, 1, b't', 0, 0, 0, 0, 0, 0, 0, 1, b't', 0, 0, 0, 0, 0,
    0, 0, 0, 1, 0, 0, 0, 0, 0, 0, 0, 1, b'f', 0, 0, 0, 0, 0, 0, 0, 19, 0, 0, 0, 0, 0, 0, 0, 0, 0,
    0, 0, 0, 0, 0, 0, 1, 0, 0, 0, 0, 0, 0, 0, 1, 4, 0, 0, 0, 0, 0, 0, 0, 7, 0, 0, 0, 0, 0, 0, 0, 1,
    0, 0, 0, 0, 0, 0, 0, 1, 0, 0, 0, 0, 0, 0, 0, 0, 0, 0, 0, 0, 0, 0, 0, 0, 0,
];

/// All commands print what they are for, each behind the one before.
fn all_print<K: Ledger>(
    rt: &impl Abort,
    alloc: Global,
    log: &[u8],
    blank: Blank,
) -> Result<(), Fail>
    requires name { blank.name ≡ K.name }
    requires parts { blank.parts ≡ K.parts }
    requires some { blank.parts ≡ 1 }
{
    let mut steps: Steps<K> = Steps::new(blank);
    assert!(rt; log.len() <= 4096);
    let mut disk = SureDisk::new(alloc, log, &[], 4096)?;
    let mut out = SureSink::new(alloc);
    let name = Name::new(alloc, "T")?;
    metrics(alloc, &mut disk, &mut out, &mut steps)?;
    compact(alloc, &mut disk, &mut out, &mut steps)?;
    show(alloc, &name, None, &mut disk, &mut out, &mut steps)?;
    let text: &[u8] =
        b"dataset|expectation|action|passed|failed\nt|e|warn|1|0\ncompacted: epoch 2\na\n7\n";
    assert!(rt; out.bytes() == text);
    Ok(())
}

#[test]
fn each_command_prints(rt: HostRuntime) -> Result<(), Fail> {
    all_print::<Brand>(&rt, rt.alloc(), &LOG, Blank::new(1))
}

/// Why a version of `t` isn't shown: the version, and those that are kept. `None` where there is no table.
fn refused<K: Ledger>(
    rt: &impl Abort,
    alloc: Global,
    log: &[u8],
    version: u64,
    steps: &mut Steps<K>,
) -> Result<Option<(u64, u64, u64)>, Fail> {
    assert!(rt; log.len() <= 4096);
    let mut disk = SureDisk::new(alloc, log, &[], 4096)?;
    let mut out = SureSink::new(alloc);
    let name = Name::new(alloc, "t")?;
    let refusal = show(alloc, &name, Some(version), &mut disk, &mut out, steps).err();
    assert!(rt; out.bytes().is_empty());
    Ok(match refusal {
        Some(
            Refusal::NoVersion {
                name: _,
                asked,
                base,
                now,
            },
        ) => Some((asked, base, now)),
        _ => None,
    })
}

fn refusals<K: Ledger>(rt: &impl Abort, alloc: Global, blank: Blank) -> Result<(), Fail>
    requires name { blank.name ≡ K.name }
    requires parts { blank.parts ≡ K.parts }
    requires some { blank.parts ≡ 1 }
{
    let mut steps: Steps<K> = Steps::new(blank);
    assert!(rt; refused(rt, alloc, &[], 0, &mut steps)?.is_none());
    assert!(rt; refused(rt, alloc, &LOG, 2, &mut steps)? == Some((2, 0, 1)));
    Ok(())
}

#[test]
fn what_is_not_there_is_refused(rt: HostRuntime) -> Result<(), Fail> {
    refusals::<Brand>(&rt, rt.alloc(), Blank::new(1))
}
