ghost use Rattle.std.specs.Prelude.{◌≤◌};

use crate::{Gate, NoGate, map_rows};
use std::alloc::{AllocError, Global};
use std::process::Abort;
use std::sync::atomic::{AtomicBool, AtomicU64, Ordering};
use std::test::Fail;
use std::thread::Threads;

/// A gate at which two pieces see each other, or give up after 2^28 turns.
#[derive(Drop)]
struct TwoFlags {
    first: AtomicBool,
    second: AtomicBool,
    met: AtomicU64,
}

impl Gate for TwoFlags {
    ghost passed = { λ gate piece. Unit {0} };

    fn enter(&self, piece: u32) {
        let (mine, other) = if piece == 0 {
            (&self.first, &self.second)
        } else {
            (&self.second, &self.first)
        };
        mine.store(true, Ordering::SeqCst);
        for _ in 0..1u32 << 28 {
            if other.load(Ordering::SeqCst) {
                self.met.fetch_add(1, Ordering::SeqCst);
                return;
            }
        }
    }
}

#[test]
fn two_pieces_of_two_rows_are_in_work_at_once(rt: HostRuntime) -> Result<(), Fail> {
    let gate = TwoFlags {
        first: AtomicBool::new(false),
        second: AtomicBool::new(false),
        met: AtomicU64::new(0),
    };
    let answers = map_rows(
        &rt,
        rt.alloc(),
        &gate,
        2,
        &[5u8, 7],
        &|number, row| (number, *row),
    )?;
    assert_eq!(rt; answers.as_slice(), [(0, 5), (1, 7)].as_slice());
    assert_eq!(rt; gate.met.load(Ordering::SeqCst), 2);
    Ok(())
}

/// A gate that counts pieces, and adds up what their numbers stand for.
#[derive(Drop)]
struct Counted {
    pieces: AtomicU64,
    numbers: AtomicU64,
}

impl Gate for Counted {
    ghost passed = { λ gate piece. Unit {0} };

    fn enter(&self, piece: u32) {
        self.pieces.fetch_add(1, Ordering::SeqCst);
        self.numbers.fetch_add(u64::from(piece), Ordering::SeqCst);
    }
}

fn check_pieces<R: Threads + Abort + Sync>(
    rt: &R,
    alloc: Global,
    workers: u32,
    rows: &[u8],
    pieces: u64,
) -> Result<(), AllocError>
    requires { (1 ≤ workers) × (workers ≤ 64) }
{
    let gate = Counted {
        pieces: AtomicU64::new(0),
        numbers: AtomicU64::new(0),
    };
    let answers = map_rows(rt, alloc, &gate, workers, rows, &|_, row| *row)?;
    assert_eq!(rt; answers.as_slice(), rows);
    assert_eq!(rt;
        gate.pieces.load(Ordering::SeqCst),
        pieces,
        "{workers} workers"
    );
    let numbers = pieces.wrapping_mul(pieces.wrapping_sub(1)) / 2;
    assert_eq!(rt;
        gate.numbers.load(Ordering::SeqCst),
        numbers,
        "{workers} workers"
    );
    Ok(())
}

#[test]
fn each_piece_passes_the_gate_with_its_number(rt: HostRuntime) -> Result<(), Fail> {
    let rows = [3, 1, 4, 1, 5, 9, 2];
    check_pieces(&rt, rt.alloc(), 1, &rows, 1)?;
    check_pieces(&rt, rt.alloc(), 3, &rows, 3)?;
    check_pieces(&rt, rt.alloc(), 64, &rows, 7)?;
    check_pieces(&rt, rt.alloc(), 64, &[], 0)?;
    let none = map_rows(&rt, rt.alloc(), &NoGate, 64, &[1u8], &|number, _| number)?;
    assert_eq!(rt; none.as_slice(), [0].as_slice());
    Ok(())
}
