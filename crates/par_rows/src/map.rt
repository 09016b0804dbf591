// A function mapped over rows by several workers.
ghost use Rattle.std.specs.Prelude.{◌≤◌, ◌<◌, ◌+◌, ◌^◌, IfOk, All, length, min, take, drop};
ghost use Rattle.par_rows.specs.Rows.{Answered, TakesRows, TakesSome, GivesRow};
ghost use Rattle.par_rows.specs.Pieces.{GivesPiece, IsBehind, IsPieceOf};

use crate::Gate;
use crate::join::join_parts;
use crate::piece::{Piece, cut};
use std::alloc::{AllocError, Global};
use std::thread;
use std::thread::Threads;

/// The answers of `f` at rows whose first has the number `first`.
fn map_from<T, R: Drop, F: Fn(u64, &T) -> R>(
    alloc: Global,
    first: usize,
    rows: &[T],
    f: &F,
) -> Result<Vec<R>, AllocError>
    requires room { first + length rows.now < 2 ^ 64 }
    requires takes { TakesRows F.Fn f.now first rows.now }
    ensures { IfOk result (λ v. Answered (GivesRow F.Fn f.now) first rows.now v.items) }
{
    let mut answers = Vec::with_capacity(alloc, rows.len())?;
    for k in 0..rows.len() {
        answers.push(f((first + k) as u64, &rows[k]))?;
    }
    Ok(answers)
}

/// The answers of `f` at a piece of the rows, behind the gate.
fn map_piece<G: Gate, T, R: Drop, F: Fn(u64, &T) -> R>(
    alloc: Global,
    gate: &G,
    workers: u32,
    piece: &Piece,
    rows: &[T],
    f: &F,
) -> Result<Vec<R>, AllocError>
    requires piece { IsPieceOf (min workers (length rows.now)) (length rows.now) piece.now }
    requires takes { TakesSome F.Fn f.now (IsBehind (G.passed gate.now) workers (length rows.now)) rows.now }
    ensures { IfOk result (λ v. Answered (GivesRow F.Fn f.now) piece.now.first (take piece.now.rows (drop piece.now.first rows.now)) v.items) }
{
    gate.enter(piece.number);
    let (_, behind) = rows.split_at(piece.first);
    let (mine, _) = behind.split_at(piece.rows);
    map_from(alloc, piece.first, mine, f)
}

/// The answers of `f` at the piece that these begin with.
fn map_first<G: Gate, T, R: Drop, F: Fn(u64, &T) -> R>(
    alloc: Global,
    gate: &G,
    workers: u32,
    pieces: &[Piece],
    rows: &[T],
    f: &F,
) -> Result<Vec<R>, AllocError>
    requires pieces { All (IsPieceOf (min workers (length rows.now)) (length rows.now)) pieces.now }
    requires takes { TakesSome F.Fn f.now (IsBehind (G.passed gate.now) workers (length rows.now)) rows.now }
    ensures { IfOk result (λ v. GivesPiece (GivesRow F.Fn f.now) rows.now pieces.now v.items) }
{
    match pieces.first() {
        Some(piece) => map_piece(alloc, gate, workers, piece, rows, f),
        None => Ok(Vec::new(alloc)),
    }
}

/// The list of `f(i, row i)`, with `i` from 0, made by at most as many workers, each in a thread of
/// its own where one can be had. The rows are cut in order into `min(workers, rows)` pieces whose
/// lengths differ by at most one, and `f` is called at a row once its piece has passed the gate.
/// Fails for want of memory alone.
pub fn map_rows<
    H: Threads + Sync,
    G: Gate + Sync,
    T: Sync,
    R: Send + Drop,
    F: Fn(u64, &T) -> R + Sync,
>(rt: &H, alloc: Global, gate: &G, workers: u32, rows: &[T], f: &F) -> Result<Vec<R>, AllocError>
    requires workers { (1 ≤ workers) × (workers ≤ 64) }
    requires takes { TakesSome F.Fn f.now (IsBehind (G.passed gate.now) workers (length rows.now)) rows.now }
    ensures { IfOk result (λ v. Answered (GivesRow F.Fn f.now) 0 rows.now v.items) }
{
    let pieces = cut(alloc, workers, rows.len())?;
    let part = move |at: usize, one: &[Piece]| -> Result<Vec<R>, AllocError>
        requires { TakesSome F.Fn f.now (IsBehind (G.passed gate.now) workers (length rows.now)) rows.now × All (IsPieceOf (min workers (length rows.now)) (length rows.now)) one.now }
        ensures { IfOk result (λ v. GivesPiece (GivesRow F.Fn f.entry.now) rows.entry.now one.entry.now v.items) }
    { map_first(alloc, gate, workers, one, rows, f) };
    let parts = thread::map_chunks(rt, alloc, pieces.as_slice(), 1, &part)?;
    let all = join_parts(alloc, parts)?;
    Ok(all)
}
