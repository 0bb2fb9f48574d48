//! The heads and marks of the pieces of a text and the judgements of its interchanges, by one worker up to 64: each as the plain
//! call gives it.
ghost use Rattle.std.specs.Prelude.{◌≡◌, ◌≤◌, length, IfOk};
ghost use Rattle.std.specs.List.{All};
ghost use Rattle.worker_pool.specs.Asked.{IsHeadsJob, IsJudgeJob, IsMarksJob, IsPieceOf};

use crate::texts::of_groups;
use env_index::{Index, index_plain};
use env_marks::{Marks, marks_of};
use hub_kinds::within_limit;
use isa_scan::scan_piece;
use std::alloc::Global;
use std::sync::Wait;
use std::test::Fail;
use std::thread::Threads;
use std::time::Clock;
use worker_pool::{Gate, HeadsJob, JudgeJob, MarksJob, OpenGate, run_jobs};
use x12_bytes::{Pair, Piece};

const PAIR: Pair = Pair {
    element: b'*',
    terminator: b'~',
};

/// The piece of a text from an offset on, of this many bytes at most.
fn piece_from(text: &[u8], from: usize, size: usize) -> Piece
    requires { from ≤ length text.now }
    ensures { IsPieceOf text.now result }
{
    let rest = text.len() - from;
    Piece {
        from,
        to: from + if size < rest { size } else { rest },
    }
}

fn heads_jobs<'t>(alloc: Global, text: &'t [u8], size: usize) -> Result<Vec<HeadsJob<'t>>, Fail>
    ensures { IfOk result (λ v. (All IsHeadsJob v.items) × (length v.items ≤ 1000)) }
{
    let mut jobs = Vec::new(alloc);
    let mut from = 0;
    for _ in 0..1000u64 {
        if from == text.len() {
            return Ok(jobs);
        }
        let piece = piece_from(text, from, size);
        from = piece.to;
        jobs.push(HeadsJob { text, piece })?;
    }
    Ok(jobs)
}

fn marks_jobs<'t>(alloc: Global, text: &'t [u8], size: usize) -> Result<Vec<MarksJob<'t>>, Fail>
    ensures { IfOk result (λ v. (All IsMarksJob v.items) × (length v.items ≤ 1000)) }
{
    let mut jobs = Vec::new(alloc);
    let mut from = 0;
    for _ in 0..1000u64 {
        if from == text.len() {
            return Ok(jobs);
        }
        let piece = piece_from(text, from, size);
        from = piece.to;
        jobs.push(MarksJob {
            text,
            piece,
            pair: PAIR,
        })?;
    }
    Ok(jobs)
}

fn judge_jobs<'i, 'a>(alloc: Global, index: &'i Index<'a>) -> Result<Vec<JudgeJob<'i, 'a>>, Fail>
    ensures { IfOk result (λ v. (All IsJudgeJob v.items) × (length v.items ≤ 1000)) }
{
    if index.interchanges().len() > 1000 {
        return Err("too many".into());
    }
    let mut jobs = Vec::new(alloc);
    for k in 0..index.interchanges().len() {
        jobs.push(JudgeJob {
            index,
            number: k + 1,
        })?;
    }
    Ok(jobs)
}

/// After a gate.
pub fn expect_heads<G: Gate + Sync, R: Threads + Wait + Clock + Sync>(
    rt: &R,
    alloc: Global,
    text: &[u8],
    size: usize,
    workers: u64,
    gate: &G,
) -> Result<(), Fail>
    requires { (1 ≤ workers) × (workers ≤ 64) }
{
    let jobs = heads_jobs(alloc, text, size)?;
    let Ok(done) = run_jobs(rt, alloc, jobs.as_slice(), workers, gate) else {
        return Err("refused".into());
    };
    let mut from = 0;
    for one in done {
        if from > text.len() {
            return Err("too many".into());
        }
        let piece = piece_from(text, from, size);
        from = piece.to;
        if one.into_heads().list() != scan_piece(alloc, text, piece)?.list() {
            return Err("other heads".into());
        }
    }
    if from == text.len() {
        Ok(())
    } else {
        Err("a piece left out".into())
    }
}

fn is_same(found: &Marks, wanted: &Marks) -> bool {
    found.pair() == wanted.pair()
        && found.first() == wanted.first()
        && found.end() == wanted.end()
        && found.list() == wanted.list()
}

fn expect_marks<R: Threads + Wait + Clock + Sync>(
    rt: &R,
    alloc: Global,
    text: &[u8],
    size: usize,
    workers: u64,
) -> Result<(), Fail>
    requires { (1 ≤ workers) × (workers ≤ 64) }
{
    let jobs = marks_jobs(alloc, text, size)?;
    let Ok(done) = run_jobs(rt, alloc, jobs.as_slice(), workers, &OpenGate) else {
        return Err("refused".into());
    };
    let mut from = 0;
    for one in done {
        if from > text.len() {
            return Err("too many".into());
        }
        let piece = piece_from(text, from, size);
        from = piece.to;
        if !is_same(&one.into_marks(), &marks_of(alloc, text, piece, PAIR)?) {
            return Err("other marks".into());
        }
    }
    if from == text.len() {
        Ok(())
    } else {
        Err("a piece left out".into())
    }
}

fn expect_judgements<R: Threads + Wait + Clock + Sync>(
    rt: &R,
    alloc: Global,
    index: &Index<'_>,
    workers: u64,
) -> Result<(), Fail>
    requires { (1 ≤ workers) × (workers ≤ 64) }
{
    let jobs = judge_jobs(alloc, index)?;
    let Ok(done) = run_jobs(rt, alloc, jobs.as_slice(), workers, &OpenGate) else {
        return Err("refused".into());
    };
    if done.len() != index.interchanges().len() {
        return Err("another number of judgements".into());
    }
    for (one, entry) in done.as_slice().iter().zip(index.interchanges()) {
        if one.fault() != entry.fault() {
            return Err("another fault".into());
        }
    }
    Ok(())
}

/// Three interchanges, the second of which counts a group that isn't there.
fn three(alloc: Global) -> Result<Vec<u8>, Fail> {
    let mut text = of_groups(alloc, &[12, 13])?;
    let mut wrong = of_groups(alloc, &[12])?;
    let count = wrong.len().saturating_sub(12);
    if let Some(byte) = wrong.get_mut(count) {
        *byte = b'2';
    }
    text.append(&mut wrong)?;
    text.extend_from_slice(b"\r\n")?;
    text.append(&mut of_groups(alloc, &[])?)?;
    Ok(text)
}

#[test]
fn heads_and_marks_of_pieces(rt: HostRuntime) -> Result<(), Fail> {
    let text = three(rt.alloc())?;
    for workers in [1, 2, 7, 64] {
        for size in [7, 100, 1000] {
            expect_heads(&rt, rt.alloc(), text.as_slice(), size, workers, &OpenGate)?;
            expect_marks(&rt, rt.alloc(), text.as_slice(), size, workers)?;
        }
    }
    Ok(())
}

#[test]
fn judgements_of_interchanges(rt: HostRuntime) -> Result<(), Fail> {
    let text = three(rt.alloc())?;
    assert!(rt; within_limit(text.len() as u64));
    let index = index_plain(rt.alloc(), text.as_slice())?;
    assert_eq!(rt; index.interchanges().len(), 3);
    assert!(rt; index.interchanges()[1].fault().is_some());
    for workers in [1, 2, 7, 64] {
        expect_judgements(&rt, rt.alloc(), &index, workers)?;
    }
    Ok(())
}
