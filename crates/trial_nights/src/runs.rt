//! The runs of a text: on one thread, shared among workers, and read as a stream.
use cut_plan::Cuts;
use hub_run::{Night, OpenGate, run_night, run_plain, run_stream};
use moment::At;
use partner_setup::Setup;
use std::alloc::Global;
use std::sync::Wait;
use std::test::Fail;
use std::thread::Threads;
use std::time::Clock;
use trial_streams::sources::Memory;

/// In which windows a text is read as a stream, by how many workers, and how many bytes its pieces have.
pub const STREAMS: &[(usize, u64, usize)] = &[
    (1, 1, 53),
    (53, 2, 1),
    (236, 7, 53),
    (4_096, 2, 106),
];

fn moment() -> Result<At, Fail> {
    Ok(At::read(b"202603011530").ok_or("no moment")?)
}

pub fn plain_night(alloc: Global, setup: &Setup, text: &[u8]) -> Result<Night, Fail> {
    let at = moment()?;
    Ok(run_plain(alloc, text, setup, &at)?)
}

pub fn shared_night<R: AllocGlobal + Threads + Wait + Clock + Sync>(
    rt: &R,
    setup: &Setup,
    text: &[u8],
    workers: u64,
    piece: usize,
) -> Result<Night, Fail> {
    if workers < 1 || workers > 64 || piece < 1 {
        return Err("no such run")?;
    }
    let at = moment()?;
    let cuts = Cuts::every(rt.alloc(), text.len(), piece)?;
    Ok(run_night(rt, rt.alloc(), text, setup, &at, workers, &cuts, &OpenGate)?)
}

pub fn stream_night<R: AllocGlobal + Threads + Wait + Clock + Sync>(
    rt: &R,
    setup: &Setup,
    text: &[u8],
    window: usize,
    workers: u64,
    piece: usize,
) -> Result<Night, Fail> {
    if workers < 1 || workers > 64 || piece < 1 || window < 1 {
        return Err("no such run")?;
    }
    let at = moment()?;
    let mut source = Memory::new(text);
    let night = run_stream(
        rt,
        rt.alloc(),
        &mut source,
        window,
        piece,
        setup,
        &at,
        workers,
        &OpenGate,
    )?;
    Ok(night)
}
