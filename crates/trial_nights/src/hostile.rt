//! Hostile bytes and reads: each run of a text gives what the run on one thread gives, byte for byte, and a source that fails is reported.
use super::night::text_of;
use super::pieces::{FROM_ACME, ORDER_IN_ITS_INTERCHANGE};
use super::runs::{plain_night, shared_night, stream_night};
use super::setups::two_partners;
use hub_kinds::{Counters, Text};
use hub_run::{Night, OpenGate, RunFault, run_stream};
use mailbox::Woven;
use moment::At;
use partner_setup::Setup;
use std::alloc::{AllocError, Global};
use std::sync::Wait;
use std::test::Fail;
use std::thread::Threads;
use std::time::Clock;
use stream_read::Source;
use trial_streams::sources::{Failing, Interrupted};

fn same_texts(one: &[Text], other: &[Text]) -> bool {
    if one.len() != other.len() {
        return false;
    }
    for place in 0..one.len() {
        if one[place].as_slice() != other[place].as_slice() {
            return false;
        }
    }
    true
}

fn same_counters(one: &[Counters], other: &[Counters]) -> bool {
    if one.len() != other.len() {
        return false;
    }
    for place in 0..one.len() {
        let (a, b) = (&one[place], &other[place]);
        if (a.interchange, a.group, a.set) != (b.interchange, b.group, b.set) {
            return false;
        }
    }
    true
}

fn same_boxes(alloc: Global, one: &[Woven], other: &[Woven]) -> Result<bool, Fail> {
    if one.len() != other.len() {
        return Ok(false);
    }
    for place in 0..one.len() {
        if text_of(alloc, &one[place])?.as_slice() != text_of(alloc, &other[place])?.as_slice() {
            return Ok(false);
        }
    }
    Ok(true)
}

pub fn are_same(alloc: Global, one: &Night, other: &Night) -> Result<bool, Fail> {
    let boxes = same_boxes(alloc, one.boxes.as_slice(), other.boxes.as_slice())?;
    Ok(
        boxes
            && same_texts(one.acks.as_slice(), other.acks.as_slice())
            && one.report.as_slice() == other.report.as_slice()
            && same_counters(one.next.as_slice(), other.next.as_slice()),
    )
}

/// Whether each run of a text gives what the run on one thread gives: shared among 1 and 64 workers in pieces of this many bytes, and in
/// windows of 53.
fn expect_one_night<R: AllocGlobal + Threads + Wait + Clock + Sync>(
    rt: &R,
    setup: &Setup,
    text: &[u8],
    piece: usize,
) -> Result<(), Fail> {
    let alloc = rt.alloc();
    let plain = plain_night(alloc, setup, text)?;
    for workers in [1u64, 64] {
        let shared = shared_night(rt, setup, text, workers, piece)?;
        if !are_same(alloc, &plain, &shared)? {
            return Err(Fail::new(format!(in alloc; "{} bytes by {workers} workers", text.len())?));
        }
    }
    let streamed = stream_night(rt, setup, text, 53, 2, piece)?;
    if !are_same(alloc, &plain, &streamed)? {
        return Err(Fail::new(format!(in alloc; "{} bytes as a stream", text.len())?));
    }
    Ok(())
}

fn repeated(alloc: Global, word: &[u8], times: u32) -> Result<Vec<u8>, AllocError> {
    let mut text = Vec::new(alloc);
    for _ in 0..times {
        text.extend_from_slice(word)?;
    }
    Ok(text)
}

#[test]
fn an_order_cut_off_at_each_byte(rt: HostRuntime) -> Result<(), Fail> {
    let setup = two_partners(rt.alloc())?;
    for end in 0..ORDER_IN_ITS_INTERCHANGE.len() {
        expect_one_night(&rt, &setup, &ORDER_IN_ITS_INTERCHANGE[..end], 1)?;
    }
    Ok(())
}

#[test]
fn a_header_64_times(rt: HostRuntime) -> Result<(), Fail> {
    let setup = two_partners(rt.alloc())?;
    let text = repeated(rt.alloc(), FROM_ACME, 64)?;
    expect_one_night(&rt, &setup, text.as_slice(), 1)
}

#[test]
fn the_first_word_of_a_header_100_000_times(rt: HostRuntime) -> Result<(), Fail> {
    let setup = two_partners(rt.alloc())?;
    let text = repeated(rt.alloc(), b"ISA", 100_000)?;
    let night = plain_night(rt.alloc(), &setup, text.as_slice())?;
    assert!(rt;
        night
            .report
            .as_slice()
            .ends_with(b" held 0 outside 300000\n")
    );
    expect_one_night(&rt, &setup, text.as_slice(), 53)
}

/// Whether a source in windows of 53 bytes gives the night of the order, or is reported to fail.
fn expect_read<S: Source, R: AllocGlobal + Threads + Wait + Clock + Sync>(
    rt: &R,
    source: &mut S,
    reads: bool,
) -> Result<(), Fail> {
    let alloc = rt.alloc();
    let setup = two_partners(alloc)?;
    let at = At::read(b"202603011530").ok_or("no moment")?;
    let wanted = plain_night(alloc, &setup, ORDER_IN_ITS_INTERCHANGE)?;
    match run_stream(rt, alloc, source, 53, 53, &setup, &at, 2, &OpenGate) {
        Ok(night) => {
            if !reads || !are_same(alloc, &wanted, &night)? {
                return Err("a night")?;
            }
            Ok(())
        }
        Err(RunFault::Read) if !reads => Ok(()),
        Err(fault) => Err(Fail::new(format!(in alloc; "{}", fault.number())?)),
    }
}

#[test]
fn a_source_that_is_interrupted(rt: HostRuntime) -> Result<(), Fail> {
    let order = ORDER_IN_ITS_INTERCHANGE;
    expect_read(&rt, &mut Interrupted::new(order, 1_000, 0), true)?;
    expect_read(&rt, &mut Interrupted::new(order, 1_000, 3), true)?;
    expect_read(&rt, &mut Interrupted::new(order, 1_001, 0), false)
}

#[test]
fn a_source_that_fails_at_a_read(rt: HostRuntime) -> Result<(), Fail> {
    for reads in 0..5 {
        expect_read(
            &rt,
            &mut Failing::new(ORDER_IN_ITS_INTERCHANGE, reads),
            false,
        )?;
    }
    Ok(())
}
