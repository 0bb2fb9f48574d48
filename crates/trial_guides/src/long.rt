//! Bodies of 20,000 segments.
use super::placings::NOTICE;
use super::rows::{Row, guide_of};
use super::slots::DELIMS;
use guide_tree::Guide;
use hub_kinds::Faults;
use loop_match::place_all;
use std::alloc::Global;
use std::test::Fail;
use x12_segs::{SegView, segments};

/// A front, what is repeated after it and how often, how many faults there are, and the position of the last.
type Long = (&'static str, &'static str, u32, usize, u64);

const LONG: &[Long] = &[
    // strays alone; after them all that is needed is missing
    ("", "XYZ~", 20_000, 20_003, 20_002),
    // one segment under a maximum of 1; a loop and CTT are missing
    ("", "BSN~", 20_000, 20_001, 20_002),
    // a loop under a maximum of 1; CTT is missing
    ("BSN~HL~REF*IA~REF*IA~", "N1~N4~", 10_000, 10_000, 20_006),
];

fn last_position(faults: &Faults) -> u64 {
    if faults.is_empty() {
        return 0;
    }
    faults.head(faults.len() - 1).position
}

fn counted_in(alloc: Global, guide: &Guide, segs: &[SegView]) -> Result<(usize, u64), Fail> {
    let faults = place_all(alloc, segs, guide)?.into_faults();
    Ok((faults.len(), last_position(&faults)))
}

/// How many faults a body has, and the position of the last.
fn counted(alloc: Global, guide: &Guide, body: &str) -> Result<(usize, u64), Fail> {
    let segs: Vec<SegView> = segments(body.as_bytes(), DELIMS).collect(alloc)?;
    counted_in(alloc, guide, segs.as_slice())
}

fn repeated(alloc: Global, front: &str, part: &str, times: u32) -> Result<String, Fail> {
    let mut body = String::new(alloc);
    body.push_str(front)?;
    for _ in 0..times {
        body.push_str(part)?;
    }
    Ok(body)
}

fn counted_of(alloc: Global, guide: &Guide, case: &Long) -> Result<(usize, u64), Fail> {
    let (front, part, times, _, _) = *case;
    let body = repeated(alloc, front, part, times)?;
    counted(alloc, guide, body.as_str())
}

fn expect_one(alloc: Global, guide: &Guide, case: &Long) -> Result<(), Fail> {
    let (front, part, _, count, last) = *case;
    let found = counted_of(alloc, guide, case)?;
    if found == (count, last) {
        return Ok(());
    }
    let (count, last) = found;
    Err(Fail::new(format!(in alloc; "{front}, {part}: {count} faults, the last at {last}")?))
}

fn expect_each(alloc: Global, guide: &Guide, cases: &[Long]) -> Result<(), Fail> {
    for case in cases {
        expect_one(alloc, guide, case)?;
    }
    Ok(())
}

/// Whether each body has this many faults by the guide of these rows, the last of them there.
fn expect_counts(alloc: Global, rows: &[Row], cases: &[Long]) -> Result<(), Fail> {
    let guide = guide_of(alloc, rows)?;
    expect_each(alloc, &guide, cases)
}

#[test]
fn long_bodies(rt: HostRuntime) -> Result<(), Fail> {
    expect_counts(rt.alloc(), NOTICE, LONG)
}
