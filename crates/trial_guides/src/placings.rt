//! What placing a body by a guide shows.
use super::rows::{Row, guide_of};
use super::slots::DELIMS;
use super::texts::{add_digits, add_number, add_text, same};
use guide_tree::{Guide, Slot};
use hub_kinds::{Fault, code_text};
use loop_match::{Placing, Step, place_all};
use std::alloc::Global;
use std::test::Fail;
use x12_segs::{SegView, segments};

/// A notice of shipment: up to two loops HL, in each two REF with IA and at most one loop N1, in which N3 isn't used and
/// N4 is needed. The slots are BSN 1, HL 2 and 3, REF 4, N1 5 and 6, N3 7, N4 8, CTT 9.
pub const NOTICE: &[Row] = &[
    Row::Segment("BSN", 1, 1),
    Row::Segment("HL", 1, 1),
    Row::Picked("REF", 2, 2, "IA"),
    Row::Segment("N1", 1, 1),
    Row::Segment("N3", 0, 0),
    Row::Segment("N4", 1, 1),
    Row::Loop("N1", 0, 1, 3),
    Row::Loop("HL", 1, 2, 3),
    Row::Segment("CTT", 1, 1),
];

fn add_fault(out: &mut Vec<u8>, alloc: Global, fault: &Fault) -> Result<(), Fail> {
    add_number(out, alloc, fault.position, b' ')?;
    add_text(out, fault.id.bytes(), b'(')?;
    add_text(out, fault.loop_id.bytes(), b')')?;
    out.push(b' ')?;
    add_text(out, code_text(fault.code).as_bytes(), b' ')?;
    add_number(out, alloc, u64::from(fault.slot), b';')
}

fn add_faults(out: &mut Vec<u8>, alloc: Global, placing: &Placing) -> Result<(), Fail> {
    let faults = placing.faults();
    for i in 0..faults.len() {
        add_fault(out, alloc, &faults.at(i))?;
    }
    Ok(())
}

fn add_step(out: &mut Vec<u8>, alloc: Global, step: &Step) -> Result<(), Fail> {
    add_number(out, alloc, step.child as u64, b'.')?;
    add_digits(out, alloc, step.use_no)
}

fn add_place(out: &mut Vec<u8>, alloc: Global, place: &[Step]) -> Result<(), Fail> {
    let mut mark = b':';
    for step in place {
        out.push(mark)?;
        add_step(out, alloc, step)?;
        mark = b'/';
    }
    out.push(b';')?;
    Ok(())
}

fn add_slot(out: &mut Vec<u8>, alloc: Global, slot: Option<&Slot>) -> Result<(), Fail> {
    match slot {
        None => Ok(out.push(b'-')?),
        Some(slot) => add_digits(out, alloc, u64::from(slot.number)),
    }
}

fn add_segment(
    out: &mut Vec<u8>,
    alloc: Global,
    placing: &Placing,
    index: usize,
) -> Result<(), Fail> {
    add_slot(out, alloc, placing.slot(index))?;
    add_place(out, alloc, placing.place(index).unwrap_or(&[]))
}

fn add_segments(out: &mut Vec<u8>, alloc: Global, placing: &Placing) -> Result<(), Fail> {
    for index in 0..placing.len() {
        add_segment(out, alloc, placing, index)?;
    }
    Ok(())
}

/// What is shown of the placing of a body.
#[derive(Clone, Copy)]
pub enum Shown {
    /// Its faults.
    Faults,
    /// The slot and the place of each segment.
    Places,
}

fn add_shown(
    out: &mut Vec<u8>,
    alloc: Global,
    placing: &Placing,
    shown: Shown,
) -> Result<(), Fail> {
    match shown {
        Shown::Faults => add_faults(out, alloc, placing),
        Shown::Places => add_segments(out, alloc, placing),
    }
}

/// Adds what is shown of the placing of segments.
fn add_placed(
    out: &mut Vec<u8>,
    alloc: Global,
    guide: &Guide,
    segs: &[SegView],
    shown: Shown,
) -> Result<(), Fail> {
    let placing = place_all(alloc, segs, guide)?;
    add_shown(out, alloc, &placing, shown)
}

fn written(alloc: Global, guide: &Guide, body: &str, shown: Shown) -> Result<Vec<u8>, Fail> {
    let segs: Vec<SegView> = segments(body.as_bytes(), DELIMS).collect(alloc)?;
    let mut out = Vec::new(alloc);
    add_placed(&mut out, alloc, guide, segs.as_slice(), shown)?;
    Ok(out)
}

fn expect_one(
    alloc: Global,
    guide: &Guide,
    body: &str,
    wanted: &str,
    shown: Shown,
) -> Result<(), Fail> {
    let found = written(alloc, guide, body, shown)?;
    same(alloc, body.as_bytes(), found.as_slice(), wanted.as_bytes())
}

fn expect_each(
    alloc: Global,
    guide: &Guide,
    bodies: &[[&str; 2]],
    shown: Shown,
) -> Result<(), Fail> {
    for [body, wanted] in bodies {
        expect_one(alloc, guide, body, wanted, shown)?;
    }
    Ok(())
}

/// Whether each body has by the guide of these rows what comes beside it.
pub fn expect(alloc: Global, rows: &[Row], bodies: &[[&str; 2]], shown: Shown) -> Result<(), Fail> {
    let guide = guide_of(alloc, rows)?;
    expect_each(alloc, &guide, bodies, shown)
}
