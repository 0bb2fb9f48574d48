//! A guide with many slots of one id, distinguished by their picks.
use crate::compiled::{DELIMS, guide_of};
use guide_fast::FastGuide;
use hub_kinds::SegmentCode;
use std::alloc::Global;
use std::test::Fail;
use x12_segs::SegView;

/// A segment, and the first child that it fits.
const PICKED: &[(&[u8], Option<usize>)] = &[
    (b"REF*C10", Some(0)),
    (b"REF*C29*1", Some(19)),
    (b"REF*C49", Some(39)),
    (b"REF*VN", Some(40)),
    (b"REF*IA*XX", Some(40)),
    (b"REF*LONG", Some(41)),
    (b"REF*ZZ*XX", Some(42)),
    (b"REF*ZZ*YY", None),
    (b"REF*C1", None),
    (b"REF*C500", None),
    (b"REF*", None),
    (b"REF", None),
    (b"N1*C10", None),
];

/// Forty slots by one code each, one by two codes, one by a long code, and one by two elements.
fn file(alloc: Global) -> Result<String, Fail> {
    let mut text = String::new(alloc);
    text.push_str(
        "name = \"G\"\ngroup = \"PO\"\nset = \"850\"\nversion = \"005010\"\nnodes = [\n",
    )?;
    for k in 10..50usize {
        push_slot(&mut text, format!(in alloc; "\"1 C{k}\"")?.as_str())?;
    }
    for picks in ["\"1 VN IA\"", "\"1 LONG\"", "\"2 XX\", \"1 ZZ\""] {
        push_slot(&mut text, picks)?;
    }
    text.push_str("]\n")?;
    Ok(text)
}

fn push_slot(text: &mut String, picks: &str) -> Result<(), Fail> {
    text.push_str("{seg=\"REF\", min=0, max=9, pick=[")?;
    text.push_str(picks)?;
    text.push_str("], elements=[\"128 M ID 2 4\", \"127 O AN 1 9\"]},\n")?;
    Ok(())
}

/// The child that a segment begins.
fn begun(fast: &FastGuide<'_>, bytes: &[u8]) -> Option<usize> {
    let turn = fast.turn_from(&[], 1, &SegView::new(0, bytes, DELIMS));
    turn.map(|turn| turn.child)
}

#[test]
fn slots_are_told_apart(rt: HostRuntime) -> Result<(), Fail> {
    let guide = guide_of(rt.alloc(), file(rt.alloc())?.as_str())?;
    let fast = FastGuide::of(rt.alloc(), &guide)?;
    for (bytes, wanted) in PICKED {
        if begun(&fast, bytes) != *wanted {
            return Err("another child")?;
        }
    }
    Ok(())
}

#[test]
fn strays_are_told_by_picks(rt: HostRuntime) -> Result<(), Fail> {
    let guide = guide_of(rt.alloc(), file(rt.alloc())?.as_str())?;
    let fast = FastGuide::of(rt.alloc(), &guide)?;
    for (bytes, child) in PICKED {
        let wanted = match child {
            Some(_) => SegmentCode::OutOfSequence,
            None if bytes.starts_with(b"REF") => SegmentCode::UnexpectedSegment,
            None => SegmentCode::UnrecognizedSegment,
        };
        if fast.stray_code(&SegView::new(0, bytes, DELIMS)) != wanted {
            return Err("another code")?;
        }
    }
    Ok(())
}
