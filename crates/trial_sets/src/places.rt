//! The places of an order's segments by the compiled guide of orders.
use super::compiled::{DELIMS, guide_of};
use guide_fast::{FastGuide, place_all_fast};
use hub_kinds::{Faults, SegmentCode};
use std::alloc::Global;
use std::test::Fail;
use trial_guides::house::H850;
use x12_segs::SegView;

/// A body's segments, each with the number of its slot; one has no place.
const BODY: &[(&[u8], Option<u32>)] = &[
    (b"BEG*00*SA*PO100**20260228", Some(1)),
    (b"REF*AB*1", Some(2)),
    (b"N9*AB", Some(5)),
    (b"MSG*HI", Some(6)),
    (b"MSG*HO", Some(6)),
    (b"N1*BT*HUB", Some(8)),
    (b"XYZ*1", None),
    (b"PO1*1*5*EA*2.50", Some(12)),
    (b"PO1*2*5*EA*2.50", Some(12)),
    (b"CTT*2", Some(14)),
];

fn body<'a>(alloc: Global) -> Result<Vec<SegView<'a>>, Fail> {
    let mut segs = Vec::new(alloc);
    for (bytes, _) in BODY {
        segs.push(SegView::new(0, bytes, DELIMS))?;
    }
    Ok(segs)
}

/// Whether the one fault is that of the segment without a place, the seventh after ST.
fn is_that_of_the_stray(faults: &Faults) -> bool {
    if faults.len() != 1 {
        return false;
    }
    let head = faults.head(0);
    head.position == 8 && head.code == SegmentCode::UnrecognizedSegment
}

#[test]
fn orders_are_placed(rt: HostRuntime) -> Result<(), Fail> {
    let guide = guide_of(rt.alloc(), H850)?;
    let fast = FastGuide::of(rt.alloc(), &guide)?;
    let segs = body(rt.alloc())?;
    let placing = place_all_fast(rt.alloc(), segs.as_slice(), &fast)?;
    for index in 0..BODY.len() {
        if placing.slot(index).map(|slot| slot.number) != BODY[index].1 {
            return Err("another slot")?;
        }
    }
    if !is_that_of_the_stray(placing.faults()) {
        return Err("other faults")?;
    }
    Ok(())
}
