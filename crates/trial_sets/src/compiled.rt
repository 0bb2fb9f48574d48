//! The compiled guide of orders.
use guide_fast::{Children, FastGuide};
use guide_toml::read_guide;
use guide_tree::Guide;
use hub_kinds::SegmentCode;
use std::alloc::Global;
use std::test::Fail;
use trial_guides::house::H850;
use x12_bytes::Delims;
use x12_segs::SegView;

pub const DELIMS: Delims = Delims {
    element: b'*',
    component: b'>',
    repetition: Some(b'^'),
    terminator: b'~',
};

/// A segment, and the child of the guide that it begins, with whether that is a loop.
type Begin = (&'static [u8], Option<(usize, bool)>);

const BEGINS: &[Begin] = &[
    (b"BEG*00*SA*PO100**20260228", Some((0, false))),
    (b"REF*AB*1", Some((1, false))),
    (b"N9*AB", Some((3, true))),
    (b"N1*BT*HUB", Some((4, true))),
    (b"PO1*1*5*EA*2.50", Some((5, true))),
    (b"CTT*1", Some((6, false))),
    (b"MSG*HI", None),
    (b"PER*IC", None),
    (b"", None),
];

/// A segment without a place, and what is reported of it.
const STRAYS: &[(&[u8], SegmentCode)] = &[
    (b"MSG*HI", SegmentCode::OutOfSequence),
    (b"CTT*1", SegmentCode::OutOfSequence),
    (b"PER*IC", SegmentCode::NotInSet),
    (b"XYZ*1", SegmentCode::UnrecognizedSegment),
    (b"", SegmentCode::UnrecognizedSegment),
];

/// How many nodes are needed from one on up to another.
const NEEDED: &[(usize, usize, usize)] = &[
    (0, 0, 0),
    (0, 1, 1),
    (1, 5, 0),
    (0, 6, 2),
    (6, 7, 0),
    (0, 7, 2),
];

/// The guide of a file. It has no contract, so that a test's proof doesn't read a whole file.
pub fn guide_of(alloc: Global, file: &str) -> Result<Guide, Fail> {
    Ok(read_guide(alloc, file.as_bytes())?)
}

fn expect_begin(fast: &FastGuide<'_>, begin: &Begin) -> Result<(), Fail> {
    let (bytes, wanted) = *begin;
    let seg = SegView::new(0, bytes, DELIMS);
    let found = match fast.turn_from(&[], 1, &seg) {
        None => None,
        Some(turn) => Some((turn.child, turn.into_loop)),
    };
    if found != wanted {
        return Err("begins another child")?;
    }
    Ok(())
}

fn expect_needed(nodes: &Children<'_>, from: usize, to: usize, wanted: usize) -> Result<(), Fail> {
    if from > to || to > nodes.nodes().len() {
        return Err("no such nodes")?;
    }
    if nodes.needed_between(from, to) != wanted {
        return Err("others are needed")?;
    }
    Ok(())
}

#[test]
fn segments_begin_children(rt: HostRuntime) -> Result<(), Fail> {
    let guide = guide_of(rt.alloc(), H850)?;
    let fast = FastGuide::of(rt.alloc(), &guide)?;
    for begin in BEGINS {
        expect_begin(&fast, begin)?;
    }
    Ok(())
}

#[test]
fn strays_are_told(rt: HostRuntime) -> Result<(), Fail> {
    let guide = guide_of(rt.alloc(), H850)?;
    let fast = FastGuide::of(rt.alloc(), &guide)?;
    for (bytes, wanted) in STRAYS {
        if fast.stray_code(&SegView::new(0, bytes, DELIMS)) != *wanted {
            return Err("another code")?;
        }
    }
    Ok(())
}

#[test]
fn needed_nodes_are_counted(rt: HostRuntime) -> Result<(), Fail> {
    let guide = guide_of(rt.alloc(), H850)?;
    let nodes = Children::of(rt.alloc(), guide.rows().nodes.as_slice())?;
    for (from, to, wanted) in NEEDED {
        expect_needed(&nodes, *from, *to, *wanted)?;
    }
    Ok(())
}
