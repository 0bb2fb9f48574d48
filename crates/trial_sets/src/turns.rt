//! The turns of the compiled guide of orders by the number of a slot, which may be that of another place.
ghost use Rattle.std.specs.Prelude.{◌<◌};
ghost use Rattle.std.specs.List.{AllByRecursion};

use super::compiled::{DELIMS, guide_of};
use guide_fast::{FastGuide, Turn};
use loop_match::Step;
use std::test::Fail;
use trial_guides::house::H850;
use x12_segs::SegView;

/// How many numbers are tried: those of slots and loops, the beginning's, and some that name nothing.
const NUMBERS: u32 = 20;

const SEGMENTS: &[&[u8]] = &[
    b"BEG*00*SA*PO100**20260228",
    b"REF*AB*1",
    b"DTM*002*20260228",
    b"N9*AB",
    b"MSG*HI",
    b"N1*BT*HUB",
    b"PO1*1*5*EA*2.50",
    b"PID*F*08***CHAIR",
    b"CTT*2",
    b"XYZ*1",
    b"",
];

fn parts_of(turn: &Turn<'_>) -> (usize, usize, u64, bool, u32) {
    let number = turn.slot.number;
    (turn.depth, turn.child, turn.use_no, turn.into_loop, number)
}

/// Whatever slot is named, the turn is the same.
fn expect_same(fast: &FastGuide<'_>, last: &[Step], bytes: &[u8]) -> Result<(), Fail>
    requires { AllByRecursion (λ s. s.use_no < 100) last.now }
{
    let seg = SegView::new(0, bytes, DELIMS);
    let wanted = match fast.turn_from(last, 100, &seg) {
        None => None,
        Some(turn) => Some(parts_of(&turn)),
    };
    for number in 0..NUMBERS {
        let found = match fast.next_turn(number, last, 100, &seg) {
            None => None,
            Some(next) => Some(parts_of(&next.turn)),
        };
        if found != wanted {
            return Err("another turn")?;
        }
    }
    Ok(())
}

/// Whether the turn by a slot is silent.
fn expect_silent(
    fast: &FastGuide<'_>,
    number: u32,
    last: &[Step],
    bytes: &[u8],
    wanted: bool,
) -> Result<(), Fail>
    requires { AllByRecursion (λ s. s.use_no < 100) last.now }
{
    let seg = SegView::new(0, bytes, DELIMS);
    match fast.next_turn(number, last, 100, &seg) {
        Some(next) if next.silent == wanted => Ok(()),
        Some(_) => Err("silent or not")?,
        None => Err("no turn")?,
    }
}

/// The first use of an order's line.
const LINE: [Step; 2] = [
    Step {
        child: 5,
        use_no: 0,
    },
    Step {
        child: 0,
        use_no: 0,
    },
];

#[test]
fn turns_are_the_same_by_any_slot(rt: HostRuntime) -> Result<(), Fail> {
    let guide = guide_of(rt.alloc(), H850)?;
    let fast = FastGuide::of(rt.alloc(), &guide)?;
    for bytes in SEGMENTS {
        expect_same(&fast, &[], bytes)?;
        expect_same(&fast, &LINE, bytes)?;
    }
    Ok(())
}

#[test]
fn lines_are_silent(rt: HostRuntime) -> Result<(), Fail> {
    let guide = guide_of(rt.alloc(), H850)?;
    let fast = FastGuide::of(rt.alloc(), &guide)?;
    expect_silent(&fast, 0, &[], b"BEG*00*SA*PO100**20260228", true)?;
    expect_silent(&fast, 0, &[], b"REF*AB*1", false)?;
    expect_silent(&fast, 12, &LINE, b"PO1*2*5*EA*2.50", true)?;
    expect_silent(&fast, 13, &LINE, b"PO1*2*5*EA*2.50", false)
}
