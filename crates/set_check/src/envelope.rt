ghost use Rattle.std.specs.Prelude.{◌≡◌, ◌≤◌, length, take};
ghost use Rattle.x12_bytes.specs.declared.delims.Delims.{Delims};
ghost use Rattle.set_check.specs.Envelope.{IsEnvelopeOf};
ghost use Rattle.set_check.specs.SetParts.{before_trailer, parts_of, set_parts, set_trailer_of};
ghost use Rattle.x12_segs.specs.Words.{IsSetSpan};

use set_walk::Ends;
use x12_segs::{SegView, SetSpan};

/// Takes the SE off the segments of a set, where it has one.
fn take_trailer<'a>(closed: bool, segs: &mut Vec<SegView<'a>>) -> Option<SegView<'a>>
    requires { 1 ≤ length segs.old.items }
    ensures value { result ≡ set_trailer_of closed segs.old.items }
    ensures left { segs.new.items ≡ take (before_trailer closed (length segs.old.items)) segs.old.items }
{
    if closed { segs.pop() } else { None }
}

/// The first and the last segment of a set, and how many it has.
pub(crate) fn envelope_of<'a>(closed: bool, segs: Vec<SegView<'a>>) -> Ends<'a>
    requires some { 1 ≤ length segs.items }
    requires room { 1 ≤ before_trailer closed (length segs.items) }
    ensures { (d : Delims) → IsEnvelopeOf (parts_of d closed segs.entry.items) result }
{
    let mut segs = segs;
    let segments = segs.len() as u64;
    let trailer = take_trailer(closed, &mut segs);
    let header = segs.swap_remove(0);
    Ends {
        header,
        segments,
        trailer,
    }
}

/// The ST of a set of a text, read again.
pub(crate) fn header_of<'a>(text: &'a [u8], set: &SetSpan) -> SegView<'a>
    requires { IsSetSpan text.now set.now }
    ensures { result ≡ (set_parts text.entry.now set.now).header }
{
    set.segments(text).next().unwrap()
}
