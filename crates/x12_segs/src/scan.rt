ghost use Rattle.std.specs.Prelude.{◌≤◌, length};
ghost use Rattle.x12_segs.specs.Scan.{IsNextPart, LiesIn};

use crate::find::find_near;
use crate::line_ends::lead;
use crate::part::Part;

/// The first part at or after the offset `from`: a segment, or the rest where no segment follows.
/// CR and LF at its front are passed over, and empty parts are left out (X12.6, segment
/// terminator).
pub fn next_part(text: &[u8], from: usize, terminator: u8) -> Part
    requires { from ≤ length text.now }
    ensures within { LiesIn from (length text.now) result }
    ensures next { IsNextPart text.now terminator from result }
{
    let mut at = from;
    while let Some(len) = find_near(terminator, &text[at..]) {
        let end = at + len;
        let start = at + lead(&text[at..end]);
        if start < end {
            return Part::Segment { start, end };
        }
        at = end + 1;
    }
    Part::Rest {
        start: at + lead(&text[at..]),
    }
}
