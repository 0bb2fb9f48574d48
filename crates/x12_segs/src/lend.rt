ghost use Rattle.std.specs.Prelude.{◌≡◌, ◌≤◌, length};
ghost use Rattle.x12_segs.specs.View.{views};

use crate::segs::Segments;
use x12_bytes::Delims;

/// The segments of a text under these delimiters, first to last. A segment's `start` counts from
/// the front of this text.
pub fn segments(text: &[u8], delims: Delims) -> Segments<'_>
    ensures value { result ≡ views text.now delims }
    ensures len { length result ≤ length text.now }
{
    Segments::new(text, delims)
}
