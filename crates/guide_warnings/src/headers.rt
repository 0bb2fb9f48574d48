ghost use Rattle.std.specs.Prelude.{◌≡◌, ◌==◌};
ghost use Rattle.hub_kinds.specs.Words.{segment_rank};
ghost use Rattle.guide_warnings.specs.Headers as headers;

use guide_tree::GuideHead;
use hub_kinds::{SegmentCode, contains_text};

fn is_code(one: SegmentCode, other: SegmentCode) -> bool
    ensures { result ≡ (segment_rank one == segment_rank other) }
{
    one == other
}

fn tolerates(head: &GuideHead, code: SegmentCode) -> bool
    ensures { result ≡ headers.tolerates head.now code }
{
    head.tolerate_segment
        .as_slice()
        .iter()
        .any(|one| is_code(*one, code))
}

/// Whether a set may be accepted that has a segment of an id which the guide doesn't know, and which may begin with ISA.
pub(crate) fn lets_headers_through(head: &GuideHead) -> bool
    ensures { result ≡ headers.lets_headers_through head.now }
{
    tolerates(head, SegmentCode::UnrecognizedSegment)
        || tolerates(head, SegmentCode::NotInSet)
            && contains_text(head.dictionary.as_slice(), b"ISA")
}
