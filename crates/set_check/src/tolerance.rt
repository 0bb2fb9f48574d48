//! Which faults a guide tolerates (own), by the codes of the 999 guide, IK304 and IK403.
ghost use Rattle.std.specs.Prelude.{◌≡◌, ◌==◌};
ghost use Rattle.std.specs.Option.{option_copied};
ghost use Rattle.hub_kinds.specs.Words.{segment_rank, element_rank};
ghost use Rattle.set_check.specs.Checked.{guide_tree_of};
ghost use Rattle.set_check.specs.Verdict.{lists_segment_code, lists_element_code, tolerates};

use guide_tree::Guide;
use hub_kinds::{ElementCode, Fault, SegmentCode};

/// Whether a guide tolerates a fault: by the code of the element where one is at fault, else by that of the segment.
pub(crate) fn tolerates(guide: Option<&Guide>, fault: &Fault) -> bool
    ensures { result ≡ tolerates (guide_tree_of (option_copied guide.entry)) fault.now }
{
    match guide {
        None => false,
        Some(guide) => {
            let head = &guide.rows().head;
            match &fault.elem {
                None => lists_segment_code(head.tolerate_segment.as_slice(), fault.code),
                Some(elem) => lists_element_code(head.tolerate_element.as_slice(), elem.code),
            }
        }
    }
}

fn lists_segment_code(listed: &[SegmentCode], code: SegmentCode) -> bool
    ensures { result ≡ lists_segment_code listed.now code }
{
    listed.iter().any(|one| is_segment_code(*one, code))
}

fn lists_element_code(listed: &[ElementCode], code: ElementCode) -> bool
    ensures { result ≡ lists_element_code listed.now code }
{
    listed.iter().any(|one| is_element_code(*one, code))
}

fn is_segment_code(one: SegmentCode, other: SegmentCode) -> bool
    ensures { result ≡ (segment_rank one == segment_rank other) }
{
    one == other
}

fn is_element_code(one: ElementCode, other: ElementCode) -> bool
    ensures { result ≡ (element_rank one == element_rank other) }
{
    one == other
}
