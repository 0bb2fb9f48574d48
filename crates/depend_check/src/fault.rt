ghost use Rattle.std.specs.Prelude.{◌≡◌};
ghost use Rattle.depend_check.specs.Dependencies.{unused_fault, element_fault, use_fault};
ghost use Rattle.depend_check.specs.Found.{told_of};
ghost use Rattle.loop_match.specs.Viewed.{placed_view};
ghost use Rattle.depend_check.specs.Viewed.{seat_view};

use crate::seat::GuideSeat;
use elem_rules::reference_at;
use guide_tree::DependencyKind;
use hub_kinds::{ElemFault, ElementCode, Fault, Lent, NO_NUMBER, SegmentCode};
use loop_match::{PlacedSeg, text_at};

/// What is reported of a slot that is needed and isn't used.
pub(crate) fn unused_fault<'a>(end: u64, seat: &GuideSeat<'a>) -> Fault<'a>
    ensures { result ≡ unused_fault end (seat_view seat.now) }
{
    Fault {
        position: end,
        id: Lent::new(seat.slot.id.as_slice()),
        loop_id: Lent::new(seat.loop_id),
        code: SegmentCode::DependentMissing,
        slot: seat.slot.number,
        elem: None,
    }
}

fn use_fault<'a>(
    placed: &PlacedSeg<'_, 'a, 'a>,
    code: SegmentCode,
    elem: Option<ElemFault<'a>>,
) -> Fault<'a>
    ensures { result ≡ use_fault (placed_view placed.now) code elem.entry }
{
    Fault {
        position: placed.position,
        id: Lent::new(placed.seg.id()),
        loop_id: Lent::new(placed.loop_id),
        code,
        slot: placed.slot.number,
        elem,
    }
}

fn element_fault<'a>(
    placed: &PlacedSeg<'_, 'a, 'a>,
    element: u32,
    code: ElementCode,
    copy: &'a [u8],
) -> Fault<'a>
    ensures { result ≡ element_fault (placed_view placed.now) element code copy.now }
{
    let elem = ElemFault {
        element,
        component: NO_NUMBER,
        repetition: NO_NUMBER,
        code,
        reference: Lent::new(reference_at(placed.slot.elements.as_slice(), element)),
        copy: Lent::new(copy),
    };
    use_fault(placed, SegmentCode::ElementErrors, Some(elem))
}

/// What is reported of a use that breaks a dependency of this kind, which speaks of an element, or at 0 of the whole slot.
pub(crate) fn told_of<'a>(
    kind: DependencyKind,
    element: u32,
    placed: &PlacedSeg<'_, 'a, 'a>,
) -> Fault<'a>
    ensures { result ≡ told_of kind element (placed_view placed.now) }
{
    match kind {
        DependencyKind::Need => element_fault(placed, element, ElementCode::DependentMissing, b""),
        DependencyKind::Ban => {
            if element == 0 {
                use_fault(placed, SegmentCode::DependentNotUsedPresent, None)
            } else {
                element_fault(
                    placed,
                    element,
                    ElementCode::DependentNotUsedPresent,
                    text_at(placed.seg, element as usize),
                )
            }
        }
    }
}
