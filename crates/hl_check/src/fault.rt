ghost use Rattle.std.specs.Prelude.{◌≡◌, ◌++◌, OnOk};
ghost use Rattle.hl_check.specs.Hierarchy.{hl_fault};
ghost use Rattle.hl_check.specs.Found.{fault_if};
ghost use Rattle.loop_match.specs.Viewed.{placed_view};

use elem_rules::reference_at;
use hub_kinds::{ElemFault, ElementCode, Fault, Faults, Lent, NO_NUMBER, NoMemory, SegmentCode};
use loop_match::{PlacedSeg, text_at};

/// What is reported of an element of an HL.
fn hl_fault<'a>(hl: &PlacedSeg<'_, 'a, 'a>, element: u32, code: ElementCode) -> Fault<'a>
    ensures { result ≡ hl_fault (placed_view hl.now) element code }
{
    Fault {
        position: hl.position,
        id: Lent::new(hl.seg.id()),
        loop_id: Lent::new(hl.loop_id),
        code: SegmentCode::ElementErrors,
        slot: hl.slot.number,
        elem: Some(ElemFault {
            element,
            component: NO_NUMBER,
            repetition: NO_NUMBER,
            code,
            reference: Lent::new(reference_at(hl.slot.elements.as_slice(), element)),
            copy: Lent::new(text_at(hl.seg, element as usize)),
        }),
    }
}

/// Adds the fault, where something is wrong.
pub(crate) fn add_if<'a>(
    faults: &mut Faults<'a>,
    wrong: bool,
    hl: &PlacedSeg<'_, 'a, 'a>,
    element: u32,
    code: ElementCode,
) -> Result<(), NoMemory>
    ensures { OnOk result (faults.new ≡ faults.old ++ fault_if wrong (placed_view hl.now) element code) }
{
    if wrong {
        faults.push(hl_fault(hl, element, code))?;
    }
    Ok(())
}
