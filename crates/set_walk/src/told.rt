ghost use Rattle.std.specs.Prelude.{◌≡◌, ◌↔◌, ◌++◌, map, IfOk, OnOk, IfSome};
ghost use Rattle.std.specs.List.{Contains};
ghost use Rattle.hub_kinds.specs.declared.fault.ElemFault.{ElemFault};
ghost use Rattle.x12_segs.specs.Words.{elements_of};
ghost use Rattle.guide_tree.specs.Words.{IsSound, guide_of, nodes_view};
ghost use Rattle.loop_match.specs.Steps.{place_view};
ghost use Rattle.loop_match.specs.LoopIds.{loop_id_of};
ghost use Rattle.elem_rules.specs.ElementFaults.{IsElementFault};
ghost use Rattle.elem_rules.specs.NodeSlots.{IsSlotOf};
ghost use Rattle.marked_segments.specs.Marked.{IsPlain};
ghost use Rattle.set_walk.specs.Told.{fault_of_element, IsTold, Adds};

use elem_rules::{check_segment, check_segment_at};
use guide_fast::FastGuide;
use guide_tree::{Node, Slot};
use hub_kinds::{ElemFault, Fault, Faults, Lent, NoMemory, SegmentCode};
use loop_match::{Step, loop_id_of};
use std::alloc::Global;
use x12_segs::SegView;

/// Adds the faults of a segment's elements, as the segment reports them.
fn tell<'a>(
    faults: &mut Faults<'a>,
    position: u64,
    seg: &SegView<'a>,
    loop_id: &'a [u8],
    slot: &Slot,
    found: Vec<ElemFault<'a>>,
) -> Result<(), NoMemory>
    ensures { OnOk result
        (faults.new ≡ faults.old
        ++ map (fault_of_element position (elements_of seg.now) loop_id.now slot.now) found.entry.items) }
{
    for elem in found {
        let fault = Fault {
            position,
            id: Lent::new(seg.id()),
            loop_id: Lent::new(loop_id),
            code: SegmentCode::ElementErrors,
            slot: slot.number,
            elem: Some(elem),
        };
        faults.push(fault)?;
    }
    Ok(())
}

/// What is wrong with a segment's elements by its slot, by the places of its element separators, if it is plain.
pub(crate) fn element_faults<'a>(
    alloc: Global,
    fast: &FastGuide,
    seg: &SegView<'a>,
    slot: &'a Slot,
    plain: Option<&[usize]>,
) -> Result<Vec<ElemFault<'a>>, NoMemory>
    requires sound { IsSound slot.now }
    requires slot { IsSlotOf (guide_of fast.now).nodes slot.now }
    requires plain { IfSome plain (λ separators. IsPlain separators.now seg.now) }
    ensures { IfOk result (λ v. (f : ElemFault) → Contains v.items f ↔ IsElementFault seg.now.delims (elements_of seg.now) slot.now f) }
{
    match plain {
        Some(separators) => check_segment_at(alloc, seg, slot, fast.flat_slot(slot), separators),
        None => check_segment(alloc, seg, slot),
    }
}

/// Adds these faults of the elements of the segment at a position, which has this place and slot.
pub(crate) fn tell_found<'a>(
    faults: &mut Faults<'a>,
    position: u64,
    seg: &SegView<'a>,
    nodes: &'a [Node],
    place: &[Step],
    slot: &Slot,
    found: Vec<ElemFault<'a>>,
) -> Result<(), NoMemory>
    requires { (f : ElemFault) → Contains found.items f ↔ IsElementFault seg.now.delims (elements_of seg.now) slot.now f }
    ensures { OnOk result (Adds faults.old faults.new
        (IsTold position seg.now (loop_id_of (nodes_view nodes.now) (place_view place.now)) slot.now)) }
{
    let loop_id = loop_id_of(nodes, place);
    tell(faults, position, seg, loop_id, slot, found)?;
    Ok(())
}

/// Adds the faults of the elements of the segment at a position, which has this place and slot (999 guide, IK3 and IK4). The only error
/// is out of memory.
pub fn tell_elements<'a>(
    alloc: Global,
    faults: &mut Faults<'a>,
    position: u64,
    seg: &SegView<'a>,
    nodes: &'a [Node],
    place: &[Step],
    slot: &'a Slot,
) -> Result<(), NoMemory>
    requires { IsSound slot.now }
    ensures { OnOk result (Adds faults.old faults.new
        (IsTold position seg.now (loop_id_of (nodes_view nodes.now) (place_view place.now)) slot.now)) }
{
    let found = check_segment(alloc, seg, slot)?;
    tell_found(faults, position, seg, nodes, place, slot, found)
}
