ghost use Rattle.std.specs.Prelude.{◌≡◌, ◌+◌, ◌<◌, ◌^◌, List, [], Some, map, length, IfOk, OnOk};
ghost use Rattle.std.specs.List.{slice_get};
ghost use Rattle.hub_kinds.specs.declared.fault.Fault.{Fault};
ghost use Rattle.x12_segs.specs.Words.{SegValue};
ghost use Rattle.guide_tree.specs.Words.{IsWellFormed, guide_of, nodes_view, slot_given};
ghost use Rattle.loop_match.specs.Given.{place_in, slot_in};
ghost use Rattle.set_walk.specs.Told.{Adds};
ghost use Rattle.set_check.specs.Adding.{IsErrorBelow, AreSound};

use guide_tree::{Guide, Node};
use hub_kinds::{Faults, NoMemory};
use loop_match::Placing;
use set_walk::tell_elements;
use std::alloc::Global;
use x12_segs::SegView;

/// Adds the element faults of the segment with an index in the body, where it has a place.
fn add_at<'a>(
    alloc: Global,
    faults: &mut Faults<'a>,
    index: usize,
    seg: &SegView<'a>,
    nodes: &'a [Node],
    placing: &Placing<'a>,
) -> Result<(), NoMemory>
    requires sound { AreSound (nodes_view nodes.now) }
    requires slots { map slot_in placing.now.given ≡ map (slot_given (nodes_view nodes.now)) (map place_in placing.now.given) }
    requires few { index + 2 < 2 ^ 64 }
    ensures { OnOk result ((old : List Fault) (segs : List SegValue) → slice_get segs index ≡ Some seg.now
        → Adds old faults.old (IsErrorBelow (nodes_view nodes.now) segs (map place_in placing.now.given) index)
        → Adds old faults.new (IsErrorBelow (nodes_view nodes.now) segs (map place_in placing.now.given) (index + 1))) }
{
    match placing.slot(index) {
        None => Ok(()),
        Some(slot) => match placing.place(index) {
            None => Ok(()),
            Some(place) => {
                tell_elements(alloc, faults, index as u64 + 2, seg, nodes, place, slot)?;
                Ok(())
            }
        },
    }
}

/// Adds the element faults of the segments that have a place.
fn add_elements<'a>(
    alloc: Global,
    faults: &mut Faults<'a>,
    segs: &[SegView<'a>],
    nodes: &'a [Node],
    placing: &Placing<'a>,
) -> Result<(), NoMemory>
    requires sound { AreSound (nodes_view nodes.now) }
    requires slots { map slot_in placing.now.given ≡ map (slot_given (nodes_view nodes.now)) (map place_in placing.now.given) }
    ensures { OnOk result (Adds faults.old faults.new
        (IsErrorBelow (nodes_view nodes.now) segs.now (map place_in placing.now.given) (length segs.now))) }
{
    for i in 0..segs.len() {
        add_at(alloc, faults, i, &segs[i], nodes, placing)?;
    }
    Ok(())
}

/// The element faults of the segments that have a place.
pub(crate) fn element_faults<'a>(
    alloc: Global,
    segs: &[SegView<'a>],
    placing: &Placing<'a>,
    guide: &'a Guide,
) -> Result<Faults<'a>, NoMemory>
    requires { map slot_in placing.now.given ≡ map (slot_given (guide_of guide.now).nodes) (map place_in placing.now.given) }
    ensures errors { IfOk result (λ v. Adds [] v
        (IsErrorBelow (guide_of guide.now).nodes segs.now (map place_in placing.now.given) (length segs.now))) }
    ensures well { IsWellFormed (guide_of guide.now) }
{
    let rows = guide.rows();
    let mut faults = Faults::new(alloc);
    add_elements(alloc, &mut faults, segs, rows.nodes.as_slice(), placing)?;
    Ok(faults)
}
