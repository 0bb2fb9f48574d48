ghost use Rattle.std.specs.Prelude.{◌≡◌, ◌++◌, All, IfOk, OnOk, IfSome};
ghost use Rattle.guide_tree.specs.Words.{IsSound, nodes_view};
ghost use Rattle.elem_rules.specs.Flat.{IsFlatSlot};
ghost use Rattle.elem_rules.specs.NodeSlots.{IsFlatNode, AreFlatNodes, slots_of, lent_slot, lent_slots};

use crate::flat_slot::{FlatSlot, flat_slot_of, no_rows};
use guide_tree::{Guide, Node, Slot};
use hub_kinds::NoMemory;
use std::alloc::Global;
use std::marker::Model;

/// The rows and conditions of each slot of a guide as few numbers. Contracts see the guide.
#[derive(Drop)]
pub struct SlotTables<'g> {
    guide: &'g Guide,
    /// Those of each node, by its number; of a loop there are none.
    slots: Vec<FlatSlot>,
}

impl<'g> Model for SlotTables<'g> {
    ghost use Rattle.guide_tree.specs.declared.rows.GuideRows.{GuideRows};
    ghost use Rattle.guide_tree.specs.contracts.node.Node as node;
    ghost use Rattle.guide_tree.specs.Words.{nodes_view};
    ghost use Rattle.std.specs.Coded.{codes};
    ghost use Rattle.elem_rules.specs.NodeSlots.{AreFlatNodes, numbered_slots};

    ghost Value = { GuideRows };

    ghost coded = { Prim.hlevel (codes, node.the_row.coded) };

    ghost view = { λ t. t.guide.now };

    ghost invariant = { λ t. AreFlatNodes t.slots.items (numbered_slots (nodes_view t.guide.now.nodes.items)) };
}

impl<'g> SlotTables<'g> {
    ghost use Rattle.std.specs.Prelude.{◌≡◌, IfOk};
    ghost use Rattle.guide_tree.specs.Words.{nodes_view};
    ghost use Rattle.elem_rules.specs.Flat.{IsFlatSlot};
    ghost use Rattle.elem_rules.specs.NodeSlots.{IsSlotOf};

    /// The tables of the slots of `guide`. The only error is out of memory.
    pub fn of(alloc: Global, guide: &'g Guide) -> Result<SlotTables<'g>, NoMemory>
        ensures { IfOk result (λ t. t ≡ guide.now) }
    {
        let mut listed = Vec::new(alloc);
        listed.push(None)?;
        add_slots(&mut listed, guide.rows().nodes.as_slice())?;
        let slots = flat_nodes_of(alloc, listed.as_slice())?;
        Ok(SlotTables { guide, slots })
    }

    /// The rows and conditions of one of the guide's slots as few numbers.
    #[inline]
    pub fn flat_slot(&self, slot: &Slot) -> &FlatSlot
        requires { IsSlotOf (nodes_view self.now.nodes.items) slot.now }
        ensures { IsFlatSlot result.now slot.now }
    {
        let _accepted = self.guide.rows();
        &self.slots[slot.number as usize]
    }
}

/// Adds the slot of each node, parents first; of a loop none.
fn add_slots<'g>(slots: &mut Vec<Option<&'g Slot>>, nodes: &'g [Node]) -> Result<(), NoMemory>
    ensures { OnOk result (lent_slots slots.new.items ≡ lent_slots slots.old.items ++ slots_of (nodes_view nodes.entry.now)) }
{
    for node in nodes {
        match node {
            Node::Segment(slot) => slots.push(Some(slot))?,
            Node::Loop(_, inner) => {
                slots.push(None)?;
                add_slots(slots, inner)?;
            }
        }
    }
    Ok(())
}

/// The rows and conditions of a node's slot as few numbers.
fn flat_node_of(alloc: Global, slot: Option<&Slot>) -> Result<FlatSlot, NoMemory>
    requires { IfSome slot (λ s. IsSound s.now) }
    ensures { IfOk result (λ flat. IsFlatNode flat (lent_slot slot.entry)) }
{
    match slot {
        None => Ok(no_rows(alloc)),
        Some(slot) => flat_slot_of(alloc, slot),
    }
}

/// The flat slots of each node.
fn flat_nodes_of(alloc: Global, slots: &[Option<&Slot>]) -> Result<Vec<FlatSlot>, NoMemory>
    requires { All (λ o. IfSome o IsSound) (lent_slots slots.now) }
    ensures { IfOk result (λ flats. AreFlatNodes flats.items (lent_slots slots.now)) }
{
    let mut flats = Vec::new(alloc);
    for k in 0..slots.len() {
        let flat = flat_node_of(alloc, slots[k])?;
        flats.push(flat)?;
    }
    Ok(flats)
}
