ghost use Rattle.std.specs.Prelude.{◌≡◌, IfOk, IfErr, IfSome, option_map};
ghost use Rattle.guide_tree.specs.Judging.{first_in_rows, first_in_size};
ghost use Rattle.guide_tree.specs.Conditions.{labelled};
ghost use Rattle.guide_tree.specs.Slots.{slot_numbered, IsSound};
ghost use Rattle.guide_tree.specs.View.{guide_of, nodes_view};

use crate::fault::GuideFault;
use crate::judge::{Rule, are_names_known, first_breaking};
use crate::limits::{MOST_NESTED, nests_within, room_behind};
use crate::lookup::{slot_labelled, slot_numbered};
use crate::numbering::number_nodes;
use crate::rivals::least_rivals;
use crate::rows::GuideRows;
use crate::slot::Slot;
use hub_kinds::MOST_NODES;
use std::marker::Model;

/// A guide that was checked: its rows, in which each node has its slot number.
#[derive(Debug)]
pub struct Guide {
    rows: GuideRows,
}

impl Drop for Guide {
    fn drop(self) {
        let Guide { rows: _ } = self;
    }
}

impl Model for Guide {
    ghost use Rattle.guide_tree.specs.declared.rows.GuideRows.{GuideRows};
    ghost use Rattle.guide_tree.specs.Accepted.{IsAccepted};
    ghost use Rattle.guide_tree.specs.contracts.node.Node as node;
    ghost use Rattle.std.specs.Coded.{codes};

    ghost Value = { GuideRows };

    ghost coded = { Prim.hlevel (codes, node.the_row.coded) };

    ghost view = { λ g. g.rows };

    ghost invariant = { λ g. IsAccepted g.rows };
}

impl Guide {
    ghost use Rattle.guide_tree.specs.Accepted.{IsAccepted};
    ghost use Rattle.guide_tree.specs.Faults.{IsFirstFault};
    ghost use Rattle.guide_tree.specs.View.{numbered_guide};

    /// Checks rows. The guide is the rows with each node's slot number, whatever number the row had. The rows
    /// are judged in the order TooDeep, TooMany, BadBounds, BadTrigger, BadCondition, Ambiguous, each kind at the
    /// least slot or pair of slots. It takes no memory.
    pub fn check(rows: GuideRows) -> Result<Guide, GuideFault>
        ensures rows { IfOk result (λ g. guide_of g ≡ numbered_guide rows) }
        ensures accepted { IfOk result (λ g. IsAccepted g) }
        ensures refused { IfErr result (λ f. IsFirstFault (numbered_guide rows) f) }
    {
        let mut rows = rows;
        if let Some(fault) = first_in_size(&rows) {
            return Err(fault);
        }
        number_nodes(&mut rows.nodes, 1);
        match first_in_nodes(&rows) {
            Some(fault) => Err(fault),
            None => Ok(Guide { rows }),
        }
    }

    /// The slot that a label names.
    pub fn slot_labelled(&self, label: &[u8]) -> Option<&Slot>
        ensures { option_map (λ s. s.now) result ≡ labelled (nodes_view self.entry.now.nodes.items) label.now }
    {
        slot_labelled(&self.rows.nodes, label)
    }

    /// The slot with a number, where a segment has it. It keeps the bounds, and its relational conditions speak of
    /// elements that have rows, as in each accepted guide.
    pub fn slot(&self, number: u32) -> Option<&Slot>
        ensures value { option_map (λ s. s.now) result ≡ slot_numbered (nodes_view self.entry.now.nodes.items) number }
        ensures sound { IfSome result (λ s. IsSound s.now) }
    {
        slot_numbered(&self.rows.nodes, number)
    }

    /// What the guide says.
    pub fn rows(&self) -> &GuideRows
        ensures same { result.now ≡ self.now }
        ensures accepted { IsAccepted self.now }
    {
        &self.rows
    }
}

fn first_in_size(rows: &GuideRows) -> Option<GuideFault>
    ensures { result ≡ first_in_size (guide_of rows.now) }
{
    if !nests_within(&rows.nodes, MOST_NESTED) {
        return Some(GuideFault::TooDeep);
    }
    match room_behind(&rows.nodes, MOST_NODES) {
        None => Some(GuideFault::TooMany),
        Some(_) => None,
    }
}

fn first_in_nodes(rows: &GuideRows) -> Option<GuideFault>
    ensures { result ≡ first_in_rows (guide_of rows.now) }
{
    let nodes = rows.nodes.as_slice();
    if let Some(slot) = first_breaking(nodes, Rule::Bounds, nodes) {
        return Some(GuideFault::BadBounds(slot));
    }
    if let Some(slot) = first_breaking(nodes, Rule::Trigger, nodes) {
        return Some(GuideFault::BadTrigger(slot));
    }
    if !are_names_known(nodes, rows.depends.as_slice(), &rows.hl) {
        return Some(GuideFault::BadCondition(0));
    }
    if let Some(slot) = first_breaking(nodes, Rule::Conditions, nodes) {
        return Some(GuideFault::BadCondition(slot));
    }
    match least_rivals(nodes, 0, None) {
        None => None,
        Some((lesser, greater)) => Some(GuideFault::Ambiguous(lesser, greater)),
    }
}
