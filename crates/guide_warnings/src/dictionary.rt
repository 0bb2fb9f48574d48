ghost use Rattle.std.specs.Prelude.{◌≡◌, ◌++◌, OnOk, option_map};
ghost use Rattle.guide_tree.specs.Words.{find_slot, nodes_view};
ghost use Rattle.guide_warnings.specs.Dictionary as dictionary;

use crate::warning::{DictionaryWarning, Warning};
use guide_tree::{Node, Slot};
use hub_kinds::{NoMemory, Text, copy_text};
use std::alloc::Global;

fn has_id(slot: &Slot, id: &[u8]) -> bool
    ensures { result ≡ dictionary.has_id id.now slot.now }
{
    slot.id.as_slice() == id
}

/// The first segment position with an id.
fn slot_with<'a>(nodes: &'a [Node], id: &[u8]) -> Option<&'a Slot>
    ensures { option_map (λ s. s.now) result ≡ find_slot (dictionary.has_id id.now) (nodes_view nodes.entry.now) }
{
    for node in nodes {
        let found = match node {
            Node::Segment(slot) => { if has_id(slot, id) { Some(slot) } else { None } }
            Node::Loop(_, inner) => slot_with(inner, id),
        };
        if found.is_some() {
            return found;
        }
    }
    None
}

fn push_id(alloc: Global, found: &mut Vec<Warning>, slot: Option<&Slot>) -> Result<(), NoMemory>
    ensures { OnOk result (found.new.items ≡ found.old.items ++ dictionary.id_warning (option_map (λ s. s.now) slot.entry)) }
{
    if let Some(slot) = slot {
        found.push(Warning::IdInDictionary(DictionaryWarning {
            slot: slot.number,
            id: copy_text(alloc, slot.id.as_slice())?,
        }))?;
    }
    Ok(())
}

/// Adds the ids of a dictionary that segment positions have too.
pub(crate) fn push_dictionary(
    alloc: Global,
    found: &mut Vec<Warning>,
    nodes: &[Node],
    ids: &[Text],
) -> Result<(), NoMemory>
    ensures { OnOk result (found.new.items ≡ found.old.items ++ dictionary.dictionary_warnings (nodes_view nodes.now) ids.now) }
{
    for i in 0..ids.len() {
        push_id(alloc, found, slot_with(nodes, ids[i].as_slice()))?;
    }
    Ok(())
}
