//! The words of a loop that doesn't begin as a loop has to, which no clause spells.
use crate::nodes::{id_of, node_at};
use crate::sentence::{append, append_sentence, in_place, of_numbers};
use crate::triggers::{TriggerCause, trigger_at};
use guide_tree::Node;
use hub_kinds::NoMemory;

/// Appends to `out` why the node with a number isn't a loop that begins as one has to.
pub(crate) fn append_trigger(
    out: &mut Vec<u8>,
    number: u32,
    nodes: &[Node],
) -> Result<(), NoMemory> {
    let uses = "its first segment needs min 1 and max 1, and has min _ and max _";
    let node = node_at(nodes, number);
    if node.is_none() {
        return append(out, b"a loop without its first segment");
    }
    append_sentence(out, in_place("loop", u64::from(number), id_of(node)))?;
    match trigger_at(nodes, number) {
        Some(TriggerCause::NotLoop) => append(out, b"it isn't a loop"),
        Some(TriggerCause::NoNode) => append(out, b"it has no node"),
        Some(TriggerCause::LoopFirst) => append(out, b"its first node is a loop"),
        Some(TriggerCause::Uses(least, most)) => {
            append_sentence(out, of_numbers(uses, least, most))
        }
        None => append_sentence(out, of_numbers(uses, 1, 1)),
    }
}
