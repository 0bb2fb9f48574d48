//! The words of a condition, a pick or a label that can't be, which no clause spells.
use crate::conditions::{ConditionCause, condition_at};
use crate::nodes::{id_of, node_at};
use crate::sentence::{Detail, Sentence, append, append_sentence, in_place, of_number};
use guide_tree::Node;
use hub_kinds::NoMemory;

/// The words of a cause in a segment of `count` elements.
fn cause_words(count: u64, cause: ConditionCause) -> Sentence<'static> {
    let count = Detail::Number(count);
    match cause {
        ConditionCause::NoRow(position) => Sentence::Two(
            "a condition names element _ of _",
            Detail::Number(u64::from(position)),
            count,
        ),
        ConditionCause::Few => Sentence::Plain("a condition names fewer than two elements"),
        ConditionCause::PickNoRow(position) => Sentence::Two(
            "`pick` names element _ of _",
            Detail::Number(u64::from(position)),
            count,
        ),
        ConditionCause::PickNoCode(position) => {
            of_number("`pick` has no code for element _", u64::from(position))
        }
    }
}

/// Appends to `out` what can't be of the conditions, the picks or the label of the segment with a number; 0 is none.
pub(crate) fn append_condition(
    out: &mut Vec<u8>,
    number: u32,
    nodes: &[Node],
) -> Result<(), NoMemory> {
    let node = node_at(nodes, number);
    if node.is_none() {
        return append(out, b"a dependency, or `hl`, that can't be");
    }
    append_sentence(out, in_place("segment", u64::from(number), id_of(node)))?;
    match (node, condition_at(nodes, number)) {
        (Some(Node::Segment(slot)), Some(cause)) => append_sentence(
            out,
            cause_words(slot.elements.as_slice().len() as u64, cause),
        ),
        (Some(Node::Segment(_)), None) => append(
            out,
            b"an element appears twice in a condition or in `pick`, or an earlier segment has its label",
        ),
        _ => append(out, b"it isn't a segment"),
    }
}
