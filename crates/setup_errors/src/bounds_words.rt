//! The words of bounds that can't be met, which no clause spells.
use crate::bounds::{ElementCause, NodeCause, RowCause, bounds_at};
use crate::nodes::{id_of, node_at};
use crate::sentence::{Detail, Sentence, append, append_sentence, in_place, of_number, of_numbers};
use guide_tree::Node;
use hub_kinds::NoMemory;

/// The words of the row of an element.
fn row_words(cause: RowCause) -> Sentence<'static> {
    match cause {
        RowCause::ShortestIsZero => Sentence::Plain("shortest 0 is under 1"),
        RowCause::ShortestOverLongest(least, most) => {
            of_numbers("shortest _ is over longest _", least, most)
        }
        RowCause::LongestTooLong(most) => of_number("longest _ is over 9999", u64::from(most)),
        RowCause::NoCode => Sentence::Plain("a code is missing after ="),
        RowCause::NoUnusedCode => Sentence::Plain("a code is missing after !"),
    }
}

fn append_element(out: &mut Vec<u8>, cause: ElementCause) -> Result<(), NoMemory> {
    let sentence = match cause {
        ElementCause::Repeat(count) => of_number("x_ is out of 1 to 999", u64::from(count)),
        ElementCause::Row(cause) => row_words(cause),
        ElementCause::ManyComponents(count) => of_number("_ components are over 20", count),
        ElementCause::Component(number, cause) => {
            append_sentence(out, of_number("component _: ", number))?;
            row_words(cause)
        }
    };
    append_sentence(out, sentence)
}

fn append_cause(out: &mut Vec<u8>, id: &[u8], cause: NodeCause) -> Result<(), NoMemory> {
    let sentence = match cause {
        NodeCause::LeastOverMost(least, most) => of_numbers("min _ is over max _", least, most),
        NodeCause::MostTooLarge(most) => of_number("max _ is over 999999", u64::from(most)),
        NodeCause::SegmentId => Sentence::One("\"_\" isn't a segment id", Detail::Text(id)),
        NodeCause::LoopId => Sentence::One("\"_\" isn't a loop id", Detail::Text(id)),
        NodeCause::ManyElements(count) => of_number("_ elements are over 40", count),
        NodeCause::Element(number, cause) => {
            append_sentence(out, of_number("element _: ", number))?;
            return append_element(out, cause);
        }
    };
    append_sentence(out, sentence)
}

/// Appends to `out` which bound the node with a number doesn't keep.
pub(crate) fn append_bounds(
    out: &mut Vec<u8>,
    number: u32,
    nodes: &[Node],
) -> Result<(), NoMemory> {
    let node = node_at(nodes, number);
    let kind = match node {
        None => return append(out, b"bounds that can't be met"),
        Some(Node::Segment(_)) => "segment",
        Some(Node::Loop(_, _)) => "loop",
    };
    append_sentence(out, in_place(kind, u64::from(number), id_of(node)))?;
    match bounds_at(nodes, number) {
        None => append(out, b"its bounds can't be met"),
        Some(cause) => append_cause(out, id_of(node), cause),
    }
}
