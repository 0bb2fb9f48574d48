ghost use Rattle.std.specs.Prelude.{◌≡◌, ◌++◌, ℕ, List, IfOk, IfSome, OnOk};
ghost use Rattle.guide_tree.specs.Words.{nodes_view, numbered};
ghost use Rattle.setup_errors.specs.GuideWords as words;
ghost use Rattle.setup_errors.specs.Nodes.{FitsBoth};
ghost use Rattle.setup_errors.specs.Search.{viewed};

use crate::bounds_words::append_bounds;
use crate::common::common_segment;
use crate::condition_words::append_condition;
use crate::nodes::{id_at, node_at};
use crate::sentence::{Detail, Sentence, append, append_node, append_sentence};
use crate::trigger_words::append_trigger;
use crate::words::{ONE_SEGMENT, WITH_ELEMENT};
use guide_tree::{GuideFault, Node};
use hub_kinds::{NoMemory, Text, Texts};
use std::alloc::Global;

fn append_element(out: &mut Vec<u8>, number: u64, text: &[u8]) -> Result<(), NoMemory>
    ensures { OnOk result (out.new.items ≡ out.old.items ++ words.element_words number text.now) }
{
    if text.is_empty() {
        return Ok(());
    }
    let number = Detail::Number(number);
    append_sentence(out, Sentence::Two(WITH_ELEMENT, number, Detail::Text(text)))
}

fn append_elements(out: &mut Vec<u8>, elements: &[Text]) -> Result<(), NoMemory>
    ensures { OnOk result (out.new.items ≡ out.old.items ++ words.elements_words 1 elements.now) }
{
    for i in 0..elements.len() {
        append_element(out, i as u64 + 1, elements[i].as_slice())?;
    }
    Ok(())
}

/// Adds a segment, by its id and its elements that aren't empty.
fn append_segment(out: &mut Vec<u8>, segment: &[Text]) -> Result<(), NoMemory>
    ensures { OnOk result (out.new.items ≡ out.old.items ++ words.segment_words segment.now) }
{
    match segment {
        [] => append(out, ONE_SEGMENT.as_bytes()),
        [id, elements @ ..] => {
            append(out, id.as_slice())?;
            append_elements(out, elements)
        }
    }
}

/// A segment that fits the slots of both nodes, where one is found.
fn common_of(
    alloc: Global,
    first: Option<&Node>,
    second: Option<&Node>,
) -> Result<Option<Texts>, NoMemory>
    ensures { IfOk result (λ found. IfSome found (FitsBoth (viewed first.entry) (viewed second.entry))) }
{
    match (first, second) {
        (Some(Node::Segment(slot)), Some(Node::Segment(other))) => {
            common_segment(alloc, slot, other)
        }
        _ => Ok(None),
    }
}

fn segment_text(alloc: Global, segment: &[Text]) -> Result<Vec<u8>, NoMemory>
    ensures { IfOk result (λ text. text.items ≡ words.segment_words segment.now) }
{
    let mut text = Vec::new(alloc);
    append_segment(&mut text, segment)?;
    Ok(text)
}

/// The segment that the slots with these numbers both take, in words.
fn common_text(alloc: Global, nodes: &[Node], first: u32, second: u32) -> Result<Vec<u8>, NoMemory>
    ensures { IfOk result (λ text. words.IsCommonSaid (numbered 1 (nodes_view nodes.now)) first second text.items) }
{
    let one = node_at(nodes, first);
    let other = node_at(nodes, second);
    match common_of(alloc, one, other)? {
        None => segment_text(alloc, &[]),
        Some(segment) => segment_text(alloc, segment.as_slice()),
    }
}

/// Appends the two slots that are rivals, before the segment that fits both.
fn append_rivals(
    out: &mut Vec<u8>,
    nodes: &[Node],
    first: u32,
    second: u32,
) -> Result<(), NoMemory> {
    append_node(out, "segment _", first, id_at(nodes, first))?;
    append_node(out, " and segment _", second, id_at(nodes, second))?;
    append(out, b" may come at one place, and both fit ")
}

/// What is wrong with a guide; of rivals, what comes before the segment that fits both.
fn own_text(alloc: Global, fault: &GuideFault, nodes: &[Node]) -> Result<Vec<u8>, NoMemory> {
    let mut out = Vec::new(alloc);
    match fault {
        GuideFault::TooDeep => append(&mut out, b"loops are nested over 8 deep")?,
        GuideFault::TooMany => append(&mut out, b"over 2000 nodes")?,
        GuideFault::BadBounds(slot) => append_bounds(&mut out, *slot, nodes)?,
        GuideFault::BadTrigger(slot) => append_trigger(&mut out, *slot, nodes)?,
        GuideFault::BadCondition(slot) => append_condition(&mut out, *slot, nodes)?,
        GuideFault::Ambiguous(first, second) => append_rivals(&mut out, nodes, *first, *second)?,
        GuideFault::NoMemory => append(&mut out, b"no memory")?,
    }
    Ok(out)
}

fn append_own(
    alloc: Global,
    out: &mut Vec<u8>,
    fault: &GuideFault,
    nodes: &[Node],
) -> Result<(), NoMemory>
    ensures { OnOk result ((text : List ℕ) × (out.new.items ≡ out.old.items ++ text)) }
{
    let text = own_text(alloc, fault, nodes)?;
    append(out, text.as_slice())
}

/// Adds what is wrong with a guide whose file is read, by its nodes, which are numbered as the guide numbers its slots.
pub fn append_guide_words(
    alloc: Global,
    out: &mut Vec<u8>,
    fault: &GuideFault,
    nodes: &[Node],
) -> Result<(), NoMemory>
    ensures { OnOk result ((text : List ℕ) × words.IsGuideSaid (numbered 1 (nodes_view nodes.now)) fault.now text
        × (out.new.items ≡ out.old.items ++ text)) }
{
    match fault {
        GuideFault::Ambiguous(first, second) => {
            let common = common_text(alloc, nodes, *first, *second)?;
            append_own(alloc, out, fault, nodes)?;
            append(out, common.as_slice())
        }
        _ => append_own(alloc, out, fault, nodes),
    }
}
