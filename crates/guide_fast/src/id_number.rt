ghost use Rattle.std.specs.Prelude.{◌≡◌, slice_index_or, IfOk};
ghost use Rattle.x12_segs.specs.Words.{elements_of, parts, part_or_empty};
ghost use Rattle.guide_fast.specs.IdNumber.{id_number, HasNumber, begin_numbers};

use elem_rules::{code_number, packed};
use guide_tree::Node;
use hub_kinds::NoMemory;
use loop_match::first_id;
use std::alloc::Global;
use x12_segs::SegView;

/// The number of an id of one to three bytes, by which it is distinguished from every other; of any other id 0.
pub(crate) fn id_number(id: &[u8]) -> u32
    ensures { result ≡ id_number id.now }
{
    code_number(id)
}

/// The byte at a place of a text; where none is there, another.
#[inline]
fn byte_or(text: &[u8], place: usize, other: u8) -> u8
    ensures { result ≡ slice_index_or text.now place other }
{
    match text.get(place) {
        Some(byte) => *byte,
        None => other,
    }
}

/// The number of what is before the first separator of a text.
#[inline]
fn number_before(separator: u8, text: &[u8]) -> u32
    ensures { result ≡ id_number (part_or_empty (parts separator text.now) 0) }
{
    let a = byte_or(text, 0, separator);
    if a == separator {
        return 0;
    }
    let b = byte_or(text, 1, separator);
    if b == separator {
        return packed(1, a, 0, 0);
    }
    let c = byte_or(text, 2, separator);
    if c == separator {
        return packed(2, a, b, 0);
    }
    let d = byte_or(text, 3, separator);
    if d == separator {
        return packed(3, a, b, c);
    }
    0
}

/// The number of a segment's id.
#[inline]
pub(crate) fn number_of(seg: &SegView) -> u32
    ensures { HasNumber (elements_of seg.now) result }
{
    number_before(seg.delims().element, seg.bytes())
}

/// The numbers of the ids that nodes begin with.
pub(crate) fn begin_numbers(alloc: Global, nodes: &[Node]) -> Result<Vec<u32>, NoMemory>
    ensures { IfOk result (λ numbers. numbers.items ≡ begin_numbers nodes.now) }
{
    let mut numbers = Vec::new(alloc);
    for k in 0..nodes.len() {
        numbers.push(id_number(first_id(&nodes[k])))?;
    }
    Ok(numbers)
}
