ghost use Rattle.std.specs.Prelude.{◌≡◌, ◌++◌, IfOk, OnOk, decimal};
ghost use Rattle.guide_page.specs.Elements as elements;
ghost use Rattle.guide_page.specs.Nodes.{use_words};

use crate::tags::{append_fixed, append_number, append_small};
use guide_tree::{ElementType, Requirement, SimpleRow};
use hub_kinds::NoMemory;
use std::alloc::Global;

pub(crate) fn requirement_words(requirement: Requirement) -> &'static [u8]
    ensures { result.now ≡ elements.requirement_words requirement }
{
    match requirement {
        Requirement::Mandatory => b"must",
        Requirement::Optional => b"may",
    }
}

fn append_number_words(out: &mut Vec<u8>, places: u32) -> Result<(), NoMemory>
    ensures { OnOk result (out.new.items ≡ out.old.items ++ elements.number_words places) }
{
    append_fixed(out, b"number, decimals implied: ")?;
    append_small(out, places)?;
    append_fixed(out, b" (N")?;
    append_small(out, places)?;
    append_fixed(out, b")")
}

fn append_type_words(out: &mut Vec<u8>, data_type: ElementType) -> Result<(), NoMemory>
    ensures { OnOk result (out.new.items ≡ out.old.items ++ elements.type_words data_type) }
{
    match data_type {
        ElementType::Text => append_fixed(out, b"text (AN)"),
        ElementType::Identifier => append_fixed(out, b"code (ID)"),
        ElementType::Number(places) => append_number_words(out, u32::from(places)),
        ElementType::Decimal => append_fixed(out, b"decimal number (R)"),
        ElementType::Date => append_fixed(out, b"date (DT)"),
        ElementType::Time => append_fixed(out, b"time (TM)"),
    }
}

fn append_wide_words(out: &mut Vec<u8>, wide: bool) -> Result<(), NoMemory>
    ensures { OnOk result (out.new.items ≡ out.old.items ++ elements.wide_words wide) }
{
    if wide {
        append_fixed(out, b", other alphabets too")
    } else {
        Ok(())
    }
}

pub(crate) fn type_and_width(alloc: Global, row: &SimpleRow) -> Result<Vec<u8>, NoMemory>
    ensures { IfOk result (λ words. words.items ≡ elements.type_words row.now.data_type ++ elements.wide_words row.now.wide) }
{
    let mut words = Vec::new(alloc);
    append_type_words(&mut words, row.data_type)?;
    append_wide_words(&mut words, row.wide)?;
    Ok(words)
}

fn append_range(out: &mut Vec<u8>, least: u32, most: u32) -> Result<(), NoMemory>
    ensures { OnOk result (out.new.items ≡ out.old.items ++ elements.range_words least most) }
{
    if least == most {
        return append_small(out, most);
    }
    append_small(out, least)?;
    append_fixed(out, b" to ")?;
    append_small(out, most)
}

/// From the least to the greatest.
pub(crate) fn range_words(alloc: Global, least: u32, most: u32) -> Result<Vec<u8>, NoMemory>
    ensures { IfOk result (λ words. words.items ≡ elements.range_words least most) }
{
    let mut words = Vec::new(alloc);
    append_range(&mut words, least, most)?;
    Ok(words)
}

pub(crate) fn number_text(alloc: Global, number: u32) -> Result<Vec<u8>, NoMemory>
    ensures { IfOk result (λ text. text.items ≡ decimal number) }
{
    let mut text = Vec::new(alloc);
    append_small(&mut text, number)?;
    Ok(text)
}

/// Whether a segment or a loop must be used, may be, or isn't.
pub(crate) fn use_words(least: u32, most: u32) -> &'static [u8]
    ensures { result.now ≡ use_words least most }
{
    if most == 0 {
        b"not used"
    } else if least == 0 {
        b"may"
    } else {
        b"must"
    }
}

fn append_two_digits(out: &mut Vec<u8>, number: u64) -> Result<(), NoMemory>
    ensures { OnOk result (out.new.items ≡ out.old.items ++ elements.two_digits number) }
{
    if number < 10 {
        append_fixed(out, b"0")?;
    }
    append_number(out, number)
}

/// The id of a segment and the position of an element.
pub(crate) fn element_name(alloc: Global, id: &[u8], position: u64) -> Result<Vec<u8>, NoMemory>
    ensures { IfOk result (λ name. name.items ≡ elements.element_name id.now position) }
{
    let mut name = Vec::from_slice(alloc, id)?;
    append_two_digits(&mut name, position)?;
    Ok(name)
}

pub(crate) fn component_name(alloc: Global, name: &[u8], position: u64) -> Result<Vec<u8>, NoMemory>
    ensures { IfOk result (λ longer. longer.items ≡ elements.component_name name.now position) }
{
    let mut longer = Vec::from_slice(alloc, name)?;
    append_fixed(&mut longer, b"-")?;
    append_two_digits(&mut longer, position)?;
    Ok(longer)
}
