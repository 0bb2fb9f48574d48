ghost use Rattle.std.specs.Prelude.{◌≡◌, ◌≤◌, ◌==◌, ◌++◌, ◌&&◌, ◌||◌, nat_le, false, length, IfOk, OnOk, option_map};
ghost use Rattle.std.specs.Char.{is_ascii_digit};
ghost use Rattle.std.specs.List.{count_by, find, list_all, list_any};
ghost use Rattle.guide_tree.specs.declared.element.ElementType.TheVariants as element_type;
ghost use Rattle.night_definition.specs.Values.{is_character, is_digits, is_form, value_length, without_sign};
ghost use Rattle.guide_warnings.specs.Codes as codes;

use crate::warning::{At, CodeDoubt, CodeWarning, Warning};
use guide_tree::{ElementType, SimpleRow, Slot};
use hub_kinds::{NoMemory, Text, copy_text};
use moment::{is_date, is_digits, is_time};
use std::alloc::Global;

fn is_joined(code: &[u8]) -> bool
    ensures { result ≡ codes.is_joined code.now }
{
    code.iter().any(|byte| matches!(*byte, b',' | b'/' | b'|'))
}

fn digits(text: &[u8]) -> usize
    ensures value { result ≡ count_by is_ascii_digit text.now }
    ensures bound { result ≤ length text.now }
{
    text.iter().filter(|byte| byte.is_ascii_digit()).count()
}

/// The length of a value of a type, where it has the type's form.
fn value_length(data_type: ElementType, text: &[u8]) -> usize
    ensures { result ≡ value_length data_type text.now }
{
    match data_type {
        ElementType::Number(_) | ElementType::Decimal => digits(text),
        ElementType::Text | ElementType::Identifier | ElementType::Date | ElementType::Time => {
            text.len()
        }
    }
}

/// Whether a value of a row may have the length of a code.
pub(crate) fn has_length(row: &SimpleRow, code: &[u8]) -> bool
    ensures { result ≡ codes.has_length row.now code.now }
{
    let length = value_length(row.data_type, code);
    row.min as usize <= length && length <= row.max as usize
}

fn are_characters(wide: bool, text: &[u8]) -> bool
    ensures { result ≡ list_all (is_character wide) text.now }
{
    text.iter()
        .all(|byte| 32 <= *byte && *byte <= 126 || wide && 128 <= *byte)
}

fn without_sign(text: &[u8]) -> &[u8]
    ensures { result.now ≡ without_sign text.entry.now }
{
    match text.split_first() {
        Some((sign, rest)) if *sign == b'-' => rest,
        _ => text,
    }
}

fn is_whole(text: &[u8]) -> bool
    ensures { result ≡ (is_digits text.now && nat_le 1 (length text.now)) }
{
    is_digits(text) && 1 <= text.len()
}

fn points(text: &[u8]) -> usize
    ensures value { result ≡ count_by (λ byte. byte == 46) text.now }
    ensures bound { result ≤ length text.now }
{
    text.iter().filter(|byte| **byte == b'.').count()
}

fn are_digits_or_points(text: &[u8]) -> bool
    ensures { result ≡ list_all (λ byte. is_ascii_digit byte || byte == 46) text.now }
{
    text.iter()
        .all(|byte| byte.is_ascii_digit() || *byte == b'.')
}

fn has_digit(text: &[u8]) -> bool
    ensures { result ≡ list_any is_ascii_digit text.now }
{
    text.iter().any(|byte| byte.is_ascii_digit())
}

fn is_decimal(text: &[u8]) -> bool
    ensures { result ≡ is_form element_type.Decimal false text.now }
{
    are_digits_or_points(without_sign(text)) && points(text) <= 1 && has_digit(text)
}

/// Whether a value of a row may have the bytes of a code.
pub(crate) fn has_form(row: &SimpleRow, code: &[u8]) -> bool
    ensures { result ≡ codes.has_form row.now code.now }
{
    match row.data_type {
        ElementType::Text | ElementType::Identifier => are_characters(row.wide, code),
        ElementType::Number(_) => is_whole(without_sign(code)),
        ElementType::Decimal => is_decimal(code),
        ElementType::Date => is_digits(code) && is_date(code),
        ElementType::Time => is_digits(code) && is_time(code),
    }
}

fn is_unused(row: &SimpleRow, code: &[u8]) -> bool
    ensures { result ≡ codes.is_unused row.now code.now }
{
    match &row.codes {
        None => false,
        Some(listed) => match &listed.unused {
            None => false,
            Some(unused) => unused.contains(code),
        },
    }
}

/// Whether a row has a list of codes, and not this one.
fn is_not_listed(row: &SimpleRow, code: &[u8]) -> bool
    ensures { result ≡ codes.is_not_listed row.now code.now }
{
    match &row.codes {
        None => false,
        Some(listed) => !listed.used.contains(code),
    }
}

fn is_doubtful(doubt: CodeDoubt, row: &SimpleRow, code: &[u8]) -> bool
    ensures { result ≡ codes.is_doubtful doubt row.now code.now }
{
    match doubt {
        CodeDoubt::Joined => is_joined(code),
        CodeDoubt::OtherForm => !has_form(row, code),
        CodeDoubt::OtherLength => !has_length(row, code),
        CodeDoubt::AlsoUnused => is_unused(row, code),
        CodeDoubt::NotListed => is_not_listed(row, code),
    }
}

/// The first code of a list that a doubt is of.
pub(crate) fn first_doubtful<'a>(
    doubt: CodeDoubt,
    row: &SimpleRow,
    listed: &'a [Text],
) -> Option<&'a Text>
    ensures { option_map (λ code. code.now) result ≡ find (codes.is_doubtful doubt row.now) listed.entry.now }
{
    for i in 0..listed.len() {
        if is_doubtful(doubt, row, listed[i].as_slice()) {
            return Some(&listed[i]);
        }
    }
    None
}

/// Adds the warning of a list's first code that a doubt is of.
pub(crate) fn push_code(
    alloc: Global,
    found: &mut Vec<Warning>,
    slot: &Slot,
    at: At,
    doubt: CodeDoubt,
    row: &SimpleRow,
    listed: &[Text],
) -> Result<(), NoMemory>
    ensures { OnOk result (found.new.items ≡ found.old.items ++ codes.code_warnings slot.now at doubt row.now listed.now) }
{
    if let Some(code) = first_doubtful(doubt, row, listed) {
        found.push(Warning::Code(CodeWarning {
            slot: slot.number,
            id: copy_text(alloc, slot.id.as_slice())?,
            at,
            doubt,
            code: copy_text(alloc, code.as_slice())?,
        }))?;
    }
    Ok(())
}
