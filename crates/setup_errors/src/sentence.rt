//! A sentence with its details, which is written in one way.
ghost use Rattle.std.specs.Prelude.{◌≡◌, ◌++◌, ◌∷◌, [], IfOk, OnOk, decimal, map, option_map};
ghost use Rattle.std.specs.Option.{option_or};
ghost use Rattle.setup_errors.specs.Sentences as sentences;

use crate::words::{BYTE, NAMED_PLACE, PLACE};
use hub_kinds::{Items, NoMemory, Text};
use itoa::Buffer;
use std::alloc::Global;

/// What a sentence shows at a `_`.
#[derive(Clone, Copy)]
pub enum Detail<'a> {
    Text(&'a [u8]),
    Number(u64),
    /// A byte, in quotes if it can be seen, else by its number.
    Byte(u8),
}

/// A sentence of a table of words, with a detail for each `_`.
#[derive(Clone, Copy)]
pub enum Sentence<'a> {
    Plain(&'static str),
    One(&'static str, Detail<'a>),
    Two(&'static str, Detail<'a>, Detail<'a>),
    Three(&'static str, Detail<'a>, Detail<'a>, Detail<'a>),
}

/// Appends `text` to `out`.
pub fn append(out: &mut Vec<u8>, text: &[u8]) -> Result<(), NoMemory>
    ensures { OnOk result (out.new.items ≡ out.old.items ++ text.now) }
{
    out.extend_from_slice(text)?;
    Ok(())
}

/// Appends `number` to `out`.
pub fn append_number(out: &mut Vec<u8>, number: u64) -> Result<(), NoMemory>
    ensures { OnOk result (out.new.items ≡ out.old.items ++ decimal number) }
{
    let mut digits = Buffer::new();
    append(out, digits.format(number).as_bytes())
}

fn append_byte(out: &mut Vec<u8>, byte: u8) -> Result<(), NoMemory>
    ensures { OnOk result (out.new.items ≡ out.old.items ++ sentences.byte_text byte) }
{
    if 33 <= byte && byte <= 126 {
        return append(out, &[b'"', byte, b'"']);
    }
    append(out, BYTE.as_bytes())?;
    append_number(out, u64::from(byte))
}

fn append_detail(out: &mut Vec<u8>, detail: Detail<'_>) -> Result<(), NoMemory>
    ensures { OnOk result (out.new.items ≡ out.old.items ++ sentences.detail_text detail.entry) }
{
    match detail {
        Detail::Text(text) => append(out, text),
        Detail::Number(number) => append_number(out, number),
        Detail::Byte(byte) => append_byte(out, byte),
    }
}

/// Appends `sentence` to `out`, with the next of `details` for each `_`.
#[tactic(auto, unfolding(crate::specs::Sentences::filled))]
fn append_filled(out: &mut Vec<u8>, sentence: &str, details: &[Detail<'_>]) -> Result<(), NoMemory>
    ensures { OnOk result (out.new.items
        ≡ out.old.items ++ sentences.filled sentence.now (map sentences.detail_text details.now)) }
{
    let mut left = sentence.as_bytes();
    let mut more = details;
    while let [byte, rest @ ..] = left {
        match more {
            [detail, others @ ..] if *byte == b'_' => {
                append_detail(out, *detail)?;
                more = others;
            }
            _ => out.push(*byte)?,
        }
        left = rest;
    }
    Ok(())
}

/// Appends `sentence` to `out`, with its details.
pub fn append_sentence(out: &mut Vec<u8>, sentence: Sentence<'_>) -> Result<(), NoMemory>
    ensures { OnOk result (out.new.items ≡ out.old.items ++ sentences.text_of sentence.entry) }
{
    match sentence {
        Sentence::Plain(text) => append(out, text.as_bytes()),
        Sentence::One(text, one) => append_filled(out, text, &[one]),
        Sentence::Two(text, one, two) => append_filled(out, text, &[one, two]),
        Sentence::Three(text, one, two, three) => append_filled(out, text, &[one, two, three]),
    }
}

/// Appends `cause` to `out`, if there is one.
pub(crate) fn append_cause(out: &mut Vec<u8>, cause: Option<Sentence<'_>>) -> Result<(), NoMemory>
    ensures { OnOk result (out.new.items
        ≡ out.old.items ++ sentences.or_nothing (option_map sentences.text_of cause.entry)) }
{
    match cause {
        None => Ok(()),
        Some(cause) => append_sentence(out, cause),
    }
}

/// The sentence `KIND NUMBER (NAME): `; an empty `name` is left out.
pub fn in_place<'a>(kind: &'static str, number: u64, name: &'a [u8]) -> Sentence<'a>
    ensures { sentences.text_of result ≡ sentences.in_place kind.now number name.entry.now }
{
    let kind = Detail::Text(kind.as_bytes());
    if name.is_empty() {
        return Sentence::Two(PLACE, kind, Detail::Number(number));
    }
    Sentence::Three(
        NAMED_PLACE,
        kind,
        Detail::Number(number),
        Detail::Text(name),
    )
}

/// `sentence` with a number.
pub(crate) fn of_number(sentence: &'static str, number: u64) -> Sentence<'static> {
    Sentence::One(sentence, Detail::Number(number))
}

/// `sentence` with two numbers.
pub(crate) fn of_numbers(sentence: &'static str, first: u32, second: u32) -> Sentence<'static> {
    let first = Detail::Number(u64::from(first));
    Sentence::Two(sentence, first, Detail::Number(u64::from(second)))
}

/// Appends to `out` a node by its number, which `sentence` has, and its id in brackets, if there is one.
pub(crate) fn append_node(
    out: &mut Vec<u8>,
    sentence: &'static str,
    number: u32,
    id: &[u8],
) -> Result<(), NoMemory> {
    append_sentence(out, of_number(sentence, u64::from(number)))?;
    if id.is_empty() {
        return Ok(());
    }
    append_sentence(out, Sentence::One(" (_)", Detail::Text(id)))
}

/// `first`, or else `second`.
pub(crate) fn first_of<'a>(
    first: Option<Sentence<'a>>,
    second: Option<Sentence<'a>>,
) -> Option<Sentence<'a>>
    ensures { option_map sentences.text_of result
        ≡ option_or (option_map sentences.text_of first.entry) (option_map sentences.text_of second.entry) }
{
    match first {
        None => second,
        found => found,
    }
}

/// Adds to `found` what `cause` says of `place`, if there is a cause.
pub(crate) fn push_told(
    alloc: Global,
    found: &mut Vec<Text>,
    place: Sentence<'_>,
    cause: Option<Sentence<'_>>,
) -> Result<(), NoMemory>
    ensures { OnOk result (found.new.items ≡ found.old.items
        ++ sentences.told_at (sentences.text_of place.entry) (option_map sentences.text_of cause.entry)) }
{
    let Some(cause) = cause else {
        return Ok(());
    };
    let mut text = Vec::new(alloc);
    append_sentence(&mut text, place)?;
    append_sentence(&mut text, cause)?;
    found.push(Items::from_vec(text))?;
    Ok(())
}
