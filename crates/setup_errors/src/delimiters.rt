//! What is wrong with the delimiters of a partner.
ghost use Rattle.std.specs.Prelude.{◌≡◌, option_map};
ghost use Rattle.setup_errors.specs.Delimiters as delimiters;
ghost use Rattle.setup_errors.specs.Sentences.{text_of};

use crate::sentence::{Detail, Sentence, first_of};
use crate::words::{
    COMPONENT, ELEMENT, NOT_ALLOWED, NOT_ONE_BYTE, REPETITION, SAME_BYTE, TERMINATOR,
};
use partner_setup::{PartnerRow, byte_of, may_delimit, may_end};

/// A delimiter (X12.5).
#[derive(Clone, Copy)]
pub enum Delimiter {
    Element,
    Component,
    Repetition,
    Terminator,
}

/// The key of a delimiter in a setup file.
pub(crate) fn key_of(delimiter: Delimiter) -> &'static [u8]
    ensures { result.now ≡ delimiters.key_of delimiter }
{
    match delimiter {
        Delimiter::Element => ELEMENT.as_bytes(),
        Delimiter::Component => COMPONENT.as_bytes(),
        Delimiter::Repetition => REPETITION.as_bytes(),
        Delimiter::Terminator => TERMINATOR.as_bytes(),
    }
}

/// The value of a partner's delimiter.
pub(crate) fn value_of(delimiter: Delimiter, partner: &PartnerRow) -> &[u8]
    ensures { result.now ≡ delimiters.value_of delimiter partner.now }
{
    match delimiter {
        Delimiter::Element => partner.element.as_slice(),
        Delimiter::Component => partner.component.as_slice(),
        Delimiter::Repetition => partner.repetition.as_slice(),
        Delimiter::Terminator => partner.terminator.as_slice(),
    }
}

fn may_be(delimiter: Delimiter, byte: u8) -> bool
    ensures { result ≡ delimiters.may_be delimiter byte }
{
    match delimiter {
        Delimiter::Element | Delimiter::Component | Delimiter::Repetition => may_delimit(byte),
        Delimiter::Terminator => may_end(byte),
    }
}

fn byte_cause(delimiter: Delimiter, value: &[u8]) -> Option<Sentence<'static>>
    ensures { option_map text_of result ≡ delimiters.byte_cause delimiter value.now }
{
    let key = Detail::Text(key_of(delimiter));
    match byte_of(value) {
        None => {
            let count = Detail::Number(value.len() as u64);
            Some(Sentence::Two(NOT_ONE_BYTE, key, count))
        }
        Some(byte) if may_be(delimiter, byte) => None,
        Some(byte) => Some(Sentence::Two(NOT_ALLOWED, key, Detail::Byte(byte))),
    }
}

#[tactic(auto, unfolding(crate::specs::Delimiters::bytes_cause))]
fn bytes_cause(partner: &PartnerRow) -> Option<Sentence<'static>>
    ensures { option_map text_of result ≡ delimiters.bytes_cause partner.now }
{
    let element = byte_cause(Delimiter::Element, partner.element.as_slice());
    let component = byte_cause(Delimiter::Component, partner.component.as_slice());
    let repetition = byte_cause(Delimiter::Repetition, partner.repetition.as_slice());
    let terminator = byte_cause(Delimiter::Terminator, partner.terminator.as_slice());
    first_of(
        element,
        first_of(component, first_of(repetition, terminator)),
    )
}

fn both_cause(
    first: Delimiter,
    second: Delimiter,
    a: Option<u8>,
    b: Option<u8>,
) -> Option<Sentence<'static>>
    ensures { option_map text_of result ≡ delimiters.both_cause first second a b }
{
    match (a, b) {
        (Some(m), Some(n)) if m == n => {
            let key = Detail::Text(key_of(first));
            let other = Detail::Text(key_of(second));
            Some(Sentence::Three(SAME_BYTE, key, other, Detail::Byte(m)))
        }
        _ => None,
    }
}

fn same_cause(
    partner: &PartnerRow,
    first: Delimiter,
    second: Delimiter,
) -> Option<Sentence<'static>>
    ensures { option_map text_of result ≡ delimiters.same_cause partner.now first second }
{
    let byte = byte_of(value_of(first, partner));
    both_cause(first, second, byte, byte_of(value_of(second, partner)))
}

#[tactic(auto, unfolding(crate::specs::Delimiters::same_causes))]
fn same_causes(partner: &PartnerRow) -> Option<Sentence<'static>>
    ensures { option_map text_of result ≡ delimiters.same_causes partner.now }
{
    let first = same_cause(partner, Delimiter::Element, Delimiter::Component);
    let second = same_cause(partner, Delimiter::Element, Delimiter::Repetition);
    let third = same_cause(partner, Delimiter::Element, Delimiter::Terminator);
    let fourth = same_cause(partner, Delimiter::Component, Delimiter::Repetition);
    let fifth = same_cause(partner, Delimiter::Component, Delimiter::Terminator);
    let sixth = same_cause(partner, Delimiter::Repetition, Delimiter::Terminator);
    let later = first_of(fourth, first_of(fifth, sixth));
    first_of(first, first_of(second, first_of(third, later)))
}

/// The first that is wrong with a partner's delimiters.
pub(crate) fn delimiters_cause(partner: &PartnerRow) -> Option<Sentence<'static>>
    ensures { option_map text_of result ≡ delimiters.delimiters_cause partner.now }
{
    first_of(bytes_cause(partner), same_causes(partner))
}
