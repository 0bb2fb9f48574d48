ghost use Rattle.std.specs.Prelude.{◌≡◌, ◌≤◌, Option, List, ℕ, length};
ghost use Rattle.std.specs.List.{position_or_len};
ghost use Rattle.toml_keys.specs.Reads.{Reads};
ghost use Rattle.guide_toml.specs.Entries as entries;

use crate::counts::count_of;
use crate::element_text::{codes_in, element_of, next_token, tokens_in};
use crate::fault_codes::{element_code_of, segment_code_of};
use crate::tokens::{are_codes, is_code};
use guide_tree::{Condition, Element, HlPair, Pick, Relation};
use hub_kinds::{ElementCode, Items, SegmentCode, Text, is_alphanumeric, is_segment_id};
use std::alloc::Global;
use toml_keys::{TextFault, copy_of};

/// What an entry of a list of texts means.
pub trait Entry: Drop {
    /// What a text means.
    ghost reading: { List ℕ → Option Self };

    /// Reads a text.
    fn read(alloc: Global, text: &[u8]) -> Result<Self, TextFault>
        ensures { Reads (λ x. x) result (reading text.now) };
}

/// What a text of a list must be.
#[derive(Clone, Copy)]
pub enum Form {
    SegmentId,
    Code,
}

#[tactic(auto, unfolding(crate::specs::Entries::pick_of))]
fn pick_of(alloc: Global, text: &[u8]) -> Result<Pick, TextFault>
    ensures { Reads (λ x. x) result (entries.pick_of text.now) }
{
    let tokens = tokens_in(alloc, text)?;
    let (token, rest) = next_token(&tokens)?;
    let Some(position) = count_of(token) else {
        return Err(TextFault::Malformed);
    };
    if !are_codes(rest) {
        return Err(TextFault::Malformed);
    }
    Ok(Pick {
        position,
        codes: codes_in(alloc, rest)?,
    })
}

fn relation_of(letter: u8) -> Option<Relation>
    ensures { result ≡ entries.relation_of letter }
{
    if letter == b'P' {
        Some(Relation::Paired)
    } else if letter == b'R' {
        Some(Relation::Required)
    } else if letter == b'E' {
        Some(Relation::Exclusion)
    } else if letter == b'C' {
        Some(Relation::Conditional)
    } else if letter == b'L' {
        Some(Relation::ListConditional)
    } else {
        None
    }
}

fn first_slash(text: &[u8]) -> usize
    ensures at { result ≡ position_or_len entries.is_slash text.now }
    ensures within { result ≤ length text.now }
{
    for i in 0..text.len() {
        if text[i] == b'/' {
            return i;
        }
    }
    text.len()
}

fn parent_of(alloc: Global, level: &[u8]) -> Result<Option<Text>, TextFault>
    ensures { Reads (λ x. x) result (entries.parent_of level.now) }
{
    if level.is_empty() {
        return Ok(None);
    }
    if !is_alphanumeric(level, 1, 2) {
        return Err(TextFault::Malformed);
    }
    Ok(Some(copy_of(alloc, level)?))
}

fn pair_of(alloc: Global, text: &[u8]) -> Result<HlPair, TextFault>
    ensures { Reads (λ x. x) result (entries.pair_of text.now) }
{
    let (parent, tail) = text.split_at(first_slash(text));
    match tail.split_first() {
        None => Err(TextFault::Malformed),
        Some((_, child)) => {
            if !is_alphanumeric(child, 1, 2) {
                return Err(TextFault::Malformed);
            }
            let parent = parent_of(alloc, parent)?;
            Ok(HlPair {
                parent,
                child: copy_of(alloc, child)?,
            })
        }
    }
}

/// Whether a text has a form.
pub(crate) fn has_form(form: Form, text: &[u8]) -> bool
    ensures { result ≡ entries.has_form form text.now }
{
    match form {
        Form::SegmentId => is_segment_id(text),
        Form::Code => is_code(text),
    }
}

fn position_of(first: u8, second: u8) -> Option<u32>
    ensures { result ≡ entries.position_of first second }
{
    if first.is_ascii_digit() && second.is_ascii_digit() {
        Some(10 * u32::from(first - b'0') + u32::from(second - b'0'))
    } else {
        None
    }
}

fn positions_of(alloc: Global, digits: &[u8]) -> Result<Items<u32>, TextFault>
    ensures { Reads (λ x. x) result (entries.positions_of digits.now) }
{
    let mut positions = Vec::new(alloc);
    let mut from = 0;
    while from + 1 < digits.len() {
        match position_of(digits[from], digits[from + 1]) {
            Some(position) => positions.push(position)?,
            None => return Err(TextFault::Malformed),
        }
        from += 2;
    }
    if from < digits.len() {
        return Err(TextFault::Malformed);
    }
    Ok(Items::from_vec(positions))
}

fn condition_of(alloc: Global, text: &[u8]) -> Result<Condition, TextFault>
    ensures { Reads (λ x. x) result (entries.condition_of text.now) }
{
    match text.split_first() {
        None => Err(TextFault::Malformed),
        Some((letter, digits)) => {
            let Some(relation) = relation_of(*letter) else {
                return Err(TextFault::Malformed);
            };
            Ok(Condition {
                relation,
                positions: positions_of(alloc, digits)?,
            })
        }
    }
}

impl Entry for Pick {
    ghost use Rattle.guide_toml.specs.Entries.{pick_of};

    ghost reading = { pick_of };

    fn read(alloc: Global, text: &[u8]) -> Result<Pick, TextFault> {
        pick_of(alloc, text)
    }
}

impl Entry for Condition {
    ghost use Rattle.guide_toml.specs.Entries.{condition_of};

    ghost reading = { condition_of };

    fn read(alloc: Global, text: &[u8]) -> Result<Condition, TextFault> {
        condition_of(alloc, text)
    }
}

impl Entry for HlPair {
    ghost use Rattle.guide_toml.specs.Entries.{pair_of};

    ghost reading = { pair_of };

    fn read(alloc: Global, text: &[u8]) -> Result<HlPair, TextFault> {
        pair_of(alloc, text)
    }
}

impl Entry for Element {
    ghost use Rattle.guide_toml.specs.ElementTexts.{element_of_text};

    ghost reading = { element_of_text };

    fn read(alloc: Global, text: &[u8]) -> Result<Element, TextFault> {
        element_of(alloc, text)
    }
}

impl Entry for SegmentCode {
    ghost use Rattle.guide_toml.specs.Entries.{segment_code_of};

    ghost reading = { segment_code_of };

    fn read(_alloc: Global, text: &[u8]) -> Result<SegmentCode, TextFault> {
        match segment_code_of(text) {
            None => Err(TextFault::Malformed),
            Some(code) => Ok(code),
        }
    }
}

impl Entry for ElementCode {
    ghost use Rattle.guide_toml.specs.Entries.{element_code_of};

    ghost reading = { element_code_of };

    fn read(_alloc: Global, text: &[u8]) -> Result<ElementCode, TextFault> {
        match element_code_of(text) {
            None => Err(TextFault::Malformed),
            Some(code) => Ok(code),
        }
    }
}
