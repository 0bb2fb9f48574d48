ghost use Rattle.std.specs.Prelude.{◌≡◌, Some, option_map};
ghost use Rattle.toml_keys.specs.Reads.{Reads};
ghost use Rattle.guide_toml.specs.Counts.{count_of};
ghost use Rattle.guide_toml.specs.Tokens.{token_groups, tokens_of};
ghost use Rattle.guide_toml.specs.ElementTexts as texts;

use crate::counts::count_of;
use crate::tokens::{are_codes, code_count, first_semicolon, texts_of, tokens_of};
use guide_tree::{
    CodeList, Codes, Component, CompositeRow, Element, ElementType, Requirement, SimpleRow,
};
use hub_kinds::{Items, Lent, Text, read_number};
use std::alloc::Global;
use toml_keys::{TextFault, copy_of};

/// The type and the lengths of a value.
#[derive(Clone, Copy)]
pub struct Measure {
    pub data_type: ElementType,
    pub min: u32,
    pub max: u32,
}

/// The first token, and those after it.
pub(crate) fn next_token<'a, 't>(
    tokens: &'t [Lent<'a>],
) -> Result<(&'a [u8], &'t [Lent<'a>]), TextFault>
    ensures { Reads (λ x. (x.0.now, x.1.now)) result (texts.next_token tokens.now) }
{
    match tokens.split_first() {
        None => Err(TextFault::Malformed),
        Some((token, rest)) => Ok((token.bytes(), rest)),
    }
}

fn reference_of(alloc: Global, token: &[u8]) -> Result<Text, TextFault>
    ensures { Reads (λ x. x) result (texts.reference_of token.now) }
{
    if token == b"-".as_slice() {
        return copy_of(alloc, &[]);
    }
    match read_number(token, 4) {
        None => Err(TextFault::Malformed),
        Some(_) => copy_of(alloc, token),
    }
}

fn requirement_of(token: &[u8]) -> Result<Requirement, TextFault>
    ensures { Reads (λ x. x) result (texts.requirement_of token.now) }
{
    if token == b"M".as_slice() {
        Ok(Requirement::Mandatory)
    } else if token == b"O".as_slice() {
        Ok(Requirement::Optional)
    } else {
        Err(TextFault::Malformed)
    }
}

fn number_type_of(token: &[u8]) -> Option<ElementType>
    ensures { result ≡ texts.number_type_of token.now }
{
    match token {
        [first, digit] if *first == b'N' && digit.is_ascii_digit() => Some(ElementType::Number(
            *digit - b'0',
        )),
        _ => None,
    }
}

pub(crate) fn type_of(token: &[u8]) -> Option<ElementType>
    ensures { result ≡ texts.type_of token.now }
{
    if token == b"AN".as_slice() {
        Some(ElementType::Text)
    } else if token == b"ID".as_slice() {
        Some(ElementType::Identifier)
    } else if token == b"R".as_slice() {
        Some(ElementType::Decimal)
    } else if token == b"DT".as_slice() {
        Some(ElementType::Date)
    } else if token == b"TM".as_slice() {
        Some(ElementType::Time)
    } else {
        number_type_of(token)
    }
}

fn repeat_of(token: &[u8]) -> Option<u32>
    ensures { result ≡ texts.repeat_of token.now }
{
    match token.split_first() {
        Some((first, digits)) if *first == b'x' => count_of(digits),
        _ => None,
    }
}

/// How often an element may occur, and the tokens after that.
pub(crate) fn take_repeat<'a, 't>(tokens: &'t [Lent<'a>]) -> (u32, &'t [Lent<'a>])
    ensures number { result.0 ≡ (texts.take_repeat tokens.entry.now).0 }
    ensures rest { result.1.now ≡ (texts.take_repeat tokens.entry.now).1 }
{
    match tokens.split_first() {
        None => (1, tokens),
        Some((token, rest)) => match repeat_of(token.bytes()) {
            None => (1, tokens),
            Some(count) => (count, rest),
        },
    }
}

pub(crate) fn take_wide<'a, 't>(tokens: &'t [Lent<'a>]) -> (bool, &'t [Lent<'a>])
    ensures wide { result.0 ≡ (texts.take_wide tokens.entry.now).0 }
    ensures rest { result.1.now ≡ (texts.take_wide tokens.entry.now).1 }
{
    match tokens.split_first() {
        Some((token, rest)) if token.bytes() == b"wide".as_slice() => (true, rest),
        _ => (false, tokens),
    }
}

/// The codes of these tokens.
pub(crate) fn codes_in(alloc: Global, tokens: &[Lent]) -> Result<Codes, TextFault>
    ensures { Reads (λ x. x) result (Some tokens.now) }
{
    let texts = texts_of(alloc, tokens).map_err(|_| TextFault::NoMemory)?;
    Codes::new(alloc, texts).map_err(|_| TextFault::NoMemory)
}

/// The codes that are used, and after them those that aren't.
fn code_list(alloc: Global, tokens: &[Lent]) -> Result<CodeList, TextFault>
    ensures { Reads (λ x. x) result (texts.code_list tokens.now) }
{
    let (used, rest) = tokens.split_at(code_count(tokens));
    match rest.split_first() {
        None => Ok(CodeList {
            used: codes_in(alloc, used)?,
            unused: None,
        }),
        Some((mark, unused)) => {
            if mark.bytes() != b"!".as_slice() || !are_codes(unused) {
                return Err(TextFault::Malformed);
            }
            Ok(CodeList {
                used: codes_in(alloc, used)?,
                unused: Some(codes_in(alloc, unused)?),
            })
        }
    }
}

fn codes_of(alloc: Global, tokens: &[Lent]) -> Result<Option<CodeList>, TextFault>
    ensures { Reads (λ x. x) result (texts.codes_of tokens.now) }
{
    match tokens.split_first() {
        None => Ok(None),
        Some((mark, rest)) => {
            if mark.bytes() != b"=".as_slice() {
                return Err(TextFault::Malformed);
            }
            Ok(Some(code_list(alloc, rest)?))
        }
    }
}

fn type_at(token: &[u8]) -> Result<ElementType, TextFault>
    ensures { Reads (λ x. x) result (texts.type_of token.now) }
{
    match type_of(token) {
        None => Err(TextFault::Malformed),
        Some(data_type) => Ok(data_type),
    }
}

fn count_at(token: &[u8]) -> Result<u32, TextFault>
    ensures { Reads (λ x. x) result (count_of token.now) }
{
    match count_of(token) {
        None => Err(TextFault::Malformed),
        Some(count) => Ok(count),
    }
}

#[tactic(auto, unfolding(crate::specs::ElementTexts::measure_of))]
fn measure_of<'a, 't>(tokens: &'t [Lent<'a>]) -> Result<(Measure, &'t [Lent<'a>]), TextFault>
    ensures { Reads (λ x. (x.0, x.1.now)) result (texts.measure_of tokens.now) }
{
    let (token, rest) = next_token(tokens)?;
    let data_type = type_at(token)?;
    let (token, rest) = next_token(rest)?;
    let min = count_at(token)?;
    let (token, rest) = next_token(rest)?;
    let max = count_at(token)?;
    Ok((
        Measure {
            data_type,
            min,
            max,
        },
        rest,
    ))
}

fn row_of(
    alloc: Global,
    reference: Text,
    requirement: Requirement,
    measure: Measure,
    tokens: &[Lent],
) -> Result<SimpleRow, TextFault>
    ensures { Reads (λ x. x) result (texts.row_of_tokens reference requirement measure tokens.now) }
{
    let (wide, rest) = take_wide(tokens);
    let codes = codes_of(alloc, rest)?;
    Ok(SimpleRow {
        reference,
        requirement,
        data_type: measure.data_type,
        min: measure.min,
        max: measure.max,
        wide,
        codes,
    })
}

fn no_more(tokens: &[Lent]) -> Result<(), TextFault>
    ensures { Reads (λ x. x) result (texts.no_more tt tokens.now) }
{
    if tokens.is_empty() {
        Ok(())
    } else {
        Err(TextFault::Malformed)
    }
}

#[tactic(auto, unfolding(crate::specs::ElementTexts::used_component))]
fn used_component(
    alloc: Global,
    reference: Text,
    word: &[u8],
    tokens: &[Lent],
) -> Result<Component, TextFault>
    ensures { Reads (λ x. x) result (texts.used_component reference word.now tokens.now) }
{
    let requirement = requirement_of(word)?;
    let (measure, rest) = measure_of(tokens)?;
    let row = row_of(alloc, reference, requirement, measure, rest)?;
    Ok(Component::Simple(row))
}

/// The component that the tokens between two semicolons write.
#[tactic(auto, unfolding(crate::specs::ElementTexts::component_of))]
fn component_of(alloc: Global, tokens: &[Lent]) -> Result<Component, TextFault>
    ensures { Reads (λ x. x) result (texts.component_of tokens.now) }
{
    let (token, rest) = next_token(tokens)?;
    let reference = reference_of(alloc, token)?;
    let (word, rest) = next_token(rest)?;
    if word != b"N".as_slice() {
        return used_component(alloc, reference, word, rest);
    }
    no_more(rest)?;
    Ok(Component::NotUsed(reference))
}

/// The components that tokens write between semicolons.
fn components_of(alloc: Global, tokens: &[Lent]) -> Result<Items<Component>, TextFault>
    ensures { Reads (λ x. x) result (texts.components_of_tokens (token_groups tokens.now)) }
{
    let mut components = Vec::new(alloc);
    let mut from = 0;
    loop {
        let (_, rest) = tokens.split_at(from);
        let end = first_semicolon(rest);
        let (group, _) = rest.split_at(end);
        match component_of(alloc, group) {
            Ok(component) => components.push(component)?,
            Err(fault) => return Err(fault),
        }
        if end == rest.len() {
            return Ok(Items::from_vec(components));
        }
        from += end + 1;
    }
}

fn components_behind(alloc: Global, behind: Option<&[Lent]>) -> Result<Items<Component>, TextFault>
    ensures { Reads (λ x. x) result (texts.components_behind (option_map (λ t. t.now) behind.entry)) }
{
    match behind {
        None => Ok(Items::from_vec(Vec::new(alloc))),
        Some(tokens) => components_of(alloc, tokens),
    }
}

#[tactic(auto, unfolding(crate::specs::ElementTexts::simple_of))]
fn simple_of(
    alloc: Global,
    reference: Text,
    requirement: Requirement,
    tokens: &[Lent],
) -> Result<Element, TextFault>
    ensures { Reads (λ x. x) result (texts.simple_of reference requirement tokens.now) }
{
    let (measure, rest) = measure_of(tokens)?;
    let (repeat, rest) = take_repeat(rest);
    let row = row_of(alloc, reference, requirement, measure, rest)?;
    Ok(Element::Simple(row, repeat))
}

#[tactic(auto, unfolding(crate::specs::ElementTexts::composite_of))]
fn composite_of(
    alloc: Global,
    reference: Text,
    requirement: Requirement,
    tokens: &[Lent],
    behind: Option<&[Lent]>,
) -> Result<Element, TextFault>
    ensures { Reads (λ x. x) result (texts.composite_of reference requirement tokens.now (option_map (λ t. t.now) behind.entry)) }
{
    let (repeat, rest) = take_repeat(tokens);
    no_more(rest)?;
    let components = components_behind(alloc, behind)?;
    Ok(Element::Composite(CompositeRow {
        reference,
        requirement,
        repeat,
        components,
    }))
}

#[tactic(auto, unfolding(crate::specs::ElementTexts::used_element))]
fn used_element(
    alloc: Global,
    reference: Text,
    word: &[u8],
    tokens: &[Lent],
    behind: Option<&[Lent]>,
) -> Result<Element, TextFault>
    ensures { Reads (λ x. x) result (texts.used_element reference word.now tokens.now (option_map (λ t. t.now) behind.entry)) }
{
    let requirement = requirement_of(word)?;
    let (kind, rest) = next_token(tokens)?;
    if kind == b"C".as_slice() {
        return composite_of(alloc, reference, requirement, rest, behind);
    }
    if behind.is_some() {
        return Err(TextFault::Malformed);
    }
    simple_of(alloc, reference, requirement, tokens)
}

#[tactic(auto, unfolding(crate::specs::ElementTexts::element_in))]
fn element_in(alloc: Global, head: &[Lent], behind: Option<&[Lent]>) -> Result<Element, TextFault>
    ensures { Reads (λ x. x) result (texts.element_in head.now (option_map (λ t. t.now) behind.entry)) }
{
    let (token, rest) = next_token(head)?;
    let reference = reference_of(alloc, token)?;
    let (word, rest) = next_token(rest)?;
    if word != b"N".as_slice() {
        return used_element(alloc, reference, word, rest, behind);
    }
    if behind.is_some() {
        return Err(TextFault::Malformed);
    }
    no_more(rest)?;
    Ok(Element::NotUsed(reference))
}

/// The row that tokens write.
fn element_of_tokens(alloc: Global, tokens: &[Lent]) -> Result<Element, TextFault>
    ensures { Reads (λ x. x) result (texts.element_of_tokens tokens.now) }
{
    let end = first_semicolon(tokens);
    let (head, tail) = tokens.split_at(end);
    match tail.split_first() {
        None => element_in(alloc, head, None),
        Some((_, behind)) => element_in(alloc, head, Some(behind)),
    }
}

/// The parts of a text between single spaces.
pub(crate) fn tokens_in(alloc: Global, text: &[u8]) -> Result<Vec<Lent<'_>>, TextFault>
    ensures { Reads (λ v. v.items) result (Some (tokens_of text.now)) }
{
    tokens_of(alloc, text).map_err(|_| TextFault::NoMemory)
}

/// The row that a text writes.
pub(crate) fn element_of(alloc: Global, text: &[u8]) -> Result<Element, TextFault>
    ensures { Reads (λ x. x) result (texts.element_of_text text.now) }
{
    let tokens = tokens_in(alloc, text)?;
    element_of_tokens(alloc, &tokens)
}
