ghost use Rattle.std.specs.Prelude.{◌≡◌, Ok, Err, IfOk, [], codes, is_none, is_some, map};
ghost use Rattle.guide_toml.specs.ElementTexts as texts;
ghost use Rattle.guide_toml.specs.ElementStops as stops;
ghost use Rattle.guide_toml.specs.Tokens.{token_groups};

use crate::counts::count_of;
use crate::element_text::{take_repeat, take_wide, type_of};
use crate::tokens::{code_count, first_semicolon, is_code, tokens_of};
use hub_kinds::{Lent, NoMemory, read_number};
use std::alloc::Global;

/// What has to appear where a text stops to be that of a data element's row.
#[derive(Clone, Copy, Debug, PartialEq, Eq)]
pub enum Wanted {
    /// A reference number of 1 to 4 digits, or `-`.
    Reference,
    /// `M`, `O` or `N`.
    Requirement,
    /// A data element's type, or `C` for a composite.
    ElementType,
    /// The type of a component.
    ComponentType,
    /// The shortest length, a number.
    Shortest,
    /// The longest length, a number.
    Longest,
    /// `xN`, `wide`, and `=` with codes, in this order; or nothing more.
    Options,
    /// A code, or `!`.
    Code,
    /// A code, after `!`.
    UnusedCode,
    /// `xN`, or a semicolon and components.
    Components,
    /// Nothing more.
    End,
}

/// Where the text of a row stops: the first token that can't be there, and what has to.
#[derive(Debug, Drop)]
pub struct ElementStop<'a> {
    /// The component, from 1 on; 0 before the first semicolon and at it.
    pub component: usize,
    /// The token; none where the row, or the component, ends.
    pub token: Option<Lent<'a>>,
    pub wanted: Wanted,
}

/// Where a text stops within the tokens between two semicolons.
#[derive(Debug, Drop)]
struct Halt<'a> {
    token: Option<Lent<'a>>,
    wanted: Wanted,
}

impl<'a> Halt<'a> {
    ghost use Rattle.std.specs.Prelude.{◌≡◌};
    ghost use Rattle.guide_toml.specs.ElementStops.{halt};

    /// At the first of these tokens, or after the last that there was.
    fn at(tokens: &[Lent<'a>], wanted: Wanted) -> Halt<'a>
        ensures { result ≡ halt tokens.now wanted }
    {
        match tokens.split_first() {
            None => Halt {
                token: None,
                wanted,
            },
            Some((token, _)) => Halt {
                token: Some(Lent::new(token.bytes())),
                wanted,
            },
        }
    }
}

fn is_reference(token: &[u8]) -> bool
    ensures { result ≡ is_some (texts.reference_of token.now) }
{
    token == b"-".as_slice() || read_number(token, 4).is_some()
}

fn is_requirement(token: &[u8]) -> bool
    ensures { result ≡ stops.is_wanted Wanted.Requirement token.now }
{
    token == b"N".as_slice() || token == b"M".as_slice() || token == b"O".as_slice()
}

/// Whether a token may be where something is wanted.
fn is_wanted(wanted: Wanted, token: &[u8]) -> bool
    ensures { result ≡ stops.is_wanted wanted token.now }
{
    match wanted {
        Wanted::Reference => is_reference(token),
        Wanted::Requirement => is_requirement(token),
        Wanted::ElementType | Wanted::ComponentType => type_of(token).is_some(),
        Wanted::Shortest | Wanted::Longest => count_of(token).is_some(),
        Wanted::Options => token == b"=".as_slice(),
        Wanted::Code => token == b"!".as_slice(),
        Wanted::UnusedCode => is_code(token),
        Wanted::Components => token == b";".as_slice(),
        Wanted::End => false,
    }
}

/// Whether the first of these tokens is a word.
fn is_first(word: &[u8], tokens: &[Lent]) -> bool
    ensures { result ≡ stops.is_token word.now tokens.now }
{
    match tokens.split_first() {
        None => false,
        Some((token, _)) => token.bytes() == word,
    }
}

/// The tokens after one that must be there.
fn expected<'a, 't>(wanted: Wanted, tokens: &'t [Lent<'a>]) -> Result<&'t [Lent<'a>], Halt<'a>>
    ensures { stops.Gives (λ rest. rest.now) result (stops.expected wanted tokens.entry.now) }
{
    match tokens.split_first() {
        Some((token, rest)) if is_wanted(wanted, token.bytes()) => Ok(rest),
        _ => Err(Halt::at(tokens, wanted)),
    }
}

/// No tokens, where nothing more is.
fn at_end<'a, 't>(wanted: Wanted, tokens: &'t [Lent<'a>]) -> Result<&'t [Lent<'a>], Halt<'a>>
    ensures { stops.Gives (λ rest. rest.now) result (stops.at_end wanted tokens.entry.now) }
{
    if tokens.is_empty() {
        Ok(tokens)
    } else {
        Err(Halt::at(tokens, wanted))
    }
}

fn behind_codes<'a, 't>(tokens: &'t [Lent<'a>]) -> &'t [Lent<'a>]
    ensures { result.now ≡ stops.behind_codes tokens.entry.now }
{
    let (_, rest) = tokens.split_at(code_count(tokens));
    rest
}

fn unused_read<'a, 't>(tokens: &'t [Lent<'a>]) -> Result<&'t [Lent<'a>], Halt<'a>>
    ensures { stops.Gives (λ rest. rest.now) result (stops.unused_read tokens.entry.now) }
{
    if tokens.is_empty() {
        return Ok(tokens);
    }
    let rest = expected(Wanted::Code, tokens)?;
    at_end(Wanted::UnusedCode, behind_codes(rest))
}

fn codes_read<'a, 't>(tokens: &'t [Lent<'a>]) -> Result<&'t [Lent<'a>], Halt<'a>>
    ensures { stops.Gives (λ rest. rest.now) result (stops.codes_read tokens.entry.now) }
{
    if tokens.is_empty() {
        return Ok(tokens);
    }
    let rest = expected(Wanted::Options, tokens)?;
    unused_read(behind_codes(rest))
}

fn row_read<'a, 't>(tokens: &'t [Lent<'a>]) -> Result<&'t [Lent<'a>], Halt<'a>>
    ensures { stops.Gives (λ rest. rest.now) result (stops.row_read tokens.entry.now) }
{
    let (_, rest) = take_wide(tokens);
    codes_read(rest)
}

/// What is after the type, the shortest and the longest.
fn measure_read<'a, 't>(kind: Wanted, tokens: &'t [Lent<'a>]) -> Result<&'t [Lent<'a>], Halt<'a>>
    ensures { stops.Gives (λ rest. rest.now) result (stops.measure_read kind tokens.entry.now) }
{
    let rest = expected(kind, tokens)?;
    let rest = expected(Wanted::Shortest, rest)?;
    expected(Wanted::Longest, rest)
}

fn component_read<'a, 't>(tokens: &'t [Lent<'a>]) -> Result<&'t [Lent<'a>], Halt<'a>>
    ensures { stops.Gives (λ rest. rest.now) result (stops.component_read tokens.entry.now) }
{
    let word = expected(Wanted::Reference, tokens)?;
    let rest = expected(Wanted::Requirement, word)?;
    if is_first(b"N", word) {
        return at_end(Wanted::End, rest);
    }
    let rest = measure_read(Wanted::ComponentType, rest)?;
    row_read(rest)
}

/// What is after an element's type, and whether components may be there.
fn behind_type<'a>(tokens: &[Lent<'a>]) -> Result<bool, Halt<'a>>
    ensures { result ≡ stops.behind_type (stops.is_token (codes "C") tokens.now) tokens.now }
{
    if is_first(b"C", tokens) {
        let (_, rest) = tokens.split_at(1);
        let (_, rest) = take_repeat(rest);
        at_end(Wanted::Components, rest)?;
        return Ok(true);
    }
    let rest = measure_read(Wanted::ElementType, tokens)?;
    let (_, rest) = take_repeat(rest);
    row_read(rest)?;
    Ok(false)
}

/// Reads what is before the first semicolon: whether components may be after it.
fn head_read<'a>(tokens: &[Lent<'a>]) -> Result<bool, Halt<'a>>
    ensures { result ≡ stops.head_read tokens.now }
{
    let word = expected(Wanted::Reference, tokens)?;
    let rest = expected(Wanted::Requirement, word)?;
    if is_first(b"N", word) {
        at_end(Wanted::End, rest)?;
        return Ok(false);
    }
    behind_type(rest)
}

fn stop_in<'a>(component: usize, halt: Halt<'a>) -> Option<ElementStop<'a>>
    ensures { result ≡ stops.stop_in component halt.entry }
{
    Some(ElementStop {
        component,
        token: halt.token,
        wanted: halt.wanted,
    })
}

/// The first component that stops, of those that tokens write between semicolons.
fn components_stop<'a>(tokens: &[Lent<'a>]) -> Option<ElementStop<'a>>
    ensures { result ≡ stops.components_stop 1 (token_groups tokens.now) }
{
    let mut component = 1usize;
    let mut from = 0;
    loop {
        let (_, rest) = tokens.split_at(from);
        let end = first_semicolon(rest);
        let (group, _) = rest.split_at(end);
        match component_read(group) {
            Err(halt) => return stop_in(component, halt),
            Ok(_) => {}
        }
        if end == rest.len() {
            return None;
        }
        component += 1;
        from += end + 1;
    }
}

fn behind_stop<'a>(is_composite: bool, behind: &[Lent<'a>]) -> Option<ElementStop<'a>>
    ensures { result ≡ stops.behind_stop is_composite behind.now }
{
    match behind.split_first() {
        None => None,
        Some((_, components)) => {
            if is_composite {
                components_stop(components)
            } else {
                stop_in(0, Halt::at(behind, Wanted::End))
            }
        }
    }
}

fn stop_of_tokens<'a>(tokens: &[Lent<'a>]) -> Option<ElementStop<'a>>
    ensures { result ≡ stops.stop_of_tokens tokens.now }
{
    let end = first_semicolon(tokens);
    let (head, behind) = tokens.split_at(end);
    match head_read(head) {
        Err(halt) => stop_in(0, halt),
        Ok(is_composite) => behind_stop(is_composite, behind),
    }
}

/// Where a text stops to be that of a data element's row: the first of its words that can't be there, and what has to; none where
/// it writes a row. The only error is out of memory.
#[tactic(auto, using(crate::proofs::ElementStops::stops_exactly))]
pub fn element_stop(alloc: Global, text: &[u8]) -> Result<Option<ElementStop<'_>>, NoMemory>
    ensures stop { IfOk result (λ stop. stop ≡ stops.element_stop text.now) }
    ensures read { IfOk result (λ stop. is_none stop ≡ is_some (texts.element_of_text text.now)) }
{
    let tokens = tokens_of(alloc, text)?;
    Ok(stop_of_tokens(&tokens))
}
