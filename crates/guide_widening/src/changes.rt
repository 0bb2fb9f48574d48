ghost use Rattle.std.specs.Prelude.{◌≡◌};
ghost use Rattle.guide_widening.specs.Changes as changes;
ghost use Rattle.guide_widening.specs.Nodes.{is_same_text};
ghost use Rattle.guide_widening.specs.RowDifferences as rows;
ghost use Rattle.guide_widening.specs.Rows as rules;

use crate::difference::Change;
use guide_tree::{ElementType, Requirement};
use hub_kinds::Text;

/// A `change`, unless a test holds.
pub(crate) fn unless(holds: bool, change: Change) -> Option<Change>
    ensures { result ≡ changes.unless holds change }
{
    if holds { None } else { Some(change) }
}

/// How a least value differs from `old` to `new`.
pub(crate) fn least_change(old: u32, new: u32) -> Option<Change>
    ensures { result ≡ changes.least_change old new }
{
    if old == new {
        None
    } else if new <= old {
        Some(Change::Wider)
    } else {
        Some(Change::Narrower)
    }
}

/// How a greatest value differs from `old` to `new`.
pub(crate) fn most_change(old: u32, new: u32) -> Option<Change>
    ensures { result ≡ changes.most_change old new }
{
    if old == new {
        None
    } else if old <= new {
        Some(Change::Wider)
    } else {
        Some(Change::Narrower)
    }
}

/// How it differs whether something is asked for.
pub(crate) fn asked_change(old: bool, new: bool) -> Option<Change>
    ensures { result ≡ changes.asked_change old new }
{
    match (old, new) {
        (false, true) => Some(Change::Narrower),
        (true, false) => Some(Change::Wider),
        (false, false) | (true, true) => None,
    }
}

/// How a requirement differs from `old` to `new`.
pub(crate) fn requirement_change(old: Requirement, new: Requirement) -> Option<Change>
    ensures { result ≡ changes.requirement_change old new }
{
    match (old, new) {
        (Requirement::Mandatory, Requirement::Optional) => Some(Change::Wider),
        (Requirement::Optional, Requirement::Mandatory) => Some(Change::Narrower),
        (Requirement::Mandatory, Requirement::Mandatory)
        | (Requirement::Optional, Requirement::Optional) => None,
    }
}

fn is_text_type(data_type: ElementType) -> bool
    ensures { result ≡ rules.is_text_type data_type }
{
    match data_type {
        ElementType::Text | ElementType::Identifier => true,
        ElementType::Number(_) | ElementType::Decimal | ElementType::Date | ElementType::Time =>
            false,
    }
}

fn is_wider_type(old: ElementType, new: ElementType) -> bool
    ensures { result ≡ rules.is_wider_type old new }
{
    match (old, new) {
        (ElementType::Text, _) | (ElementType::Identifier, _) => is_text_type(new),
        (ElementType::Number(places), ElementType::Number(others)) => places == others,
        (ElementType::Decimal, ElementType::Decimal)
        | (ElementType::Date, ElementType::Date)
        | (ElementType::Time, ElementType::Time) => true,
        _ => false,
    }
}

/// How a type differs from `old` to `new`.
pub(crate) fn type_change(old: ElementType, new: ElementType) -> Option<Change>
    ensures { result ≡ changes.type_change old new }
{
    match (old, new) {
        (ElementType::Text, ElementType::Identifier)
        | (ElementType::Identifier, ElementType::Text) => Some(Change::Wider),
        _ => unless(is_wider_type(old, new), Change::Other),
    }
}

/// How a text differs from `old` to `new`.
pub(crate) fn text_change(old: &[u8], new: &[u8]) -> Option<Change>
    ensures { result ≡ changes.text_change old.now new.now }
{
    unless(old == new, Change::Other)
}

/// Whether two texts are the same, or neither is there.
pub(crate) fn is_same_text(one: &Option<Text>, other: &Option<Text>) -> bool
    ensures { result ≡ is_same_text one.now other.now }
{
    match (one, other) {
        (None, None) => true,
        (Some(one), Some(other)) => one.as_slice() == other.as_slice(),
        (None, Some(_)) | (Some(_), None) => false,
    }
}

/// How a label differs from `old` to `new`.
pub(crate) fn label_change(old: &Option<Text>, new: &Option<Text>) -> Option<Change>
    ensures { result ≡ changes.label_change old.now new.now }
{
    unless(is_same_text(old, new), Change::Other)
}

/// How a convention differs from `old` to `new`.
pub(crate) fn convention_change(old: &Option<Text>, new: &Option<Text>) -> Option<Change>
    ensures { result ≡ changes.convention_change old.now new.now }
{
    match (old, new) {
        (None, None) => None,
        (None, Some(_)) => Some(Change::Narrower),
        (Some(_), None) => Some(Change::Wider),
        (Some(old), Some(new)) => unless(old.as_slice() == new.as_slice(), Change::Narrower),
    }
}

/// How the presence of a row differs that is new, or is used and wasn't.
pub(crate) fn used_change(may_be_empty: bool) -> Option<Change>
    ensures { result ≡ rows.used_change may_be_empty }
{
    if may_be_empty {
        Some(Change::Wider)
    } else {
        Some(Change::Narrower)
    }
}
