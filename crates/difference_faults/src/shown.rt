ghost use Rattle.std.specs.Prelude.{◌≡◌, ◌==◌};
ghost use Rattle.std.specs.List.{list_any};
ghost use Rattle.difference_faults.specs.Shows as shows;

use crate::codes::{is_element_code, is_of_level, is_of_relation, is_of_stray, is_segment_code};
use crate::part::Part;
use guide_tree::{Condition, Dependency, DependencyKind, HlPair};
use guide_widening::{At, Difference, Key, Value};
use hub_kinds::{ElemFault, ElementCode, Fault, SegmentCode};

/// Whether an element is the one that differs; of the hierarchy, which has no node, any is.
fn is_element_at(at: At, slot: u32, elem: &ElemFault) -> bool
    ensures { result ≡ shows.is_element_at at slot elem.now }
{
    at.node == 0
        || (at.node == slot
            && at.element == u64::from(elem.element)
            && at.component == u64::from(elem.component))
}

/// Whether a text is the code that is gone, if one is.
fn is_gone_code(key: Key, old: &Value, text: &[u8]) -> bool
    ensures { result ≡ shows.is_gone_code key old.now text.now }
{
    match (key, old) {
        (Key::Code, Value::Text(code)) => code.as_slice() == text,
        _ => true,
    }
}

fn shows_element(difference: &Difference, slot: u32, elem: &ElemFault) -> bool
    ensures { result ≡ shows.shows_element difference.now slot elem.now }
{
    is_element_code(difference.key, elem.code)
        && is_element_at(difference.at, slot, elem)
        && is_gone_code(difference.key, &difference.old, elem.copy.bytes())
}

/// Whether a difference makes segments stray.
fn is_straying(key: Key, new: &Value) -> bool
    ensures { result ≡ shows.is_straying key new.now }
{
    match (key, new) {
        (Key::Node, Value::Nothing) => true,
        (Key::Pick, _) => true,
        _ => false,
    }
}

fn shows_segment(id: &[u8], difference: &Difference, fault: &Fault) -> bool
    ensures { result ≡ shows.shows_segment id.now difference.now fault.now }
{
    if is_straying(difference.key, &difference.new) {
        is_of_stray(fault.code) && fault.slot == 0 && fault.id.bytes() == id
    } else {
        is_segment_code(difference.key, fault.code) && difference.at.node == fault.slot
    }
}

/// Whether a dependency of a kind reports this of a slot.
fn is_target_code(kind: DependencyKind, code: SegmentCode) -> bool
    ensures { result ≡ shows.is_target_code kind code }
{
    match kind {
        DependencyKind::Need => matches!(code, SegmentCode::DependentMissing),
        DependencyKind::Ban => matches!(code, SegmentCode::DependentNotUsedPresent),
    }
}

/// Whether a dependency of a kind reports this of an element.
fn is_target_element(kind: DependencyKind, code: ElementCode) -> bool
    ensures { result ≡ shows.is_target_element kind code }
{
    match kind {
        DependencyKind::Need => matches!(code, ElementCode::DependentMissing),
        DependencyKind::Ban => matches!(code, ElementCode::DependentNotUsedPresent),
    }
}

fn shows_target(dependency: &Dependency, slot: u32, fault: &Fault) -> bool
    ensures { result ≡ shows.shows_target dependency.now slot fault.now }
{
    slot == fault.slot
        && match &fault.elem {
            None => dependency.element == 0 && is_target_code(dependency.kind, fault.code),
            Some(elem) => {
                dependency.element == elem.element && is_target_element(dependency.kind, elem.code)
            }
        }
}

/// Whether a position is one of some.
fn is_among(positions: &[u32], position: u32) -> bool
    ensures { result ≡ list_any (λ p. p == position) positions.now }
{
    positions.iter().any(|other| *other == position)
}

fn shows_condition(condition: &Condition, node: u32, fault: &Fault) -> bool
    ensures { result ≡ shows.shows_condition condition.now node fault.now }
{
    node == fault.slot
        && match &fault.elem {
            None => false,
            Some(elem) => {
                is_of_relation(condition.relation, elem.code)
                    && is_among(condition.positions.as_slice(), elem.element)
            }
        }
}

fn shows_levels(pair: &HlPair, fault: &Fault) -> bool
    ensures { result ≡ shows.shows_levels pair.now fault.now }
{
    match &fault.elem {
        None => false,
        Some(elem) => {
            is_of_level(elem.code)
                && elem.element == 3
                && elem.copy.bytes() == pair.child.as_slice()
        }
    }
}

fn shows_by_id(id: &[u8], difference: &Difference, fault: &Fault) -> bool
    ensures { result ≡ shows.shows_by_id id.now difference.now fault.now }
{
    match &fault.elem {
        None => shows_segment(id, difference, fault),
        Some(elem) => shows_element(difference, fault.slot, elem),
    }
}

/// Whether a `fault` is one that a `difference` of two guides makes, and is where they differ; the difference is of `part`.
pub fn shows(part: &Part<'_>, difference: &Difference, fault: &Fault) -> bool
    ensures { result ≡ shows.shows part.now difference.now fault.now }
{
    match part {
        Part::Segment(id) => shows_by_id(id, difference, fault),
        Part::Target(dependency, slot) => shows_target(dependency, *slot, fault),
        Part::Condition(condition) => shows_condition(condition, difference.at.node, fault),
        Part::Levels(pair) => shows_levels(pair, fault),
    }
}
