ghost use Rattle.std.specs.Prelude.{◌≡◌, ◌≤◌, ◌<◌, ℕ, IsTrue, IfSome, Some, is_none, length, drop, false, []};
ghost use Rattle.std.specs.Bool.{OnTrue};
ghost use Rattle.std.specs.List.{list_any, list_all, filter};
ghost use Rattle.guide_tree.specs.declared.element.Element.{Element as Row};
ghost use Rattle.guide_tree.specs.Words.{is_slot_bounded, is_condition_of, element_at};
ghost use Rattle.hub_kinds.specs.declared.fault.ElemFault.{ElemFault};
ghost use Rattle.x12_segs.specs.Words.{elements_of};
ghost use Rattle.elem_rules.specs.Divided.{is_inner_separator};
ghost use Rattle.elem_rules.specs.Rows.{nth};
ghost use Rattle.elem_rules.specs.ElementFaults.{IsElementFault};
ghost use Rattle.elem_rules.specs.Values.{value_fault};
ghost use Rattle.elem_rules.specs.Clean.{is_optional, fits_empty, fits_value, fits, holds, has_plain_form, has_used_code};
ghost use Rattle.elem_rules.specs.Clean.{is_plain_value, is_set, is_odd, is_odd_by, is_strange, marked, bits_to, has_bytes};

use crate::divided::next_part;
use crate::form::{is_character, is_whole};
use crate::presence::{has_present, have_all, marked, present_in};
use crate::value::value_fault_by;
use guide_tree::{
    CodeList, Condition, Element, ElementType, Relation, Requirement, SimpleRow, Slot,
};
use memchr::{memchr, memchr2};
use moment::{is_date, is_time};
use x12_bytes::Delims;
use x12_segs::SegView;

#[inline(always)]
fn is_optional(requirement: Requirement) -> bool
    ensures { result ≡ is_optional requirement }
{
    match requirement {
        Requirement::Mandatory => false,
        Requirement::Optional => true,
    }
}

#[inline(always)]
pub(crate) fn fits_empty(row: &Element) -> bool
    ensures { result ≡ fits_empty row.now }
{
    match row {
        Element::NotUsed(_) => true,
        Element::Simple(row, _) => is_optional(row.requirement),
        Element::Composite(row) => is_optional(row.requirement),
    }
}

/// Whether a value of characters from space to tilde surely has the form of its type. A number with a sign or a point may be
/// answered with `false`.
#[inline(always)]
fn has_plain_form(data_type: ElementType, text: &[u8]) -> bool
    ensures { result ≡ has_plain_form data_type text.now }
{
    match data_type {
        ElementType::Text | ElementType::Identifier => true,
        ElementType::Number(_) | ElementType::Decimal => is_whole(text),
        ElementType::Date => is_date(text),
        ElementType::Time => is_time(text),
    }
}

/// Whether a value is one of the used codes of its row, where it has codes.
#[inline(always)]
fn has_used_code(codes: &Option<CodeList>, text: &[u8]) -> bool
    ensures { result ≡ has_used_code codes.now text.now }
{
    match codes {
        None => true,
        Some(listed) => listed.used.contains(text),
    }
}

/// Whether a value of such a form has a length that its row allows, and is one of its codes.
#[inline(always)]
fn is_plain_value(row: &SimpleRow, text: &[u8]) -> bool
    ensures { result ≡ is_plain_value row.now text.now }
{
    row.min as usize <= text.len()
        && text.len() <= row.max as usize
        && has_used_code(&row.codes, text)
        && has_plain_form(row.data_type, text)
}

#[inline(always)]
fn is_good(row: &SimpleRow, text: &[u8], narrow: bool) -> bool
    requires { OnTrue narrow (list_any is_strange text.now ≡ false) }
    ensures { result ≡ is_none (value_fault row.now text.now) }
{
    if !narrow {
        return value_fault_by(row, text, false).is_none();
    }
    if is_plain_value(row, text) {
        return true;
    }
    value_fault_by(row, text, narrow).is_none()
}

#[inline(always)]
fn fits_value(row: &Element, text: &[u8], narrow: bool) -> bool
    requires { OnTrue narrow (list_any is_strange text.now ≡ false) }
    ensures { result ≡ fits_value row.now text.now }
{
    match row {
        Element::Simple(row, _) => is_good(row, text, narrow),
        _ => false,
    }
}

/// Whether an element without inner separators fits its row.
#[inline(always)]
pub(crate) fn fits(row: &Element, text: &[u8], narrow: bool) -> bool
    requires { OnTrue narrow (list_any is_strange text.now ≡ false) }
    ensures { result ≡ fits row.now text.now }
{
    match text {
        [] => fits_empty(row),
        _ => fits_value(row, text, narrow),
    }
}

/// Whether a text has surely no component and no repetition separator.
fn is_plain(delims: Delims, text: &[u8]) -> bool
    ensures { OnTrue result (list_any (is_inner_separator delims) text.now ≡ false) }
{
    match delims.repetition {
        None => memchr(delims.component, text).is_none(),
        Some(separator) => memchr2(delims.component, separator, text).is_none(),
    }
}

fn is_odd(component: u8, separator: u8, byte: u8) -> bool
    ensures { result ≡ is_odd_by component separator byte }
{
    byte == component || byte == separator || !is_character(byte, false)
}

/// Whether a text has one of two separators, or a byte that isn't a character from space to tilde. No byte ends the walk, so that
/// many are looked at together.
fn has_odd_by(component: u8, separator: u8, text: &[u8]) -> bool
    ensures { result ≡ list_any (is_odd_by component separator) text.now }
{
    let mut found = false;
    for i in 0..text.len() {
        found |= is_odd(component, separator, text[i]);
    }
    found
}

/// Whether a text has the component or the repetition separator.
fn has_odd(delims: Delims, text: &[u8]) -> bool
    ensures { result ≡ list_any (is_odd delims) text.now }
{
    match delims.repetition {
        None => has_odd_by(delims.component, delims.component, text),
        Some(separator) => has_odd_by(delims.component, separator, text),
    }
}

/// What a look at a segment's bytes shows: nothing where it may have component or repetition separators, else whether all
/// are surely characters from space to tilde.
fn look(delims: Delims, text: &[u8]) -> Option<bool>
    ensures plain { IfSome result (λ _. list_any (is_inner_separator delims) text.now ≡ false) }
    ensures narrow { IfSome result (λ narrow. OnTrue narrow (list_any is_strange text.now ≡ false)) }
{
    if !has_odd(delims, text) {
        return Some(true);
    }
    if is_plain(delims, text) {
        return Some(false);
    }
    None
}

/// Bit k for each element k that isn't empty, where each element fits its row; `None` where one doesn't, or there are more
/// elements than rows.
fn present_if_fit(seg: &SegView, rows: &[Element], narrow: bool) -> Option<u64>
    requires few { length rows.now ≤ 40 }
    requires narrow { OnTrue narrow (list_any is_strange seg.now.bytes ≡ false) }
    ensures bits { IfSome result (λ bits. bits ≡ bits_to (λ k. has_bytes (element_at (elements_of seg.now) k)) (length rows.now)) }
    ensures fit { IfSome result
        (λ _. (k : ℕ) (row : Row) → nth rows.now k ≡ Some row → IsTrue (fits row (element_at (elements_of seg.now) k))) }
    ensures no_more { IfSome result (λ _. drop (length rows.now) (drop 1 (elements_of seg.now)) ≡ []) }
{
    let mut parts = seg.elements();
    let mut present = 0;
    for k in 0..rows.len() {
        let text = next_part(&mut parts);
        if !fits(&rows[k], text, narrow) {
            return None;
        }
        present = marked(present, k as u32 + 1, !text.is_empty());
    }
    match parts.next() {
        None => Some(present),
        Some(_) => None,
    }
}

/// Whether a relational condition holds, by the bits of the elements that are present.
fn holds(bits: u64, condition: &Condition) -> bool
    ensures { result ≡ holds (is_set bits) condition.now.relation condition.now.positions }
{
    let positions = condition.positions.as_slice();
    let (head, others) = positions.split_at(positions.len().min(1));
    match condition.relation {
        Relation::Paired => !has_present(bits, positions) || have_all(bits, positions),
        Relation::Required => has_present(bits, positions),
        Relation::Exclusion => present_in(bits, positions) <= 1,
        Relation::Conditional => !has_present(bits, head) || have_all(bits, others),
        Relation::ListConditional => !has_present(bits, head) || has_present(bits, others),
    }
}

fn hold_all(bits: u64, conditions: &[Condition]) -> bool
    ensures { result ≡ list_all (λ c. holds (is_set bits) c.relation c.positions) conditions.now }
{
    conditions.iter().all(|condition| holds(bits, condition))
}

/// Whether a segment without component and repetition separators fits its slot.
fn fits_slot(seg: &SegView, slot: &Slot, narrow: bool) -> bool
    requires bounded { IsTrue (is_slot_bounded slot.now) }
    requires conditions { IsTrue (list_all (is_condition_of slot.now) slot.now.conditions) }
    requires plain { list_any (is_inner_separator seg.now.delims) seg.now.bytes ≡ false }
    requires narrow { OnTrue narrow (list_any is_strange seg.now.bytes ≡ false) }
    ensures { OnTrue result ((f : ElemFault) → IsElementFault seg.now.delims (elements_of seg.now) slot.now f → ⊥) }
{
    match present_if_fit(seg, slot.elements.as_slice(), narrow) {
        None => false,
        Some(present) => hold_all(present, slot.conditions.as_slice()),
    }
}

/// A quick look at a segment, without memory: `true` only where no element has a fault. A clean segment with component or
/// repetition separators may be answered with `false`.
pub(crate) fn is_clean(seg: &SegView, slot: &Slot) -> bool
    requires bounded { IsTrue (is_slot_bounded slot.now) }
    requires conditions { IsTrue (list_all (is_condition_of slot.now) slot.now.conditions) }
    ensures { OnTrue result ((f : ElemFault) → IsElementFault seg.now.delims (elements_of seg.now) slot.now f → ⊥) }
{
    match look(seg.delims(), seg.bytes()) {
        None => false,
        Some(narrow) => fits_slot(seg, slot, narrow),
    }
}
