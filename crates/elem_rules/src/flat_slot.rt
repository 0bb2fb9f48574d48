ghost use Rattle.std.specs.Prelude.{◌≡◌, ◌≤◌, ◌<◌, ◌++◌, ℕ, List, All, IsTrue, IfOk, IfSome, Some, length, false};
ghost use Rattle.std.specs.Bool.{OnTrue};
ghost use Rattle.std.specs.List.{list_any, list_all};
ghost use Rattle.memchr.specs.Find.{is_byte, places};
ghost use Rattle.guide_tree.specs.declared.element.Element.{Element as Row};
ghost use Rattle.guide_tree.specs.Words.{IsSound, is_slot_bounded, is_condition_of, is_distinct, element_at};
ghost use Rattle.hub_kinds.specs.declared.fault.ElemFault.{ElemFault};
ghost use Rattle.x12_segs.specs.Words.{elements_of};
ghost use Rattle.elem_rules.specs.Rows.{nth};
ghost use Rattle.elem_rules.specs.ElementFaults.{IsElementFault};
ghost use Rattle.elem_rules.specs.Clean.{fits, fits_empty, is_odd, is_set, is_strange, bits_to, has_bytes};
ghost use Rattle.elem_rules.specs.Flat.{holds_by, ArePairs, AreFlatConditions, IsFlatElement, IsFlatSlot, IsGrown};

use crate::clean::{fits, fits_empty};
use crate::flat_condition::{FlatCondition, flat_condition_of, holds_flat};
use crate::flat_row::{FlatKind, FlatRow, flat_of, is_sure};
use crate::marked::element_behind;
use crate::presence::marked;
use guide_tree::{Condition, Element, Slot};
use hub_kinds::NoMemory;
use std::alloc::Global;
use x12_segs::SegView;

/// The rows and conditions of a slot as few numbers.
#[derive(Debug, Drop)]
pub struct FlatSlot {
    pub rows: Vec<FlatRow>,
    /// The numbers of codes.
    pub numbers: Vec<u32>,
    pub conditions: Vec<FlatCondition>,
    /// Bit k for each mandatory row k.
    pub must: u64,
}

/// A flat slot without rows.
pub(crate) fn no_rows(alloc: Global) -> FlatSlot {
    FlatSlot {
        rows: Vec::new(alloc),
        numbers: Vec::new(alloc),
        conditions: Vec::new(alloc),
        must: 0,
    }
}

/// The row of an element as a flat row: of one that isn't used, or is composite, nothing is said. The numbers of its codes are
/// added to a table, which may grow.
fn flat_element_of(row: &Element, numbers: &mut Vec<u32>) -> Result<FlatRow, NoMemory>
    ensures flat { IfOk result (λ flat. (more : List ℕ) → IsFlatElement flat (numbers.new.items ++ more) row.now) }
    ensures grown { IfOk result (λ _. IsGrown numbers.old.items numbers.new.items) }
{
    match row {
        Element::Simple(simple, _) => flat_of(simple, numbers),
        _ => Ok(FlatRow {
            least: 0,
            span: 0,
            from: 0,
            count: 0,
            kind: FlatKind::Unsure,
        }),
    }
}

/// Rows as flat rows. The numbers of their codes are added to a table.
fn flat_rows_of(
    alloc: Global,
    rows: &[Element],
    numbers: &mut Vec<u32>,
) -> Result<Vec<FlatRow>, NoMemory>
    ensures many { IfOk result (λ flat. length flat.items ≡ length rows.now) }
    ensures each { IfOk result (λ flat. ArePairs (λ f row. IsFlatElement f numbers.new.items row) flat.items rows.now) }
{
    let mut flat = Vec::new(alloc);
    for k in 0..rows.len() {
        let row = flat_element_of(&rows[k], numbers)?;
        flat.push(row)?;
    }
    Ok(flat)
}

/// Conditions as masks.
fn flat_conditions_of(
    alloc: Global,
    conditions: &[Condition],
) -> Result<Vec<FlatCondition>, NoMemory>
    requires few { All (λ c. All (λ p. p < 64) c.positions) conditions.now }
    requires distinct { All (λ c. IsTrue (is_distinct c.positions)) conditions.now }
    ensures { IfOk result (λ flat. AreFlatConditions flat.items conditions.now) }
{
    let mut flat = Vec::new(alloc);
    for k in 0..conditions.len() {
        flat.push(flat_condition_of(&conditions[k]))?;
    }
    Ok(flat)
}

/// Bit k for each mandatory row k.
fn must_of(rows: &[Element]) -> u64
    requires { length rows.now ≤ 40 }
    ensures { (k : ℕ) (row : Row) → nth rows.now k ≡ Some row → is_set result k ≡ false → IsTrue (fits_empty row) }
{
    let mut must = 0;
    for k in 0..rows.len() {
        must = marked(must, k as u32 + 1, !fits_empty(&rows[k]));
    }
    must
}

/// The rows and conditions of a slot as few numbers.
pub(crate) fn flat_slot_of(alloc: Global, slot: &Slot) -> Result<FlatSlot, NoMemory>
    requires { IsSound slot.now }
    ensures { IfOk result (λ flat. IsFlatSlot flat slot.now) }
{
    let elements = slot.elements.as_slice();
    let mut numbers = Vec::new(alloc);
    let rows = flat_rows_of(alloc, elements, &mut numbers)?;
    let conditions = flat_conditions_of(alloc, slot.conditions.as_slice())?;
    Ok(FlatSlot {
        rows,
        numbers,
        conditions,
        must: must_of(elements),
    })
}

/// Whether a value, where it isn't empty, fits its row, which is asked only where the flat row isn't sure.
#[inline(always)]
fn fits_by(flat: &FlatRow, numbers: &[u32], row: &Element, text: &[u8]) -> bool
    requires narrow { list_any is_strange text.now ≡ false }
    requires flat { IsFlatElement flat.now numbers.now row.now }
    ensures { OnTrue result (IsTrue (has_bytes text.now) → IsTrue (fits row.now text.now)) }
{
    if text.is_empty() {
        return true;
    }
    if is_sure(flat, numbers, text) {
        return true;
    }
    fits(row, text, true)
}

/// Whether an element surely fits its row, which is asked only where the flat row isn't sure.
#[inline(always)]
pub(crate) fn fits_flat(flat: &FlatRow, numbers: &[u32], row: &Element, text: &[u8]) -> bool
    requires narrow { list_any is_strange text.now ≡ false }
    requires flat { IsFlatElement flat.now numbers.now row.now }
    ensures { OnTrue result (IsTrue (fits row.now text.now)) }
{
    match text {
        [] => fits_empty(row),
        _ => is_sure(flat, numbers, text) || fits(row, text, true),
    }
}

/// Bit k for each element k that isn't empty, where each of these fits its row.
fn present_if_sure(
    seg: &SegView,
    rows: &[Element],
    flat: &[FlatRow],
    numbers: &[u32],
    separators: &[usize],
) -> Option<u64>
    requires few { length separators.now ≤ length rows.now }
    requires bounded { length rows.now ≤ 40 }
    requires many { length flat.now ≡ length rows.now }
    requires each { ArePairs (λ f row. IsFlatElement f numbers.now row) flat.now rows.now }
    requires places { separators.now ≡ places (is_byte seg.now.delims.element) seg.now.bytes }
    requires narrow { list_any is_strange seg.now.bytes ≡ false }
    ensures bits { IfSome result
        (λ bits. bits ≡ bits_to (λ k. has_bytes (element_at (elements_of seg.now) k)) (length separators.now)) }
    ensures fit { IfSome result (λ _. (k : ℕ) (row : Row) → k ≤ length separators.now → nth rows.now k ≡ Some row
        → IsTrue (has_bytes (element_at (elements_of seg.now) k)) → IsTrue (fits row (element_at (elements_of seg.now) k))) }
{
    let mut present = 0;
    for k in 0..separators.len() {
        let text = element_behind(seg, separators, k);
        if !fits_by(&flat[k], numbers, &rows[k], text) {
            return None;
        }
        present = marked(present, k as u32 + 1, !text.is_empty());
    }
    Some(present)
}

pub(crate) fn all_hold(conditions: &[FlatCondition], bits: u64) -> bool
    ensures { result ≡ list_all (λ c. holds_by c.relation c.first c.rest bits) conditions.now }
{
    conditions
        .iter()
        .all(|condition| holds_flat(condition, bits))
}

/// A quick look at a segment by the flat rows and conditions of its slot: `true` only if no element has a fault. The element
/// separators are at these offsets of the segment's bytes. It has no component and no repetition separator, and all its bytes
/// are characters from space to tilde.
pub fn is_clean_flat(seg: &SegView, slot: &Slot, flat: &FlatSlot, separators: &[usize]) -> bool
    requires bounded { IsTrue (is_slot_bounded slot.now) }
    requires conditions { IsTrue (list_all (is_condition_of slot.now) slot.now.conditions) }
    requires flat { IsFlatSlot flat.now slot.now }
    requires places { separators.now ≡ places (is_byte seg.now.delims.element) seg.now.bytes }
    requires plain { list_any (is_odd seg.now.delims) seg.now.bytes ≡ false }
    ensures { OnTrue result ((f : ElemFault) → IsElementFault seg.now.delims (elements_of seg.now) slot.now f → ⊥) }
{
    let rows = slot.elements.as_slice();
    if separators.len() > rows.len() {
        return false;
    }
    let known = flat.rows.as_slice();
    let numbers = flat.numbers.as_slice();
    let Some(present) = present_if_sure(seg, rows, known, numbers, separators) else {
        return false;
    };
    if present & flat.must != flat.must {
        return false;
    }
    all_hold(flat.conditions.as_slice(), present)
}
