ghost use Rattle.std.specs.Prelude.{◌≡◌, ◌↔◌, ◌⊎◌, ◌+◌, ◌≤◌, ◌++◌, IsTrue, IfOk, OnOk, length, drop, false};
ghost use Rattle.std.specs.List.{Contains, list_any, list_all};
ghost use Rattle.memchr.specs.Find.{is_byte, places};
ghost use Rattle.hub_kinds.specs.declared.fault.ElemFault.{ElemFault};
ghost use Rattle.x12_segs.specs.Words.{elements_of};
ghost use Rattle.guide_tree.specs.Words.{is_slot_bounded, is_element_bounded, is_condition_of, element_at};
ghost use Rattle.hub_kinds.specs.Words.{AreElementsRising, element_key_of, IsKeyedBy};
ghost use Rattle.elem_rules.specs.ElementFaults.{IsElementFault};
ghost use Rattle.elem_rules.specs.Divided.{has_more};
ghost use Rattle.elem_rules.specs.Clean.{is_odd, bits_to, has_bytes};
ghost use Rattle.elem_rules.specs.Flat.{IsFlatElement, IsFlatSlot};
ghost use Rattle.elem_rules.specs.Found.{texts_of, element_found, rows_found, extra_found, conditions_found};

use crate::check::first_texts;
use crate::conditions::{Elements, check_conditions};
use crate::element::{Subject, check_element};
use crate::findings::{Findings, Spot};
use crate::flat_row::FlatRow;
use crate::flat_slot::{FlatSlot, all_hold, fits_flat};
use crate::marked::element_behind;
use crate::presence::marked;
use guide_tree::{Element, Slot};
use hub_kinds::{ElemFault, ElementCode, NoMemory, in_order};
use std::alloc::Global;
use x12_segs::SegView;

/// The element at an index, from 0; the empty text where it isn't there.
fn element_or_empty<'a>(seg: &SegView<'a>, separators: &[usize], k: usize) -> &'a [u8]
    requires places { separators.now ≡ places (is_byte seg.now.delims.element) seg.now.bytes }
    ensures { result.now ≡ element_at (elements_of seg.now) (k + 1) }
{
    if k < separators.len() {
        return element_behind(seg, separators, k);
    }
    b""
}

/// Adds what is wrong in the element at an index, from 0. Only an element that may not fit its row is gone over.
fn check_row<'a>(
    found: &mut Findings<'a>,
    seg: &SegView<'a>,
    row: &'a Element,
    flat: &FlatRow,
    numbers: &[u32],
    separators: &[usize],
    k: usize,
) -> Result<(), NoMemory>
    requires bounded { IsTrue (is_element_bounded row.now) }
    requires few { k ≤ 40 }
    requires flat { IsFlatElement flat.now numbers.now row.now }
    requires places { separators.now ≡ places (is_byte seg.now.delims.element) seg.now.bytes }
    requires plain { list_any (is_odd seg.now.delims) seg.now.bytes ≡ false }
    ensures { OnOk result
        (found.new ≡ found.old ++ element_found seg.now.delims (k + 1) row.now (element_at (elements_of seg.now) (k + 1))) }
{
    let text = element_or_empty(seg, separators, k);
    if fits_flat(flat, numbers, row, text) {
        return Ok(());
    }
    let at = Subject {
        delims: seg.delims(),
        element: k as u32 + 1,
        text,
    };
    check_element(found, &at, row)
}

/// Adds what is wrong in the elements that have rows.
fn check_rows<'a>(
    found: &mut Findings<'a>,
    seg: &SegView<'a>,
    slot: &'a Slot,
    flat: &FlatSlot,
    separators: &[usize],
) -> Result<(), NoMemory>
    requires bounded { IsTrue (is_slot_bounded slot.now) }
    requires flat { IsFlatSlot flat.now slot.now }
    requires places { separators.now ≡ places (is_byte seg.now.delims.element) seg.now.bytes }
    requires plain { list_any (is_odd seg.now.delims) seg.now.bytes ≡ false }
    ensures { OnOk result
        (found.new ≡ found.old ++ rows_found seg.now.delims slot.now.elements (texts_of slot.now (elements_of seg.now))) }
{
    let rows = slot.elements.as_slice();
    let known = flat.rows.as_slice();
    let numbers = flat.numbers.as_slice();
    for k in 0..rows.len() {
        check_row(found, seg, &rows[k], &known[k], numbers, separators, k)?;
    }
    Ok(())
}

/// Whether an element after the first `n` isn't empty.
fn has_extra(seg: &SegView, separators: &[usize], n: usize) -> bool
    requires places { separators.now ≡ places (is_byte seg.now.delims.element) seg.now.bytes }
    requires plain { list_any (is_odd seg.now.delims) seg.now.bytes ≡ false }
    ensures { result ≡ has_more seg.now.delims n (drop 1 (elements_of seg.now)) }
{
    for k in n..separators.len() {
        if !element_behind(seg, separators, k).is_empty() {
            return true;
        }
    }
    false
}

/// Adds the fault of a segment with more elements than rows.
fn check_extra<'a>(
    found: &mut Findings<'a>,
    seg: &SegView<'a>,
    slot: &Slot,
    separators: &[usize],
) -> Result<(), NoMemory>
    requires few { length slot.now.elements ≤ 40 }
    requires places { separators.now ≡ places (is_byte seg.now.delims.element) seg.now.bytes }
    requires plain { list_any (is_odd seg.now.delims) seg.now.bytes ≡ false }
    ensures { OnOk result
        (found.new ≡ found.old ++ extra_found seg.now.delims slot.now (elements_of seg.now)) }
{
    let rows = slot.elements.as_slice().len();
    if !has_extra(seg, separators, rows) {
        return Ok(());
    }
    let spot = Spot {
        element: rows as u32 + 1,
        component: 0,
        repetition: 0,
    };
    found.add(
        spot,
        ElementCode::TooManyElements,
        b"",
        element_or_empty(seg, separators, rows),
    )
}

/// Bit k for each of the first `n` elements that isn't empty.
fn present_to(seg: &SegView, separators: &[usize], n: usize) -> u64
    requires few { n ≤ 40 }
    requires places { separators.now ≡ places (is_byte seg.now.delims.element) seg.now.bytes }
    ensures { result ≡ bits_to (λ k. has_bytes (element_at (elements_of seg.now) k)) n }
{
    let mut present = 0;
    for k in 0..n {
        let text = element_or_empty(seg, separators, k);
        present = marked(present, k as u32 + 1, !text.is_empty());
    }
    present
}

/// Adds the faults of relational conditions. Only where one is broken the texts are taken.
fn check_conditions_at<'a>(
    alloc: Global,
    found: &mut Findings<'a>,
    seg: &SegView<'a>,
    slot: &'a Slot,
    flat: &FlatSlot,
    separators: &[usize],
) -> Result<(), NoMemory>
    requires bounded { IsTrue (is_slot_bounded slot.now) }
    requires conditions { IsTrue (list_all (is_condition_of slot.now) slot.now.conditions) }
    requires flat { IsFlatSlot flat.now slot.now }
    requires places { separators.now ≡ places (is_byte seg.now.delims.element) seg.now.bytes }
    requires plain { list_any (is_odd seg.now.delims) seg.now.bytes ≡ false }
    ensures { OnOk result
        ((f : ElemFault) → Contains found.new f
        ↔ (Contains found.old f
        ⊎ Contains (conditions_found seg.now.delims slot.now.elements slot.now.conditions (texts_of slot.now (elements_of seg.now))) f)) }
{
    let rows = slot.elements.as_slice();
    let present = present_to(seg, separators, rows.len());
    if all_hold(flat.conditions.as_slice(), present) {
        return Ok(());
    }
    let texts = first_texts(alloc, seg, rows.len())?;
    let of = Elements {
        delims: seg.delims(),
        rows,
        texts: texts.as_slice(),
    };
    check_conditions(alloc, found, &of, slot.conditions.as_slice())
}

/// The faults of a segment's elements in the order in which they are found; the same one may be found twice.
fn find_at<'a>(
    alloc: Global,
    seg: &SegView<'a>,
    slot: &'a Slot,
    flat: &FlatSlot,
    separators: &[usize],
) -> Result<Findings<'a>, NoMemory>
    requires bounded { IsTrue (is_slot_bounded slot.now) }
    requires conditions { IsTrue (list_all (is_condition_of slot.now) slot.now.conditions) }
    requires flat { IsFlatSlot flat.now slot.now }
    requires places { separators.now ≡ places (is_byte seg.now.delims.element) seg.now.bytes }
    requires plain { list_any (is_odd seg.now.delims) seg.now.bytes ≡ false }
    ensures exact { IfOk result
        (λ found. (f : ElemFault) → Contains found f
        ↔ IsElementFault seg.now.delims (elements_of seg.now) slot.now f) }
    ensures keyed { IfOk result (λ found. IsKeyedBy element_key_of found) }
{
    let mut found = Findings::new(alloc);
    check_rows(&mut found, seg, slot, flat, separators)?;
    check_extra(&mut found, seg, slot, separators)?;
    check_conditions_at(alloc, &mut found, seg, slot, flat, separators)?;
    Ok(found)
}

/// The faults that `check_segment` gives, of a segment whose element separators are at these offsets of its bytes, and which has
/// no component and no repetition separator and no byte but characters from space to tilde, by its slot and that as few numbers. An
/// element that surely fits its row isn't gone over again, and elements are looked up by the offsets.
pub fn check_segment_at<'a>(
    alloc: Global,
    seg: &SegView<'a>,
    slot: &'a Slot,
    flat: &FlatSlot,
    separators: &[usize],
) -> Result<Vec<ElemFault<'a>>, NoMemory>
    requires bounded { IsTrue (is_slot_bounded slot.now) }
    requires conditions { IsTrue (list_all (is_condition_of slot.now) slot.now.conditions) }
    requires flat { IsFlatSlot flat.now slot.now }
    requires places { separators.now ≡ places (is_byte seg.now.delims.element) seg.now.bytes }
    requires plain { list_any (is_odd seg.now.delims) seg.now.bytes ≡ false }
    ensures exact { IfOk result
        (λ v. (f : ElemFault) → Contains v.items f
        ↔ IsElementFault seg.now.delims (elements_of seg.now) slot.now f) }
    ensures rising { IfOk result (λ v. AreElementsRising v.items) }
{
    let found = find_at(alloc, seg, slot, flat, separators)?;
    Ok(in_order(found.into_faults()))
}
