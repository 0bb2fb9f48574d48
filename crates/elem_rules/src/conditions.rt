ghost use Rattle.std.specs.Prelude.{◌≡◌, ◌↔◌, ◌⊎◌, ◌++◌, ◌<◌, ◌≤◌, All, length, OnOk};
ghost use Rattle.std.specs.List.{Contains};
ghost use Rattle.hub_kinds.specs.declared.fault.ElemFault.{ElemFault};
ghost use Rattle.elem_rules.specs.Found.{read, text_at, broken_found, conditions_found};
ghost use Rattle.elem_rules.specs.Marks.{marked_found};
ghost use Rattle.elem_rules.specs.Rows.{reference_at};

use crate::broken::broken_by;
use crate::element::element_reference;
use crate::findings::{Findings, Spot};
use crate::presence::{is_set, present_bits};
use guide_tree::{Condition, Element};
use hub_kinds::{ElementCode, NoMemory};
use std::alloc::Global;
use x12_bytes::Delims;

/// The elements of a segment that have rows.
#[derive(Clone, Copy)]
pub struct Elements<'t, 'a> {
    pub delims: Delims,
    pub rows: &'a [Element],
    pub texts: &'t [&'a [u8]],
}

/// The text of the element at a position, from 1 on; empty where there is none.
pub(crate) fn text_at<'a>(texts: &[&'a [u8]], position: u32) -> &'a [u8]
    ensures { result.now ≡ text_at (read texts.now) position }
{
    let Some(index) = position.checked_sub(1) else {
        return b"";
    };
    match texts.get(index as usize) {
        None => b"",
        Some(text) => text,
    }
}

/// The reference number of the row at a position, from 1 on; empty where there is none (X12.6, data elements).
pub fn reference_at(rows: &[Element], position: u32) -> &[u8]
    ensures { result.now ≡ reference_at rows.now position }
{
    let Some(index) = position.checked_sub(1) else {
        return b"";
    };
    match rows.get(index as usize) {
        None => b"",
        Some(row) => element_reference(row),
    }
}

/// Adds the fault of a broken condition at a position: an element that is too much is lent.
fn add_broken<'a>(
    found: &mut Findings<'a>,
    of: &Elements<'_, 'a>,
    code: ElementCode,
    position: u32,
) -> Result<(), NoMemory>
    ensures { OnOk result
        (found.new
        ≡ found.old ++ broken_found of.now.rows.now (read of.now.texts.now) code position) }
{
    let spot = Spot {
        element: position,
        component: 0,
        repetition: 0,
    };
    let copy = match code {
        ElementCode::ExclusionViolated => text_at(of.texts, position),
        _ => b"",
    };
    found.add(spot, code, reference_at(of.rows, position), copy)
}

/// Adds a fault with a code for each row whose bit is set.
fn add_each<'a>(
    found: &mut Findings<'a>,
    of: &Elements<'_, 'a>,
    code: ElementCode,
    bits: u64,
) -> Result<(), NoMemory>
    requires { length of.now.rows.now ≤ 40 }
    ensures { OnOk result
        (found.new
        ≡ found.old ++ marked_found of.now.rows.now (read of.now.texts.now) code bits) }
{
    for k in 0..of.rows.len() {
        let position = k as u32 + 1;
        if is_set(bits, position) {
            add_broken(found, of, code, position)?;
        }
    }
    Ok(())
}

/// Adds the faults of relational conditions, each once for a position and a code, however many conditions are broken there.
pub(crate) fn check_conditions<'a>(
    alloc: Global,
    found: &mut Findings<'a>,
    of: &Elements<'_, 'a>,
    conditions: &[Condition],
) -> Result<(), NoMemory>
    requires texts { length of.now.texts.now < 64 }
    requires rows { length of.now.rows.now ≤ 40 }
    requires positions { All (λ c. All (λ p. (1 ≤ p) × (p ≤ length of.now.rows.now)) c.positions) conditions.now }
    ensures { OnOk result
        ((f : ElemFault) → Contains found.new f
        ↔ (Contains found.old f
        ⊎ Contains (conditions_found of.now.delims of.now.rows.now conditions.now (read of.now.texts.now)) f)) }
{
    let present = present_bits(of.delims, of.texts);
    let broken = broken_by(alloc, present, conditions)?;
    add_each(found, of, ElementCode::ConditionalMissing, broken.missing)?;
    add_each(found, of, ElementCode::ExclusionViolated, broken.excluded)
}
