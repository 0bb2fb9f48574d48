ghost use Rattle.std.specs.Prelude.{◌≡◌, ◌↔◌, ◌≤◌, ◌++◌, IsTrue, All, IfOk, OnOk, Some, length, take, drop};
ghost use Rattle.std.specs.List.{Contains, list_all};
ghost use Rattle.hub_kinds.specs.declared.fault.ElemFault.{ElemFault};
ghost use Rattle.x12_segs.specs.Words.{elements_of};
ghost use Rattle.guide_tree.specs.Words.{is_slot_bounded, is_element_bounded, is_condition_of};
ghost use Rattle.hub_kinds.specs.Words.{AreElementsRising, element_key_of, IsKeyedBy};
ghost use Rattle.elem_rules.specs.ElementFaults.{IsElementFault};
ghost use Rattle.elem_rules.specs.Found.{read, rows_found, extra_found};

use crate::clean::is_clean;
use crate::conditions::{Elements, check_conditions, text_at};
use crate::divided::has_more;
use crate::element::{Subject, check_element};
use crate::findings::{Findings, Spot};
use guide_tree::Slot;
use hub_kinds::{ElemFault, ElementCode, NoMemory, in_order};
use std::alloc::Global;
use x12_segs::SegView;

/// The texts of a segment's first `n` elements; fewer where it has fewer.
pub(crate) fn first_texts<'a>(
    alloc: Global,
    seg: &SegView<'a>,
    n: usize,
) -> Result<Vec<&'a [u8]>, NoMemory>
    ensures { IfOk result (λ v. read v.items ≡ take n (drop 1 (elements_of seg.now))) }
{
    let texts = seg.elements().take(n).collect(alloc)?;
    Ok(texts)
}

/// Adds what is wrong in the elements that have rows.
fn check_rows<'a>(found: &mut Findings<'a>, of: &Elements<'_, 'a>) -> Result<(), NoMemory>
    requires few { length of.now.rows.now ≤ 40 }
    requires bounded { All (λ row. IsTrue (is_element_bounded row)) of.now.rows.now }
    ensures { OnOk result
        (found.new ≡ found.old ++ rows_found of.now.delims of.now.rows.now (read of.now.texts.now)) }
{
    for k in 0..of.rows.len() {
        let element = k as u32 + 1;
        let at = Subject {
            delims: of.delims,
            element,
            text: text_at(of.texts, element),
        };
        check_element(found, &at, &of.rows[k])?;
    }
    Ok(())
}

/// Adds the fault of a segment with more elements than rows.
fn check_extra<'a>(found: &mut Findings<'a>, seg: &SegView<'a>, slot: &Slot) -> Result<(), NoMemory>
    requires { length slot.now.elements ≤ 40 }
    ensures { OnOk result
        (found.new ≡ found.old ++ extra_found seg.now.delims slot.now (elements_of seg.now)) }
{
    let rows = slot.elements.as_slice().len();
    if !has_more(seg.delims(), rows, seg.elements()) {
        return Ok(());
    }
    let spot = Spot {
        element: rows as u32 + 1,
        component: 0,
        repetition: 0,
    };
    found.add(
        spot,
        ElementCode::TooManyElements,
        b"",
        seg.element(rows + 1),
    )
}

/// The faults of a segment's elements in the order in which they are found; the same one may be found twice.
fn find<'a>(alloc: Global, seg: &SegView<'a>, slot: &'a Slot) -> Result<Findings<'a>, NoMemory>
    requires bounded { IsTrue (is_slot_bounded slot.now) }
    requires conditions { IsTrue (list_all (is_condition_of slot.now) slot.now.conditions) }
    ensures exact { IfOk result
        (λ found. (f : ElemFault) → Contains found f
        ↔ IsElementFault seg.now.delims (elements_of seg.now) slot.now f) }
    ensures keyed { IfOk result (λ found. IsKeyedBy element_key_of found) }
{
    let rows = slot.elements.as_slice();
    let texts = first_texts(alloc, seg, rows.len())?;
    let of = Elements {
        delims: seg.delims(),
        rows,
        texts: texts.as_slice(),
    };
    let mut found = Findings::new(alloc);
    check_rows(&mut found, &of)?;
    check_extra(&mut found, seg, slot)?;
    check_conditions(alloc, &mut found, &of, slot.conditions.as_slice())?;
    Ok(found)
}

/// The faults of a segment's elements by the rows and conditions of its slot (999 guide, IK4): all of them, each once,
/// by element, component, repetition and code. The slot keeps the bounds of an accepted guide, and its conditions
/// name elements that have rows, as each slot of a checked `Guide` does.
pub fn check_segment<'a>(
    alloc: Global,
    seg: &SegView<'a>,
    slot: &'a Slot,
) -> Result<Vec<ElemFault<'a>>, NoMemory>
    requires bounded { IsTrue (is_slot_bounded slot.now) }
    requires conditions { IsTrue (list_all (is_condition_of slot.now) slot.now.conditions) }
    ensures exact { IfOk result
        (λ v. (f : ElemFault) → Contains v.items f
        ↔ IsElementFault seg.now.delims (elements_of seg.now) slot.now f) }
    ensures rising { IfOk result (λ v. AreElementsRising v.items) }
{
    if is_clean(seg, slot) {
        return Ok(Vec::new(alloc));
    }
    let found = find(alloc, seg, slot)?;
    Ok(in_order(found.into_faults()))
}
