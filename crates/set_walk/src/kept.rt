ghost use Rattle.std.specs.Prelude.{◌≡◌, ◌++◌, ◌∷◌, [], List, map, codes, IsTrue, IfSome, OnOk, if◌then◌else◌};
ghost use Rattle.std.specs.Str.{bytes_eq};
ghost use Rattle.x12_segs.specs.Words.{elements_of};
ghost use Rattle.guide_tree.specs.Words.{segment_id};
ghost use Rattle.hl_check.specs.Names.{names_of};
ghost use Rattle.marked_segments.specs.Marked.{IsPlain};
ghost use Rattle.set_walk.specs.Kept.{Slotted, IsKept, slotted_view};

use crate::named::names_of;
use guide_tree::Slot;
use hl_check::HlNames;
use hub_kinds::NoMemory;
use x12_segs::SegView;

/// A segment of a body, and the slot that it was given.
#[derive(Drop)]
pub struct SlottedSeg<'a, 'g> {
    pub seg: SegView<'a>,
    pub slot: &'g Slot,
}

/// The segments of a body that rules over the whole set look at.
#[derive(Drop)]
pub struct Kept<'a, 'g> {
    /// The HL segments.
    pub hls: Vec<SlottedSeg<'a, 'g>>,
    /// HL01 to HL04 of each.
    pub names: Vec<HlNames<'a>>,
    /// Those whose slots have labels, by which dependencies name them.
    pub labelled: Vec<SlottedSeg<'a, 'g>>,
}

#[inline]
fn is_hl(slot: &Slot) -> bool
    ensures { result ≡ bytes_eq slot.now.id (codes "HL") }
{
    slot.id.as_slice() == b"HL".as_slice()
}

#[inline(never)]
fn add<'a, 'g>(
    list: &mut Vec<SlottedSeg<'a, 'g>>,
    seg: &SegView<'a>,
    slot: &'g Slot,
) -> Result<(), NoMemory>
    ensures { OnOk result (map slotted_view list.new.items ≡ map slotted_view list.old.items ++ (seg.now, slot.entry.now) ∷ []) }
{
    let seg = SegView::new(seg.start(), seg.bytes(), seg.delims());
    list.push(SlottedSeg { seg, slot })?;
    Ok(())
}

#[inline]
fn add_if<'a, 'g>(
    list: &mut Vec<SlottedSeg<'a, 'g>>,
    wanted: bool,
    seg: &SegView<'a>,
    slot: &'g Slot,
) -> Result<(), NoMemory>
    ensures { OnOk result (map slotted_view list.new.items
        ≡ map slotted_view list.old.items ++ (if wanted then (seg.now, slot.entry.now) ∷ [] else [])) }
{
    if wanted {
        add(list, seg, slot)?;
    }
    Ok(())
}

#[inline(never)]
fn add_names<'a>(
    list: &mut Vec<HlNames<'a>>,
    seg: &SegView<'a>,
    plain: Option<&[usize]>,
) -> Result<(), NoMemory>
    requires { IfSome plain (λ separators. IsPlain separators.now seg.now) }
    ensures { OnOk result (list.new.items ≡ list.old.items ++ names_of (elements_of seg.now) ∷ []) }
{
    list.push(names_of(seg, plain))?;
    Ok(())
}

#[inline]
fn add_names_if<'a>(
    list: &mut Vec<HlNames<'a>>,
    wanted: bool,
    seg: &SegView<'a>,
    plain: Option<&[usize]>,
) -> Result<(), NoMemory>
    requires { IfSome plain (λ separators. IsPlain separators.now seg.now) }
    ensures { OnOk result (list.new.items
        ≡ list.old.items ++ (if wanted then names_of (elements_of seg.now) ∷ [] else [])) }
{
    if wanted {
        add_names(list, seg, plain)?;
    }
    Ok(())
}

/// Keeps the next segment of a body, if rules look at it. The places of its element separators come with it, if it is plain.
#[inline]
pub(crate) fn keep<'a, 'g>(
    kept: &mut Kept<'a, 'g>,
    seg: &SegView<'a>,
    plain: Option<&[usize]>,
    slot: &'g Slot,
) -> Result<(), NoMemory>
    requires id { IsTrue (bytes_eq slot.now.id (segment_id (elements_of seg.now))) }
    requires plain { IfSome plain (λ separators. IsPlain separators.now seg.now) }
    ensures { OnOk result ((xs : List Slotted) → IsKept kept.old xs → IsKept kept.new (xs ++ (seg.now, slot.entry.now) ∷ [])) }
{
    let is_level = is_hl(slot);
    add_if(&mut kept.hls, is_level, seg, slot)?;
    add_names_if(&mut kept.names, is_level, seg, plain)?;
    add_if(&mut kept.labelled, slot.label.is_some(), seg, slot)
}
