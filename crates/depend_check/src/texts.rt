ghost use Rattle.std.specs.Prelude.{◌≡◌, ◌++◌, ◌∷◌, [], List, IfOk, OnOk};
ghost use Rattle.std.specs.List.{list_any};
ghost use Rattle.hub_kinds.specs.Words.{contains_text};
ghost use Rattle.loop_match.specs.PlacedSegments.{PlacedSegment};
ghost use Rattle.loop_match.specs.Viewed.{placed_view, placed_views};
ghost use Rattle.depend_check.specs.Dependencies.{is_dependency_triggered};
ghost use Rattle.depend_check.specs.Uses.{AreByLabel, KnowsTexts, has};

use crate::groups::uses_of;
use crate::uses::is_use;
use guide_tree::{Codes, Dependency};
use hub_kinds::{NoMemory, Text};
use loop_match::{PlacedSeg, text_at};
use std::alloc::Global;
use std::collections::BTreeSet;

/// Adds the text that a segment has in an element, where it is a use of the slot with a label.
fn add_text<'a>(
    texts: &mut BTreeSet<&'a [u8]>,
    label: &[u8],
    at: u32,
    placed: &PlacedSeg<'_, 'a, '_>,
) -> Result<(), NoMemory>
    ensures { OnOk result ((ps : List PlacedSegment) → KnowsTexts texts.old label.now at ps
        → KnowsTexts texts.new label.now at (ps ++ placed_view placed.now ∷ [])) }
{
    if is_use(label, placed) {
        texts.insert(text_at(placed.seg, at as usize))?;
    }
    Ok(())
}

/// The texts that the uses of the slot with a label have in an element, where all that are looked at are given.
fn texts_in<'a>(
    alloc: Global,
    label: &[u8],
    at: u32,
    uses: &[PlacedSeg<'_, 'a, '_>],
) -> Result<BTreeSet<&'a [u8]>, NoMemory>
    ensures { IfOk result (λ texts. KnowsTexts texts label.now at (placed_views uses.now)) }
{
    let mut texts = BTreeSet::new(alloc);
    for i in 0..uses.len() {
        add_text(&mut texts, label, at, &uses[i])?;
    }
    Ok(texts)
}

/// The texts of segments that are in the order of labels.
pub(crate) fn texts_of<'a>(
    alloc: Global,
    label: &[u8],
    at: u32,
    placed: &[PlacedSeg<'_, 'a, '_>],
) -> Result<BTreeSet<&'a [u8]>, NoMemory>
    requires { AreByLabel placed.now }
    ensures { IfOk result (λ texts. KnowsTexts texts label.now at (placed_views placed.now)) }
{
    texts_in(alloc, label, at, uses_of(label, placed))
}

fn has(texts: &BTreeSet<&[u8]>, text: &[u8]) -> bool
    ensures { result ≡ has texts.now text.now }
{
    texts.contains(text)
}

fn has_any(texts: &BTreeSet<&[u8]>, codes: &[Text]) -> bool
    ensures { result ≡ list_any (has texts.now) codes.now }
{
    codes.iter().any(|code| has(texts, code.as_slice()))
}

/// Whether one of the texts is listed.
fn are_any_listed(texts: &BTreeSet<&[u8]>, codes: &Codes) -> bool
    ensures { result ≡ list_any (λ text. contains_text codes.now text.now) texts.now.keys }
{
    texts.iter().any(|text| codes.contains(*text))
}

/// Whether one of the codes is among the texts: the fewer are searched among the more.
fn share(texts: &BTreeSet<&[u8]>, codes: &Codes) -> bool
    ensures { result ≡ list_any (has texts.now) codes.now }
{
    if texts.len() < codes.as_slice().len() {
        are_any_listed(texts, codes)
    } else {
        has_any(texts, codes.as_slice())
    }
}

/// Whether one of a dependency's codes is among the texts that trigger it.
pub(crate) fn has_code(dependency: &Dependency, texts: &BTreeSet<&[u8]>) -> bool
    ensures { (ps : List PlacedSegment) → KnowsTexts texts.now dependency.now.slot dependency.now.at ps
        → result ≡ is_dependency_triggered dependency.now ps }
{
    share(texts, &dependency.codes)
}
