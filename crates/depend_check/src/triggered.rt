ghost use Rattle.std.specs.Prelude.{◌≡◌, ◌↔◌, ◌++◌, ◌∷◌, [], List, IfOk, OnOk, IfSome, IsTrue, if◌then◌else◌};
ghost use Rattle.std.specs.List.{Contains};
ghost use Rattle.guide_tree.specs.declared.rows.Dependency.{Dependency};
ghost use Rattle.loop_match.specs.PlacedSegments.{PlacedSegment};
ghost use Rattle.loop_match.specs.Viewed.{placed_views};
ghost use Rattle.depend_check.specs.Dependencies.{is_dependency_triggered};
ghost use Rattle.depend_check.specs.Uses.{AreByLabel, KnowsTexts, lent};

use crate::texts::{has_code, texts_of};
use guide_tree::Dependency;
use hub_kinds::NoMemory;
use loop_match::PlacedSeg;
use std::alloc::Global;
use std::cmp::Ordering;
use std::collections::BTreeSet;

/// The texts that the uses of a slot have in an element.
#[derive(Drop)]
struct Texts<'d, 'a> {
    slot: &'d [u8],
    at: u32,
    texts: BTreeSet<&'a [u8]>,
}

fn by_trigger(a: &Dependency, b: &Dependency) -> Ordering {
    a.slot
        .as_slice()
        .cmp(b.slot.as_slice())
        .then(a.at.cmp(&b.at))
}

fn lend(alloc: Global, depends: &[Dependency]) -> Result<Vec<&Dependency>, NoMemory>
    ensures { IfOk result (λ v. lent v.items ≡ depends.entry.now) }
{
    let mut all = Vec::new(alloc);
    for i in 0..depends.len() {
        all.push(&depends[i])?;
    }
    Ok(all)
}

/// Dependencies in the order of the slots and elements that trigger them, so that each of these is looked at once.
fn in_trigger_order(alloc: Global, depends: &[Dependency]) -> Result<Vec<&Dependency>, NoMemory>
    ensures { IfOk result (λ v. (d : Dependency) → Contains (lent v.items) d ↔ Contains depends.entry.now d) }
{
    let mut all = lend(alloc, depends)?;
    all.sort_unstable_by(|a, b| by_trigger(a, b));
    Ok(all)
}

/// The texts by which a dependency is triggered: those that are known, where they are of its slot and element.
fn texts_for<'d, 'a>(
    alloc: Global,
    placed: &[PlacedSeg<'_, 'a, '_>],
    known: Option<Texts<'d, 'a>>,
    dependency: &'d Dependency,
) -> Result<Texts<'d, 'a>, NoMemory>
    requires sorted { AreByLabel placed.now }
    requires known { IfSome known (λ t. KnowsTexts t.texts t.slot.now t.at (placed_views placed.now)) }
    ensures own { IfOk result (λ t. KnowsTexts t.texts t.slot.now t.at (placed_views placed.now)) }
    ensures asked { IfOk result (λ t. KnowsTexts t.texts dependency.entry.now.slot dependency.entry.now.at (placed_views placed.now)) }
{
    let (slot, at) = (dependency.slot.as_slice(), dependency.at);
    if let Some(texts) = known {
        if texts.at == at && texts.slot == slot {
            return Ok(texts);
        }
    }
    Ok(Texts {
        slot,
        at,
        texts: texts_of(alloc, slot, at, placed)?,
    })
}

/// Adds a dependency, if the texts trigger it.
fn add_triggered<'d>(
    found: &mut Vec<&'d Dependency>,
    dependency: &'d Dependency,
    texts: &BTreeSet<&[u8]>,
) -> Result<(), NoMemory>
    ensures { OnOk result ((ps : List PlacedSegment) → KnowsTexts texts.now dependency.entry.now.slot dependency.entry.now.at ps
        → lent found.new.items
        ≡ lent found.old.items ++ (if is_dependency_triggered dependency.entry.now ps then dependency.entry.now ∷ [] else [])) }
{
    if has_code(dependency, texts) {
        found.push(dependency)?;
    }
    Ok(())
}

/// The dependencies that are triggered by segments in the order of labels.
pub(crate) fn triggered<'d>(
    alloc: Global,
    placed: &[PlacedSeg],
    depends: &'d [Dependency],
) -> Result<Vec<&'d Dependency>, NoMemory>
    requires { AreByLabel placed.now }
    ensures { IfOk result (λ v. (d : Dependency) → Contains (lent v.items) d
        ↔ (Contains depends.entry.now d × IsTrue (is_dependency_triggered d (placed_views placed.now)))) }
{
    let all = in_trigger_order(alloc, depends)?;
    let mut found = Vec::new(alloc);
    let mut known = None;
    for i in 0..all.len() {
        let dependency = all[i];
        let texts = texts_for(alloc, placed, known, dependency)?;
        add_triggered(&mut found, dependency, &texts.texts)?;
        known = Some(texts);
    }
    Ok(found)
}
