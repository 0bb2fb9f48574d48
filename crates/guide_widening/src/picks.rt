ghost use Rattle.std.specs.Prelude.{◌≡◌, ◌==◌, ◌&&◌, ◌++◌, IfOk, OnOk};
ghost use Rattle.std.specs.List.{list_all, list_any};
ghost use Rattle.guide_tree.specs.Words.{agree, can_fit_both, share_text};
ghost use Rattle.guide_widening.specs.NodeDifferences as nodes;
ghost use Rattle.guide_widening.specs.Nodes as rules;
ghost use Rattle.guide_widening.specs.Rows.{are_texts_of};
ghost use Rattle.guide_widening.specs.Changes.{items_differences, said};
ghost use Rattle.guide_widening.specs.declared.difference.Change.TheVariants.{Narrower, Wider};
ghost use Rattle.guide_widening.specs.declared.difference.Key.TheVariants as key;

use crate::changes::unless;
use crate::difference::{At, Change, Difference, Key, Value};
use crate::push::push;
use crate::written::pick_written;
use guide_tree::{Codes, Pick, Slot};
use hub_kinds::{NoMemory, Text};
use std::alloc::Global;

/// Whether each of `texts` is in `other`.
pub(crate) fn are_texts_of(other: &Codes, texts: &[Text]) -> bool
    ensures { result ≡ are_texts_of other.now texts.now }
{
    texts.iter().all(|text| other.contains(text.as_slice()))
}

fn share_text(codes: &Codes, others: &[Text]) -> bool
    ensures { result ≡ share_text codes.now others.now }
{
    others.iter().any(|other| codes.contains(other.as_slice()))
}

fn agree(pick: &Pick, other: &Pick) -> bool
    ensures { result ≡ agree pick.now other.now }
{
    pick.position != other.position || share_text(&pick.codes, other.codes.as_slice())
}

fn agrees_with_each(pick: &Pick, others: &[Pick]) -> bool
    ensures { result ≡ list_all (agree pick.now) others.now }
{
    others.iter().all(|other| agree(pick, other))
}

fn agree_each(picks: &[Pick], others: &[Pick]) -> bool
    ensures { result ≡ list_all (λ p. list_all (agree p) others.now) picks.now }
{
    picks.iter().all(|pick| agrees_with_each(pick, others))
}

/// Whether some segment fits both slots.
pub(crate) fn can_fit_both(slot: &Slot, other: &Slot) -> bool
    ensures { result ≡ can_fit_both slot.now other.now }
{
    slot.id.as_slice() == other.id.as_slice()
        && agree_each(slot.picks.as_slice(), other.picks.as_slice())
}

fn is_wider_pick(old: &Pick, new: &Pick) -> bool
    ensures { result ≡ rules.is_wider_pick old.now new.now }
{
    old.position == new.position && are_texts_of(&new.codes, old.codes.as_slice())
}

fn is_kept(old: &[Pick], pick: &Pick) -> bool
    ensures { result ≡ nodes.is_pick_kept old.now pick.now }
{
    old.iter().any(|before| is_wider_pick(before, pick))
}

/// The pick at a position, as a value.
fn value_at(alloc: Global, picks: &[Pick], position: u32) -> Result<Value, NoMemory>
    ensures { IfOk result (λ v. v ≡ nodes.pick_at picks.now position) }
{
    for i in 0..picks.len() {
        if picks[i].position == position {
            return pick_written(alloc, &picks[i]);
        }
    }
    Ok(Value::Nothing)
}

/// Adds what two slots ask at the position of `pick`, unless it is kept.
fn push_pick(
    alloc: Global,
    found: &mut Vec<Difference>,
    at: At,
    change: Option<Change>,
    old: &[Pick],
    new: &[Pick],
    pick: &Pick,
) -> Result<(), NoMemory>
    ensures { OnOk result (found.new.items ≡ found.old.items
        ++ said at key.Pick change (nodes.pick_beside old.now pick.now) (nodes.pick_beside new.now pick.now)) }
{
    if change.is_none() {
        return Ok(());
    }
    let before = value_at(alloc, old, pick.position)?;
    let after = value_at(alloc, new, pick.position)?;
    push(found, at, Key::Pick, change, before, after)
}

fn push_new(
    alloc: Global,
    found: &mut Vec<Difference>,
    at: At,
    old: &[Pick],
    new: &[Pick],
) -> Result<(), NoMemory>
    ensures { OnOk result (found.new.items ≡ found.old.items
        ++ items_differences (nodes.is_pick_kept old.now) at key.Pick Narrower (nodes.pick_beside old.now) (nodes.pick_beside new.now)
        new.now) }
{
    for i in 0..new.len() {
        let change = unless(is_kept(old, &new[i]), Change::Narrower);
        push_pick(alloc, found, at, change, old, new, &new[i])?;
    }
    Ok(())
}

fn push_gone(
    alloc: Global,
    found: &mut Vec<Difference>,
    at: At,
    old: &[Pick],
    new: &[Pick],
) -> Result<(), NoMemory>
    ensures { OnOk result (found.new.items ≡ found.old.items
        ++ items_differences (nodes.is_pick_kept new.now) at key.Pick Wider (nodes.pick_beside old.now) (nodes.pick_beside new.now)
        old.now) }
{
    for i in 0..old.len() {
        let change = unless(is_kept(new, &old[i]), Change::Wider);
        push_pick(alloc, found, at, change, old, new, &old[i])?;
    }
    Ok(())
}

/// Adds what the picks of two slots say otherwise.
pub(crate) fn push_picks(
    alloc: Global,
    found: &mut Vec<Difference>,
    at: At,
    old: &[Pick],
    new: &[Pick],
) -> Result<(), NoMemory>
    ensures { OnOk result (found.new.items ≡ found.old.items ++ nodes.pick_differences at old.now new.now) }
{
    push_new(alloc, found, at, old, new)?;
    push_gone(alloc, found, at, old, new)
}
