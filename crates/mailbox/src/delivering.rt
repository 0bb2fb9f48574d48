ghost use Rattle.std.specs.Prelude.{◌≡◌, ◌<◌, ◌++◌, ◌∷◌, [], List, IfOk, OnOk, length, slice_get, slice_set, Some};
ghost use Rattle.std.specs.List.{All, list_any};
ghost use Rattle.mailbox.specs.Deliveries.{AreDelivered, is_delivery_to, outcomes_of};
ghost use Rattle.mailbox.specs.Delivering.{HasSent, HasTaken, IsForPlace};
ghost use Rattle.answered_sets.specs.Judged.{PlacedValue, all_sets};

use crate::deliveries::{Delivered, Deliveries};
use crate::outcome::Outcome;
use crate::outcomes::SetOutcomes;
use answered_sets::{JudgedInterchange, PlacedSet, all_sets};
use hub_kinds::NoMemory;
use partner_setup::Setup;
use std::alloc::Global;

/// Whether a set is delivered to the partner at the place `to` by one of these outcomes.
fn has_delivery(outcomes: &[Outcome], to: usize) -> bool
    ensures { result ≡ list_any (is_delivery_to to) outcomes.now }
{
    outcomes.iter().any(|outcome| match outcome {
        Outcome::DeliveredTo(place) => *place == to,
        Outcome::HeldForDelimiter(_) => false,
        Outcome::HeldForRoute => false,
    })
}

/// Adds a set to those of a partner.
fn add_to<'j, 'i, 'a>(
    lists: &mut [Delivered<'j, 'i, 'a>],
    to: usize,
    placed: &PlacedSet<'j, 'i, 'a>,
) -> Result<(), NoMemory>
    requires { to < length lists.old }
    ensures { OnOk result ((xs : List PlacedValue) → slice_get lists.old to ≡ Some xs
        → lists.new ≡ slice_set lists.old to (xs ++ placed.now ∷ [])) }
{
    lists[to].add(placed)
}

/// Delivers a set by one more of its outcomes; a partner that it is delivered to twice gets it once.
fn send_by<'j, 'i, 'a>(
    lists: &mut [Delivered<'j, 'i, 'a>],
    before: &[Outcome],
    outcome: Outcome,
    placed: &PlacedSet<'j, 'i, 'a>,
) -> Result<(), NoMemory>
    requires { IsForPlace (length lists.old) outcome }
    ensures { OnOk result ((first : List (List PlacedValue)) → HasSent placed.now before.now first lists.old
        → HasSent placed.now (before.now ++ outcome ∷ []) first lists.new) }
{
    match outcome {
        Outcome::DeliveredTo(to) => {
            if has_delivery(before, to) {
                return Ok(());
            }
            add_to(lists, to, placed)
        }
        Outcome::HeldForDelimiter(_) => Ok(()),
        Outcome::HeldForRoute => Ok(()),
    }
}

/// Delivers a set by its outcomes.
fn send<'j, 'i, 'a>(
    lists: &mut [Delivered<'j, 'i, 'a>],
    outcomes: &[Outcome],
    placed: &PlacedSet<'j, 'i, 'a>,
) -> Result<(), NoMemory>
    requires { All (IsForPlace (length lists.old)) outcomes.now }
    ensures { OnOk result (HasSent placed.now outcomes.now lists.old lists.new) }
{
    for n in 0..outcomes.len() {
        send_by(lists, &outcomes[..n], outcomes[n], placed)?;
    }
    Ok(())
}

/// The outcomes of set `n`, counted from 0.
fn outcomes_at(outcomes: &[SetOutcomes], n: usize) -> &[Outcome]
    requires { n < length outcomes.now }
    ensures { slice_get outcomes.entry.now n ≡ Some result.now }
{
    outcomes[n].as_slice()
}

/// Delivers the sets of interchanges by their outcomes.
fn deliver_each<'j, 'i, 'a>(
    lists: &mut [Delivered<'j, 'i, 'a>],
    setup: &Setup,
    interchanges: &'j [JudgedInterchange<'i, 'a>],
    outcomes: &[SetOutcomes],
) -> Result<(), NoMemory>
    requires count { length lists.old ≡ length setup.now.partners }
    requires outcomes { outcomes.now ≡ outcomes_of setup.now (all_sets interchanges.now) }
    ensures { OnOk result (HasTaken setup.now (all_sets interchanges.entry.now) lists.old lists.new) }
{
    let mut n = 0;
    for placed in all_sets(interchanges) {
        send(lists, outcomes_at(outcomes, n), &placed)?;
        n += 1;
    }
    Ok(())
}

/// For each partner of a setup, by its place, the sets of interchanges that are delivered to it, front to back, by the outcomes of all
/// their sets. The only error is out of memory.
pub fn deliver<'j, 'i: 'j, 'a: 'i>(
    alloc: Global,
    setup: &Setup,
    interchanges: &'j [JudgedInterchange<'i, 'a>],
    outcomes: &[SetOutcomes],
) -> Result<Deliveries<'j, 'i, 'a>, NoMemory>
    requires { outcomes.now ≡ outcomes_of setup.now (all_sets interchanges.now) }
    ensures { IfOk result (λ lists. AreDelivered setup.now interchanges.entry.now lists.items) }
{
    let mut lists: Deliveries<'j, 'i, 'a> = Vec::new(alloc);
    for _ in 0..setup.partners().len() {
        lists.push(Delivered::none(alloc))?;
    }
    deliver_each(lists.as_mut_slice(), setup, interchanges, outcomes)?;
    Ok(lists)
}
