ghost use Rattle.std.specs.Prelude.{◌≡◌, IfOk, map};
ghost use Rattle.answered_sets.specs.Judged.{all_sets};
ghost use Rattle.mailbox.specs.Deliveries.{outcome_at, outcomes, outcomes_of, outcomes_on};

use crate::eligible::is_deliverable;
use crate::outcome::Outcome;
use crate::receiving::outcome_at;
use answered_sets::{JudgedInterchange, PlacedSet, all_sets};
use hub_kinds::{Items, NoMemory};
use partner_setup::Setup;
use std::alloc::Global;
use std::marker::Model;
use std::slice::from_ref;

/// How outcomes are kept: most sets have one at the most, which takes no memory of its own.
#[derive(Debug, Drop)]
pub(crate) enum Kept {
    /// None.
    Nothing,
    /// One.
    One(Outcome),
    /// More.
    More(Items<Outcome>),
}

/// The outcomes of one set (own): one for each receiver of its route, in their order, and none of a set that may not be delivered.
#[derive(Debug, Drop)]
pub struct SetOutcomes {
    kept: Kept,
}

impl Model for SetOutcomes {
    ghost use Rattle.std.specs.Prelude.{List};
    ghost use Rattle.mailbox.specs.Outcomes.{listed};
    ghost use Rattle.mailbox.specs.declared.outcome.Outcome.{Outcome};

    ghost Value = { List Outcome };

    ghost view = { λ o. listed o.kept };
}

impl SetOutcomes {
    ghost use Rattle.std.specs.Prelude.{◌≡◌};

    /// The outcomes, lent.
    pub fn as_slice(&self) -> &[Outcome]
        ensures { result.now ≡ self.now }
    {
        match &self.kept {
            Kept::Nothing => &[],
            Kept::One(outcome) => from_ref(outcome),
            Kept::More(outcomes) => outcomes.as_slice(),
        }
    }
}

/// The outcomes of a set for these receivers.
fn for_each(
    alloc: Global,
    setup: &Setup,
    placed: &PlacedSet<'_, '_, '_>,
    route: &[usize],
) -> Result<Vec<Outcome>, NoMemory>
    ensures { IfOk result (λ v. v.items ≡ map (outcome_at setup.now placed.now) route.now) }
{
    let mut outcomes = Vec::with_capacity(alloc, route.len())?;
    for to in route {
        outcomes.push(outcome_at(setup, placed, *to))?;
    }
    Ok(outcomes)
}

/// The outcomes of a set that may be delivered, on this route.
fn outcomes_on(
    alloc: Global,
    setup: &Setup,
    placed: &PlacedSet<'_, '_, '_>,
    route: &[usize],
) -> Result<SetOutcomes, NoMemory>
    ensures { IfOk result (λ o. o ≡ outcomes_on setup.now placed.now route.now) }
{
    let kept = match route {
        [] => Kept::One(Outcome::HeldForRoute),
        [to] => Kept::One(outcome_at(setup, placed, *to)),
        [..] => Kept::More(Items::from_vec(for_each(alloc, setup, placed, route)?)),
    };
    Ok(SetOutcomes { kept })
}

/// The outcomes of a set.
fn outcomes_of(
    alloc: Global,
    setup: &Setup,
    placed: &PlacedSet<'_, '_, '_>,
) -> Result<SetOutcomes, NoMemory>
    ensures { IfOk result (λ o. o ≡ outcomes setup.now placed.now) }
{
    if !is_deliverable(placed) {
        return Ok(SetOutcomes {
            kept: Kept::Nothing,
        });
    }
    let group = placed.group();
    let header = group.header();
    outcomes_on(alloc, setup, placed, setup.route_of(header.element(3)))
}

/// The outcomes of all sets of these interchanges, front to back (X12.6; by GS03, the routes are own). The only error is out of memory.
pub fn all_outcomes(
    alloc: Global,
    setup: &Setup,
    interchanges: &[JudgedInterchange<'_, '_>],
) -> Result<Vec<SetOutcomes>, NoMemory>
    ensures { IfOk result (λ v. v.items ≡ outcomes_of setup.now (all_sets interchanges.now)) }
{
    let mut all = Vec::new(alloc);
    for placed in all_sets(interchanges) {
        all.push(outcomes_of(alloc, setup, &placed)?)?;
    }
    Ok(all)
}
