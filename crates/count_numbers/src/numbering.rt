ghost use Rattle.std.specs.Prelude.{◌≡◌, ◌≤◌, length, IfOk};
ghost use Rattle.std.specs.List.{All};
ghost use Rattle.count_numbers.specs.Layout.{group_count, interchange_count, interchanges_over, set_count};
ghost use Rattle.count_numbers.specs.Numbers.{AreInRange, all_numbers, numbers_of};

use crate::number::num;
use crate::run::{Run, together};
use crate::tally::Tally;
use hub_kinds::{Counters, Items, NoMemory};
use std::alloc::Global;

/// What a partner's interchanges, groups and sets of a night are numbered from.
#[derive(Clone, Copy, Debug, PartialEq, Eq)]
pub struct PartnerNumbers {
    /// The interchange number of its first acknowledgment.
    pub first_acknowledgment: u32,
    /// The interchange number of its first delivered interchange.
    pub first_delivered: u32,
    /// GS06 of its first acknowledgment that has a group.
    pub first_group: u32,
    /// GS06 of its first delivered group.
    pub first_delivered_group: u32,
    /// ST02 of its first delivered set.
    pub first_set: u32,
    /// How many interchanges are delivered to it.
    pub delivered: u64,
    /// How many groups they have.
    pub groups: u64,
    /// How many sets are delivered to it.
    pub sets: u64,
    /// From where the next night continues.
    pub next: Counters,
}

/// The numbers of all partners, in their order.
pub type Numbers = Items<PartnerNumbers>;

/// How many interchanges hold that many sets, each at most `cap`.
pub fn interchange_count(cap: u32, sets: u64) -> u64
    requires { 1 ≤ cap }
    ensures { result ≡ interchange_count cap sets }
{
    let cap = u64::from(cap);
    if sets % cap == 0 {
        sets / cap
    } else {
        sets / cap + 1
    }
}

/// How many sets are in runs.
fn set_count(runs: &[Run<'_>]) -> u64
    ensures { result ≡ set_count runs.now }
{
    let mut sets = 0;
    for run in runs {
        sets = together(sets, run.sets);
    }
    sets
}

/// In how many delivered interchanges the sets of a run lie, the first of them after `before` sets.
fn interchanges_over(cap: u32, before: u64, sets: u64) -> u64
    requires { 1 ≤ cap }
    ensures { result ≡ interchanges_over cap before sets }
{
    let full = before / u64::from(cap);
    interchange_count(cap, together(before, sets)).saturating_sub(full)
}

/// How many groups runs are in delivered interchanges: one run is a group in each that its sets lie in.
fn group_count(cap: u32, runs: &[Run<'_>]) -> u64
    requires { 1 ≤ cap }
    ensures { result ≡ group_count cap runs.now }
{
    let mut before = 0;
    let mut groups = 0;
    for run in runs {
        groups = together(groups, interchanges_over(cap, before, run.sets));
        before = together(before, run.sets);
    }
    groups
}

/// A partner's numbers.
fn numbers_of(tally: &Tally<'_>, counters: Counters, cap: u32) -> PartnerNumbers
    requires counters { AreInRange counters }
    requires cap { 1 ≤ cap }
    ensures { result ≡ numbers_of tally.now counters cap }
{
    let sets = set_count(tally.runs());
    let delivered = interchange_count(cap, sets);
    let groups = group_count(cap, tally.runs());
    let first_delivered = num(counters.interchange, tally.acknowledgments());
    let first_delivered_group = num(counters.group, tally.groups());
    PartnerNumbers {
        first_acknowledgment: counters.interchange,
        first_delivered,
        first_group: counters.group,
        first_delivered_group,
        first_set: counters.set,
        delivered,
        groups,
        sets,
        next: Counters {
            interchange: num(first_delivered, delivered),
            group: num(first_delivered_group, groups),
            set: num(counters.set, sets),
        },
    }
}

/// The numbers of partners that have these tallies, counters and caps, the greatest number of sets that a delivered
/// interchange holds: acknowledgments are numbered from the counter on, and delivered interchanges after them, and so are the
/// groups of both. The only error is out of memory. X12.5, interchange control number (ISA13); X12.6, group control number
/// (GS06) and transaction set control number (ST02).
pub fn numbers_for(
    alloc: Global,
    tallies: &[Tally<'_>],
    counters: &[Counters],
    caps: &[u32],
) -> Result<Numbers, NoMemory>
    requires counters { length counters.now ≡ length tallies.now }
    requires caps { length caps.now ≡ length tallies.now }
    requires in_range { All AreInRange counters.now }
    requires least { All (λ cap. 1 ≤ cap) caps.now }
    ensures { IfOk result (λ numbers. numbers ≡ all_numbers tallies.now counters.now caps.now) }
{
    let mut numbers = Vec::new(alloc);
    for i in 0..tallies.len() {
        numbers.push(numbers_of(&tallies[i], counters[i], caps[i]))?;
    }
    Ok(Items::from_vec(numbers))
}
