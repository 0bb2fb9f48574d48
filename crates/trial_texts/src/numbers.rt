//! The trial of count_numbers: what a night leaves of a partner, and of two partners, in one stretch and cut anywhere, and the
//! numbers that follow from it.
//!
//! X12.5, interchange control number; X12.6, functional group, group control number and transaction set control number.
ghost use Rattle.std.specs.Prelude.{◌≡◌, length};

use count_numbers::{Numbers, PartnerNumbers, Run, RunKey, Tallies, Tally, numbers_for};
use env_marks::gather;
use hub_kinds::{Counters, Lent, NoMemory};
use std::alloc::Global;
use std::test::Fail;

/// What happens for a partner: an acknowledgment, with a group or without one, or a delivered set of a sender with a GS01.
enum Event {
    Acknowledgment(bool),
    Delivery(u32, &'static [u8]),
}

struct Case {
    events: &'static [Event],
    counters: Counters,
    cap: u32,
    numbers: PartnerNumbers,
    /// The lengths of the runs.
    runs: &'static [u64],
}

const CASES: &[Case] = &[
    Case {
        events: &[],
        counters: Counters {
            interchange: 1,
            group: 1,
            set: 1,
        },
        cap: 2,
        runs: &[],
        numbers: PartnerNumbers {
            first_acknowledgment: 1,
            first_delivered: 1,
            first_group: 1,
            first_delivered_group: 1,
            first_set: 1,
            delivered: 0,
            groups: 0,
            sets: 0,
            next: Counters {
                interchange: 1,
                group: 1,
                set: 1,
            },
        },
    },
    Case {
        events: &[
            Event::Delivery(0, b"PO"),
            Event::Delivery(0, b"PO"),
            Event::Acknowledgment(true),
            Event::Delivery(0, b"PO"),
        ],
        counters: Counters {
            interchange: 999_999_998,
            group: 1,
            set: 1,
        },
        cap: 1,
        runs: &[3],
        numbers: PartnerNumbers {
            first_acknowledgment: 999_999_998,
            first_delivered: 999_999_999,
            first_group: 1,
            first_delivered_group: 2,
            first_set: 1,
            delivered: 3,
            groups: 3,
            sets: 3,
            next: Counters {
                interchange: 3,
                group: 5,
                set: 4,
            },
        },
    },
    // of two acknowledgments one has no group
    Case {
        events: &[
            Event::Acknowledgment(false),
            Event::Delivery(0, b"PO"),
            Event::Delivery(0, b"SH"),
            Event::Delivery(1, b"SH"),
            Event::Acknowledgment(true),
            Event::Delivery(1, b"SH"),
            Event::Delivery(0, b"PO"),
        ],
        counters: Counters {
            interchange: 7,
            group: 999_999_998,
            set: 999_999_997,
        },
        cap: 2,
        runs: &[1, 1, 2, 1],
        numbers: PartnerNumbers {
            first_acknowledgment: 7,
            first_delivered: 9,
            first_group: 999_999_998,
            first_delivered_group: 999_999_999,
            first_set: 999_999_997,
            delivered: 3,
            groups: 4,
            sets: 5,
            next: Counters {
                interchange: 12,
                group: 4,
                set: 3,
            },
        },
    },
    // a run of three sets is a group in each of the two interchanges that it lies in
    Case {
        events: &[
            Event::Delivery(0, b"SH"),
            Event::Delivery(0, b"PO"),
            Event::Delivery(0, b"PO"),
            Event::Delivery(0, b"PO"),
            Event::Acknowledgment(false),
        ],
        counters: Counters {
            interchange: 1,
            group: 5,
            set: 1,
        },
        cap: 2,
        runs: &[1, 3],
        numbers: PartnerNumbers {
            first_acknowledgment: 1,
            first_delivered: 2,
            first_group: 5,
            first_delivered_group: 5,
            first_set: 1,
            delivered: 2,
            groups: 3,
            sets: 4,
            next: Counters {
                interchange: 4,
                group: 8,
                set: 5,
            },
        },
    },
];

fn key_of(sender: u32, kind: &'static [u8]) -> RunKey<'static> {
    RunKey {
        sender,
        functional_id: Lent::new(kind),
        version: Lent::new(b"005010"),
    }
}

fn tally_of(alloc: Global, events: &[Event]) -> Result<Tally<'static>, NoMemory> {
    let mut tally = Tally::new(alloc);
    for event in events {
        match event {
            Event::Acknowledgment(has_group) => tally.acknowledge(*has_group),
            Event::Delivery(sender, kind) => tally.deliver(key_of(*sender, kind))?,
        }
    }
    Ok(tally)
}

/// Whether runs have these lengths.
fn have_lengths(runs: &[Run<'_>], lengths: &[u64]) -> bool {
    if runs.len() != lengths.len() {
        return false;
    }
    for i in 0..runs.len() {
        if runs[i].sets != lengths[i] {
            return false;
        }
    }
    true
}

/// The tally of events that are cut at a place.
fn tally_of_cut(alloc: Global, events: &[Event], cut: usize) -> Result<Tally<'static>, NoMemory> {
    let (front, back) = events.split_at(cut.min(events.len()));
    let front = tally_of(alloc, front)?;
    front.append(tally_of(alloc, back)?)
}

const GREATEST: u32 = 999_999_999;

/// Whether one partner's tally gives the case's numbers.
fn gives_numbers(alloc: Global, tallies: &[Tally<'_>], case: &Case) -> Result<bool, NoMemory> {
    let (counters, cap) = (case.counters, case.cap);
    if counters.interchange < 1
        || counters.interchange > GREATEST
        || counters.group < 1
        || counters.group > GREATEST
        || counters.set < 1
        || counters.set > GREATEST
        || cap < 1
        || tallies.len() != 1
    {
        return Ok(false);
    }
    let numbers = numbers_for(alloc, tallies, &[counters], &[cap])?;
    Ok(numbers.as_slice() == [case.numbers].as_slice())
}

/// Whether the case's numbers come where its events are cut at a place.
fn is_as_told(alloc: Global, case: &Case, cut: usize) -> Result<bool, NoMemory> {
    let tally = tally_of_cut(alloc, case.events, cut)?;
    if !have_lengths(tally.runs(), case.runs) {
        return Ok(false);
    }
    gives_numbers(alloc, &[tally], case)
}

#[test]
fn numbers_follow_wherever_events_are_cut(rt: HostRuntime) -> Result<(), Fail> {
    let alloc = rt.alloc();
    for case in CASES {
        for cut in 0..=case.events.len() {
            assert!(rt; is_as_told(alloc, case, cut)?);
        }
    }
    Ok(())
}

/// What happens for two partners, in the order of the text.
const HAPPENINGS: &[(usize, Event)] = &[
    (1, Event::Delivery(0, b"PO")),
    (0, Event::Acknowledgment(true)),
    (1, Event::Delivery(0, b"PO")),
    (0, Event::Delivery(1, b"SH")),
    (1, Event::Acknowledgment(true)),
    (1, Event::Delivery(0, b"PO")),
    (0, Event::Delivery(1, b"SH")),
    (0, Event::Acknowledgment(false)),
    (1, Event::Delivery(0, b"SH")),
    (0, Event::Delivery(1, b"SH")),
];

/// Their numbers, of two sets at most in an interchange for the first and three for the second.
const OF_TWO: &[PartnerNumbers] = &[
    PartnerNumbers {
        first_acknowledgment: 5,
        first_delivered: 7,
        first_group: 40,
        first_delivered_group: 41,
        first_set: 20,
        delivered: 2,
        groups: 2,
        sets: 3,
        next: Counters {
            interchange: 9,
            group: 43,
            set: 23,
        },
    },
    PartnerNumbers {
        first_acknowledgment: 999_999_998,
        first_delivered: 999_999_999,
        first_group: 999_999_999,
        first_delivered_group: 1,
        first_set: 999_999_999,
        delivered: 2,
        groups: 2,
        sets: 4,
        next: Counters {
            interchange: 2,
            group: 3,
            set: 4,
        },
    },
];

fn tallies_of(alloc: Global, events: &[(usize, Event)]) -> Result<Tallies<'static>, NoMemory> {
    let mut tallies = Tallies::new(alloc, 2)?;
    for (partner, event) in events {
        if *partner >= tallies.list().len() {
            continue;
        }
        match event {
            Event::Acknowledgment(has_group) => tallies.acknowledge(*partner, *has_group),
            Event::Delivery(sender, kind) => tallies.deliver(*partner, key_of(*sender, kind))?,
        }
    }
    Ok(tallies)
}

/// The tallies of events that are cut twice, gathered from the three pieces.
fn gathered(
    alloc: Global,
    events: &[(usize, Event)],
    first: usize,
    more: usize,
) -> Result<Tallies<'static>, NoMemory> {
    let (front, rest) = events.split_at(first.min(events.len()));
    let (middle, back) = rest.split_at(more.min(rest.len()));
    let front = tallies_of(alloc, front)?;
    let middle = tallies_of(alloc, middle)?;
    let back = tallies_of(alloc, back)?;
    gather(alloc, Vec::from_array(alloc, [front, middle, back])?)
}

fn numbers_of_two(alloc: Global, tallies: &[Tally<'_>]) -> Result<Numbers, NoMemory>
    requires { length tallies.now ≡ 2 }
{
    let first = Counters {
        interchange: 5,
        group: 40,
        set: 20,
    };
    let second = Counters {
        interchange: 999_999_998,
        group: 999_999_999,
        set: 999_999_999,
    };
    numbers_for(alloc, tallies, &[first, second], &[2, 3])
}

#[test]
fn partners_numbers_follow_wherever_events_are_cut(rt: HostRuntime) -> Result<(), Fail> {
    let alloc = rt.alloc();
    for first in 0..=HAPPENINGS.len() {
        for more in 0..=HAPPENINGS.len() {
            let all = gathered(alloc, HAPPENINGS, first, more)?;
            let tallies = all.list();
            assert!(rt; tallies.len() == 2);
            if tallies.len() == 2 {
                let numbers = numbers_of_two(alloc, tallies)?;
                assert!(rt; numbers.as_slice() == OF_TWO);
            }
        }
    }
    Ok(())
}
