ghost use Rattle.std.specs.Prelude.{◌≡◌};
ghost use Rattle.count_numbers.specs.Tally.{groups_in_one};

use crate::run::{Run, RunKey, join_runs, push_run, single, together};
use hub_kinds::NoMemory;
use std::alloc::Global;
use std::marker::Model;

/// What a stretch of a night leaves to be numbered for one partner.
#[derive(Debug, Drop)]
pub struct Tally<'a> {
    acknowledgments: u64,
    groups: u64,
    runs: Vec<Run<'a>>,
}

impl<'a> Model for Tally<'a> {
    ghost use Rattle.count_numbers.specs.Tally.{PartnerTally};

    ghost Value = { PartnerTally };

    ghost view = { λ t. record { acknowledgments = t.acknowledgments; groups = t.groups; runs = t.runs.items } };
}

impl<'a> Tally<'a> {
    ghost use Rattle.std.specs.Prelude.{◌≡◌, ◌++◌, [], ◌∷◌, List, IfOk, OnOk, OnErr};
    ghost use Rattle.count_numbers.specs.Tally.{Entry, Acknowledged, Delivered, tally_of, empty_tally, joined};

    /// How many acknowledgments there are.
    pub fn acknowledgments(&self) -> u64
        ensures { result ≡ self.now.acknowledgments }
    {
        let Tally {
            acknowledgments,
            ..
        } = self;
        *acknowledgments
    }

    /// How many of them have a group (X12.6, GS to GE).
    pub fn groups(&self) -> u64
        ensures { result ≡ self.now.groups }
    {
        let Tally { groups, .. } = self;
        *groups
    }

    /// The runs of delivered sets that go into one group, in their order.
    pub fn runs(&self) -> &[Run<'a>]
        ensures { result.now ≡ self.now.runs }
    {
        self.runs.as_slice()
    }

    /// A tally of nothing.
    pub fn new(alloc: Global) -> Tally<'a>
        ensures value { result ≡ empty_tally }
        ensures empty { result ≡ tally_of [] }
    {
        Tally {
            acknowledgments: 0,
            groups: 0,
            runs: Vec::new(alloc),
        }
    }

    /// Counts one acknowledgment more, and its group, where it has one.
    pub fn acknowledge(&mut self, has_group: bool)
        ensures { (es : List Entry) → self.old ≡ tally_of es → self.new ≡ tally_of (es ++ Acknowledged has_group ∷ []) }
    {
        self.acknowledgments = together(self.acknowledgments, 1);
        self.groups = together(self.groups, groups_in_one(has_group));
    }

    /// Counts one delivered set more.
    pub fn deliver(&mut self, key: RunKey<'a>) -> Result<(), NoMemory>
        ensures counted { OnOk result ((es : List Entry) → self.old ≡ tally_of es
            → self.new ≡ tally_of (es ++ Delivered key.entry ∷ [])) }
        ensures kept { OnErr result (self.new ≡ self.old) }
    {
        push_run(&mut self.runs, single(key))
    }

    /// The tally of two stretches that follow each other.
    pub fn append(self, back: Tally<'a>) -> Result<Tally<'a>, NoMemory>
        ensures { IfOk result (λ t. t ≡ joined self.entry back.entry) }
    {
        let Tally {
            acknowledgments,
            groups,
            runs,
        } = self;
        let Tally {
            acknowledgments: more,
            groups: more_groups,
            runs: more_runs,
        } = back;
        let acknowledgments = together(acknowledgments, more);
        let groups = together(groups, more_groups);
        let runs = join_runs(runs, more_runs)?;
        Ok(Tally {
            acknowledgments,
            groups,
            runs,
        })
    }
}

/// How many groups an acknowledgment has.
fn groups_in_one(has_group: bool) -> u64
    ensures { result ≡ groups_in_one has_group }
{
    if has_group { 1 } else { 0 }
}
