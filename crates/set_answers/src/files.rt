ghost use Rattle.std.specs.Prelude.{◌≡◌, ◌<◌, ◌≤◌, ◌++◌, length, slice_get, Some, OnOk};
ghost use Rattle.count_numbers.specs.Num.{num};
ghost use Rattle.hub_kinds.specs.declared.limits.TheConstants.{LONGEST_TEXT};
ghost use Rattle.partner_setup.specs.declared.partner.Partner.{Partner};
ghost use Rattle.partner_setup.specs.Envelopes.{envelope_to};
ghost use Rattle.set_answers.specs.Acknowledgments.{acknowledgment_text};
ghost use Rattle.set_answers.specs.CheckedText.{with_next};
ghost use Rattle.set_answers.specs.Headers.{IsHeaderTo};

use crate::acknowledge::append_acknowledgment;
use crate::acknowledgment::Acknowledgment;
use crate::reports::{GroupReporters, ReportedBy};
use count_numbers::num;
use hub_kinds::{Items, NoMemory, Text};
use moment::At;
use partner_setup::Setup;
use std::alloc::Global;
use std::marker::Model;
use x12_write::OutboundHeader;

/// The acknowledgments that a partner is sent, one interchange after the other (X12.5, TA1; 999 guide, 005010X231).
#[derive(Drop)]
pub struct Acknowledgments {
    text: Vec<u8>,
    count: u64,
    groups: u64,
}

impl Model for Acknowledgments {
    ghost use Rattle.set_answers.specs.CheckedText.{SentValues};

    ghost Value = { SentValues };

    ghost view = { λ a. record { text = a.text.items; count = a.count; groups = a.groups } };
}

impl Acknowledgments {
    ghost use Rattle.std.specs.Prelude.{◌+◌, ◌^◌};
    ghost use Rattle.std.specs.Prelude.{if◌then◌else◌};
    ghost use Rattle.set_answers.specs.CheckedText.{nothing_sent};
    ghost use Rattle.set_answers.specs.Counted.{continued_by, with_count, without_text};
    ghost use Rattle.set_answers.specs.Headers.{IsHeaderTo};

    /// None yet.
    pub(crate) fn new(alloc: Global) -> Acknowledgments
        ensures { result ≡ nothing_sent }
    {
        Acknowledgments {
            text: Vec::new(alloc),
            count: 0,
            groups: 0,
        }
    }

    /// Their bytes.
    pub fn text(&self) -> &[u8]
        ensures { result.now ≡ self.now.text }
    {
        self.text.as_slice()
    }

    /// How many they are.
    pub fn count(&self) -> u64
        ensures { result ≡ self.now.count }
    {
        let Acknowledgments { count, .. } = self;
        *count
    }

    /// How many of them have a group.
    pub fn groups(&self) -> u64
        ensures { result ≡ self.now.groups }
    {
        let Acknowledgments { groups, .. } = self;
        *groups
    }

    /// Gives their bytes.
    pub fn into_text(self) -> Text
        ensures { result ≡ self.text }
    {
        let Acknowledgments { text, .. } = self;
        Items::from_vec(text)
    }

    /// Acknowledgments with these numbers and no bytes.
    pub(crate) fn without_text(&self, alloc: Global) -> Acknowledgments
        ensures { result ≡ without_text self.now }
    {
        Acknowledgments {
            text: Vec::new(alloc),
            count: self.count,
            groups: self.groups,
        }
    }

    /// Counts one acknowledgment more; `has_group` says whether it has a group.
    pub(crate) fn count_one(&mut self, has_group: bool)
        requires room { self.old.count + 1 < 2 ^ 64 }
        requires groups { self.old.groups + 1 < 2 ^ 64 }
        ensures { self.new ≡ with_count self.old (if has_group then 1 else 0) }
    {
        self.count += 1;
        if has_group {
            self.groups += 1;
        }
    }

    /// Adds acknowledgments that continue these: their numbers count these, too.
    pub(crate) fn append(&mut self, more: Acknowledgments) -> Result<(), NoMemory>
        ensures { OnOk result (self.new ≡ continued_by self.old more) }
    {
        let Acknowledgments {
            mut text,
            count,
            groups,
        } = more;
        self.text.append(&mut text)?;
        self.count = count;
        self.groups = groups;
        Ok(())
    }

    /// Adds an acknowledgment to a partner, by the header of the interchanges to it.
    pub(crate) fn add<W: GroupReporters>(
        &mut self,
        by: &ReportedBy<'_, W>,
        header: &OutboundHeader,
        setup: &Setup,
        partner: usize,
        at: &At,
        acknowledgment: &Acknowledgment<'_, '_>,
    ) -> Result<(), NoMemory>
        requires ready { W.can_report by.now.writers.now }
        requires there { partner < length setup.now.partners }
        requires header { IsHeaderTo setup.now at.now partner header.now }
        requires few { length acknowledgment.now.groups ≤ LONGEST_TEXT }
        requires room { self.old.count + 1 < 2 ^ 64 }
        requires groups { self.old.groups + 1 < 2 ^ 64 }
        ensures { OnOk result ((p : Partner) → slice_get setup.now.partners partner ≡ Some p
            → self.new ≡ with_next setup.now p at.now self.old acknowledgment.now) }
    {
        append_next(
            by,
            &mut self.text,
            header,
            setup,
            partner,
            at,
            self.count,
            self.groups,
            acknowledgment,
        )?;
        self.count_one(acknowledgment.has_reports());
        Ok(())
    }
}

/// The interchange number that comes so far after a partner's first of the night.
fn number_at(setup: &Setup, partner: usize, count: u64) -> u32
    requires there { partner < length setup.now.partners }
    ensures { (p : Partner) → slice_get setup.now.partners partner ≡ Some p → result ≡ num p.counters.interchange count }
{
    let partner = &setup.partners()[partner];
    num(partner.counters.interchange, count)
}

/// The group number that comes so far after a partner's first of the night.
fn control_at(setup: &Setup, partner: usize, groups: u64) -> u32
    requires there { partner < length setup.now.partners }
    ensures { (p : Partner) → slice_get setup.now.partners partner ≡ Some p → result ≡ num p.counters.group groups }
{
    let partner = &setup.partners()[partner];
    num(partner.counters.group, groups)
}

/// Writes an acknowledgment to a partner that had this many, with this many groups, before.
fn append_next<W: GroupReporters>(
    by: &ReportedBy<'_, W>,
    out: &mut Vec<u8>,
    header: &OutboundHeader,
    setup: &Setup,
    partner: usize,
    at: &At,
    count: u64,
    groups: u64,
    acknowledgment: &Acknowledgment<'_, '_>,
) -> Result<(), NoMemory>
    requires ready { W.can_report by.now.writers.now }
    requires there { partner < length setup.now.partners }
    requires header { IsHeaderTo setup.now at.now partner header.now }
    requires few { length acknowledgment.now.groups ≤ LONGEST_TEXT }
    ensures { OnOk result ((p : Partner) → slice_get setup.now.partners partner ≡ Some p
        → out.new.items ≡ out.old.items
        ++ acknowledgment_text (envelope_to setup.now p) at.now (num p.counters.interchange count) (num p.counters.group groups)
        acknowledgment.now) }
{
    let envelope = setup.envelope_to(partner);
    let number = number_at(setup, partner, count);
    let control = control_at(setup, partner, groups);
    append_acknowledgment(
        by,
        out,
        header,
        &envelope,
        at,
        number,
        control,
        acknowledgment,
    )
}
