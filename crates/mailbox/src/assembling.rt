ghost use Rattle.std.specs.Prelude.{◌≡◌, ◌++◌, ◌+◌, ◌≤◌, ◌<◌, ◌^◌, Some, OnOk, IfOk, drop, length, slice_get};
ghost use Rattle.partner_setup.specs.Envelopes.{envelope_to};
ghost use Rattle.partner_setup.specs.declared.partner.Partner.{Partner};
ghost use Rattle.x12_write.specs.Outbound.{AreHeaderEnds};
ghost use Rattle.mailbox.specs.Mailbox.{box_text, group_total};
ghost use Rattle.mailbox.specs.Numbers.{HasCap, HasCounters};
ghost use Rattle.mailbox.specs.Rendered.{box_of_rendered, groups_of, groups_of_rendered};
ghost use Rattle.mailbox.specs.Renumbered.{IsNumber, groups_behind, numbered_interchange};
ghost use Rattle.mailbox.specs.Woven.{HasWoven};

use crate::group_text::append_group;
use crate::grouping::first_group;
use crate::rendered::Rendered;
use crate::rendered_sets::RenderedSets;
use crate::woven::{Cut, Woven};
use answered_sets::PlacedSet;
use count_numbers::num;
use hub_kinds::NoMemory;
use job_pool::OneThread;
use moment::At;
use partner_setup::{Partner, Setup};
use std::alloc::Global;
use x12_write::{OutboundHeader, append_trailer};

/// What a partner finds in its mailbox (X12.5).
#[derive(Drop)]
pub struct Mailbox {
    /// Its text: interchanges, one after the other.
    pub text: Woven,
    /// How many groups they have (X12.6, GS to GE).
    pub groups: u64,
}

/// The sets after the first of them.
fn behind<'x, 'r>(sets: &'x [Rendered<'r>], end: usize) -> &'x [Rendered<'r>]
    requires { end ≤ length sets.now }
    ensures { result.now ≡ drop end sets.entry.now }
{
    &sets[end..]
}

/// Writes the groups of an interchange, the first of them as group number `first`, and answers how many they are.
fn append_groups(
    out: &mut Vec<u8>,
    cuts: &mut Vec<Cut>,
    setup: &Setup,
    partner: &Partner,
    at: &At,
    first: u32,
    sets: &[Rendered<'_>],
) -> Result<u64, NoMemory>
    requires first { IsNumber first }
    ensures text { OnOk result (HasWoven out.old.items cuts.old.items out.new.items cuts.new.items sets.now
        (groups_behind setup.now partner.now at.now first 0 (groups_of sets.now))) }
    ensures count { IfOk result (λ n. n ≡ length (groups_of sets.now)) }
    ensures bound { IfOk result (λ n. n ≤ length sets.now) }
{
    let mut rest = sets;
    let mut count: u64 = 0;
    while !rest.is_empty() {
        let end = first_group(rest);
        let control = num(first, count);
        append_group(out, cuts, setup, partner, at, control, &rest[..end])?;
        count += 1;
        rest = behind(rest, end);
    }
    Ok(count)
}

/// The header of the interchanges to the partner at this place, all but its number.
fn header_for(
    alloc: Global,
    setup: &Setup,
    index: usize,
    partner: &Partner,
    at: &At,
) -> Result<OutboundHeader, NoMemory>
    requires { slice_get setup.now.partners index ≡ Some partner.now }
    ensures { IfOk result (AreHeaderEnds (envelope_to setup.now partner.now) at.now) }
{
    OutboundHeader::new(alloc, &setup.envelope_to(index), at)
}

/// Writes a delivered interchange (X12.5), as number `number`, its first group as number `first`, and answers how many groups it has.
fn append_delivered(
    out: &mut Vec<u8>,
    cuts: &mut Vec<Cut>,
    setup: &Setup,
    header: &OutboundHeader,
    partner: &Partner,
    at: &At,
    number: u32,
    first: u32,
    sets: &[Rendered<'_>],
) -> Result<u64, NoMemory>
    requires header { AreHeaderEnds (envelope_to setup.now partner.now) at.now header.now }
    requires first { IsNumber first }
    ensures text { OnOk result (HasWoven out.old.items cuts.old.items out.new.items cuts.new.items sets.now
        (numbered_interchange setup.now partner.now at.now number first sets.now)) }
    ensures count { IfOk result (λ n. n ≡ length (groups_of sets.now)) }
    ensures bound { IfOk result (λ n. n ≤ length sets.now) }
{
    header.append(out, number)?;
    let groups = append_groups(out, cuts, setup, partner, at, first, sets)?;
    append_trailer(out, &partner.delims, groups, number)?;
    Ok(groups)
}

/// Writes delivered interchanges after this many acknowledgments, of which this many have a group, and answers how many groups they
/// have.
fn append_interchanges(
    out: &mut Vec<u8>,
    cuts: &mut Vec<Cut>,
    setup: &Setup,
    header: &OutboundHeader,
    partner: &Partner,
    at: &At,
    acknowledgments: u64,
    groups: u64,
    sets: &[Rendered<'_>],
) -> Result<u64, NoMemory>
    requires header { AreHeaderEnds (envelope_to setup.now partner.now) at.now header.now }
    requires counters { HasCounters partner.now }
    requires cap { HasCap partner.now }
    ensures text { OnOk result (HasWoven out.old.items cuts.old.items out.new.items cuts.new.items sets.now
        (box_of_rendered setup.now partner.now at.now acknowledgments groups sets.now)) }
    ensures count { IfOk result (λ n. n ≡ groups_of_rendered partner.now.cap sets.now) }
{
    let cap = partner.cap as usize;
    let first = num(partner.counters.interchange, acknowledgments);
    let first_control = num(partner.counters.group, groups);
    let mut rest = sets;
    let mut written: u64 = 0;
    let mut count: u64 = 0;
    while !rest.is_empty() {
        let end = rest.len().min(cap);
        let number = num(first, written);
        let control = num(first_control, count);
        let front = &rest[..end];
        let more = append_delivered(
            out, cuts, setup, header, partner, at, number, control, front,
        )?;
        count += more;
        written += 1;
        rest = behind(rest, end);
    }
    Ok(count)
}

/// What the partner at this place of the setup finds in its mailbox (X12.5, X12.6), by the sets that were written for it: in
/// interchanges that hold as many as its cap says, numbered after this many acknowledgments, and in each the longest groups of sets
/// from one sender with one GS01 and GS08, whose control numbers (GS06) continue after those of the groups of acknowledgments, this many.
/// The only error is out of memory.
pub fn close(
    alloc: Global,
    setup: &Setup,
    partner: usize,
    at: &At,
    acknowledgments: u64,
    groups: u64,
    sets: RenderedSets,
) -> Result<Mailbox, NoMemory>
    requires { partner < length setup.now.partners }
    ensures text { (p : Partner) → slice_get setup.now.partners partner ≡ Some p
        → IfOk result (λ mailbox. mailbox.text ≡ box_of_rendered setup.now p at.now acknowledgments groups sets) }
    ensures groups { (p : Partner) → slice_get setup.now.partners partner ≡ Some p
        → IfOk result (λ mailbox. mailbox.groups ≡ groups_of_rendered p.cap sets) }
{
    let receiver = &setup.partners()[partner];
    let header = header_for(alloc, setup, partner, receiver, at)?;
    let mut out = Vec::new(alloc);
    let mut cuts = Vec::new(alloc);
    let lent = sets.lent(alloc)?;
    let count = append_interchanges(
        &mut out,
        &mut cuts,
        setup,
        &header,
        receiver,
        at,
        acknowledgments,
        groups,
        lent.as_slice(),
    )?;
    drop(lent);
    Ok(Mailbox {
        text: Woven::new(sets, out, cuts),
        groups: count,
    })
}

/// What the partner at this place of the setup finds in its mailbox (X12.5, X12.6): its delivered sets in interchanges that hold
/// as many as its cap says, numbered after this many acknowledgments, and in each the longest groups of sets from one sender with
/// one GS01 and GS08, whose control numbers (GS06) continue after those of the groups of acknowledgments, this many. The only error is
/// out of memory.
pub fn assemble(
    alloc: Global,
    setup: &Setup,
    partner: usize,
    at: &At,
    acknowledgments: u64,
    groups: u64,
    sets: &[PlacedSet<'_, '_, '_>],
) -> Result<Mailbox, NoMemory>
    requires { partner < length setup.now.partners }
    ensures text { (p : Partner) → slice_get setup.now.partners partner ≡ Some p
        → IfOk result (λ mailbox. mailbox.text ≡ box_text setup.now p at.now acknowledgments groups sets.now) }
    ensures groups { (p : Partner) → slice_get setup.now.partners partner ≡ Some p
        → IfOk result (λ mailbox. mailbox.groups ≡ group_total p.cap sets.now) }
{
    let mut written = RenderedSets::none(alloc);
    written.add_all(alloc, &OneThread, &setup.partners()[partner], sets)?;
    close(alloc, setup, partner, at, acknowledgments, groups, written)
}
