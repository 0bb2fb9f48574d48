ghost use Rattle.std.specs.Prelude.{◌≡◌, ◌++◌, ◌∷◌, [], List, IfErr, IfOk, OnOk, reverse};
ghost use Rattle.std.specs.List.{AllZip};
ghost use Rattle.day_files.specs.Listing.{listing_of};
ghost use Rattle.day_files.specs.Members.{IsGathered};
ghost use Rattle.gather_command.specs.Members.{taken_of};
ghost use Rattle.hub_ledger.specs.declared.entry.NightEntry.{NightEntry};
ghost use Rattle.night_breaches.specs.Deliveries.{AreDeliveries};
ghost use Rattle.night_command.specs.CommandLine.{CanShare};
ghost use Rattle.hub_night.specs.Day as day;
ghost use Rattle.hub_folder.specs.Failure.{IsBefore};

use crate::night::{Draft, draft_of};
use crate::setting::Setting;
use day_files::{
    Content, DayFault, DayFile, GatheredFile, Member, OldSet, again_table, are_whole, gather, join,
    some_goes_in,
};
use gather_command::taken_of;
use hub_folder::{Failure, HubPapers, Older};
use hub_kinds::{Items, NoMemory, Text, Texts, copy_text};
use hub_ledger::NightEntry;
use night_breaches::{Deliveries, Delivery, deliveries_of, first_delivery};
use std::alloc::Global;
use std::sync::Wait;
use std::thread::Threads;
use std::time::Clock;

/// What goes into a night of the files of a day, and what is said of them.
#[derive(Drop)]
pub struct Day {
    /// The list of the files.
    pub listing: Text,
    /// The table of the sets that are asked for again.
    pub again: Text,
    /// The night's input.
    pub input: Text,
    /// A line for each file.
    pub lines: Text,
    /// Whether each file goes in, and is whole.
    pub is_whole: bool,
}

/// The files of a day that were judged.
#[derive(Drop)]
pub enum Judged {
    /// Each is set aside. These are the lines on them.
    Aside(Text),
    Day(Day),
}

fn gathered(alloc: Global, content: &Content) -> Result<GatheredFile, Failure>
    ensures gathered { IfOk result (λ g. IsGathered content.now g.outcome g.closed) }
    ensures before { IfErr result IsBefore }
{
    match gather(alloc, content) {
        Ok(file) => Ok(file),
        Err(DayFault::TooLong) => Err(Failure::InputTooLong),
        Err(DayFault::Memory) => Err(Failure::Memory),
    }
}

fn old_set(alloc: Global, delivery: Option<Delivery<'_, '_>>) -> Result<Option<OldSet>, NoMemory>
    ensures { IfOk result (λ old. old ≡ day.old_set delivery.entry) }
{
    match delivery {
        None => Ok(None),
        Some(delivery) => Ok(Some(OldSet {
            key: copy_text(alloc, delivery.key.bytes())?,
            night: copy_text(alloc, delivery.night.bytes())?,
        })),
    }
}

/// The keys of the sets that the night of `closed` alone delivers.
fn delivered_alone<R: Threads + Wait + Clock + Sync>(
    rt: &R,
    alloc: Global,
    setting: &Setting<'_>,
    older: &Older<'_>,
    papers: &HubPapers,
    closed: &[u8],
) -> Result<Texts, Failure>
    requires sharing { CanShare setting.now.sharing }
    ensures delivered { IfOk result (day.AreDeliveredAlone setting.now older.now papers.now closed.now) }
    ensures before { IfErr result IsBefore }
{
    let draft = draft_of(rt, alloc, setting, older, papers, closed, b"")?;
    let Draft {
        number: _,
        folder: _,
        laid: _,
        entry,
        tables: _,
    } = draft;
    let NightEntry {
        name: _,
        moment: _,
        delivered,
        again: _,
        addresses: _,
        files: _,
    } = entry;
    Ok(delivered)
}

/// The keys of the sets that a file which was gathered delivers alone; one that isn't taken has no night.
fn keys_alone<R: Threads + Wait + Clock + Sync>(
    rt: &R,
    alloc: Global,
    setting: &Setting<'_>,
    older: &Older<'_>,
    papers: &HubPapers,
    file: &GatheredFile,
) -> Result<Texts, Failure>
    requires sharing { CanShare setting.now.sharing }
    ensures keys { IfOk result (day.AreKeysAlone setting.now older.now papers.now (taken_of file.now.outcome) file.now.closed) }
    ensures before { IfErr result IsBefore }
{
    match taken_of(file.outcome) {
        None => Ok(Items::from_vec(Vec::new(alloc))),
        Some(_) => delivered_alone(rt, alloc, setting, older, papers, file.closed.as_slice()),
    }
}

/// The first of `keys` that an older night delivered, as `known` says; none of a file that is asked for again.
fn old_of(
    alloc: Global,
    known: &Deliveries<'_>,
    keys: &[Text],
    is_again: bool,
) -> Result<Option<OldSet>, NoMemory>
    ensures { (older : List NightEntry) → AreDeliveries older known.now → IfOk result (λ old. old ≡ day.old_by older is_again keys.now) }
{
    if is_again {
        return Ok(None);
    }
    old_set(alloc, first_delivery(known, keys))
}

/// The keys that a file which is asked for again frees.
fn freed_by(keys: Texts, is_again: bool) -> Option<Texts>
    ensures { result ≡ day.freed_by is_again keys }
{
    if is_again { Some(keys) } else { None }
}

fn member_of<R: Threads + Wait + Clock + Sync>(
    rt: &R,
    alloc: Global,
    setting: &Setting<'_>,
    older: &Older<'_>,
    papers: &HubPapers,
    known: &Deliveries<'_>,
    file: &DayFile,
) -> Result<Member, Failure>
    requires sharing { CanShare setting.now.sharing }
    requires known { AreDeliveries (reverse older.now.entries) known.now }
    ensures member { IfOk result (day.IsMemberOf setting.now older.now papers.now file.now) }
    ensures before { IfErr result IsBefore }
{
    let taken = gathered(alloc, &file.content)?;
    let keys = keys_alone(rt, alloc, setting, older, papers, &taken)?;
    let old = old_of(alloc, known, keys.as_slice(), file.is_again)?;
    Ok(Member {
        path: copy_text(alloc, file.path.as_slice())?,
        outcome: taken.outcome,
        closed: taken.closed,
        old,
        again: freed_by(keys, file.is_again),
    })
}

fn push(members: &mut Vec<Member>, member: Member) -> Result<(), NoMemory>
    ensures { OnOk result (members.new.items ≡ members.old.items ++ member ∷ []) }
{
    members.push(member)?;
    Ok(())
}

/// Judges each file by itself.
fn members_of<R: Threads + Wait + Clock + Sync>(
    rt: &R,
    alloc: Global,
    setting: &Setting<'_>,
    older: &Older<'_>,
    papers: &HubPapers,
    files: &[DayFile],
) -> Result<Vec<Member>, Failure>
    requires sharing { CanShare setting.now.sharing }
    ensures members { IfOk result (λ members. AllZip (day.IsMemberOf setting.now older.now papers.now) files.now members.items) }
    ensures before { IfErr result IsBefore }
{
    let known = deliveries_of(alloc, older.entries.as_slice())?;
    let mut members = Vec::new(alloc);
    for i in 0..files.len() {
        let member = member_of(rt, alloc, setting, older, papers, &known, &files[i])?;
        push(&mut members, member)?;
    }
    Ok(members)
}

/// Judges the files of a day, of which `listing` is the list.
pub fn day_of<R: Threads + Wait + Clock + Sync>(
    rt: &R,
    alloc: Global,
    setting: &Setting<'_>,
    older: &Older<'_>,
    papers: &HubPapers,
    files: &[DayFile],
    listing: Vec<u8>,
) -> Result<Judged, Failure>
    requires sharing { CanShare setting.now.sharing }
    requires listing { listing.items ≡ listing_of files.now }
    ensures judged { IfOk result (day.IsJudgedDay setting.now older.now papers.now files.now) }
    ensures before { IfErr result IsBefore }
{
    let members = members_of(rt, alloc, setting, older, papers, files)?;
    let joined = join(alloc, members.as_slice())?;
    let lines = Items::from_vec(joined.lines);
    if !some_goes_in(members.as_slice()) {
        return Ok(Judged::Aside(lines));
    }
    let again = again_table(alloc, members.as_slice())?;
    Ok(Judged::Day(Day {
        listing: Items::from_vec(listing),
        again: Items::from_vec(again),
        input: Items::from_vec(joined.input),
        lines,
        is_whole: are_whole(members.as_slice()),
    }))
}
