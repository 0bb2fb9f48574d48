ghost use Rattle.std.specs.Prelude.{◌≡◌, None, false, true, IfErr, IfOk, OnOk, map};
ghost use Rattle.std.specs.List.{AllZip, filter_map};
ghost use Rattle.std.specs.Option.{option_or};
ghost use Rattle.night_folder.specs.Files.{unread};
ghost use Rattle.night_folder.specs.Nights as spec;
ghost use Rattle.night_folder.specs.declared.files.NightFiles.{NightFiles};
ghost use Rattle.night_marks.specs.declared.mark.NightMark.{NightMark};
ghost use Rattle.night_entries.specs.Refused.{IsEntryFault};
ghost use Rattle.night_entries.specs.declared.entry.Papers.{Papers};

use crate::archived::read_archived;
use crate::files::{Left, MadeOf, NightFiles, read_files};
use crate::paper::{PaperAt, path_in};
use hub_kinds::{NoMemory, copy_text};
use hub_ledger::NightEntry;
use night_entries::{EntryFault, NamedSum, Paper, Papers, entry_of, sum_of};
use night_marks::{BadFile, FileState, NightFile, NightMark};
use std::alloc::Global;
use std::rt::Files;

/// What was read of a night.
#[derive(Drop)]
pub enum NightRead {
    /// What is kept of it.
    Entry(NightEntry),
    /// The file that isn't what it must be.
    Bad(BadFile),
}

/// Why there isn't an entry.
#[derive(Clone, Copy, Debug, PartialEq, Eq)]
pub(crate) enum NightFault {
    File(NightFile, FileState),
    Memory,
}

impl From<NoMemory> for NightFault {
    ghost use Rattle.std.specs.Prelude.{◌≡◌};
    ghost use Rattle.night_folder.specs.declared.night.NightFault.TheVariants.{Memory};

    ghost from_gives = { λ _ fault. fault ≡ Memory };

    fn from(_error: NoMemory) -> NightFault {
        NightFault::Memory
    }
}

/// The file, if it can't be read.
pub(crate) fn unread(paper: &PaperAt, file: NightFile) -> Option<NightFile>
    ensures { result ≡ unread file paper.now.bytes }
{
    match paper.bytes() {
        Some(_) => None,
        None => Some(file),
    }
}

pub(crate) fn or(first: Option<NightFile>, second: Option<NightFile>) -> Option<NightFile>
    ensures { result ≡ option_or first second }
{
    match first {
        Some(file) => Some(file),
        None => second,
    }
}

fn unread_of(made: &MadeOf) -> Option<NightFile>
    ensures { result ≡ spec.unread_of made.now }
{
    let sum = or(
        unread(&made.input, NightFile::Input),
        unread(&made.input_sum, NightFile::InputSum),
    );
    let counters = or(unread(&made.counters, NightFile::Counters), sum);
    or(unread(&made.setup, NightFile::Setup), counters)
}

fn unlisted(left: &Left) -> Option<NightFile>
    ensures { result ≡ unread NightFile.Out left.now.found }
{
    match &left.found {
        Some(_) => None,
        None => Some(NightFile::Out),
    }
}

fn unread_left(left: &Left) -> Option<NightFile>
    ensures { result ≡ spec.unread_left left.now }
{
    let track = or(unread(&left.track, NightFile::Track), unlisted(left));
    let sums = or(unread(&left.sums, NightFile::Sums), track);
    or(unread(&left.next_counters, NightFile::NextCounters), sums)
}

/// The sums of the files that a night gave.
fn sums_or_none(left: &Left) -> &[NamedSum]
    ensures { result.now ≡ spec.sums_or_none left.now.found }
{
    match &left.found {
        Some(found) => found.as_slice(),
        None => &[],
    }
}

/// The bytes of a night's files.
fn papers_of<'a>(mark: &'a NightMark, files: &'a NightFiles) -> Papers<'a>
    ensures { spec.ArePapersOf mark.entry.now files.entry.now result }
{
    Papers {
        name: mark.name.as_slice(),
        moment: mark.moment.as_slice(),
        setup: files.made.setup.bytes_or_none(),
        counters: files.made.counters.bytes_or_none(),
        next_counters: files.left.next_counters.bytes_or_none(),
        sums: files.left.sums.bytes_or_none(),
        input: files.made.input.bytes_or_none(),
        track: files.left.track.bytes_or_none(),
        again: files.made.again.bytes_or_none(),
        found: sums_or_none(&files.left),
    }
}

/// Whether the sum of `input` was written down.
fn is_summed(alloc: Global, input: &[u8], written: &[u8]) -> Result<bool, NoMemory>
    ensures { IfOk result (λ summed. summed ≡ spec.is_summed input.now written.now) }
{
    let sum = sum_of(alloc, input)?;
    Ok(written.starts_with(sum.as_slice()))
}

fn file_of(paper: Paper) -> NightFile
    ensures { (mark : NightMark) → (files : NightFiles) → spec.IsRefusedIn mark files paper → spec.IsWrong mark files result }
{
    match paper {
        Paper::Moment => NightFile::Moment,
        Paper::Setup => NightFile::Setup,
        Paper::Counters => NightFile::Counters,
        Paper::NextCounters => NightFile::NextCounters,
        Paper::Sums => NightFile::Sums,
        Paper::Track => NightFile::Track,
        Paper::Again => NightFile::Again,
    }
}

/// The fault of a file of which no entry is made.
fn fault_of(fault: EntryFault) -> NightFault
    ensures { (mark : NightMark) → (files : NightFiles) → (papers : Papers) → spec.ArePapersOf mark files papers
        → IsEntryFault papers fault → spec.IsFaultOf mark files result }
{
    match fault {
        EntryFault::Memory => NightFault::Memory,
        EntryFault::Unreadable(paper) => NightFault::File(file_of(paper), FileState::Wrong),
    }
}

/// The first fault of the files of a night that shows before they are read.
fn checked(alloc: Global, files: &NightFiles) -> Result<(), NightFault>
    ensures each_read { OnOk result (spec.first_unread files.now ≡ None) }
    ensures summed { OnOk result (spec.is_as_summed files.now.made ≡ true) }
    ensures fault { (mark : NightMark) → IfErr result (spec.IsFaultOf mark files.now) }
{
    if let Some(file) = or(unread_of(&files.made), unread_left(&files.left)) {
        return Err(NightFault::File(file, FileState::Unread));
    }
    let input = files.made.input.bytes_or_none();
    if !is_summed(alloc, input, files.made.input_sum.bytes_or_none())? {
        return Err(NightFault::File(NightFile::Input, FileState::Wrong));
    }
    Ok(())
}

/// What is kept of a night, by its files.
fn entry_by(alloc: Global, mark: &NightMark, files: &NightFiles) -> Result<NightEntry, NightFault>
    ensures entry { IfOk result (spec.IsEntryOf mark.now files.now) }
    ensures fault { IfErr result (spec.IsFaultOf mark.now files.now) }
{
    checked(alloc, files)?;
    let papers = papers_of(mark, files);
    match entry_of(alloc, &papers) {
        Ok(entry) => Ok(entry),
        Err(fault) => Err(fault_of(fault)),
    }
}

/// What was read of a night, by its files. The only error is out of memory.
fn read_of(alloc: Global, mark: &NightMark, files: &NightFiles) -> Result<NightRead, NoMemory>
    ensures { IfOk result (spec.IsReadOf mark.now files.now) }
{
    match entry_by(alloc, mark, files) {
        Ok(entry) => Ok(NightRead::Entry(entry)),
        Err(NightFault::Memory) => Err(NoMemory),
        Err(NightFault::File(file, state)) => Ok(NightRead::Bad(BadFile {
            night: copy_text(alloc, mark.name.as_slice())?,
            file,
            state,
        })),
    }
}

/// Reads the night `mark` of the folder at the path `nights`, which isn't archived.
fn read_unarchived<R: Files + AllocGlobal + Clone + Drop>(
    rt: &R,
    nights: &[u8],
    mark: &NightMark,
) -> Result<NightRead, NoMemory>
    ensures { IfOk result (spec.IsNightRead nights.now mark.now) }
{
    let folder = path_in(rt.alloc(), nights, mark.name.as_slice())?;
    let files = read_files(rt, folder.as_slice())?;
    read_of(rt.alloc(), mark, &files)
}

/// Reads the night `mark` of the folder at the path `nights`.
fn read_night<R: Files + AllocGlobal + Clone + Drop>(
    rt: &R,
    nights: &[u8],
    mark: &NightMark,
) -> Result<NightRead, NoMemory>
    ensures { IfOk result (spec.IsRead nights.now mark.now) }
{
    if mark.is_archived {
        read_archived(rt, nights, mark)
    } else {
        read_unarchived(rt, nights, mark)
    }
}

/// Reads these nights of the folder at the path `nights`, in their order. The only error is out of memory.
pub fn read_nights<R: Files + AllocGlobal + Clone + Drop>(
    rt: &R,
    nights: &[u8],
    order: &[&NightMark],
) -> Result<Vec<NightRead>, NoMemory>
    ensures { IfOk result (λ reads. AllZip (spec.IsRead nights.now) (map (λ n. n.now) order.now) reads.items) }
{
    let mut reads = Vec::new(rt.alloc());
    for i in 0..order.len() {
        reads.push(read_night(rt, nights, order[i])?)?;
    }
    Ok(reads)
}

/// What is kept of nights, and the files of the others that aren't what they must be. The only error is out of memory.
pub fn entries_in(
    alloc: Global,
    reads: Vec<NightRead>,
) -> Result<(Vec<NightEntry>, Vec<BadFile>), NoMemory>
    ensures entries { IfOk result (λ both. both.0.items ≡ filter_map spec.entry_in reads.items) }
    ensures bad { IfOk result (λ both. both.1.items ≡ filter_map spec.bad_in reads.items) }
{
    let mut entries = Vec::new(alloc);
    let mut bad = Vec::new(alloc);
    for read in reads {
        match read {
            NightRead::Entry(entry) => entries.push(entry)?,
            NightRead::Bad(file) => bad.push(file)?,
        }
    }
    Ok((entries, bad))
}
