ghost use Rattle.std.specs.Prelude.{◌≡◌, IfErr, IfOk, OnOk, None, Some, map, option_map};
ghost use Rattle.std.specs.List.{AllZip, filter_map, list_all};
ghost use Rattle.record_review.specs.Records as records;

use crate::found::found_at;
use crate::names::path_in;
use hub_kinds::{Items, NoMemory, Text, copy_text};
use night_entries::sum_of;
use night_folder::read_paper;
use night_marks::NightMark;
use night_record::{NightRecord, RecordFault, read_record};
use record_chain::ReadNight;
use std::alloc::Global;
use std::rt::Files;

/// Why a night has no record.
#[derive(Clone, Copy, Debug, PartialEq, Eq)]
pub(crate) enum RecordState {
    /// It can't be read.
    Unread,
    /// Its bytes are no record.
    NoRecord,
}

/// A night without a record.
#[derive(Drop)]
pub(crate) struct BadRecord {
    pub(crate) night: Text,
    pub(crate) state: RecordState,
}

/// What was read of a night's record.
#[derive(Drop)]
pub(crate) enum RecordRead {
    Night(ReadNight),
    Bad(BadRecord),
}

/// A night without a record.
fn bad(alloc: Global, name: &[u8], state: RecordState) -> Result<RecordRead, NoMemory>
    ensures { IfOk result (λ read. read ≡ records.bad_read name.now state) }
{
    Ok(RecordRead::Bad(BadRecord {
        night: copy_text(alloc, name)?,
        state,
    }))
}

/// The night in the folder at the path `folder`, whose record is `told`, of these `bytes`.
fn night_of<R: Files + AllocGlobal + Clone + Drop>(
    rt: &R,
    folder: &[u8],
    told: NightRecord,
    bytes: &[u8],
) -> Result<RecordRead, NoMemory>
    ensures { IfOk result (records.IsNightRead folder.now told bytes.now) }
{
    Ok(RecordRead::Night(ReadNight {
        record: told,
        sum: sum_of(rt.alloc(), bytes)?,
        found: Items::from_vec(found_at(rt, folder)?),
    }))
}

/// What the `bytes` of the record of the night `name` say, whose folder is at the path `folder`.
fn read_of<R: Files + AllocGlobal + Clone + Drop>(
    rt: &R,
    folder: &[u8],
    name: &[u8],
    bytes: Option<&[u8]>,
) -> Result<RecordRead, NoMemory>
    ensures { IfOk result (records.IsReadOf folder.now name.now (option_map (λ b. b.now) bytes.entry)) }
{
    let Some(bytes) = bytes else {
        return bad(rt.alloc(), name, RecordState::Unread);
    };
    match read_record(rt.alloc(), bytes) {
        Ok(told) => night_of(rt, folder, told, bytes),
        Err(RecordFault::Memory) => Err(NoMemory),
        Err(RecordFault::CutOff | RecordFault::Wrong(_)) => {
            bad(rt.alloc(), name, RecordState::NoRecord)
        }
    }
}

/// Reads the record of the night `mark` of the folder at the path `nights`, and the files in its folder.
fn read_at<R: Files + AllocGlobal + Clone + Drop>(
    rt: &R,
    nights: &[u8],
    mark: &NightMark,
) -> Result<RecordRead, NoMemory>
    ensures { IfOk result (records.IsRecordRead nights.now mark.now) }
{
    let folder = path_in(rt.alloc(), nights, mark.name.as_slice())?;
    let file = read_paper(rt, folder.as_slice(), b"night.toml")?;
    read_of(rt, folder.as_slice(), mark.name.as_slice(), file.bytes())
}

/// Reads the records of the nights `order` of the folder at the path `nights`.
pub(crate) fn read_records<R: Files + AllocGlobal + Clone + Drop>(
    rt: &R,
    nights: &[u8],
    order: &[&NightMark],
) -> Result<Vec<RecordRead>, NoMemory>
    ensures { IfOk result (λ reads. AllZip (records.IsRecordRead nights.now) (map (λ n. n.now) order.now) reads.items) }
{
    let mut reads = Vec::new(rt.alloc());
    for i in 0..order.len() {
        reads.push(read_at(rt, nights, order[i])?)?;
    }
    Ok(reads)
}

fn is_unread(read: &RecordRead) -> bool
    ensures { result ≡ records.is_unread read.now }
{
    match read {
        RecordRead::Night(_) => false,
        RecordRead::Bad(bad) => match bad.state {
            RecordState::Unread => true,
            RecordState::NoRecord => false,
        },
    }
}

/// Whether no record can be read.
pub(crate) fn are_unread(reads: &[RecordRead]) -> bool
    ensures { result ≡ list_all records.is_unread reads.now }
{
    reads.iter().all(|read| is_unread(read))
}

/// The nights whose records were read, and the others.
pub(crate) fn parted(
    alloc: Global,
    reads: Vec<RecordRead>,
) -> Result<(Vec<ReadNight>, Vec<BadRecord>), NoMemory>
    ensures nights { IfOk result (λ both. both.0.items ≡ filter_map records.night_in reads.items) }
    ensures bad { IfOk result (λ both. both.1.items ≡ filter_map records.bad_in reads.items) }
{
    let mut nights = Vec::new(alloc);
    let mut bad = Vec::new(alloc);
    for read in reads {
        match read {
            RecordRead::Night(night) => nights.push(night)?,
            RecordRead::Bad(other) => bad.push(other)?,
        }
    }
    Ok((nights, bad))
}
