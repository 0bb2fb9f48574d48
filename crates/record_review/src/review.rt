ghost use Rattle.std.specs.Prelude.{◌≡◌, ◌↔◌, ◌⊎◌, ◌++◌, [], IfOk, map, option_map};
ghost use Rattle.std.specs.List.{AllZip};
ghost use Rattle.night_folder.specs.Home.{archive_of};
ghost use Rattle.night_marks.specs.Count as count;
ghost use Rattle.record_chain.specs.Chained.{AreChained};
ghost use Rattle.record_review.specs.Records.{IsRecordRead};
ghost use Rattle.record_review.specs.Reviewed as reviewed;

use crate::lines::records_text;
use crate::read::{BadRecord, RecordRead, are_unread, parted, read_records};
use hub_kinds::NoMemory;
use night_folder::archive_path;
use night_marks::{NightMark, archived, unarchived};
use record_chain::{ReadNight, chain_breaks};
use std::alloc::Global;
use std::rt::Files;

/// What is printed of the records of nights, and the status.
#[derive(Debug, Drop)]
pub struct RecordsReport {
    pub text: Vec<u8>,
    /// 0 exactly if no record can be read, or all go on; otherwise 1.
    pub status: u8,
}

fn status_of(bad: usize, breaks: usize) -> u8
    ensures zero { (result ≡ 0) ↔ ((bad ≡ 0) × (breaks ≡ 0)) }
    ensures values { (result ≡ 0) ⊎ (result ≡ 1) }
{
    if bad == 0 && breaks == 0 { 0 } else { 1 }
}

/// What is said of `nights`, which come after the night `before`, and of those without a record.
fn report_of(
    alloc: Global,
    before: Option<&ReadNight>,
    nights: &[ReadNight],
    bad: &[BadRecord],
) -> Result<RecordsReport, NoMemory>
    ensures text { IfOk result (λ report.
        report.text.items ≡ reviewed.report_text bad.now (option_map (λ b. b.now) before.entry) nights.now) }
    ensures clean { IfOk result (λ report.
        (report.status ≡ 0) ↔ ((bad.now ≡ []) × AreChained (option_map (λ b. b.now) before.entry) nights.now)) }
    ensures values { IfOk result (λ report. (report.status ≡ 0) ⊎ (report.status ≡ 1)) }
{
    let breaks = chain_breaks(alloc, before, nights)?;
    Ok(RecordsReport {
        text: records_text(alloc, bad, nights, breaks.as_slice())?,
        status: status_of(bad.len(), breaks.len()),
    })
}

/// The nights without a record of `first`, and after them those of `rest`.
fn all_bad(first: Vec<BadRecord>, rest: Vec<BadRecord>) -> Result<Vec<BadRecord>, NoMemory>
    ensures { IfOk result (λ all. all.items ≡ first.items ++ rest.items) }
{
    let mut all = first;
    let mut rest = rest;
    all.append(&mut rest)?;
    Ok(all)
}

/// The first of `nights`.
fn first_of(nights: &[ReadNight]) -> Option<&ReadNight>
    ensures { option_map (λ night. night.now) result ≡ reviewed.first_of nights.entry.now }
{
    match nights {
        [] => None,
        [night, ..] => Some(night),
    }
}

/// Whether no record of `first` and of `reads` can be read.
fn none_read(first: &[RecordRead], reads: &[RecordRead]) -> bool
    ensures { result ≡ reviewed.are_unread first.now reads.now }
{
    are_unread(first) && are_unread(reads)
}

/// What is said of the records `first`, of archived nights, and `reads`, of the others.
fn reviewed(
    alloc: Global,
    first: Vec<RecordRead>,
    reads: Vec<RecordRead>,
) -> Result<RecordsReport, NoMemory>
    ensures text { IfOk result (λ report. report.text.items ≡ reviewed.reviewed_text first.items reads.items) }
    ensures clean { IfOk result (λ report. (report.status ≡ 0) ↔ reviewed.AreClean first.items reads.items) }
    ensures values { IfOk result (λ report. (report.status ≡ 0) ⊎ (report.status ≡ 1)) }
{
    if none_read(first.as_slice(), reads.as_slice()) {
        return Ok(RecordsReport {
            text: Vec::new(alloc),
            status: 0,
        });
    }
    let (archived, bad_first) = parted(alloc, first)?;
    let (nights, bad) = parted(alloc, reads)?;
    let before = first_of(archived.as_slice());
    let bad = all_bad(bad_first, bad)?;
    report_of(alloc, before, nights.as_slice(), bad.as_slice())
}

/// Reads the records of the archived nights of `order`. Their folder is in the one at the path `nights`.
fn read_archived<R: Files + AllocGlobal + Clone + Drop>(
    rt: &R,
    nights: &[u8],
    order: &[&NightMark],
) -> Result<Vec<RecordRead>, NoMemory>
    ensures { IfOk result (λ reads.
        AllZip (IsRecordRead (archive_of nights.now)) (count.archived (map (λ n. n.now) order.now)) reads.items) }
{
    let home = archive_path(rt.alloc(), nights)?;
    let marks = archived(rt.alloc(), order)?;
    read_records(rt, home.as_slice(), marks.as_slice())
}

/// Reads the records of the other nights of `order`, which are in the folder at the path `nights`.
fn read_unarchived<R: Files + AllocGlobal + Clone + Drop>(
    rt: &R,
    nights: &[u8],
    order: &[&NightMark],
) -> Result<Vec<RecordRead>, NoMemory>
    ensures { IfOk result (λ reads. AllZip (IsRecordRead nights.now) (count.unarchived (map (λ n. n.now) order.now)) reads.items) }
{
    let marks = unarchived(rt.alloc(), order)?;
    read_records(rt, nights, marks.as_slice())
}

/// What is said of the records of the nights `order` of the folder at the path `nights`. The record of archived nights is that of the last
/// of them: the next night is to name it, and it isn't compared with files. The only error is out of memory.
pub fn review_records<R: Files + AllocGlobal + Clone + Drop>(
    rt: &R,
    nights: &[u8],
    order: &[&NightMark],
) -> Result<RecordsReport, NoMemory>
    ensures reviewed { IfOk result (λ report.
        reviewed.AreReviewed nights.now (map (λ n. n.now) order.now) report.text.items report.status) }
    ensures values { IfOk result (λ report. (report.status ≡ 0) ⊎ (report.status ≡ 1)) }
{
    let first = read_archived(rt, nights, order)?;
    let reads = read_unarchived(rt, nights, order)?;
    reviewed(rt.alloc(), first, reads)
}
