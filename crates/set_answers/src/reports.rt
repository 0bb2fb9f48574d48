ghost use Rattle.std.specs.Prelude.{◌≡◌, ◌≤◌, ◌++◌, ◌<◌, ℕ, length, slice_get, Option, Some, IfOk, OnOk};
ghost use Rattle.std.specs.Thread.{IsSync};
ghost use Rattle.hub_kinds.specs.declared.limits.TheConstants.{LONGEST_TEXT};
ghost use Rattle.x12_write.specs.Extends.{Extends};
ghost use Rattle.x12_write.specs.Group.{texts_in_row};
ghost use Rattle.set_answers.specs.Acknowledgments.{present, reports_from};
ghost use Rattle.ack_999.specs.Report.{text_999};
ghost use Rattle.set_answers.specs.Shares.{numbers_from, report_of, written_from};
ghost use Rattle.set_answers.specs.declared.answered.AnsweredGroup.{AnsweredGroup};

use crate::answered::AnsweredGroup;
use ack_999::{append_999, write_999};
use hub_kinds::{Items, NoMemory, Text};
use job_pool::{ManyThreads, OneThread};
use rayon::prelude::*;
use std::alloc::Global;
use std::thread::Threads;
use x12_bytes::Delims;

/// By whom 999s are written, and in which memory.
#[derive(Drop)]
pub(crate) struct ReportedBy<'w, W> {
    /// Where the texts of threads are held.
    pub(crate) alloc: Global,
    /// Who writes them.
    pub(crate) writers: &'w W,
}

/// How many 999s a thread is worth being started for.
const FEWEST: usize = 64;

/// Who writes the 999s of an interchange: one thread, or many.
pub trait GroupReporters {
    // it can be shared by the threads that write
    ghost can_report: { Self → Type 0 };

    /// Writes a 999 for each of these groups that something is answered to, front to back, after what is there (999 guide,
    /// 005010X231); answers how many they are. The only error is out of memory; then a part of them may be there.
    fn append_reports(
        &self,
        alloc: Global,
        out: &mut Vec<u8>,
        delims: &Delims,
        groups: &[Option<AnsweredGroup<'_>>],
    ) -> Result<u64, NoMemory>
        requires ready { can_report self.now }
        requires few { length groups.now ≤ LONGEST_TEXT }
        ensures text { OnOk result
            (out.new.items ≡ out.old.items ++ texts_in_row (reports_from delims.now 1 (present groups.now))) }
        ensures kept { Extends out.old.items out.new.items }
        ensures count { IfOk result (λ count. count ≡ length (present groups.now)) };
}

impl GroupReporters for OneThread {
    ghost can_report = { λ w. Unit {0} };

    fn append_reports(
        &self,
        _alloc: Global,
        out: &mut Vec<u8>,
        delims: &Delims,
        groups: &[Option<AnsweredGroup<'_>>],
    ) -> Result<u64, NoMemory> {
        append_each(out, delims, groups)
    }
}

impl<'r, R: Threads + Sync> GroupReporters for ManyThreads<'r, R> {
    ghost can_report = { λ w. IsSync R.row };

    fn append_reports(
        &self,
        alloc: Global,
        out: &mut Vec<u8>,
        delims: &Delims,
        groups: &[Option<AnsweredGroup<'_>>],
    ) -> Result<u64, NoMemory> {
        if groups.len() <= FEWEST {
            return append_each(out, delims, groups);
        }
        let numbers = numbers_of(alloc, groups)?;
        let share = self.share_of(groups.len(), FEWEST);
        let texts = write_by(self.rt, alloc, delims, groups, numbers.as_slice(), share)?;
        append_texts(out, texts.as_slice())?;
        Ok(count_of(groups))
    }
}

/// Writes the 999s one by one.
fn append_each(
    out: &mut Vec<u8>,
    delims: &Delims,
    groups: &[Option<AnsweredGroup<'_>>],
) -> Result<u64, NoMemory>
    requires { length groups.now ≤ LONGEST_TEXT }
    ensures text { OnOk result (out.new.items ≡ out.old.items ++ texts_in_row (reports_from delims.now 1 (present groups.now))) }
    ensures kept { Extends out.old.items out.new.items }
    ensures count { IfOk result (λ count. count ≡ length (present groups.now)) }
{
    let mut count = 0u64;
    for group in groups {
        if let Some(group) = group {
            append_999(
                out,
                delims,
                &group.answer,
                group.sets.as_slice(),
                count as u32 + 1,
            )?;
            count += 1;
        }
    }
    Ok(count)
}

/// How many groups something is answered to.
fn count_of(groups: &[Option<AnsweredGroup<'_>>]) -> u64
    requires { length groups.now ≤ LONGEST_TEXT }
    ensures { result ≡ length (present groups.now) }
{
    let mut count = 0u64;
    for group in groups {
        if group.is_some() {
            count += 1;
        }
    }
    count
}

/// The number of each 999; a group that nothing is answered to has that of the next.
fn numbers_of(alloc: Global, groups: &[Option<AnsweredGroup<'_>>]) -> Result<Vec<u32>, NoMemory>
    requires { length groups.now ≤ LONGEST_TEXT }
    ensures { IfOk result (λ v. v.items ≡ numbers_from 1 groups.now) }
{
    let mut numbers = Vec::new(alloc);
    let mut before = 0u64;
    for group in groups {
        numbers.push(before as u32 + 1)?;
        if group.is_some() {
            before += 1;
        }
    }
    Ok(numbers)
}

/// Writes what is reported of the group at a place: a 999, or nothing.
fn write_at(
    alloc: Global,
    delims: &Delims,
    groups: &[Option<AnsweredGroup<'_>>],
    number: u32,
    place: usize,
) -> Result<Text, NoMemory>
    requires { place < length groups.now }
    ensures { IfOk result (λ text. (g : Option AnsweredGroup) → slice_get groups.now place ≡ Some g
        → text ≡ report_of delims.now number g) }
{
    match &groups[place] {
        None => Ok(Items::from_vec(Vec::new(alloc))),
        Some(group) => write_one(alloc, delims, group, number),
    }
}

/// Writes the 999 of a group.
fn write_one(
    alloc: Global,
    delims: &Delims,
    group: &AnsweredGroup<'_>,
    number: u32,
) -> Result<Text, NoMemory>
    ensures { IfOk result (λ text. text ≡ text_999 delims.now group.now.answer group.now.sets number) }
{
    let sets = group.sets.as_slice();
    let text = write_999(alloc, &group.answer, sets, delims, number)?;
    Ok(Items::from_vec(text))
}

/// Writes what is reported of each group in threads, and gathers it front to back; a thread takes at least `share` groups.
fn write_by<R: Threads + Sync>(
    rt: &R,
    alloc: Global,
    delims: &Delims,
    groups: &[Option<AnsweredGroup<'_>>],
    numbers: &[u32],
    share: usize,
) -> Result<Vec<Text>, NoMemory>
    requires { numbers.now ≡ numbers_from 1 groups.now }
    ensures { IfOk result (λ v. v.items ≡ written_from delims.now 1 groups.now) }
{
    let written: Result<Vec<Text>, NoMemory> = (0..groups.len())
        .into_par_iter()
        .with_min_len(share)
        .map(
            |i: usize| -> Result<Text, NoMemory>
                requires { (i < length groups.now) × (i < length numbers.now) }
                ensures { IfOk result (λ v. (n : ℕ) (g : Option AnsweredGroup) → slice_get numbers.entry.now i ≡ Some n
                    → slice_get groups.entry.now i ≡ Some g → v ≡ report_of delims.entry.now n g) }
            { write_at(alloc, delims, groups, numbers[i], i) },
        )
        .collect(rt, alloc)?;
    written
}

/// Writes texts after what is there, one after the other.
fn append_texts(out: &mut Vec<u8>, texts: &[Text]) -> Result<(), NoMemory>
    ensures text { OnOk result (out.new.items ≡ out.old.items ++ texts_in_row texts.now) }
    ensures kept { Extends out.old.items out.new.items }
{
    for text in texts {
        out.extend_from_slice(text.as_slice())?;
    }
    Ok(())
}
