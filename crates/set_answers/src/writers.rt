ghost use Rattle.std.specs.Prelude.{length, IfOk};
ghost use Rattle.std.specs.List.{All};
ghost use Rattle.env_index.specs.Words.{HasSpans};
ghost use Rattle.set_answers.specs.CheckedText.{HaveRoom, IsCheckedBehind};
ghost use Rattle.set_answers.specs.FoundRows.{AreFoundRows};

use crate::batch::Batch;
use crate::files::Acknowledgments;
use crate::halving::{FEWEST, Part, answer_by};
use crate::reports::GroupReporters;
use crate::rows::FoundRows;
use crate::walk::{CheckedText, answer_text};
use env_index::Index;
use hub_kinds::NoMemory;
use job_pool::{ManyThreads, OneThread};
use moment::At;
use partner_setup::Setup;
use std::alloc::Global;
use std::thread::Threads;

/// Who answers a batch of which all was found out before, and writes its acknowledgments: one thread, or many.
pub trait ReportWriters: GroupReporters {
    /// Answers each interchange of the settled `index` by its sender and by what was found out at each of its places (`found`), in their
    /// order, and writes the acknowledgments after those in `sent` (X12.5, TA1; 999 guide, 005010X231). The only error is out of memory.
    fn answer_found<'i, 'a>(
        &self,
        alloc: Global,
        setup: &'a Setup,
        at: &At,
        index: &'i Index<'a>,
        found: FoundRows<'a>,
        sent: Vec<Acknowledgments>,
    ) -> Result<CheckedText<'i, 'a>, NoMemory>
        requires ready { Self.can_report self.now }
        requires spans { All (λ e. HasSpans index.now.text e.interchange) index.now.entries }
        requires found { AreFoundRows index.now.text setup.now index.now.entries found }
        requires sent { HaveRoom setup.now at.now (length index.now.entries) sent.items }
        ensures { IfOk result (λ c. IsCheckedBehind index.entry.now.text setup.entry.now at.now index.entry.now.entries
            c.interchanges.items sent.items c.acknowledgments.items) };
}

impl ReportWriters for OneThread {
    fn answer_found<'i, 'a>(
        &self,
        alloc: Global,
        setup: &'a Setup,
        at: &At,
        index: &'i Index<'a>,
        found: FoundRows<'a>,
        sent: Vec<Acknowledgments>,
    ) -> Result<CheckedText<'i, 'a>, NoMemory> {
        answer_text(alloc, self, setup, at, index, found, sent)
    }
}

impl<'r, R: Threads + Sync> ReportWriters for ManyThreads<'r, R> {
    fn answer_found<'i, 'a>(
        &self,
        alloc: Global,
        setup: &'a Setup,
        at: &At,
        index: &'i Index<'a>,
        found: FoundRows<'a>,
        sent: Vec<Acknowledgments>,
    ) -> Result<CheckedText<'i, 'a>, NoMemory> {
        let entries = index.interchanges();
        if self.workers < 2 || entries.len() < FEWEST {
            return answer_text(alloc, self, setup, at, index, found, sent);
        }
        let text = index.text();
        let batch = Batch { setup, at, text };
        let FoundRows { senders, findings } = found;
        let part = Part {
            batch: &batch,
            entries,
            senders: senders.as_slice(),
            found: findings,
            sent,
        };
        answer_by(self.rt, alloc, part, self.workers)
    }
}
