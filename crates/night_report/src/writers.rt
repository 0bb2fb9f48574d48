ghost use Rattle.std.specs.Prelude.{◌≡◌, ◌<◌, ◌+◌, ◌^◌, IfOk, length};
ghost use Rattle.std.specs.Thread.{IsSync};
ghost use Rattle.mailbox.specs.Deliveries.{AreDelivered};
ghost use Rattle.night_report.specs.Told.{told_behind};

use crate::halving::append_by;
use crate::reported::{Reported, report_behind};
use crate::told::ReportLines;
use answered_sets::JudgedInterchange;
use hub_kinds::NoMemory;
use job_pool::{ManyThreads, OneThread};
use partner_setup::Setup;
use std::alloc::Global;
use std::thread::Threads;

/// Who writes the lines of a report, and works out whom its sets are delivered to: one thread, or many.
pub trait LineWriters {
    // it can be shared by the threads that write
    ghost can_tell: { Self → Type 0 };

    /// Adds to the lines `lines` those of more interchanges, which are of a text that begins at the offset `base`, and delivers their sets
    /// (X12.6, transaction set). The only error is out of memory.
    fn report<'j, 'i: 'j, 'a: 'i>(
        &self,
        alloc: Global,
        lines: ReportLines,
        setup: &Setup,
        base: u64,
        interchanges: &'j [JudgedInterchange<'i, 'a>],
    ) -> Result<Reported<'j, 'i, 'a>, NoMemory>
        requires ready { can_tell self.now }
        requires few { lines.count + length interchanges.now < 2 ^ 64 }
        ensures lines { IfOk result (λ all. all.lines ≡ told_behind setup.now base lines interchanges.entry.now) }
        ensures deliveries { IfOk result (λ all. AreDelivered setup.now interchanges.entry.now all.deliveries.items) };
}

impl LineWriters for OneThread {
    ghost can_tell = { λ w. Unit {0} };

    fn report<'j, 'i: 'j, 'a: 'i>(
        &self,
        alloc: Global,
        lines: ReportLines,
        setup: &Setup,
        base: u64,
        interchanges: &'j [JudgedInterchange<'i, 'a>],
    ) -> Result<Reported<'j, 'i, 'a>, NoMemory> {
        report_behind(alloc, lines, setup, base, interchanges)
    }
}

impl<'r, R: Threads + Sync> LineWriters for ManyThreads<'r, R> {
    ghost can_tell = { λ w. IsSync R.row };

    fn report<'j, 'i: 'j, 'a: 'i>(
        &self,
        alloc: Global,
        lines: ReportLines,
        setup: &Setup,
        base: u64,
        interchanges: &'j [JudgedInterchange<'i, 'a>],
    ) -> Result<Reported<'j, 'i, 'a>, NoMemory> {
        append_by(
            self.rt,
            alloc,
            lines,
            setup,
            base,
            interchanges,
            self.workers,
        )
    }
}
