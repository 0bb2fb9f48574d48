ghost use Rattle.std.specs.Prelude.{◌≡◌, ◌+◌, ◌<◌, ◌^◌, IfOk, length};
ghost use Rattle.mailbox.specs.Deliveries.{AreDelivered};
ghost use Rattle.night_report.specs.Told.{told_alone, told_behind};

use crate::told::ReportLines;
use answered_sets::JudgedInterchange;
use hub_kinds::NoMemory;
use mailbox::{Deliveries, all_outcomes, deliver};
use partner_setup::Setup;
use std::alloc::Global;

/// What is reported of interchanges, and which of their sets are delivered to whom: the outcomes of each set are worked out once for both.
#[derive(Drop)]
pub struct Reported<'j, 'i, 'a> {
    /// The lines of the report.
    pub lines: ReportLines,
    /// The sets that are delivered to each partner, by the partners' places in the setup.
    pub deliveries: Deliveries<'j, 'i, 'a>,
}

/// Reports these interchanges alone, those of a text that begins at the offset `base`, and delivers their sets; they are numbered on after
/// `before` others.
pub(crate) fn report_alone<'j, 'i: 'j, 'a: 'i>(
    alloc: Global,
    setup: &Setup,
    base: u64,
    before: u64,
    interchanges: &'j [JudgedInterchange<'i, 'a>],
) -> Result<Reported<'j, 'i, 'a>, NoMemory>
    requires { before + length interchanges.now < 2 ^ 64 }
    ensures lines { IfOk result (λ all. all.lines ≡ told_alone setup.now base before interchanges.entry.now) }
    ensures deliveries { IfOk result (λ all. AreDelivered setup.now interchanges.entry.now all.deliveries.items) }
{
    let outcomes = all_outcomes(alloc, setup, interchanges)?;
    let lines = ReportLines::of(
        alloc,
        setup,
        base,
        before,
        interchanges,
        outcomes.as_slice(),
    )?;
    let deliveries = deliver(alloc, setup, interchanges, outcomes.as_slice())?;
    Ok(Reported { lines, deliveries })
}

/// Adds to the lines `lines` those of more interchanges, of a text that begins at the offset `base`, and delivers their sets.
pub(crate) fn report_behind<'j, 'i: 'j, 'a: 'i>(
    alloc: Global,
    lines: ReportLines,
    setup: &Setup,
    base: u64,
    interchanges: &'j [JudgedInterchange<'i, 'a>],
) -> Result<Reported<'j, 'i, 'a>, NoMemory>
    requires { lines.count + length interchanges.now < 2 ^ 64 }
    ensures lines { IfOk result (λ all. all.lines ≡ told_behind setup.now base lines interchanges.entry.now) }
    ensures deliveries { IfOk result (λ all. AreDelivered setup.now interchanges.entry.now all.deliveries.items) }
{
    let outcomes = all_outcomes(alloc, setup, interchanges)?;
    let lines = lines.append(setup, base, interchanges, outcomes.as_slice())?;
    let deliveries = deliver(alloc, setup, interchanges, outcomes.as_slice())?;
    Ok(Reported { lines, deliveries })
}
