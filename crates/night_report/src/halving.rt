ghost use Rattle.std.specs.Prelude.{◌≡◌, ◌≤◌, ◌<◌, ◌++◌, ◌+◌, ◌^◌, List, IfOk, length};
ghost use Rattle.std.specs.Thread.{IsSync};
ghost use Rattle.answered_sets.specs.Judged.{JudgedValue};
ghost use Rattle.partner_setup.specs.Setup.{SetupValue};
ghost use Rattle.mailbox.specs.Deliveries.{AreDelivered};
ghost use Rattle.night_report.specs.Told as told;
ghost use Rattle.night_report.specs.Told.{told_alone, told_behind};

use crate::reported::{Reported, report_alone};
use crate::told::ReportLines;
use answered_sets::JudgedInterchange;
use hub_kinds::NoMemory;
use mailbox::joined_deliveries;
use partner_setup::Setup;
use std::alloc::Global;
use std::thread::{Threads, join};

/// How many interchanges are worth a second thread.
const FEWEST: usize = 32;

/// What is reported and delivered of interchanges, and after it of those after them.
fn followed_by<'j, 'i, 'a>(
    first: Reported<'j, 'i, 'a>,
    more: Reported<'j, 'i, 'a>,
) -> Result<Reported<'j, 'i, 'a>, NoMemory>
    requires few { first.lines.count + more.lines.count < 2 ^ 64 }
    requires count { length more.deliveries.items ≤ length first.deliveries.items }
    ensures lines { IfOk result (λ all. all.lines ≡ told.joined first.entry.lines more.entry.lines) }
    ensures deliveries { IfOk result (λ all. (setup : SetupValue) (xs ys : List JudgedValue)
        → AreDelivered setup xs first.entry.deliveries.items → AreDelivered setup ys more.entry.deliveries.items
        → AreDelivered setup (xs ++ ys) all.deliveries.items) }
{
    let Reported { lines, deliveries } = first;
    let Reported {
        lines: others,
        deliveries: later,
    } = more;
    Ok(Reported {
        lines: lines.followed_by(others)?,
        deliveries: joined_deliveries(deliveries, later)?,
    })
}

/// Reports these interchanges alone and delivers their sets, by this many threads at the most: each half of the interchanges by half of
/// them.
#[cycle(halves)]
fn report_by<'j, 'i: 'j, 'a: 'i, R: Threads + Sync>(
    rt: &R,
    alloc: Global,
    setup: &Setup,
    base: u64,
    before: u64,
    interchanges: &'j [JudgedInterchange<'i, 'a>],
    threads: u64,
) -> Result<Reported<'j, 'i, 'a>, NoMemory>
    requires { before + length interchanges.now < 2 ^ 64 }
    ensures lines { IfOk result (λ all. all.lines ≡ told_alone setup.entry.now base before interchanges.entry.now) }
    ensures deliveries { IfOk result (λ all. AreDelivered setup.entry.now interchanges.entry.now all.deliveries.items) }
{
    if threads < 2 || interchanges.len() < FEWEST {
        return report_alone(alloc, setup, base, before, interchanges);
    }
    let (low, high) = interchanges.split_at(interchanges.len() / 2);
    let behind = before + low.len() as u64;
    let front = move || -> Result<Reported<'_, '_, '_>, NoMemory>
        requires { IsSync R.row × (2 ≤ threads) × (before + length low.now < 2 ^ 64) }
        ensures lines { IfOk result (λ all. all.lines ≡ told_alone setup.entry.now base before low.entry.now) }
        ensures deliveries { IfOk result (λ all. AreDelivered setup.entry.now low.entry.now all.deliveries.items) }
    { report_by(rt, alloc, setup, base, before, low, threads / 2) };
    let back = move || -> Result<Reported<'_, '_, '_>, NoMemory>
        requires { IsSync R.row × (2 ≤ threads) × (behind + length high.now < 2 ^ 64) }
        ensures lines { IfOk result (λ all. all.lines ≡ told_alone setup.entry.now base behind high.entry.now) }
        ensures deliveries { IfOk result (λ all. AreDelivered setup.entry.now high.entry.now all.deliveries.items) }
    { report_by(rt, alloc, setup, base, behind, high, threads - threads / 2) };
    let (first, second) = join(rt, front, back);
    let all = followed_by(first?, second?)?;
    Ok(all)
}

/// Adds to the lines `lines` those of more interchanges and delivers their sets, by this many threads at the most.
pub(crate) fn append_by<'j, 'i: 'j, 'a: 'i, R: Threads + Sync>(
    rt: &R,
    alloc: Global,
    lines: ReportLines,
    setup: &Setup,
    base: u64,
    interchanges: &'j [JudgedInterchange<'i, 'a>],
    threads: u64,
) -> Result<Reported<'j, 'i, 'a>, NoMemory>
    requires { lines.count + length interchanges.now < 2 ^ 64 }
    ensures lines { IfOk result (λ all. all.lines ≡ told_behind setup.now base lines interchanges.entry.now) }
    ensures deliveries { IfOk result (λ all. AreDelivered setup.now interchanges.entry.now all.deliveries.items) }
{
    let more = report_by(rt, alloc, setup, base, lines.count(), interchanges, threads)?;
    let Reported {
        lines: others,
        deliveries,
    } = more;
    Ok(Reported {
        lines: lines.followed_by(others)?,
        deliveries,
    })
}
