ghost use Rattle.std.specs.Prelude.{◌≡◌, ◌≤◌, ◌<◌, ◌++◌, ◌+◌, ◌^◌, IfOk, OnOk, length};
ghost use Rattle.answered_sets.specs.Answered.{ta1_note};
ghost use Rattle.answered_sets.specs.Judged.{all_sets, sets_of};
ghost use Rattle.mailbox.specs.Deliveries.{outcomes_of};
ghost use Rattle.night_report.specs.Adding as adding;
ghost use Rattle.night_report.specs.Report as report;
ghost use Rattle.night_report.specs.Room.{HasRoom, IsOfInterchanges};

use crate::groups::append_groups;
use crate::lines::{append_interchange_line, append_sent_line, append_ta1_line, control_shown};
use crate::named::sender_name;
use crate::told::ReportLines;
use crate::totals::Totals;
use answered_sets::{JudgedInterchange, is_refused, ta1_note};
use hub_kinds::{NoMemory, Text};
use mailbox::{SetOutcomes, all_outcomes};
use partner_setup::Setup;
use std::alloc::Global;

/// Writes the line of interchange `n`, counted from 1, whose text begins at the offset `base`.
fn append_first_line(
    out: &mut Vec<u8>,
    setup: &Setup,
    base: u64,
    n: u64,
    interchange: &JudgedInterchange<'_, '_>,
) -> Result<(), NoMemory>
    ensures { OnOk result (out.new.items ≡ out.old.items ++ report.first_line setup.now base n interchange.now) }
{
    let indexed = interchange.interchange();
    append_interchange_line(
        out,
        n,
        u128::from(base) + indexed.start() as u128,
        sender_name(setup, interchange.sender()),
        control_shown(indexed.header()),
        interchange.fault(),
    )
}

/// Writes the line of the TA1 that an interchange is answered with, where it is.
fn append_answer(out: &mut Vec<u8>, interchange: &JudgedInterchange<'_, '_>) -> Result<(), NoMemory>
    ensures text { OnOk result (out.new.items ≡ out.old.items ++ report.answer_line
        (ta1_note interchange.now.sender interchange.now.fault interchange.now.interchange)) }
    ensures room { OnOk result (length out.old.items ≤ length out.new.items) }
{
    match ta1_note(
        interchange.sender(),
        interchange.fault(),
        interchange.interchange(),
    ) {
        None => Ok(()),
        Some(note) => append_sent_line(out, note),
    }
}

/// Writes what is reported of an interchange after its line, by the outcomes of its sets, and gives what is counted of it.
fn append_content(
    out: &mut Vec<u8>,
    setup: &Setup,
    interchange: &JudgedInterchange<'_, '_>,
    outcomes: &[SetOutcomes],
) -> Result<Totals, NoMemory>
    requires { outcomes.now ≡ outcomes_of setup.now (sets_of interchange.now) }
    ensures text { OnOk result (out.new.items ≡ out.old.items ++ report.content_lines setup.now interchange.now) }
    ensures totals { IfOk result (λ totals. totals ≡ adding.interchange_totals setup.now interchange.now) }
    ensures room { IfOk result (λ totals. HasRoom totals (length out.old.items) (length out.new.items)) }
    ensures of_one { IfOk result (λ totals. IsOfInterchanges totals 1) }
{
    if is_refused(interchange) {
        return Ok(Totals::of_refused());
    }
    append_ta1_line(out, interchange.interchange().ta1s())?;
    append_groups(out, setup, interchange, Totals::of_accepted(), outcomes)
}

/// Writes the lines of interchange `n`, counted from 1, whose text begins at the offset `base`, by the outcomes of its sets, and gives
/// what is counted of it.
fn append_interchange(
    out: &mut Vec<u8>,
    setup: &Setup,
    base: u64,
    n: u64,
    interchange: &JudgedInterchange<'_, '_>,
    outcomes: &[SetOutcomes],
) -> Result<Totals, NoMemory>
    requires { outcomes.now ≡ outcomes_of setup.now (sets_of interchange.now) }
    ensures text { OnOk result (out.new.items ≡ out.old.items ++ report.interchange_lines setup.now base n interchange.now) }
    ensures totals { IfOk result (λ totals. totals ≡ adding.interchange_totals setup.now interchange.now) }
    ensures room { IfOk result (λ totals. HasRoom totals (length out.old.items) (length out.new.items)) }
    ensures of_one { IfOk result (λ totals. IsOfInterchanges totals 1) }
{
    append_first_line(out, setup, base, n, interchange)?;
    append_answer(out, interchange)?;
    append_content(out, setup, interchange, outcomes)
}

/// How many sets an interchange has, which are `most` at the most.
fn set_count(interchange: &JudgedInterchange<'_, '_>, most: usize) -> usize
    requires { length (sets_of interchange.now) ≤ most }
    ensures { result ≡ length (sets_of interchange.now) }
{
    let interchange = interchange.interchange();
    let mut rest = most;
    for n in 0..interchange.group_count() {
        rest -= interchange.group(n).set_count();
    }
    most - rest
}

/// Writes the lines of interchanges after this many others, by the outcomes of all their sets, and gives what is counted of them.
pub(crate) fn append_all(
    out: &mut Vec<u8>,
    setup: &Setup,
    base: u64,
    before: u64,
    interchanges: &[JudgedInterchange<'_, '_>],
    outcomes: &[SetOutcomes],
) -> Result<Totals, NoMemory>
    requires few { before + length interchanges.now < 2 ^ 64 }
    requires outcomes { outcomes.now ≡ outcomes_of setup.now (all_sets interchanges.now) }
    ensures text { OnOk result (out.new.items ≡ out.old.items ++ report.all_lines setup.now base (before + 1) interchanges.now) }
    ensures totals { IfOk result (λ totals. totals ≡ report.report_totals setup.now interchanges.now) }
    ensures room { IfOk result (λ totals. HasRoom totals (length out.old.items) (length out.new.items)) }
    ensures of_those { IfOk result (λ totals. IsOfInterchanges totals (length interchanges.now)) }
{
    let mut totals = Totals::none();
    let mut left = outcomes;
    for i in 0..interchanges.len() {
        let n = before + (i as u64) + 1;
        let interchange = &interchanges[i];
        let (of_this, more) = left.split_at(set_count(interchange, left.len()));
        let counted = append_interchange(out, setup, base, n, interchange, of_this)?;
        totals = totals.with(&counted);
        left = more;
    }
    Ok(totals)
}

/// The report of a night: what is known of each interchange of the text, of its groups, and of the sets that are held, and
/// last what is counted, with the bytes that are outside interchanges. The only error is out of memory.
pub fn report_text(
    alloc: Global,
    setup: &Setup,
    interchanges: &[JudgedInterchange<'_, '_>],
    outside: u64,
) -> Result<Text, NoMemory>
    ensures { IfOk result (λ text. text ≡ report.report_text setup.now interchanges.now outside) }
{
    let outcomes = all_outcomes(alloc, setup, interchanges)?;
    let lines = ReportLines::new(alloc).append(setup, 0, interchanges, outcomes.as_slice())?;
    lines.close(outside)
}
