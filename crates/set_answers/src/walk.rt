ghost use Rattle.std.specs.Prelude.{◌≡◌, ◌++◌, [], ℕ, List, length, replicate, IfOk, OnOk};
ghost use Rattle.std.specs.List.{All, AllZip};
ghost use Rattle.env_index.specs.Words.{HasSpans};
ghost use Rattle.set_answers.specs.CheckedText.{CheckedInterchange, AreAcknowledgments, HaveRoom, IsCheckedBehind};
ghost use Rattle.set_answers.specs.CheckedText.{judged, nothing_sent};
ghost use Rattle.partner_setup.specs.Setup.{sender_of};
ghost use Rattle.set_answers.specs.Asked.{Asked, IsFound, asked_of, entry_asked};
ghost use Rattle.set_answers.specs.FoundRows.{AreFoundRows};
ghost use Rattle.set_answers.specs.Headers.{AreHeadersTo};
ghost use Rattle.set_answers.specs.SentAfter.{AreAnsweredAfter, CanCount, IsNextAnswered};
ghost use Rattle.set_answers.specs.Settled.{senders_of};

use crate::acknowledgment::Acknowledgment;
use crate::answered::AnsweredGroup;
use crate::batch::Batch;
use crate::files::Acknowledgments;
use crate::finding::Findings;
use crate::found::next_answers;
use crate::headers::no_headers;
use crate::reports::{GroupReporters, ReportedBy};
use crate::rows::FoundRows;
use crate::sending::acknowledge;
use crate::spot::find_each;
use crate::standings::standings_of;
use crate::writers::ReportWriters;
use answered_sets::{JudgedInterchange, ta1_note};
use env_index::{Index, IndexedInterchange};
use hub_kinds::NoMemory;
use moment::At;
use partner_setup::Setup;
use set_check::Finding;
use std::alloc::Global;
use x12_write::OutboundHeader;

/// A text once its sets are checked.
#[derive(Drop)]
pub struct CheckedText<'i, 'a> {
    /// Its interchanges, in their order.
    pub interchanges: Vec<JudgedInterchange<'i, 'a>>,
    /// The acknowledgments of each partner, in the order of the setup, after those that stood before.
    pub acknowledgments: Vec<Acknowledgments>,
}

/// An interchange from this sender with the standings that the answers to its groups leave. 999 guide (005010X231), AK9 and IK5. The
/// only error is out of memory.
pub fn judge<'i, 'a>(
    alloc: Global,
    text: &'a [u8],
    entry: &'i IndexedInterchange<'a>,
    sender: Option<usize>,
    groups: &[Option<AnsweredGroup<'_>>],
) -> Result<JudgedInterchange<'i, 'a>, NoMemory>
    requires { HasSpans text.now entry.now.interchange }
    ensures { IfOk result (λ j. (x : CheckedInterchange) → x.entry ≡ entry.entry.now → x.sender ≡ sender → x.groups ≡ groups.now
        → j ≡ judged text.entry.now x) }
{
    let standings = standings_of(alloc, groups)?;
    Ok(JudgedInterchange::new(text, entry.interchange(), sender, entry.fault(), standings))
}

/// Answers the next interchange, which `sender` sent, by what was found out about it, and adds its acknowledgment to its sender's.
fn answer_interchange<'i, 'a, W: GroupReporters>(
    by: &ReportedBy<'_, W>,
    findings: &mut Findings<'a>,
    batch: &Batch<'_, 'a>,
    sender: Option<usize>,
    entry: &'i IndexedInterchange<'a>,
    files: &mut [Acknowledgments],
    headers: &mut [Option<OutboundHeader>],
) -> Result<JudgedInterchange<'i, 'a>, NoMemory>
    requires ready { W.can_report by.now.writers.now }
    requires spans { HasSpans batch.now.text.now entry.now.interchange }
    requires sender { sender ≡ sender_of batch.now.setup.now entry.now.interchange.header }
    requires found { (more : List Asked)
        × AllZip IsFound (entry_asked batch.now.text.now batch.now.setup.now entry.now ++ more) findings.old }
    requires count { length files.old ≡ length batch.now.setup.now.partners }
    requires room { CanCount 1 files.old }
    requires headers { AreHeadersTo batch.now.setup.now batch.now.at.now headers.old }
    ensures answered { IfOk result (λ j. IsNextAnswered batch.now.text.now batch.now.setup.now batch.now.at.now entry.entry.now
        files.old files.new j) }
    ensures rest { OnOk result ((more : List Asked)
        → AllZip IsFound (entry_asked batch.now.text.now batch.now.setup.now entry.entry.now ++ more) findings.old
        → AllZip IsFound more findings.new) }
    ensures headers { OnOk result (AreHeadersTo batch.now.setup.now batch.now.at.now headers.new) }
{
    let Batch { setup, at, text } = *batch;
    let interchange = entry.interchange();
    let groups = next_answers(by.alloc, setup, text, sender, entry, findings)?;
    let note = ta1_note(sender, entry.fault(), interchange);
    let acknowledgment = Acknowledgment::new(interchange.header(), note, groups.as_slice());
    acknowledge(by, files, headers, setup, at, sender, &acknowledgment)?;
    judge(by.alloc, text, entry, sender, groups.as_slice())
}

/// For each partner of the setup no acknowledgment yet: those of no interchange. The only error is out of memory.
pub fn no_acknowledgments(alloc: Global, setup: &Setup) -> Result<Vec<Acknowledgments>, NoMemory>
    ensures nothing { IfOk result (λ v. v.items ≡ replicate (length setup.now.partners) nothing_sent) }
    ensures starts { IfOk result (λ v. (at : List ℕ) → AreAcknowledgments setup.now at [] v.items) }
{
    let mut files = Vec::new(alloc);
    for _ in 0..setup.partners().len() {
        files.push(Acknowledgments::new(alloc))?;
    }
    Ok(files)
}

/// Answers interchanges from these `senders` by what was found out about them, in their order.
fn answer_each<'i, 'a, W: GroupReporters>(
    by: &ReportedBy<'_, W>,
    findings: &mut Findings<'a>,
    batch: &Batch<'_, 'a>,
    senders: &[Option<usize>],
    entries: &'i [IndexedInterchange<'a>],
    files: &mut [Acknowledgments],
    headers: &mut [Option<OutboundHeader>],
) -> Result<Vec<JudgedInterchange<'i, 'a>>, NoMemory>
    requires ready { W.can_report by.now.writers.now }
    requires spans { All (λ e. HasSpans batch.now.text.now e.interchange) entries.now }
    requires senders { senders.now ≡ senders_of batch.now.setup.now entries.now }
    requires found { AllZip IsFound (asked_of batch.now.text.now batch.now.setup.now entries.now) findings.old }
    requires count { length files.old ≡ length batch.now.setup.now.partners }
    requires room { CanCount (length entries.now) files.old }
    requires headers { AreHeadersTo batch.now.setup.now batch.now.at.now headers.old }
    ensures { IfOk result (λ v. AreAnsweredAfter batch.now.text.now batch.now.setup.now batch.now.at.now entries.entry.now v.items
        files.old files.new) }
{
    let mut interchanges = Vec::new(by.alloc);
    for i in 0..entries.len() {
        let (sender, entry) = (senders[i], &entries[i]);
        let judged = answer_interchange(by, findings, batch, sender, entry, files, headers)?;
        interchanges.push(judged)?;
    }
    Ok(interchanges)
}

/// Answers interchanges from these `senders` by what was `found` out at their places, after the acknowledgments in `sent`.
pub(crate) fn answer_entries<'i, 'a, W: GroupReporters>(
    by: &ReportedBy<'_, W>,
    batch: &Batch<'_, 'a>,
    entries: &'i [IndexedInterchange<'a>],
    senders: &[Option<usize>],
    found: Vec<Finding<'a>>,
    sent: Vec<Acknowledgments>,
) -> Result<CheckedText<'i, 'a>, NoMemory>
    requires ready { W.can_report by.now.writers.now }
    requires spans { All (λ e. HasSpans batch.now.text.now e.interchange) entries.now }
    requires senders { senders.now ≡ senders_of batch.now.setup.now entries.now }
    requires found { AllZip IsFound (asked_of batch.now.text.now batch.now.setup.now entries.now) found.items }
    requires count { length sent.items ≡ length batch.now.setup.now.partners }
    requires room { CanCount (length entries.now) sent.items }
    ensures { IfOk result (λ c. AreAnsweredAfter batch.now.text.now batch.now.setup.now batch.now.at.now entries.entry.now
        c.interchanges.items sent.items c.acknowledgments.items) }
{
    let mut acknowledgments = sent;
    let files = acknowledgments.as_mut_slice();
    let mut made = no_headers(by.alloc, batch.setup)?;
    let headers = made.as_mut_slice();
    let mut findings = Findings::new(found);
    let interchanges = answer_each(by, &mut findings, batch, senders, entries, files, headers)?;
    Ok(CheckedText {
        interchanges,
        acknowledgments,
    })
}

/// Answers a text by what was `found` out about it, one interchange after another, after the acknowledgments in `sent`; `writers` writes
/// the 999s of each interchange.
pub(crate) fn answer_text<'i, 'a, W: GroupReporters>(
    alloc: Global,
    writers: &W,
    setup: &'a Setup,
    at: &At,
    index: &'i Index<'a>,
    found: FoundRows<'a>,
    sent: Vec<Acknowledgments>,
) -> Result<CheckedText<'i, 'a>, NoMemory>
    requires ready { W.can_report writers.now }
    requires spans { All (λ e. HasSpans index.now.text e.interchange) index.now.entries }
    requires found { AreFoundRows index.now.text setup.now index.now.entries found }
    requires sent { HaveRoom setup.now at.now (length index.now.entries) sent.items }
    ensures { IfOk result (λ c. IsCheckedBehind index.entry.now.text setup.entry.now at.now index.entry.now.entries
        c.interchanges.items sent.items c.acknowledgments.items) }
{
    let by = ReportedBy { alloc, writers };
    let text = index.text();
    let batch = Batch { setup, at, text };
    let FoundRows { senders, findings } = found;
    answer_entries(
        &by,
        &batch,
        index.interchanges(),
        senders.as_slice(),
        findings,
        sent,
    )
}

/// Checks the sets of a text by the guides of their senders and answers them: each interchange of the settled index, in their
/// order, once its sets are checked, and the acknowledgments of each partner, after those that are sent of the interchanges before
/// the text; these writers write the 999s. X12.5, interchange; 999 guide (005010X231). The only error is out of memory.
pub fn check_text<'i, 'a, W: ReportWriters>(
    alloc: Global,
    writers: &W,
    setup: &'a Setup,
    at: &At,
    index: &'i Index<'a>,
    sent: Vec<Acknowledgments>,
) -> Result<CheckedText<'i, 'a>, NoMemory>
    requires ready { W.can_report writers.now }
    requires spans { All (λ e. HasSpans index.now.text e.interchange) index.now.entries }
    requires sent { HaveRoom setup.now at.now (length index.now.entries) sent.items }
    ensures { IfOk result (λ c. IsCheckedBehind index.entry.now.text setup.entry.now at.now index.entry.now.entries
        c.interchanges.items sent.items c.acknowledgments.items) }
{
    let found = find_each(alloc, setup, index.text(), index.interchanges())?;
    answer_found(alloc, writers, setup, at, index, found, sent)
}

/// Answers a text by `found`, the sender of each interchange of the `index` and what was found out at each of its places, in their order:
/// the same as `check_text`, which finds it out itself. The only error is out of memory.
pub fn answer_found<'i, 'a, W: ReportWriters>(
    alloc: Global,
    writers: &W,
    setup: &'a Setup,
    at: &At,
    index: &'i Index<'a>,
    found: FoundRows<'a>,
    sent: Vec<Acknowledgments>,
) -> Result<CheckedText<'i, 'a>, NoMemory>
    requires ready { W.can_report writers.now }
    requires spans { All (λ e. HasSpans index.now.text e.interchange) index.now.entries }
    requires found { AreFoundRows index.now.text setup.now index.now.entries found }
    requires sent { HaveRoom setup.now at.now (length index.now.entries) sent.items }
    ensures { IfOk result (λ c. IsCheckedBehind index.entry.now.text setup.entry.now at.now index.entry.now.entries
        c.interchanges.items sent.items c.acknowledgments.items) }
{
    writers.answer_found(alloc, setup, at, index, found, sent)
}
