ghost use Rattle.std.specs.Prelude.{◌≡◌, ◌<◌, ◌^◌, ◌∷◌, [], not, ℕ, Some, length, map, IfOk};
ghost use Rattle.std.specs.List.{list_any};
ghost use Rattle.answered_sets.specs.Judged.{is_fa};
ghost use Rattle.env_index.specs.Words.{IndexEntry};
ghost use Rattle.partner_setup.specs.Setup.{SetupValue, sender_of};
ghost use Rattle.set_answers.specs.Counted.{AreCountedAfter, CanCountEach, asked_count_from, asked_count_of, asked_in_groups};
ghost use Rattle.set_answers.specs.Counted.{recipient_from, recipient_of_entry, will_report_of, without_text};
ghost use Rattle.set_answers.specs.SentAfter.{CanCount};

use crate::files::Acknowledgments;
use answered_sets::{is_fa, ta1_note};
use env_index::{IndexedInterchange, Interchange};
use hub_kinds::{InterchangeFault, NoMemory};
use std::alloc::Global;

/// From where a part of a batch is answered.
#[derive(Drop)]
pub(crate) struct Start {
    /// How many acknowledgments each partner is sent before it, and with how many groups; without their bytes.
    pub(crate) sent: Vec<Acknowledgments>,
    /// How many findings are those of the interchanges before it.
    pub(crate) findings: usize,
}

/// Whether an interchange has a group that acknowledges nothing itself.
fn has_other(interchange: &Interchange<'_>) -> bool
    ensures { result ≡ list_any (λ g. not (is_fa g)) interchange.now.content.groups }
{
    for index in 0..interchange.group_count() {
        if !is_fa(&interchange.group(index)) {
            return true;
        }
    }
    false
}

/// Whether 999s will answer an interchange from `sender`.
fn will_report(sender: Option<usize>, entry: &IndexedInterchange<'_>) -> bool
    ensures { result ≡ will_report_of sender entry.now }
{
    sender.is_some() && entry.fault().is_none() && has_other(entry.interchange())
}

/// To whom an interchange from `sender` will be acknowledged; `reports` says whether 999s will answer it.
fn recipient_from(
    sender: Option<usize>,
    entry: &IndexedInterchange<'_>,
    reports: bool,
) -> Option<usize>
    requires { reports ≡ will_report_of sender entry.now }
    ensures { result ≡ recipient_from sender entry.now }
{
    if reports || ta1_note(sender, entry.fault(), entry.interchange()).is_some() {
        sender
    } else {
        None
    }
}

/// How many findings are those of the groups of an interchange and of their sets.
pub(crate) fn findings_in(interchange: &Interchange<'_>) -> usize
    requires { asked_in_groups interchange.now.content.groups < 2 ^ 64 }
    ensures { result ≡ asked_in_groups interchange.now.content.groups }
{
    let mut findings = 0;
    for index in 0..interchange.group_count() {
        findings += 1 + interchange.group(index).set_count();
    }
    findings
}

/// How many findings are those of an interchange from `sender`.
fn findings_of(sender: Option<usize>, entry: &IndexedInterchange<'_>) -> usize
    requires { asked_count_from sender entry.now < 2 ^ 64 }
    ensures { result ≡ asked_count_from sender entry.now }
{
    match (entry.fault(), sender) {
        (None | Some(InterchangeFault::Duplicate), Some(_)) => 1 + findings_in(entry.interchange()),
        _ => 0,
    }
}

/// Counts one acknowledgment more for `recipient`; `reports` says whether it will have a group.
fn count_for(sent: &mut [Acknowledgments], recipient: Option<usize>, reports: bool)
    requires within { (place : ℕ) → recipient ≡ Some place → place < length sent.old }
    requires room { CanCount 1 sent.old }
    ensures { (setup : SetupValue) (e : IndexEntry) → recipient ≡ recipient_of_entry setup e
        → reports ≡ will_report_of (sender_of setup e.interchange.header) e
        → AreCountedAfter setup (e ∷ []) sent.old sent.new }
{
    match recipient {
        None => {}
        Some(place) => sent[place].count_one(reports),
    }
}

/// Counts the acknowledgment that an interchange from `sender` will get, and answers how many findings are those of the interchange.
fn count_one(
    sent: &mut [Acknowledgments],
    sender: Option<usize>,
    entry: &IndexedInterchange<'_>,
) -> usize
    requires within { (place : ℕ) → sender ≡ Some place → place < length sent.old }
    requires room { CanCount 1 sent.old }
    requires findings { asked_count_from sender entry.now < 2 ^ 64 }
    ensures sent { (setup : SetupValue) → sender ≡ sender_of setup entry.now.interchange.header
        → AreCountedAfter setup (entry.now ∷ []) sent.old sent.new }
    ensures findings { result ≡ asked_count_from sender entry.now }
{
    let reports = will_report(sender, entry);
    count_for(sent, recipient_from(sender, entry, reports), reports);
    findings_of(sender, entry)
}

/// Counts the acknowledgments that interchanges from these `senders` will get, and answers how many findings are those of the interchanges.
fn count_each(
    sent: &mut [Acknowledgments],
    senders: &[Option<usize>],
    entries: &[IndexedInterchange<'_>],
) -> usize
    requires { (setup : SetupValue) × CanCountEach setup senders.now entries.now sent.old }
    ensures sent { (setup : SetupValue) → CanCountEach setup senders.now entries.now sent.old
        → AreCountedAfter setup entries.now sent.old sent.new }
    ensures findings { (setup : SetupValue) → CanCountEach setup senders.now entries.now sent.old
        → result ≡ asked_count_of setup entries.now }
{
    let mut findings = 0;
    for i in 0..entries.len() {
        let sender = senders[i];
        findings += count_one(sent, sender, &entries[i]);
    }
    findings
}

/// The numbers of these acknowledgments, without their bytes.
fn numbers_of(alloc: Global, sent: &[Acknowledgments]) -> Result<Vec<Acknowledgments>, NoMemory>
    ensures { IfOk result (λ v. v.items ≡ map without_text sent.now) }
{
    let mut numbers = Vec::new(alloc);
    for one in sent {
        numbers.push(one.without_text(alloc))?;
    }
    Ok(numbers)
}

/// From where the interchanges after `entries` are answered, if these were sent before `entries`, which are from these `senders`.
pub(crate) fn start_after(
    alloc: Global,
    sent: &[Acknowledgments],
    senders: &[Option<usize>],
    entries: &[IndexedInterchange<'_>],
) -> Result<Start, NoMemory>
    requires { (setup : SetupValue) × CanCountEach setup senders.now entries.now sent.now }
    ensures sent { IfOk result (λ start. (setup : SetupValue) → CanCountEach setup senders.now entries.now sent.now
        → AreCountedAfter setup entries.now (map without_text sent.now) start.sent.items) }
    ensures findings { IfOk result (λ start. (setup : SetupValue) → CanCountEach setup senders.now entries.now sent.now
        → start.findings ≡ asked_count_of setup entries.now) }
{
    let mut numbers = numbers_of(alloc, sent)?;
    let findings = count_each(numbers.as_mut_slice(), senders, entries);
    Ok(Start {
        sent: numbers,
        findings,
    })
}
