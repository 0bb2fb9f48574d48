ghost use Rattle.std.specs.Prelude.{◌≡◌, ◌≤◌, ◌++◌, ◌∷◌, [], List, length, IfOk, OnOk};
ghost use Rattle.std.specs.List.{AllZip};
ghost use Rattle.hub_kinds.specs.declared.limits.TheConstants.{LONGEST_TEXT};
ghost use Rattle.x12_segs.specs.Words.{SegValue, element_of};
ghost use Rattle.set_check.specs.Codes.{control_of};
ghost use Rattle.env_index.specs.Words.{span_of, GroupEntry};
ghost use Rattle.env_index.specs.declared.entry.SetEnvelope.{SetEnvelope};
ghost use Rattle.partner_setup.specs.Setup.{guide_for_set};
ghost use Rattle.set_answers.specs.Answers.{AreGroupAnswers, AreSetAnswers, IsGroupAnswered, IsSetAnswer, SentValue, controls_of};
ghost use Rattle.set_answers.specs.Asked.{Asked, IsFound, entry_asked_by, groups_asked, has_places, set_asked, sets_asked};
ghost use Rattle.set_answers.specs.CheckedText.{AreAnswersBy};
ghost use Rattle.set_answers.specs.Seen.{is_among};

use crate::answered::AnsweredGroup;
use crate::counting::findings_in;
use crate::finding::Findings;
use crate::groups::answer_with;
use crate::sent::Sent;
use answered_sets::is_fa;
use env_index::{GroupEnvelope, IndexedInterchange, Interchange};
use hub_kinds::{InterchangeFault, NoMemory, SetAnswer};
use partner_setup::Setup;
use set_check::{CheckedSet, Finding};
use std::alloc::Global;

/// What is answered to the groups of `entry`, the next interchange, which `sender` sent, by what was found out about its places: nothing
/// if it has a fault, or if no partner is the sender.
pub(crate) fn next_answers<'a>(
    alloc: Global,
    setup: &'a Setup,
    text: &'a [u8],
    sender: Option<usize>,
    entry: &IndexedInterchange<'a>,
    findings: &mut Findings<'a>,
) -> Result<Vec<Option<AnsweredGroup<'a>>>, NoMemory>
    requires { (more : List Asked)
        × AllZip IsFound (entry_asked_by text.now setup.now entry.now (has_places entry.now.fault) sender ++ more) findings.old }
    ensures answers { IfOk result (λ v. AreAnswersBy text.entry.now setup.entry.now entry.now entry.now.fault sender v.items) }
    ensures few { IfOk result (λ v. length v.items ≤ LONGEST_TEXT) }
    ensures rest { OnOk result ((more : List Asked)
        → AllZip IsFound (entry_asked_by text.entry.now setup.entry.now entry.now (has_places entry.now.fault) sender ++ more) findings.old
        → AllZip IsFound more findings.new) }
{
    let interchange = entry.interchange();
    match (entry.fault(), sender) {
        (None, Some(sender)) => {
            findings.take();
            let sent = Sent::new(text, setup, sender, interchange.header().delims());
            found_groups(alloc, &sent, interchange, findings)
        }
        (Some(InterchangeFault::Duplicate), Some(_)) => {
            findings.take();
            findings.pass(findings_in(interchange));
            Ok(Vec::new(alloc))
        }
        _ => Ok(Vec::new(alloc)),
    }
}

/// The answers to the groups of an interchange, in their order; none to one that acknowledges something itself.
fn found_groups<'a>(
    alloc: Global,
    sent: &Sent<'a>,
    interchange: &Interchange<'a>,
    findings: &mut Findings<'a>,
) -> Result<Vec<Option<AnsweredGroup<'a>>>, NoMemory>
    requires { (more : List Asked)
        × AllZip IsFound (groups_asked sent.now [] interchange.now.content.groups ++ more) findings.old }
    ensures answers { IfOk result (λ v. AreGroupAnswers sent.now interchange.now.content.groups v.items) }
    ensures rest { OnOk result ((more : List Asked)
        → AllZip IsFound (groups_asked sent.now [] interchange.now.content.groups ++ more) findings.old
        → AllZip IsFound more findings.new) }
{
    let mut answers = Vec::new(alloc);
    for index in 0..interchange.group_count() {
        let group = interchange.group(index);
        let answer = found_group(alloc, sent, &group, findings)?;
        answers.push(answer)?;
    }
    Ok(answers)
}

/// The answer to a group, unless it acknowledges something itself.
fn found_group<'a>(
    alloc: Global,
    sent: &Sent<'a>,
    group: &GroupEnvelope<'_, 'a>,
    findings: &mut Findings<'a>,
) -> Result<Option<AnsweredGroup<'a>>, NoMemory>
    requires { (before : List GroupEntry) × (groups : List GroupEntry) × (more : List Asked)
        × AllZip IsFound (groups_asked sent.now before (group.now ∷ groups) ++ more) findings.old }
    ensures answer { IfOk result (λ answer. (before groups : List GroupEntry) (more : List Asked)
        → AllZip IsFound (groups_asked sent.now before (group.now ∷ groups) ++ more) findings.old
        → IsGroupAnswered sent.now before group.now answer) }
    ensures rest { OnOk result ((before groups : List GroupEntry) (more : List Asked)
        → AllZip IsFound (groups_asked sent.now before (group.now ∷ groups) ++ more) findings.old
        → AllZip IsFound (groups_asked sent.now (before ++ group.now ∷ []) groups ++ more) findings.new) }
{
    let Finding { earlier, .. } = findings.take();
    if is_fa(group) {
        findings.pass(group.set_count());
        return Ok(None);
    }
    let sets = found_sets(alloc, sent, group, findings)?;
    let answered = answer_with(alloc, sent, group, earlier, sets)?;
    Ok(Some(answered))
}

/// The answers to the sets of a group, in their order.
fn found_sets<'a>(
    alloc: Global,
    sent: &Sent<'a>,
    group: &GroupEnvelope<'_, 'a>,
    findings: &mut Findings<'a>,
) -> Result<Vec<SetAnswer<'a>>, NoMemory>
    requires { (more : List Asked)
        × AllZip IsFound (sets_asked sent.now group.now.header [] group.now.sets ++ more) findings.old }
    ensures answers { IfOk result (λ v. AreSetAnswers sent.now group.now.header group.now.sets v.items) }
    ensures rest { OnOk result ((more : List Asked)
        → AllZip IsFound (sets_asked sent.now group.now.header [] group.now.sets ++ more) findings.old
        → AllZip IsFound more findings.new) }
{
    let mut answers = Vec::new(alloc);
    for _ in 0..group.set_count() {
        let answer = found_set(alloc, findings)?;
        answers.push(answer)?;
    }
    Ok(answers)
}

/// The answer to the next set.
fn found_set<'a>(alloc: Global, findings: &mut Findings<'a>) -> Result<SetAnswer<'a>, NoMemory>
    requires { (sent : SentValue) × (gs : SegValue) × (before : List SetEnvelope) × (set : SetEnvelope) × (more : List Asked)
        × AllZip IsFound (set_asked sent gs before set ∷ more) findings.old }
    ensures answer { IfOk result (λ answer. (sent : SentValue) (gs : SegValue) (before : List SetEnvelope) (set : SetEnvelope)
        (more : List Asked) → AllZip IsFound (set_asked sent gs before set ∷ more) findings.old → IsSetAnswer sent gs before set answer) }
    ensures rest { OnOk result ((asked : Asked) (more : List Asked) → AllZip IsFound (asked ∷ more) findings.old
        → AllZip IsFound more findings.new) }
{
    let Finding {
        checked,
        earlier,
        ..
    } = findings.take();
    match checked {
        Some(checked) => answer_checked(alloc, checked, earlier),
        None => unreachable!(),
    }
}

/// The answer to a set that was checked.
fn answer_checked<'a>(
    alloc: Global,
    checked: CheckedSet<'a>,
    earlier: bool,
) -> Result<SetAnswer<'a>, NoMemory>
    ensures { IfOk result (λ answer. (sent : SentValue) (gs : SegValue) (before : List SetEnvelope) (set : SetEnvelope)
        → checked.entry.text ≡ sent.text → checked.entry.span ≡ span_of sent.delims set
        → checked.entry.guide ≡ guide_for_set sent.setup sent.sender (element_of gs 1) (element_of gs 8) (element_of set.header 1)
        → earlier ≡ is_among (control_of set.header) (controls_of before) → IsSetAnswer sent gs before set answer) }
{
    checked.into_answer(alloc, earlier)
}
