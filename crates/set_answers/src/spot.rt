ghost use Rattle.std.specs.Prelude.{◌≡◌, ◌≤◌, ◌∷◌, [], List, length, option_map, IfOk, OnOk};
ghost use Rattle.std.specs.List.{All};
ghost use Rattle.hub_kinds.specs.declared.limits.TheConstants.{LONGEST_TEXT};
ghost use Rattle.x12_segs.specs.Words.{IsSetSpan, SegValue, element_of};
ghost use Rattle.set_check.specs.Codes.{control_of};
ghost use Rattle.env_index.specs.Words.{group_elements, span_of, GroupEntry, HasSpans};
ghost use Rattle.env_index.specs.declared.entry.SetEnvelope.{SetEnvelope};
ghost use Rattle.partner_setup.specs.Setup.{guide_for_set};
ghost use Rattle.set_answers.specs.AlsoFound.{AreAlsoFound};
ghost use Rattle.set_answers.specs.Answers.{controls_of, has_number_among};
ghost use Rattle.set_answers.specs.Asked.{IsFound, entry_asked_by, group_asked, groups_asked, has_places, set_asked, sets_asked};
ghost use Rattle.set_answers.specs.CheckedText.{AreAnswersBy};
ghost use Rattle.set_answers.specs.FoundRows.{AreFoundRows};
ghost use Rattle.set_answers.specs.Seen.{is_among};

use crate::answered::AnsweredGroup;
use crate::finding::Findings;
use crate::found::next_answers;
use crate::numbers::{add_number, group_number};
use crate::rows::FoundRows;
use crate::seen::Seen;
use crate::sent::Sent;
use env_index::{
    GroupElements, GroupEnvelope, IndexedInterchange, Interchange, SetEnvelope, group_elements,
};
use guide_tree::Guide;
use hub_kinds::{InterchangeFault, NoMemory, Place};
use partner_setup::Setup;
use set_check::{CheckedSet, Finding, check_set};
use std::alloc::Global;
use std::collections::BTreeSet;
use x12_segs::SegView;

/// What is answered to the groups of an interchange from this sender, each set checked by the sender's guide for it: nothing to one that
/// has a fault, nor where nobody is the sender. 999 guide (005010X231), AK1 to AK9. The only error is out of memory.
pub fn answers_to<'a>(
    alloc: Global,
    setup: &'a Setup,
    text: &'a [u8],
    sender: Option<usize>,
    entry: &IndexedInterchange<'a>,
) -> Result<Vec<Option<AnsweredGroup<'a>>>, NoMemory>
    requires spans { HasSpans text.now entry.now.interchange }
    ensures answers { IfOk result (λ v. AreAnswersBy text.entry.now setup.entry.now entry.now entry.now.fault sender v.items) }
    ensures few { IfOk result (λ v. length v.items ≤ LONGEST_TEXT) }
{
    let mut found = Vec::new(alloc);
    find_interchange(alloc, setup, text, sender, entry, &mut found)?;
    let mut findings = Findings::new(found);
    next_answers(alloc, setup, text, sender, entry, &mut findings)
}

/// Finds out who sent each interchange of `entries`, and all that is asked of them before they are answered.
pub(crate) fn find_each<'a>(
    alloc: Global,
    setup: &'a Setup,
    text: &'a [u8],
    entries: &[IndexedInterchange<'a>],
) -> Result<FoundRows<'a>, NoMemory>
    requires { All (λ e. HasSpans text.now e.interchange) entries.now }
    ensures { IfOk result (AreFoundRows text.entry.now setup.entry.now entries.now) }
{
    let mut senders = Vec::new(alloc);
    let mut findings = Vec::new(alloc);
    for i in 0..entries.len() {
        let entry = &entries[i];
        let sender = setup.sender_of(entry.interchange().header());
        senders.push(sender)?;
        find_interchange(alloc, setup, text, sender, entry, &mut findings)?;
    }
    Ok(FoundRows { senders, findings })
}

/// Adds to `found` what is asked of an interchange from `sender`, of its groups and of their sets: nothing if it has a fault of 1 to 8.
fn find_interchange<'a>(
    alloc: Global,
    setup: &'a Setup,
    text: &'a [u8],
    sender: Option<usize>,
    entry: &IndexedInterchange<'a>,
    found: &mut Vec<Finding<'a>>,
) -> Result<(), NoMemory>
    requires { HasSpans text.now entry.now.interchange }
    ensures { OnOk result (AreAlsoFound
        (entry_asked_by text.entry.now setup.entry.now entry.now (has_places entry.now.fault) sender) found.old.items found.new.items) }
{
    match sender {
        Some(sender) if has_places(entry.fault()) => {
            found.push(finding_of(None, entry.fault().is_some()))?;
            let interchange = entry.interchange();
            let sent = Sent::new(text, setup, sender, interchange.header().delims());
            find_groups(alloc, &sent, interchange, found)
        }
        _ => Ok(()),
    }
}

/// Whether an interchange with this `fault` has places of which something is asked: it has none of the faults 1 to 8.
fn has_places(fault: Option<InterchangeFault>) -> bool
    ensures { result ≡ has_places fault }
{
    matches!(fault, None | Some(InterchangeFault::Duplicate))
}

/// A finding on the spot. No job made it, and its place is the next in order, so it names neither.
fn finding_of<'a>(checked: Option<CheckedSet<'a>>, earlier: bool) -> Finding<'a>
    ensures checked { result.checked ≡ checked.entry }
    ensures earlier { result.earlier ≡ earlier }
{
    let place = Place {
        isa: 0,
        gs: 0,
        st: 0,
    };
    Finding {
        number: 0,
        place,
        checked,
        earlier,
    }
}

/// Adds to `found` what is asked of the groups of an interchange, and of their sets.
fn find_groups<'a>(
    alloc: Global,
    sent: &Sent<'a>,
    interchange: &Interchange<'a>,
    found: &mut Vec<Finding<'a>>,
) -> Result<(), NoMemory>
    requires { All (λ group. All (λ set. IsSetSpan sent.now.text (span_of sent.now.delims set)) group.sets) interchange.now.content.groups }
    ensures { OnOk result (AreAlsoFound (groups_asked sent.now [] interchange.now.content.groups) found.old.items found.new.items) }
{
    let mut numbers = BTreeSet::new(alloc);
    for index in 0..interchange.group_count() {
        let group = interchange.group(index);
        let earlier = add_number(&mut numbers, group_number(&group))?;
        find_group(alloc, sent, &group, earlier, found)?;
    }
    Ok(())
}

/// Adds to `found` what is asked of a group and of its sets; `earlier` says whether an earlier group has its number.
fn find_group<'a>(
    alloc: Global,
    sent: &Sent<'a>,
    group: &GroupEnvelope<'_, 'a>,
    earlier: bool,
    found: &mut Vec<Finding<'a>>,
) -> Result<(), NoMemory>
    requires { All (λ set. IsSetSpan sent.now.text (span_of sent.now.delims set)) group.now.sets }
    ensures { OnOk result ((before : List GroupEntry) → earlier ≡ has_number_among before group.now
        → AreAlsoFound (group_asked before group.now ∷ sets_asked sent.now group.now.header [] group.now.sets)
        found.old.items found.new.items) }
{
    found.push(finding_of(None, earlier))?;
    find_sets(alloc, sent, group, found)
}

/// Adds to `found` what is asked of the sets of a group.
fn find_sets<'a>(
    alloc: Global,
    sent: &Sent<'a>,
    group: &GroupEnvelope<'_, 'a>,
    found: &mut Vec<Finding<'a>>,
) -> Result<(), NoMemory>
    requires { All (λ set. IsSetSpan sent.now.text (span_of sent.now.delims set)) group.now.sets }
    ensures { OnOk result (AreAlsoFound (sets_asked sent.now group.now.header [] group.now.sets) found.old.items found.new.items) }
{
    let header = group_elements(&group.header());
    let mut seen = Seen::new(alloc);
    for index in 0..group.set_count() {
        let set = group.set(index);
        let earlier = seen.add(control(&set))?;
        let finding = find_set(alloc, sent, &header, &set, earlier)?;
        found.push(finding)?;
    }
    Ok(())
}

/// What is found out about a set of a group with a GS of these elements; `earlier` says whether an earlier set has its number.
fn find_set<'a>(
    alloc: Global,
    sent: &Sent<'a>,
    header: &GroupElements<'_>,
    set: &SetEnvelope<'a>,
    earlier: bool,
) -> Result<Finding<'a>, NoMemory>
    requires { IsSetSpan sent.now.text (span_of sent.now.delims set.now) }
    ensures { IfOk result (λ finding. (gs : SegValue) (before : List SetEnvelope) → header.now ≡ group_elements gs
        → earlier ≡ is_among (control_of set.now.header) (controls_of before)
        → IsFound (set_asked sent.now gs before set.now) finding) }
{
    let guide = guide_for(sent, header, &set.header);
    let checked = check_set(alloc, sent.text(), set.span(sent.delims()), guide)?;
    Ok(finding_of(Some(checked), earlier))
}

/// The sender's guide for a set of a group with a GS of these elements.
fn guide_for<'a>(
    sent: &Sent<'a>,
    header: &GroupElements<'_>,
    set: &SegView<'_>,
) -> Option<&'a Guide>
    ensures { option_map (λ g. g.now) result
        ≡ guide_for_set sent.now.setup sent.now.sender header.now.functional_id header.now.version (element_of set.now 1) }
{
    sent.guide(
        header.functional_id.bytes(),
        header.version.bytes(),
        set.element(1),
    )
}

/// ST02.
fn control<'a>(set: &SetEnvelope<'a>) -> &'a [u8]
    ensures { result.now ≡ control_of set.now.header }
{
    set.header.element(2)
}
