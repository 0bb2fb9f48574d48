//! A text is judged by the hub's own check before it is given as a sample.
ghost use Rattle.std.specs.Prelude.{◌≡◌, ◌≢◌, false, length, IsTrue, None, IfOk, IfSome, Some};
ghost use Rattle.ack_999.specs.Report.{set_text};
ghost use Rattle.hub_kinds.specs.Words.{AreRising};
ghost use Rattle.difference_faults.specs.Shows.{shows};
ghost use Rattle.guide_tree.specs.Words.{guide_of};
ghost use Rattle.night_equal_writing.specs.Acknowledgments.{HasItsCode};
ghost use Rattle.set_check.specs.Answer.{answer_to};
ghost use Rattle.set_check.specs.Checked.{guide_in, parts_in};
ghost use Rattle.set_check.specs.SetFaults.{AreSetFaults};
ghost use Rattle.guide_samples.specs.Alone.{IsFaultAlone, IsOnlySpan};
ghost use Rattle.guide_samples.specs.Samples.{HasOneFault, IsFaultOf, IsSample};

use crate::presence::has;
use crate::trial::Expected;
use ack_999::append_set;
use difference_faults::{Part, shows};
use env_index::{GroupEnvelope, Interchange, index_plain};
use guide_tree::Guide;
use guide_widening::Difference;
use hub_kinds::{ElementCode, Fault, NoMemory, SegmentCode, Text, within_limit};
use night_equal_faults::faults_are_one;
use night_equal_set::{meetings_are_one, set_codes_are_one, verdicts_are_one};
use night_equal_text::{interchanges_are_kept, sets_are_parts, texts_are_indexes};
use night_equal_writing::{acknowledgments_are_one, texts_are_one};
use set_check::{CheckedSet, check_set};
use std::alloc::Global;
use x12_segs::SetSpan;

/// Whether a text has one set, and this set meets the guide.
pub(crate) fn meets(alloc: Global, text: &[u8], guide: &Guide) -> Result<bool, NoMemory>
    ensures { IfOk result (λ yes. IsTrue yes → IsSample (guide_of guide.now) text.now) }
{
    meetings_are_one();
    let _rows = guide.rows();
    match checked(alloc, text, guide)? {
        None => Ok(false),
        Some(set) => Ok(set.is_clean()),
    }
}

/// What the 999 says of the set of a text that has one set with one fault, if it is the fault that is expected; none otherwise.
pub(crate) fn only_fault(
    alloc: Global,
    text: &[u8],
    guide: &Guide,
    expected: &Expected,
) -> Result<Option<Text>, NoMemory>
    ensures { IfOk result (λ found. IfSome found (HasOneFault (guide_of guide.now) (IsFaultOf expected.now.rule) text.now)) }
{
    faults_are_one();
    set_codes_are_one();
    verdicts_are_one();
    acknowledgments_are_one();
    texts_are_one();
    let _rows = guide.rows();
    let Some(set) = checked(alloc, text, guide)? else {
        return Ok(None);
    };
    if !has_fault(&set, expected) {
        return Ok(None);
    }
    Ok(Some(answer_to(alloc, set)?))
}

/// What the 999 says of the set of a text that has one set with one fault, if the fault shows a `difference`, which is of
/// `part`; none otherwise.
pub(crate) fn fault_between(
    alloc: Global,
    text: &[u8],
    guide: &Guide,
    part: &Part<'_>,
    difference: &Difference,
) -> Result<Option<Text>, NoMemory>
    ensures { IfOk result (λ found. IfSome found
        (HasOneFault (guide_of guide.now) (λ f. IsTrue (shows part.now difference.now f)) text.now)) }
{
    faults_are_one();
    set_codes_are_one();
    verdicts_are_one();
    acknowledgments_are_one();
    texts_are_one();
    let _rows = guide.rows();
    let Some(set) = checked(alloc, text, guide)? else {
        return Ok(None);
    };
    if !shows_alone(&set, part, difference) {
        return Ok(None);
    }
    Ok(Some(answer_to(alloc, set)?))
}

/// Whether a set has one fault, and this shows a difference.
fn shows_alone(set: &CheckedSet, part: &Part<'_>, difference: &Difference) -> bool
    ensures alone { IsTrue result → IsFaultAlone (λ f. IsTrue (shows part.now difference.now f)) set.now.faults }
    ensures exact { AreSetFaults (guide_in set.now) (parts_in set.now) set.now.faults }
    ensures rising { AreRising set.now.faults }
{
    let faults = set.faults();
    if faults.len() != 1 {
        return false;
    }
    let fault = faults.at(0);
    has_its_code(&fault) && shows(part, difference, &fault)
}

/// Whether the code of a fault is that of element errors just if the fault is one of an element.
fn has_its_code(fault: &Fault) -> bool
    ensures code { IsTrue result → HasItsCode fault.now }
    ensures own { IsTrue result → fault.now.elem ≡ None → fault.now.code ≢ SegmentCode.ElementErrors }
{
    match &fault.elem {
        None => fault.code != SegmentCode::ElementErrors,
        Some(_) => fault.code == SegmentCode::ElementErrors,
    }
}

/// Whether a set has one fault, and this is the one that is expected.
fn has_fault(set: &CheckedSet, expected: &Expected) -> bool
    ensures alone { IsTrue result → IsFaultAlone (IsFaultOf expected.now.rule) set.now.faults }
    ensures exact { AreSetFaults (guide_in set.now) (parts_in set.now) set.now.faults }
    ensures rising { AreRising set.now.faults }
{
    let faults = set.faults();
    faults.len() == 1 && is_expected(expected, &faults.at(0))
}

/// What the 999 says of a set, from AK2 to IK5.
fn answer_to(alloc: Global, set: CheckedSet) -> Result<Text, NoMemory>
    ensures { IfOk result (λ lines. lines ≡ set_text set.entry.span.delims (answer_to set.entry false)) }
{
    let delims = set.span().delims;
    let answer = set.into_answer(alloc, false)?;
    let mut lines = Vec::new(alloc);
    append_set(&mut lines, &delims, &answer)?;
    Ok(Text::from_vec(lines))
}

/// The check of the set of a text that has one set; none for any other text.
fn checked<'a>(
    alloc: Global,
    text: &'a [u8],
    guide: &'a Guide,
) -> Result<Option<CheckedSet<'a>>, NoMemory>
    ensures text { IfOk result (λ found. IfSome found (λ c. c.text ≡ text.entry.now)) }
    ensures guide { IfOk result (λ found. IfSome found (λ c. c.guide ≡ Some guide.entry.now)) }
    ensures only { IfOk result (λ found. IfSome found (λ c. IsOnlySpan text.entry.now c.span)) }
{
    match only_span(alloc, text)? {
        None => Ok(None),
        Some(span) => Ok(Some(check_set(alloc, text, span, Some(guide))?)),
    }
}

/// Where the set of a text is that has one interchange, in it one group, and in that one set; none for any other text.
fn only_span(alloc: Global, text: &[u8]) -> Result<Option<SetSpan>, NoMemory>
    ensures { IfOk result (λ found. IfSome found (IsOnlySpan text.now)) }
{
    texts_are_indexes();
    interchanges_are_kept();
    sets_are_parts();
    if !within_limit(text.len() as u64) {
        return Ok(None);
    }
    let index = index_plain(alloc, text)?;
    let [indexed] = index.interchanges() else {
        return Ok(None);
    };
    let interchange = indexed.interchange();
    if !has_one_group(interchange) {
        return Ok(None);
    }
    let group = interchange.group(0);
    if !has_one_set(&group) {
        return Ok(None);
    }
    Ok(Some(group.set(0).span(interchange.header().delims())))
}

fn has_one_group(interchange: &Interchange) -> bool
    ensures { IsTrue result → length interchange.now.content.groups ≡ 1 }
{
    interchange.group_count() == 1
}

fn has_one_set(group: &GroupEnvelope) -> bool
    ensures { IsTrue result → length group.now.sets ≡ 1 }
{
    group.set_count() == 1
}

/// Whether a fault is one of the rule that is expected, and an element's is reported at one of the elements that are.
fn is_expected(expected: &Expected, fault: &Fault) -> bool
    ensures rule { IsTrue result → IsFaultOf expected.now.rule fault.now }
    ensures code { IsTrue result → HasItsCode fault.now }
    ensures own { IsTrue result → fault.now.elem ≡ None → fault.now.code ≢ SegmentCode.ElementErrors }
{
    expected.rule.code == fault.code
        && expected.rule.slot == fault.slot
        && match &fault.elem {
            None => is_none(expected.rule.element) && fault.code != SegmentCode::ElementErrors,
            Some(elem) => {
                fault.code == SegmentCode::ElementErrors
                    && is_this(expected.rule.element, elem.code)
                    && has(expected.elements, elem.element)
            }
        }
}

fn is_none(code: Option<ElementCode>) -> bool
    ensures { IsTrue result → code ≡ None }
{
    code.is_none()
}

fn is_this(code: Option<ElementCode>, other: ElementCode) -> bool
    ensures { IsTrue result → code ≡ Some other }
{
    match code {
        None => false,
        Some(code) => code == other,
    }
}
