//! Texts that are answered by what was found out about their sets beforehand: their answer is that of `check_text`, which checks
//! each set itself.
ghost use Rattle.std.specs.Prelude.{◌≡◌, ◌∷◌, [], None, Some, false, IfOk};
ghost use Rattle.std.specs.List.{All};
ghost use Rattle.std.specs.Option.{option_copied};
ghost use Rattle.std.specs.Str.{bytes_eq};
ghost use Rattle.set_answers.specs.Asked.{IsFound};
ghost use Rattle.set_answers.specs.FoundRows.{AreFoundRows};
ghost use Rattle.env_index.specs.Words.{HasSpans};
ghost use Rattle.set_check.specs.declared.finding.Finding.{Finding};
ghost use Rattle.x12_segs.specs.Words.{IsSetSpan, element_of};

use super::built::example;
use env_index::{Index, SetEnvelope, index_plain};
use guide_tree::Guide;
use hub_kinds::{NoMemory, Place, within_limit};
use job_pool::OneThread;
use moment::At;
use night_report::report_text;
use partner_setup::Setup;
use set_answers::{
    CheckedText, FoundRows, answer_found, check_text, no_acknowledgments, settled_faults,
};
use set_check::{Finding, check_set};
use std::alloc::Global;
use std::test::Fail;
use x12_segs::SetSpan;

/// Groups of two orders from ACME: each of its own number; the second with the number of the first; the first without its BEG; and the
/// first group once more, in an interchange that asks for a TA1.
const TEXTS: &[&[u8]] = &[
    b"ISA*00*          *00*          *01*ACME           *ZZ*HUB            *260228*0900*^*00501*000000007*0*P*>~\
    GS*PO*ACME*BOLT*20260228*0900*12*X*005010~ST*850*0001~BEG*00~SE*3*0001~ST*850*0002~BEG*00~SE*3*0002~\
    GE*2*12~IEA*1*000000007~",
    b"ISA*00*          *00*          *01*ACME           *ZZ*HUB            *260228*0900*^*00501*000000007*0*P*>~\
    GS*PO*ACME*BOLT*20260228*0900*12*X*005010~ST*850*0001~BEG*00~SE*3*0001~ST*850*0001~BEG*00~SE*3*0001~\
    GE*2*12~IEA*1*000000007~",
    b"ISA*00*          *00*          *01*ACME           *ZZ*HUB            *260228*0900*^*00501*000000007*0*P*>~\
    GS*PO*ACME*BOLT*20260228*0900*12*X*005010~ST*850*0001~SE*2*0001~ST*850*0002~BEG*00~SE*3*0002~\
    GE*2*12~IEA*1*000000007~",
    b"ISA*00*          *00*          *01*ACME           *ZZ*HUB            *260228*0900*^*00501*000000007*1*P*>~\
    GS*PO*ACME*BOLT*20260228*0900*12*X*005010~ST*850*0001~BEG*00~SE*3*0001~ST*850*0002~BEG*00~SE*3*0002~\
    GE*2*12~IEA*1*000000007~",
];

/// What is found of an interchange or a group whose number no earlier one has.
fn new_place<'a>() -> Finding<'a>
    ensures { result ≡ record { number = 0; place = record { isa = 1; gs = 0; st = 0 }; checked = None; earlier = false } }
{
    Finding {
        number: 0,
        place: Place {
            isa: 1,
            gs: 0,
            st: 0,
        },
        checked: None,
        earlier: false,
    }
}

/// What is found of a set, by its check.
fn set_found<'a>(
    alloc: Global,
    text: &'a [u8],
    span: SetSpan,
    guide: Option<&'a Guide>,
    earlier: bool,
) -> Result<Finding<'a>, NoMemory>
    requires { IsSetSpan text.now span }
    ensures { IfOk result (IsFound (record {
      earlier = earlier;
      set = Some (record { text = text.entry.now; span = span; guide = option_copied guide.entry });
    })) }
{
    let checked = check_set(alloc, text, span, guide)?;
    Ok(Finding {
        checked: Some(checked),
        earlier,
        ..new_place()
    })
}

/// Whether two sets have one ST02.
fn has_number_of(set: &SetEnvelope, other: &SetEnvelope) -> bool
    ensures { result ≡ bytes_eq (element_of set.now.header 2) (element_of other.now.header 2) }
{
    set.header.element(2) == other.header.element(2)
}

/// What is found out about an interchange from `sender`, its group and its two sets.
fn listed<'a>(
    alloc: Global,
    sender: usize,
    one: Finding<'a>,
    other: Finding<'a>,
) -> Result<FoundRows<'a>, NoMemory>
    ensures senders { IfOk result (λ found. found.senders.items ≡ Some sender ∷ []) }
    ensures findings { IfOk result (λ found.
        let new : Finding = record { number = 0; place = record { isa = 1; gs = 0; st = 0 }; checked = None; earlier = false } in
        found.findings.items ≡ new ∷ new ∷ one.entry ∷ other.entry ∷ []) }
{
    let senders = vec![in alloc; Some(sender)]?;
    let findings = vec![in alloc; new_place(), new_place(), one, other]?;
    Ok(FoundRows { senders, findings })
}

/// What is found out about an index of one interchange, with one group of two sets.
fn findings<'a>(alloc: Global, setup: &'a Setup, index: &Index<'a>) -> Result<FoundRows<'a>, Fail>
    requires { All (λ e. HasSpans index.now.text e.interchange) index.now.entries }
    ensures { IfOk result (AreFoundRows index.now.text setup.entry.now index.now.entries) }
{
    let entries = index.interchanges();
    if entries.len() != 1 {
        return Err("other interchanges")?;
    }
    let entry = &entries[0];
    if entry.fault().is_some() {
        return Err("a fault")?;
    }
    let interchange = entry.interchange();
    let sender = setup.sender_of(interchange.header()).ok_or("no sender")?;
    if interchange.group_count() != 1 {
        return Err("other groups")?;
    }
    let group = interchange.group(0);
    if group.set_count() != 2 {
        return Err("other sets")?;
    }
    let (first, second) = (group.set(0), group.set(1));
    let delims = interchange.header().delims();
    let header = group.header();
    let (id, version) = (header.element(1), header.element(8));
    let guide = setup.guide_of(sender, id, version, first.header.element(1));
    let one = set_found(alloc, index.text(), first.span(delims), guide, false)?;
    let guide = setup.guide_of(sender, id, version, second.header.element(1));
    let earlier = has_number_of(&second, &first);
    let other = set_found(alloc, index.text(), second.span(delims), guide, earlier)?;
    Ok(listed(alloc, sender, one, other)?)
}

fn expect_bytes(found: &[u8], wanted: &[u8]) -> Result<(), Fail> {
    if found != wanted {
        return Err("other bytes")?;
    }
    Ok(())
}

fn expect_report(
    alloc: Global,
    setup: &Setup,
    found: &CheckedText<'_, '_>,
    wanted: &CheckedText<'_, '_>,
) -> Result<(), Fail> {
    let found = report_text(alloc, setup, found.interchanges.as_slice(), 0)?;
    let wanted = report_text(alloc, setup, wanted.interchanges.as_slice(), 0)?;
    expect_bytes(found.as_slice(), wanted.as_slice())
}

fn expect_acknowledgments(
    found: &CheckedText<'_, '_>,
    wanted: &CheckedText<'_, '_>,
) -> Result<(), Fail> {
    let ([acme, bolt], [wanted_acme, wanted_bolt]) = (
        found.acknowledgments.as_slice(),
        wanted.acknowledgments.as_slice(),
    ) else {
        return Err("other partners")?;
    };
    if wanted_acme.count() != 1 || acme.count() != 1 || bolt.count() != wanted_bolt.count() {
        return Err("other acknowledgments")?;
    }
    if wanted_acme.groups() != 1 || acme.groups() != 1 || bolt.groups() != wanted_bolt.groups() {
        return Err("other groups of acknowledgments")?;
    }
    expect_bytes(acme.text(), wanted_acme.text())?;
    expect_bytes(bolt.text(), wanted_bolt.text())
}

/// Answers the text of a settled index by checking its sets, after no acknowledgments.
fn checked<'i, 'a>(
    alloc: Global,
    setup: &'a Setup,
    at: &At,
    index: &'i Index<'a>,
) -> Result<CheckedText<'i, 'a>, NoMemory>
    requires { All (λ e. HasSpans index.now.text e.interchange) index.now.entries }
{
    let _ = index.interchanges();
    let none = no_acknowledgments(alloc, setup)?;
    check_text(alloc, &OneThread, setup, at, index, none)
}

/// Answers it by what was found out about it and its places, after no acknowledgments.
fn answered<'i, 'a>(
    alloc: Global,
    setup: &'a Setup,
    at: &At,
    index: &'i Index<'a>,
    rows: FoundRows<'a>,
) -> Result<CheckedText<'i, 'a>, NoMemory>
    requires spans { All (λ e. HasSpans index.now.text e.interchange) index.now.entries }
    requires found { AreFoundRows index.now.text setup.now index.now.entries rows }
{
    let _ = index.interchanges();
    let none = no_acknowledgments(alloc, setup)?;
    answer_found(alloc, &OneThread, setup, at, index, rows, none)
}

/// Answers the text of a settled index both ways.
fn expect_one_answer<'i, 'a>(
    alloc: Global,
    setup: &'a Setup,
    index: &'i Index<'a>,
) -> Result<(), Fail>
    requires { All (λ e. HasSpans index.now.text e.interchange) index.now.entries }
{
    let at = At::read(b"202603011530").ok_or("no moment")?;
    let rows = findings(alloc, setup, index)?;
    let found = answered(alloc, setup, &at, index, rows)?;
    let wanted = checked(alloc, setup, &at, index)?;
    expect_report(alloc, setup, &found, &wanted)?;
    expect_acknowledgments(&found, &wanted)
}

fn expect_text<'a>(alloc: Global, setup: &'a Setup, text: &'a [u8]) -> Result<(), Fail> {
    if !within_limit(text.len() as u64) {
        return Err("too long")?;
    }
    let mut index = index_plain(alloc, text)?;
    let faults = settled_faults(alloc, setup, &index)?;
    index.settle(faults.as_slice());
    expect_one_answer(alloc, setup, &index)
}

#[test]
fn what_was_found_out_beforehand_is_answered_as_what_is_checked(
    rt: HostRuntime,
) -> Result<(), Fail> {
    let setup = example(rt.alloc())?;
    for text in TEXTS {
        expect_text(rt.alloc(), &setup, text)?;
    }
    Ok(())
}
