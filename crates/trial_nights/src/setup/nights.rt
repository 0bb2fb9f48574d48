//! Texts that are checked by the setup of the two partners: what is acknowledged, delivered and reported.
ghost use Rattle.std.specs.List.{All};
ghost use Rattle.env_index.specs.Words.{HasSpans};

use super::built::example;
use crate::night::text_of;
use answered_sets::{JudgedInterchange, PlacedSet};
use env_index::{Index, index_plain};
use hub_kinds::within_limit;
use job_pool::OneThread;
use mailbox::{Mailbox, assemble};
use moment::At;
use night_report::{is_clean, report_text};
use partner_setup::Setup;
use set_answers::{CheckedText, check_text, no_acknowledgments, settled_faults};
use std::alloc::Global;
use std::test::Fail;

/// An order from ACME to BOLT, and after it the same interchange again.
const TWICE: &[u8] =
    b"ISA*00*          *00*          *01*ACME           *ZZ*HUB            *260228*0900*^*00501*000000007*0*P*>~\
    GS*PO*ACME*BOLT*20260228*0900*12*X*005010~ST*850*0001~BEG*00~SE*3*0001~GE*1*12~IEA*1*000000007~\
    ISA*00*          *00*          *01*ACME           *ZZ*HUB            *260228*0900*^*00501*000000007*0*P*>~\
    GS*PO*ACME*BOLT*20260228*0900*12*X*005010~ST*850*0001~BEG*00~SE*3*0001~GE*1*12~IEA*1*000000007~";

const ACKNOWLEDGED: &[u8] =
    b"ISA*00*          *00*          *ZZ*HUB            *01*ACME           *260301*1530*^*00501*000000001*0*P*>~\
    GS*FA*HUB*ACME*20260301*1530*1*X*005010X231~ST*999*0001*005010X231~AK1*PO*12*005010~AK2*850*0001~IK5*A~AK9*A*1*1*1~\
    SE*6*0001~GE*1*1~IEA*1*000000001~\
    ISA*00*          *00*          *ZZ*HUB            *01*ACME           *260301*1530*^*00501*000000002*0*P*>~\
    TA1*000000007*260228*0900*R*025~IEA*0*000000002~";

const DELIVERED: &[u8] =
    b"ISA|00|          |00|          |ZZ|HUB            |ZZ|BOLT           |260301|1530|^|00501|000000001|0|P|:!\
    GS|PO|ACME|BOLT|20260301|1530|3|X|005010!ST|850|0001!BEG|00!SE|3|0001!GE|1|3!IEA|1|000000001!";

const REPORTED: &[u8] = b"interchange 1 at 0 from ACME control 000000007 accepted\n\
    group PO 12 A sets 1 accepted 1\n\
    interchange 2 at 201 from ACME control 000000007 refused 9\n\
    ta1 sent R 025\n\
    total interchanges 2 refused 1 groups 1 sets 1 accepted 1 held 0 outside 0\n";

fn expect_bytes(found: &[u8], wanted: &[u8]) -> Result<(), Fail> {
    if found != wanted {
        return Err("other bytes")?;
    }
    Ok(())
}

/// The mailbox of the second partner, with the first set of an interchange, after no acknowledgment and two groups.
fn delivered(
    alloc: Global,
    setup: &Setup,
    at: &At,
    interchange: &JudgedInterchange<'_, '_>,
) -> Result<Mailbox, Fail> {
    let groups = interchange.interchange();
    if setup.partners().len() < 2 || groups.group_count() == 0 {
        return Err("no group or no partner")?;
    }
    if groups.group(0).set_count() == 0 {
        return Err("no set")?;
    }
    let set = PlacedSet::new(interchange, 0, 0);
    Ok(assemble(alloc, setup, 1, at, 0, 2, &[set])?)
}

fn expect_delivered(
    alloc: Global,
    setup: &Setup,
    at: &At,
    interchange: &JudgedInterchange<'_, '_>,
) -> Result<(), Fail> {
    let found = delivered(alloc, setup, at, interchange)?;
    if found.groups != 1 {
        return Err("another number of groups")?;
    }
    expect_bytes(text_of(alloc, &found.text)?.as_slice(), DELIVERED)
}

fn expect_report(
    alloc: Global,
    setup: &Setup,
    interchanges: &[JudgedInterchange<'_, '_>],
) -> Result<(), Fail> {
    let report = report_text(alloc, setup, interchanges, 0)?;
    expect_bytes(report.as_slice(), REPORTED)?;
    if is_clean(report.as_slice()) {
        return Err("clean")?;
    }
    Ok(())
}

fn expect_checked(
    alloc: Global,
    setup: &Setup,
    at: &At,
    checked: &CheckedText<'_, '_>,
) -> Result<(), Fail> {
    let interchanges = checked.interchanges.as_slice();
    expect_report(alloc, setup, interchanges)?;
    let first = interchanges.first().ok_or("no interchange")?;
    expect_delivered(alloc, setup, at, first)?;
    let acknowledged = checked
        .acknowledgments
        .as_slice()
        .first()
        .ok_or("no partner")?;
    expect_bytes(acknowledged.text(), ACKNOWLEDGED)
}

/// Checks the text of a settled index.
fn expect_settled<'i, 'a>(
    alloc: Global,
    setup: &'a Setup,
    at: &At,
    index: &'i Index<'a>,
) -> Result<(), Fail>
    requires { All (λ e. HasSpans index.now.text e.interchange) index.now.entries }
{
    let _ = index.interchanges();
    let none = no_acknowledgments(alloc, setup)?;
    let checked = check_text(alloc, &OneThread, setup, at, index, none)?;
    expect_checked(alloc, setup, at, &checked)
}

fn expect_night<'a>(alloc: Global, setup: &'a Setup, text: &'a [u8]) -> Result<(), Fail> {
    if !within_limit(text.len() as u64) {
        return Err("too long")?;
    }
    let at = At::read(b"202603011530").ok_or("no moment")?;
    let mut index = index_plain(alloc, text)?;
    let faults = settled_faults(alloc, setup, &index)?;
    index.settle(faults.as_slice());
    expect_settled(alloc, setup, &at, &index)
}

#[test]
fn an_order_and_its_duplicate(rt: HostRuntime) -> Result<(), Fail> {
    let setup = example(rt.alloc())?;
    expect_night(rt.alloc(), &setup, TWICE)
}
