//! What is answered to a group of sets that are checked by a guide: its 999, byte for byte.
ghost use Rattle.std.specs.Prelude.{◌≡◌, IfOk};
ghost use Rattle.std.specs.List.{All};
ghost use Rattle.x12_segs.specs.Words.{IsSetSpan};
ghost use Rattle.env_index.specs.Words.{HasSpans, span_of};
ghost use Rattle.ack_999.specs.Group.{totals_of};

use super::guides::{ORDER, guide_of};
use super::sets::{Cases, expect_same, interchange_of};
use ack_999::{GroupSupport, GroupTrailer, Totals, group_codes, group_verdict, write_999};
use env_index::{GroupEnvelope, Interchange, read_interchange};
use guide_tree::Guide;
use hub_kinds::{GroupAnswer, Lent, NoMemory, SetAnswer, within_limit};
use set_check::check_set;
use std::alloc::Global;
use std::test::Fail;
use x12_bytes::Delims;
use x12_segs::SetSpan;

/// Whether a set that is answered has this number, ST02.
fn is_there(answers: &[SetAnswer], control: &[u8]) -> bool {
    for answer in answers {
        if answer.control.bytes() == control {
            return true;
        }
    }
    false
}

/// Adds the answer to a set that is after those that have these answers.
fn add_answer<'a>(
    answers: &mut Vec<SetAnswer<'a>>,
    alloc: Global,
    text: &'a [u8],
    span: SetSpan,
    guide: Option<&'a Guide>,
) -> Result<(), NoMemory>
    requires { IsSetSpan text.now span }
{
    let checked = check_set(alloc, text, span, guide)?;
    let earlier = is_there(answers.as_slice(), checked.control());
    answers.push(checked.into_answer(alloc, earlier)?)?;
    Ok(())
}

/// The answers to the sets of a group.
fn answers_to<'a>(
    alloc: Global,
    text: &'a [u8],
    delims: Delims,
    group: &GroupEnvelope<'_, 'a>,
    guide: Option<&'a Guide>,
) -> Result<Vec<SetAnswer<'a>>, NoMemory>
    requires { All (λ set. IsSetSpan text.now (span_of delims set)) group.now.sets }
{
    let mut answers = Vec::new(alloc);
    for index in 0..group.set_count() {
        let set = group.set(index);
        add_answer(&mut answers, alloc, text, set.span(delims), guide)?;
    }
    Ok(answers)
}

fn totals_of(sets: &[SetAnswer]) -> Totals
    ensures { result ≡ totals_of sets.now }
{
    let mut totals = Totals::new();
    for set in sets {
        totals.add(set);
    }
    totals
}

/// The answer to a group with these sets, by a partner whose guides serve it.
fn group_answer<'a>(
    alloc: Global,
    group: &GroupEnvelope<'_, 'a>,
    sets: &[SetAnswer],
) -> Result<GroupAnswer<'a>, Fail> {
    let header = group.header();
    let Some(end) = group.trailer() else {
        return Err("no trailer".into());
    };
    let trailer = GroupTrailer {
        listed: Lent::new(end.element(1)),
        control: Lent::new(end.element(2)),
    };
    let count = group.set_count() as u64;
    let control = header.element(6);
    let codes = group_codes(
        alloc,
        GroupSupport::Served,
        control,
        Some(&trailer),
        count,
        false,
    )?;
    let verdict = group_verdict(codes.as_slice(), &totals_of(sets));
    Ok(GroupAnswer {
        functional_id: Lent::new(header.element(1)),
        control: Lent::new(control),
        version: Lent::new(header.element(8)),
        listed: trailer.listed,
        codes,
        verdict,
    })
}

/// The acknowledgment of a group with these answers to its sets.
fn acknowledged(
    alloc: Global,
    group: &GroupEnvelope,
    sets: &[SetAnswer],
    delims: &Delims,
) -> Result<Vec<u8>, Fail> {
    let answer = group_answer(alloc, group, sets)?;
    Ok(write_999(alloc, &answer, sets, delims, 1)?)
}

/// The acknowledgment of the first group of an interchange, written with its delimiters.
fn acknowledgment<'a>(
    alloc: Global,
    text: &'a [u8],
    interchange: &Interchange<'a>,
    guide: Option<&'a Guide>,
) -> Result<Vec<u8>, Fail>
    requires { HasSpans text.now interchange.now }
{
    if interchange.group_count() == 0 {
        return Err("no group".into());
    }
    let delims = interchange.header().delims();
    let group = interchange.group(0);
    let sets = answers_to(alloc, text, delims, &group, guide)?;
    acknowledged(alloc, &group, sets.as_slice(), &delims)
}

/// The acknowledgment of the first group of the interchange with which a text begins.
fn first_acknowledgment(alloc: Global, guide: &Guide, text: &[u8]) -> Result<Vec<u8>, Fail> {
    if !within_limit(text.len() as u64) {
        return Err("too long".into());
    }
    match read_interchange(alloc, text, 0)? {
        None => Err("no interchange".into()),
        Some(interchange) => acknowledgment(alloc, text, &interchange, Some(guide)),
    }
}

/// The acknowledgment of a group with this functional identifier code, whose segments after GS are these, its sets checked by a
/// guide.
fn answered(alloc: Global, guide: &Guide, group: &str, body: &str) -> Result<Vec<u8>, Fail> {
    let text = interchange_of(alloc, group, body)?;
    first_acknowledgment(alloc, guide, text.as_slice())
}

fn expect_answer(
    alloc: Global,
    guide: &Guide,
    group: &str,
    body: &str,
    wanted: &str,
) -> Result<(), Fail> {
    let found = answered(alloc, guide, group, body)?;
    expect_same(alloc, body, found.as_slice(), wanted)
}

/// Whether the 999 beside each of these groups answers it by a guide.
fn expect_each(alloc: Global, guide: &Guide, group: &str, cases: Cases) -> Result<(), Fail> {
    for [body, wanted] in cases {
        expect_answer(alloc, guide, group, body, wanted)?;
    }
    Ok(())
}

/// Expects the answers by the guide of a file.
pub fn expect_answers(alloc: Global, guide: &str, group: &str, cases: Cases) -> Result<(), Fail> {
    let guide = guide_of(alloc, guide)?;
    expect_each(alloc, &guide, group, cases)
}

/// Sets of an order and the GE after them, and the 999 that answers them.
const ORDERS: Cases = &[
    // clean
    [
        "ST*850*0001~BEG*00*SA*PO100**20260228~PO1*1*5*EA*2.50~SE*4*0001~GE*1*12~",
        "ST*999*0001*005010X231~AK1*PO*12*005010~AK2*850*0001~IK5*A~AK9*A*1*1*1~SE*6*0001~",
    ],
    // a header and a trailer in error
    [
        "ST*850*001~BEG*00*SA*PO100**20260228~PO1*1*5*EA*2.50~SE*5*0002~GE*1*12~",
        "ST*999*0001*005010X231~AK1*PO*12*005010~AK2*850*001~IK5*R*3*4*7~AK9*R*1*1*0~SE*6*0001~",
    ],
    // the second has the number of the first
    [
        "ST*850*0001~BEG*00*SA*PO100**20260228~PO1*1*5*EA*2.50~SE*4*0001~\
          ST*850*0001~BEG*00*SA*PO100**20260228~PO1*1*5*EA*2.50~SE*4*0001~GE*2*12~",
        "ST*999*0001*005010X231~AK1*PO*12*005010~AK2*850*0001~IK5*A~AK2*850*0001~IK5*R*23~AK9*P*2*2*1~SE*8*0001~",
    ],
    // what is needed is missing, a loop is there too often, an id is unknown
    [
        "ST*850*0001~REF*DP*7~N1*ST*A~N1*BT*B~N1*VN*C~Q9*1~PO1*1*5*EA~SE*8*0001~GE*1*12~",
        "ST*999*0001*005010X231~AK1*PO*12*005010~AK2*850*0001~IK3*BEG*2**3~IK3*N1*5*N1*4~IK3*Q9*6**1~IK5*R*5~\
          AK9*R*1*1*0~SE*9*0001~",
    ],
    [
        "ST*850*0001~BEG*00*SA*PO100**20260228~SE*3*0001~GE*1*12~",
        "ST*999*0001*005010X231~AK1*PO*12*005010~AK2*850*0001~IK3*PO1*3*PO1*3~IK5*R*5~AK9*R*1*1*0~SE*7*0001~",
    ],
    // elements in error, of which one alone is tolerated; 99 bytes are shown of the 100 that are in REF
    [
        "ST*850*0001~BEG*01*SA*P1**20260229~REF*DP*7*\
          AAAAAAAAAAAAAAAAAAAAAAAAAAAAAAAAAAAAAAAAAAAAAAAAAAAAAAAAAAAAAAAAAAAAAAAAAAAAAAAAAAAAAAAAAAAAAAAAAAAA~\
          DTM*002**2460~PO1*1*-0012.5*EA***UP~SE*6*0001~GE*1*12~",
        "ST*999*0001*005010X231~AK1*PO*12*005010~AK2*850*0001~\
          IK3*BEG*2**8~IK4*1*353*I6*01~IK4*5*373*8*20260229~IK3*REF*3**8~IK4*3*352*5*\
          AAAAAAAAAAAAAAAAAAAAAAAAAAAAAAAAAAAAAAAAAAAAAAAAAAAAAAAAAAAAAAAAAAAAAAAAAAAAAAAAAAAAAAAAAAAAAAAAAAA~\
          IK3*DTM*4**8~IK4*3*337*9*2460~IK3*PO1*5*PO1*8~IK4*7*234*2~IK5*R*5*I5~AK9*R*1*1*0~SE*15*0001~",
    ],
    // the tolerated one alone
    [
        "ST*850*0001~BEG*00*SA*PO100**20260228~REF*DP*7*\
          AAAAAAAAAAAAAAAAAAAAAAAAAAAAAAAAAAAAAAAAAAAAAAAAAAAAAAAAAAAAAAAAAAAAAAAAAAAAAAAAAAAAAAAAAAAAAAAAAAAA~\
          PO1*1*5*EA*2.50~SE*5*0001~GE*1*12~",
        "ST*999*0001*005010X231~AK1*PO*12*005010~AK2*850*0001~IK3*REF*3**8~IK4*3*352*5*\
          AAAAAAAAAAAAAAAAAAAAAAAAAAAAAAAAAAAAAAAAAAAAAAAAAAAAAAAAAAAAAAAAAAAAAAAAAAAAAAAAAAAAAAAAAAAAAAAAAAA~\
          IK5*E*5~AK9*E*1*1*1~SE*8*0001~",
    ],
    // another one alone
    [
        "ST*850*0001~BEG*00*SA*PO100**20260228~PO1*1*5*XX~SE*4*0001~GE*1*12~",
        "ST*999*0001*005010X231~AK1*PO*12*005010~AK2*850*0001~IK3*PO1*3*PO1*8~IK4*3*355*7*XX~IK5*R*5~AK9*R*1*1*0~SE*8*0001~",
    ],
];

#[test]
fn orders(rt: HostRuntime) -> Result<(), Fail> {
    expect_answers(rt.alloc(), ORDER, "PO", ORDERS)
}
