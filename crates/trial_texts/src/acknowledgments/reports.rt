//! Whole acknowledgments of groups whose sets have no faults, the header before one, and a delivered group.
use super::interchanges::{envelope, moment};
use super::samples::{ACCEPTED_GROUP, ACCEPTED_SET, DELIMS, GroupRow, SetRow, acknowledgment};
use super::texts::same;
use crate::texts::holds;
use hub_kinds::{GroupCode, GroupVerdict, Items, Lent, NoMemory, SetCode, Verdict};
use moment::At;
use std::alloc::Global;
use std::test::Fail;
use x12_bytes::{Header, read_header};
use x12_write::{GroupHeader, append_group, append_header, append_trailer};

/// What is answered to a group, and the text of it.
struct Case {
    group: GroupRow<'static>,
    sets: &'static [SetRow<'static>],
    number: u32,
    text: &'static [u8],
}

const CASES: &[Case] = &[
    // one set, accepted
    Case {
        group: ACCEPTED_GROUP,
        sets: &[ACCEPTED_SET],
        number: 1,
        text: b"ST*999*0001*005010X231~AK1*PO*12*005010~AK2*850*0001~IK5*A~AK9*A*1*1*1~SE*6*0001~",
    },
    // a set with codes
    Case {
        group: GroupRow {
            verdict: GroupVerdict::Rejected,
            ..ACCEPTED_GROUP
        },
        sets: &[SetRow {
            control: b"001",
            codes: &[
                SetCode::ControlNumbersDiffer,
                SetCode::SegmentCountWrong,
                SetCode::ControlNumberInvalid,
            ],
            verdict: Verdict::Rejected,
            ..ACCEPTED_SET
        }],
        number: 10000,
        text: b"ST*999*10000*005010X231~AK1*PO*12*005010~AK2*850*001~IK5*R*3*4*7~AK9*R*1*1*0~SE*6*10000~",
    },
    // one set of two accepted
    Case {
        group: GroupRow {
            listed: b"2",
            verdict: GroupVerdict::PartlyAccepted,
            ..ACCEPTED_GROUP
        },
        sets: &[
            ACCEPTED_SET,
            SetRow {
                codes: &[SetCode::ControlNumberNotUnique],
                verdict: Verdict::Rejected,
                ..ACCEPTED_SET
            },
        ],
        number: 1,
        text: b"ST*999*0001*005010X231~AK1*PO*12*005010~AK2*850*0001~IK5*A~AK2*850*0001~IK5*R*23~AK9*P*2*2*1~SE*8*0001~",
    },
    // a group that is not supported shows no set
    Case {
        group: GroupRow {
            version: b"004010",
            codes: &[GroupCode::VersionNotSupported],
            verdict: GroupVerdict::Rejected,
            ..ACCEPTED_GROUP
        },
        sets: &[ACCEPTED_SET],
        number: 1,
        text: b"ST*999*0001*005010X231~AK1*PO*12*004010~AK9*R*1*1*0*2~SE*4*0001~",
    },
    // no set of a group with a code is accepted
    Case {
        group: GroupRow {
            listed: b"0003",
            codes: &[GroupCode::SetCountWrong],
            verdict: GroupVerdict::Rejected,
            ..ACCEPTED_GROUP
        },
        sets: &[SetRow {
            convention: b"005010X999005010X999005010X99912345",
            ..ACCEPTED_SET
        }],
        number: 1,
        text: b"ST*999*0001*005010X231~AK1*PO*12*005010~\
          AK2*850*0001*005010X999005010X999005010X99912345~IK5*A~AK9*R*3*1*0*5~SE*6*0001~",
    },
    // the sets are counted where the trailer does not
    Case {
        group: GroupRow {
            listed: b"ONE",
            codes: &[GroupCode::SetCountWrong],
            verdict: GroupVerdict::Rejected,
            ..ACCEPTED_GROUP
        },
        sets: &[SetRow {
            convention: b"005010X999005010X999005010X999123456",
            ..ACCEPTED_SET
        }],
        number: 1,
        text: b"ST*999*0001*005010X231~AK1*PO*12*005010~AK2*850*0001~IK5*A~AK9*R*1*1*0*5~SE*6*0001~",
    },
];

fn writes(alloc: Global, case: &Case) -> Result<(), Fail> {
    let bytes = acknowledgment(alloc, &case.group, case.sets, case.number)?;
    same(alloc, "a report", bytes.as_slice(), case.text)
}

fn writes_each(alloc: Global, cases: &[Case]) -> Result<(), Fail> {
    for case in cases {
        writes(alloc, case)?;
    }
    Ok(())
}

#[test]
fn writes_acknowledgments(rt: HostRuntime) -> Result<(), Fail> {
    writes_each(rt.alloc(), CASES)
}

/// A header after a terminator.
fn header(alloc: Global, at: &At) -> Result<Vec<u8>, NoMemory> {
    let mut out = Vec::from_slice(alloc, b"~")?;
    append_header(&mut out, &envelope(), at, 999_999_999)?;
    Ok(out)
}

fn expect_header(alloc: Global, header: &Header) -> Result<(), Fail> {
    holds(header.delims() == DELIMS, "other delimiters")?;
    same(alloc, "ISA06", header.field(6), b"HUB            ")?;
    same(alloc, "ISA13", header.field(13), b"999999999")
}

fn reads_back(alloc: Global, text: &[u8]) -> Result<(), Fail> {
    match read_header(text, 1) {
        None => Err("no header".into()),
        Some(header) => expect_header(alloc, &header),
    }
}

#[test]
fn reads_back_the_header_that_is_sent(rt: HostRuntime) -> Result<(), Fail> {
    let at = moment()?;
    let out = header(rt.alloc(), &at)?;
    reads_back(rt.alloc(), out.as_slice())
}

const DELIVERED: &[u8] =
    b"GS*PO*ACME*BOLT*20260301*1530*12*X*005010~ST*850*0001~SE*2*0001~ST*850*0002~SE*2*0002~GE*2*12~IEA*3*000000007~";

fn orders() -> GroupHeader<'static> {
    GroupHeader {
        functional_id: Lent::new(b"PO"),
        sender: Lent::new(b"ACME"),
        receiver: Lent::new(b"BOLT"),
        control: 12,
        version: Lent::new(b"005010"),
    }
}

/// A group of two sets and the end of its interchange.
fn delivered(alloc: Global, at: &At) -> Result<Vec<u8>, NoMemory> {
    let first = Items::from_vec(Vec::from_slice(alloc, b"ST*850*0001~SE*2*0001~")?);
    let second = Items::from_vec(Vec::from_slice(alloc, b"ST*850*0002~SE*2*0002~")?);
    let mut out = Vec::new(alloc);
    append_group(&mut out, &DELIMS, at, &orders(), &[first, second])?;
    append_trailer(&mut out, &DELIMS, 3, 7)?;
    Ok(out)
}

#[test]
fn writes_a_group_of_two_sets_under_its_number(rt: HostRuntime) -> Result<(), Fail> {
    let at = moment()?;
    let out = delivered(rt.alloc(), &at)?;
    same(rt.alloc(), "a group", out.as_slice(), DELIVERED)
}
