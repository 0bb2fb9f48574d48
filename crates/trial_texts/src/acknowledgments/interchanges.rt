//! Interchange acknowledgments (TA1), and the interchanges that they and 999s are sent in.
use super::samples::{ACCEPTED_GROUP, ACCEPTED_SET, DELIMS, acknowledgment};
use super::texts::same;
use ack_999::{Envelope, append_ack_group_header, append_ta1, write_ack_interchange, write_ta1};
use hub_kinds::{Items, Lent, NoMemory};
use moment::At;
use std::alloc::Global;
use std::test::Fail;
use x12_bytes::{Delims, Header, read_header};

/// From the hub to ACME.
pub fn envelope() -> Envelope<'static> {
    Envelope {
        hub_qualifier: Lent::new(b"ZZ"),
        hub_id: Lent::new(b"HUB"),
        hub_code: Lent::new(b"HUB"),
        partner_qualifier: Lent::new(b"01"),
        partner_id: Lent::new(b"ACME"),
        partner_code: Lent::new(b"ACME"),
        usage: b'P',
        repetition: b'^',
        delims: DELIMS,
    }
}

/// The moment at which these are made.
pub fn moment() -> Result<At, Fail> {
    match At::read(b"202603011530") {
        None => Err("no moment".into()),
        Some(at) => Ok(at),
    }
}

/// What a TA1 answers.
const RECEIVED: &[u8] =
    b"ISA*00*          *00*          *01*ACME           *ZZ*HUB            *260228*0900*^*00501*000000007*0*P*>~";

const OTHER_DELIMS: Delims = Delims {
    element: b'|',
    component: b':',
    repetition: Some(b'^'),
    terminator: b'!',
};

/// A note, the delimiters of the receiver, and what is reported of the interchange.
const NOTES: &[(&str, Delims, &[u8])] = &[
    ("000", DELIMS, b"TA1*000000007*260228*0900*A*000~"),
    ("001", DELIMS, b"TA1*000000007*260228*0900*R*001~"),
    ("025", OTHER_DELIMS, b"TA1|000000007|260228|0900|R|025!"),
];

fn received() -> Result<Header<'static>, Fail> {
    match read_header(RECEIVED, 0) {
        None => Err("no header".into()),
        Some(header) => Ok(header),
    }
}

fn writes_note(alloc: Global, note: &str, delims: &Delims, wanted: &[u8]) -> Result<(), Fail> {
    let header = received()?;
    let bytes = write_ta1(alloc, &header, note, delims)?;
    same(alloc, "a TA1", bytes.as_slice(), wanted)
}

fn writes_each_note(alloc: Global, cases: &[(&str, Delims, &[u8])]) -> Result<(), Fail> {
    for (note, delims, wanted) in cases {
        writes_note(alloc, note, delims, wanted)?;
    }
    Ok(())
}

#[test]
fn tells_of_an_interchange(rt: HostRuntime) -> Result<(), Fail> {
    writes_each_note(rt.alloc(), NOTES)
}

const SENT: &[u8] =
    b"ISA*00*          *00*          *ZZ*HUB            *01*ACME           *260301*1530*^*00501*000000001*0*P*>~\
      GS*FA*HUB*ACME*20260301*1530*1*X*005010X231~ST*999*0001*005010X231~AK1*PO*12*005010~AK2*850*0001~IK5*A~\
      AK9*A*1*1*1~SE*6*0001~GE*1*1~IEA*1*000000001~";

/// What is sent of an accepted set, made at a moment.
fn sent(alloc: Global, at: &At) -> Result<Vec<u8>, NoMemory> {
    let report = acknowledgment(alloc, &ACCEPTED_GROUP, &[ACCEPTED_SET], 1)?;
    write_ack_interchange(
        alloc,
        &envelope(),
        at,
        1,
        1,
        None,
        &[Items::from_vec(report)],
    )
}

#[test]
fn sends_an_acknowledgment_to_the_partner(rt: HostRuntime) -> Result<(), Fail> {
    let at = moment()?;
    let bytes = sent(rt.alloc(), &at)?;
    same(rt.alloc(), "an interchange", bytes.as_slice(), SENT)
}

/// The TA1 is before the group, and the group has a separate number.
const WITH_A_TA1: &[u8] =
    b"ISA*00*          *00*          *ZZ*HUB            *01*ACME           *260301*1530*^*00501*000000007*0*P*>~\
      TA1*000000007*260228*0900*A*000~GS*FA*HUB*ACME*20260301*1530*999999999*X*005010X231~ST*999*0001*005010X231~\
      AK1*PO*12*005010~AK2*850*0001~IK5*A~AK9*A*1*1*1~SE*6*0001~GE*1*999999999~IEA*1*000000007~";

/// What is sent of an accepted set of an interchange that asks for a TA1, made at a moment.
fn sent_with_a_ta1(alloc: Global, at: &At, header: &Header) -> Result<Vec<u8>, NoMemory> {
    let report = acknowledgment(alloc, &ACCEPTED_GROUP, &[ACCEPTED_SET], 1)?;
    let ta1 = write_ta1(alloc, header, "000", &DELIMS)?;
    write_ack_interchange(
        alloc,
        &envelope(),
        at,
        7,
        999_999_999,
        Some(ta1.as_slice()),
        &[Items::from_vec(report)],
    )
}

#[test]
fn sends_a_ta1_in_front_of_the_group(rt: HostRuntime) -> Result<(), Fail> {
    let at = moment()?;
    let bytes = sent_with_a_ta1(rt.alloc(), &at, &received()?)?;
    same(rt.alloc(), "an interchange", bytes.as_slice(), WITH_A_TA1)
}

/// An interchange without a group.
const TA1_ALONE: &[u8] =
    b"ISA*00*          *00*          *ZZ*HUB            *01*ACME           *260301*1530*^*00501*000000003*0*P*>~\
      TA1*000000007*260228*0900*R*023~IEA*0*000000003~";

/// What is sent of an interchange that is refused, made at a moment.
fn sent_of_refused(alloc: Global, at: &At, header: &Header) -> Result<Vec<u8>, NoMemory> {
    let ta1 = write_ta1(alloc, header, "023", &DELIMS)?;
    write_ack_interchange(alloc, &envelope(), at, 3, 1, Some(ta1.as_slice()), &[])
}

#[test]
fn sends_a_ta1_alone_in_no_group(rt: HostRuntime) -> Result<(), Fail> {
    let at = moment()?;
    let bytes = sent_of_refused(rt.alloc(), &at, &received()?)?;
    same(rt.alloc(), "an interchange", bytes.as_slice(), TA1_ALONE)
}

const APPENDED: &[u8] =
    b"IEA*1*000000001~TA1*000000007*260228*0900*R*022~GS*FA*HUB*ACME*20260301*1530*12*X*005010X231~";

/// A TA1 and the header of a group, after the end of an interchange.
fn appended(alloc: Global, at: &At, header: &Header) -> Result<Vec<u8>, NoMemory> {
    let mut out = Vec::from_slice(alloc, b"IEA*1*000000001~")?;
    append_ta1(&mut out, &DELIMS, header, "022")?;
    append_ack_group_header(&mut out, &envelope(), at, 12)?;
    Ok(out)
}

#[test]
fn appends_behind_what_is_there(rt: HostRuntime) -> Result<(), Fail> {
    let at = moment()?;
    let bytes = appended(rt.alloc(), &at, &received()?)?;
    same(rt.alloc(), "parts", bytes.as_slice(), APPENDED)
}
