//! Acknowledgments as they are written, cut at each byte, and texts that are none.
use crate::examples::{LINES, OPEN, TOLD};
use crate::readers::{lines_on, same, whole};
use explain_command::{CutOff, Failure, explained};
use guide_names::Names;
use std::alloc::Global;
use std::test::Fail;

#[test]
fn says_what_is_told(rt: HostRuntime) -> Result<(), Fail> {
    match lines_on(rt.alloc(), TOLD) {
        Ok(lines) => same(rt.alloc(), lines.as_slice(), LINES),
        Err(_) => Err("refused".into()),
    }
}

/// Up to where the last line of a text begins.
fn before_last_line(lines: &[u8]) -> usize {
    let mut begin = 0;
    for at in 1..lines.len() {
        if lines[at - 1] == b'\n' {
            begin = at;
        }
    }
    begin
}

/// The lines on a front part, without its totals, and without the set whose group the whole rejects.
fn settled(lines: &[u8]) -> &[u8] {
    let told = lines.get(..before_last_line(lines)).unwrap_or(b"");
    if told.ends_with(OPEN) {
        return told
            .get(..told.len().saturating_sub(OPEN.len()))
            .unwrap_or(b"");
    }
    told
}

/// What is reported of a front part is reported of the whole, but for the totals and for a set whose group is cut off; a front part that
/// reports nothing is refused, or cut off.
fn expect_front(alloc: Global, cut: usize) -> Result<(), Fail> {
    let answer = lines_on(alloc, TOLD.get(..cut).unwrap_or(TOLD));
    let holds = match &answer {
        Ok(lines) if cut < 138 => 106 < cut && lines.is_empty(),
        Ok(lines) => LINES.starts_with(settled(lines.as_slice())),
        Err(Failure::NoHeader) => cut < 106,
        Err(Failure::TellsNothing) => cut == 106,
        Err(_) => false,
    };
    if holds {
        return Ok(());
    }
    Err(Fail::new(format!(in alloc; "cut at {cut}")?))
}

#[test]
fn takes_acknowledgments_cut_at_each_byte(rt: HostRuntime) -> Result<(), Fail> {
    for cut in 1..TOLD.len() {
        expect_front(rt.alloc(), cut)?;
    }
    Ok(())
}

/// Texts that begin with no header.
const HEADLESS: &[&[u8]] = &[
    b"\n",
    b"ISA",
    b"TA1*000000007*260228*0900*A*000~",
    b" ISA*00*          *00*          *ZZ*HUB            *01*ACME           *260301*1530*^*00501*000000001*0*P*>~TA1*1~",
    b"ISA*00*          *00*          *ZZ*HUB            *01*ACME           *260301*1530*^*00501*000000001*0*P**~TA1*1~",
];

/// Segments after a header that report nothing.
const SILENT: &[&[u8]] = &[
    b"",
    b"IEA*0*000000001~",
    b"GS*PO*ACME*BOLT*20260228*0900*12*X*005010~ST*850*0001~SE*2*0001~GE*1*12~IEA*1*000000001~",
    b"AK1*PO*12~AK2*850*0001~IK3*BEG*2**8~IK4*1*353*7~",
    b"TA1X*1~ta1*1~ IK5*R~IK50*R~AK99*R~",
];

const HEADER: &[u8] =
    b"ISA*00*          *00*          *ZZ*HUB            *01*ACME           *260301*1530*^*00501*000000001*0*P*>~";

#[test]
fn refuses_texts_that_are_no_acknowledgments(rt: HostRuntime) -> Result<(), Fail> {
    for text in HEADLESS {
        let answer = lines_on(rt.alloc(), text);
        assert!(rt; matches!(&answer, Err(Failure::NoHeader)), "a header");
    }
    for segments in SILENT {
        let mut text = Vec::from_slice(rt.alloc(), HEADER)?;
        text.extend_from_slice(segments)?;
        let answer = lines_on(rt.alloc(), text.as_slice());
        assert!(rt;
            matches!(&answer, Err(Failure::TellsNothing | Failure::OtherSet(_))),
            "something told"
        );
    }
    Ok(())
}

/// Segments of other hands, and the lines on them: what is out of its place, codes that no list has, bytes that don't print, and texts
/// that are cut to 99 bytes.
const FOREIGN: &[(&[u8], &[u8])] = &[
    (
        b"IK5*R~",
        b"interchange 1, group  ,  : rejected (IK501 R)\ntotal ta1s 0 groups 0 sets 1 accepted 0\n",
    ),
    (
        b"AK1*PO*12~AK2*850*0001~IK5*M**~AK9*X*1~",
        b"interchange 1, group PO 12, 850 0001: a code that this hub doesn't write (IK501 M)
interchange 1, group PO 12: a code that this hub doesn't write (AK901 X)
total ta1s 0 groups 1 sets 1 accepted 0
",
    ),
    (
        b"AK2*850*0001~IK5*A~TA1*000000007*260228*0900*A*000~AK1*PO*12~AK2*850*0002~IK5*A~AK9*R*1*1*0*3~AK2*850*0003~IK5*A~",
        b"interchange 1, TA1 000000007: accepted (TA104 A): the interchange isn't refused (TA105 000)
interchange 1 (TA1 000000007), group PO 12: rejected: no GE (AK905 3)
interchange 1 (TA1 000000007), group PO 12, 850 0002: rejected with its group (IK501 A)
total ta1s 1 groups 1 sets 3 accepted 2
",
    ),
    (
        b"AK2*850*0001~IK3*BEG*2**8~IK5*R**5~",
        b"interchange 1, group  , 850 0001: rejected: segment 2 BEG: something is wrong with its elements (IK304 8)
total ta1s 0 groups 0 sets 1 accepted 0
",
    ),
    (
        b"TA1*\x1b\xff*260228*0900*A*999~AK2*850*0001~IK4*2>3*98*7*\
12345678901234567890123456789012345678901234567890123456789012345678901234567890123456789012345678901~IK5*E*I5~",
        b"interchange 1, TA1 ??: accepted (TA104 A): a code that this hub doesn't write (TA105 999)
interchange 1 (TA1 ??), group  , 850 0001: accepted with errors: segment  , element 2, component 3 (98): \
123456789012345678901234567890123456789012345678901234567890123456789012345678901234567890123456789 \
is a code that the guide doesn't list (IK403 7)
total ta1s 1 groups 0 sets 1 accepted 1
",
    ),
];

#[test]
fn takes_segments_of_other_hands(rt: HostRuntime) -> Result<(), Fail> {
    for (segments, lines) in FOREIGN {
        let mut text = Vec::from_slice(rt.alloc(), HEADER)?;
        text.extend_from_slice(segments)?;
        match lines_on(rt.alloc(), text.as_slice()) {
            Ok(found) => same(rt.alloc(), found.as_slice(), lines)?,
            Err(_) => return Err("refused".into()),
        }
    }
    Ok(())
}

/// Segments after a header, and where they are cut off.
const ENDS: &[(&[u8], Option<CutOff>)] = &[
    (b"IK5*R~", None),
    (b"IK5*R~\r\n", None),
    (b"IK5*R~ ", Some(CutOff::InSegment)),
    (b"IK5*R", Some(CutOff::InSegment)),
    (b"ST*999*0001~AK1*PO*12~IK5*R~", Some(CutOff::In999)),
    (b"ST*999*0001~SE*2*0001~ST*999*0002~\n", Some(CutOff::In999)),
    (b"ST*999*0001~IK5*R~SE*3*0001~GE*1*1~", None),
];

#[test]
fn says_where_a_text_is_cut_off(rt: HostRuntime) -> Result<(), Fail> {
    for (segments, cut) in ENDS {
        let mut text = Vec::from_slice(rt.alloc(), HEADER)?;
        text.extend_from_slice(segments)?;
        match explained(rt.alloc(), &Names::none(rt.alloc()), whole(text.as_slice())) {
            Ok(account) => assert!(rt; account.cut == *cut, "another end"),
            Err(_) => return Err("refused".into()),
        }
    }
    Ok(())
}

#[test]
fn refuses_a_997(rt: HostRuntime) -> Result<(), Fail> {
    let mut text = Vec::from_slice(rt.alloc(), HEADER)?;
    text.extend_from_slice(b"ST*997*0001~AK1*PO*12~AK2*850*0001~AK5*A~AK9*A*1*1*1~SE*6*0001~")?;
    let answer = explained(rt.alloc(), &Names::none(rt.alloc()), whole(text.as_slice()));
    assert!(rt; matches!(&answer, Err(Failure::Is997)), "a 997 is read");
    Ok(())
}
