//! Sets with hierarchies and dependencies.
use super::answers::expect_answers;
use super::guides::{SHIPMENT, guide_of};
use super::sets::{Cases, expect_told};
use guide_tree::Guide;
use std::alloc::{AllocError, Global};
use std::test::Fail;

/// What comes after BSN in a shipment, its SE01, and what is found.
const SHIPMENTS: &[[&str; 3]] = &[
    ["", "3", " clean\n"],
    ["HL*1**S*1~HL*2*1*O*0~", "5", " clean\n"],
    // an empty level, one that isn't used, and one that isn't known: where the value has a fault of the same key, it alone is reported
    [
        "HL*1~",
        "4",
        "3 HL(HL) 8 3 3.0.0 1 735 ;3 HL(HL) 8 3 3.0.0 I6 735 ; 5 I5\n",
    ],
    ["HL*1**T~", "4", "3 HL(HL) 8 3 3.0.0 I6 735 T; I5\n"],
    ["HL*1**T>~", "4", "3 HL(HL) 8 3 3.0.0 I6 735 T; I5\n"],
    [
        "HL*1**X~",
        "4",
        "3 HL(HL) 8 3 3.0.0 7 735 X;3 HL(HL) 8 3 3.0.0 I6 735 X; 5 I5\n",
    ],
    // an HL whose slot has no rows
    [
        "HL*1**S~LX*1~HL*9*8*O~",
        "6",
        "5 HL(LX) 8 7 1.0.0 3  9;5 HL(LX) 8 7 1.0.0 I12  9;5 HL(LX) 8 7 2.0.0 I12  8; 5 I5\n",
    ],
    // a slot that is needed, and one that is banned
    ["HL*1**S~HL*2*1*O~HL*3*2*P~", "6", "6 MAN(HL) I6 4; I5\n"],
    ["HL*1**S~MAN*XX*1~HL*2*1*O~HL*3*2*P~", "7", " clean\n"],
    [
        "HL*1**S~MAN*AA*1~LX*1~LX*2~",
        "7",
        "5 LX(LX) I9 6;6 LX(LX) I9 6; I5\n",
    ],
    ["HL*1**S~MAN*XX*1~LX*1~", "6", " clean\n"],
    // an element that is needed, and one that is banned
    [
        "HL*1**S*0~MAN*GM*1~HL*2**S~",
        "6",
        "5 HL(HL) 8 3 4.0.0 I9 736 ; I5\n",
    ],
    [
        "HL*1**S*0~MAN*UC*1~HL*2**S~",
        "6",
        "3 HL(HL) 8 3 4.0.0 I13 736 0; I5\n",
    ],
    // numbers that aren't the count, one that an earlier HL has, and one that names itself or a later one
    ["HL*01**S~", "4", "3 HL(HL) 8 3 1.0.0 I12 628 01; I5\n"],
    [
        "HL*1**S~HL*1*1*O~",
        "5",
        "4 HL(HL) 8 3 1.0.0 I12 628 1; I5\n",
    ],
    ["HL*1*1*S~", "4", "3 HL(HL) 8 3 2.0.0 I12 734 1; I5\n"],
    [
        "HL*1*2*S~HL*2**S~",
        "5",
        "3 HL(HL) 8 3 2.0.0 I12 734 2; I5\n",
    ],
    [
        "HL*1**S~HL*2*01*O~",
        "5",
        "4 HL(HL) 8 3 2.0.0 I12 734 01; I5\n",
    ],
    // a level that isn't listed below its parent's, and one that isn't a root's
    [
        "HL*1**S~HL*2*1*S~",
        "5",
        "4 HL(HL) 8 3 3.0.0 I6 735 S; I5\n",
    ],
    ["HL*1**O~", "4", "3 HL(HL) 8 3 3.0.0 I6 735 O; I5\n"],
    // children that come unannounced, at once and after another level; and those that come as announced
    [
        "HL*1**S*0~HL*2*1*O~",
        "5",
        "3 HL(HL) 8 3 4.0.0 I12 736 0; I5\n",
    ],
    [
        "HL*1**S*1~HL*2*1*O*0~HL*3*1*O*0~HL*4*2*I*0~",
        "7",
        "4 HL(HL) 8 3 4.0.0 I12 736 0; I5\n",
    ],
    [
        "HL*1**S*1~HL*2*1*O*1~HL*3*2*I*0~HL*4*1*O*0~",
        "7",
        " clean\n",
    ],
    // numbers of two digits
    [
        "HL*1**S*1~HL*2*1*O*1~HL*3*2*I*0~HL*4*2*I*0~HL*5*2*I*0~HL*6*2*I*0~HL*7*2*I*0~HL*8*2*I*0~HL*9*2*I*0~HL*10*1*O*1~HL*11*10*I*0~",
        "14",
        " clean\n",
    ],
    [
        "HL*1**S*1~HL*2*1*O*1~HL*3*2*I*0~HL*4*2*I*0~HL*5*2*I*0~HL*6*2*I*0~HL*7*2*I*0~HL*8*2*I*0~HL*9*2*I*0~HL*10*1*O*1~HL*11*1*I*0~",
        "14",
        "12 HL(HL) 8 3 4.0.0 I12 736 1;13 HL(HL) 8 3 3.0.0 I6 735 I; I5\n",
    ],
    // dependencies that are triggered and kept
    ["HL*1**S~HL*2*1*O~HL*3*2*P~MAN*XX*1~", "7", " clean\n"],
    ["HL*1**S*1~MAN*GM*1~HL*2*1*O*0~", "6", " clean\n"],
    ["HL*1**S~MAN*UC*1~", "5", " clean\n"],
    ["HL*1**S~MAN*AA*1~", "5", " clean\n"],
    // one that is banned and announces children that don't come
    [
        "HL*1**S*1~MAN*UC*1~",
        "5",
        "3 HL(HL) 8 3 4.0.0 I12 736 1;3 HL(HL) 8 3 4.0.0 I13 736 1; I5\n",
    ],
];

/// A shipment with this after its BSN, and this SE01.
fn shipment(alloc: Global, body: &str, count: &str) -> Result<String, AllocError> {
    format!(in alloc; "ST*856*0001~BSN*00*SH1*20260228*0900~{body}SE*{count}*0001~")
}

fn expect_shipment(alloc: Global, guide: &Guide, case: &[&str; 3]) -> Result<(), Fail> {
    let [body, count, wanted] = *case;
    let set = shipment(alloc, body, count)?;
    expect_told(alloc, Some(guide), set.as_str(), wanted)
}

/// Whether just this is found in a shipment with each of these after its BSN.
fn expect_shipments(alloc: Global, guide: &Guide, cases: &[[&str; 3]]) -> Result<(), Fail> {
    for case in cases {
        expect_shipment(alloc, guide, case)?;
    }
    Ok(())
}

#[test]
fn shipments(rt: HostRuntime) -> Result<(), Fail> {
    let guide = guide_of(rt.alloc(), SHIPMENT)?;
    expect_shipments(rt.alloc(), &guide, SHIPMENTS)
}

/// Shipments and the GE after them, and the 999 that answers them.
const ANSWERS: Cases = &[
    [
        "ST*856*0001~BSN*00*SH1*20260228*0900~HL*1**S*0~HL*2*3*O~HL*3*1*I~SE*6*0001~GE*1*12~",
        "ST*999*0001*005010X231~AK1*SH*12*005010~AK2*856*0001~IK3*HL*3*HL*8~IK4*4*736*I12*0~IK3*HL*4*HL*8~IK4*2*734*I12*3~\
          IK3*HL*5*HL*8~IK4*3*735*I6*I~IK5*R*I5~AK9*R*1*1*0~SE*12*0001~",
    ],
    [
        "ST*856*0001~BSN*00*SH1*20260228*0900~HL*1**S~HL*2*1*O~HL*3*2*P~SE*6*0001~GE*1*12~",
        "ST*999*0001*005010X231~AK1*SH*12*005010~AK2*856*0001~IK3*MAN*6*HL*I6~IK5*R*I5~AK9*R*1*1*0~SE*7*0001~",
    ],
];

#[test]
fn answers(rt: HostRuntime) -> Result<(), Fail> {
    expect_answers(rt.alloc(), SHIPMENT, "SH", ANSWERS)
}

/// Cases by a guide that tolerates that a slot is needed, or banned.
const TOLERATED: Cases = &[
    [
        "ST*856*0001~BSN*00*SH1*20260228*0900~HL*1**S~HL*2*1*O~HL*3*2*P~SE*6*0001~GE*1*12~",
        "ST*999*0001*005010X231~AK1*SH*12*005010~AK2*856*0001~IK3*MAN*6*HL*I6~IK5*E*I5~AK9*E*1*1*1~SE*7*0001~",
    ],
    [
        "ST*856*0001~BSN*00*SH1*20260228*0900~HL*1**S~MAN*AA*1~LX*1~SE*6*0001~GE*1*12~",
        "ST*999*0001*005010X231~AK1*SH*12*005010~AK2*856*0001~IK3*LX*5*LX*I9~IK5*E*I5~AK9*E*1*1*1~SE*7*0001~",
    ],
];

fn expect_tolerated(alloc: Global, cases: Cases) -> Result<(), Fail> {
    let guide = format!(in alloc; "tolerate_segment = [\"I6\", \"I9\"]\n{}", SHIPMENT)?;
    expect_answers(alloc, guide.as_str(), "SH", cases)
}

#[test]
fn tolerated(rt: HostRuntime) -> Result<(), Fail> {
    expect_tolerated(rt.alloc(), TOLERATED)
}
