//! What is reported of a set's faults.
use super::samples::{DELIMS, ElemRow, FaultRow, GroupRow, SetRow, acknowledgment, set};
use super::texts::same;
use ack_999::append_set;
use hub_kinds::{ElementCode, GroupCode, GroupVerdict, NoMemory, SegmentCode, SetCode, Verdict};
use std::alloc::Global;
use std::test::Fail;
use x12_bytes::Delims;

/// 100 letters A.
const LONGER: &[u8] =
    b"AAAAAAAAAAAAAAAAAAAAAAAAAAAAAAAAAAAAAAAAAAAAAAAAAAAAAAAAAAAAAAAAAAAAAAAAAAAAAAAAAAAAAAAAAAAAAAAAAAAA";

/// A segment with an element in error.
const BEG: FaultRow<'static> = FaultRow {
    position: 2,
    id: b"BEG",
    loop_id: b"",
    code: SegmentCode::ElementErrors,
    elem: None,
};

/// Element 1 is missing.
const MISSING_1: ElemRow<'static> = ElemRow {
    numbers: [1, 0, 0],
    code: ElementCode::RequiredMissing,
    reference: b"353",
    copy: b"",
};

/// Element 2 is missing.
const MISSING_2: ElemRow<'static> = ElemRow {
    numbers: [2, 0, 0],
    ..MISSING_1
};

const ELEMENT_FAULTS_OF_FIVE_KINDS: &[FaultRow<'static>] = &[
    FaultRow {
        elem: Some(ElemRow {
            numbers: [1, 0, 0],
            code: ElementCode::CodeNotUsed,
            reference: b"353",
            copy: b"01",
        }),
        ..BEG
    },
    FaultRow {
        elem: Some(ElemRow {
            numbers: [5, 0, 0],
            code: ElementCode::InvalidDate,
            reference: b"373",
            copy: b"20260229",
        }),
        ..BEG
    },
    FaultRow {
        position: 3,
        id: b"REF",
        elem: Some(ElemRow {
            numbers: [3, 0, 0],
            code: ElementCode::TooLong,
            reference: b"352",
            copy: LONGER,
        }),
        ..BEG
    },
    FaultRow {
        position: 4,
        id: b"DTM",
        elem: Some(ElemRow {
            numbers: [3, 0, 0],
            code: ElementCode::InvalidTime,
            reference: b"337",
            copy: b"2460",
        }),
        ..BEG
    },
    FaultRow {
        position: 5,
        id: b"PO1",
        loop_id: b"PO1",
        elem: Some(ElemRow {
            numbers: [7, 0, 0],
            code: ElementCode::ConditionalMissing,
            reference: b"234",
            copy: b"",
        }),
        ..BEG
    },
];

/// Faults of a segment that is missing, of a loop that is there too often, of an id that no guide has.
const SEGMENT_FAULTS: &[FaultRow<'static>] = &[
    FaultRow {
        position: 2,
        id: b"BEG",
        loop_id: b"",
        code: SegmentCode::RequiredSegmentMissing,
        elem: None,
    },
    FaultRow {
        position: 5,
        id: b"N1",
        loop_id: b"N1",
        code: SegmentCode::LoopTooOften,
        elem: None,
    },
    FaultRow {
        position: 6,
        id: b"Q9",
        loop_id: b"",
        code: SegmentCode::UnrecognizedSegment,
        elem: None,
    },
];

/// The faults of a group's one set, its codes, the group's codes, and what is reported after AK1.
type Answer = (
    &'static [FaultRow<'static>],
    &'static [SetCode],
    &'static [GroupCode],
    &'static [u8],
);

const ANSWERS: &[Answer] = &[
    (
        ELEMENT_FAULTS_OF_FIVE_KINDS,
        &[
            SetCode::SegmentsInError,
            SetCode::ImplementationSegmentsInError,
        ],
        &[],
        b"AK2*850*0001~IK3*BEG*2**8~IK4*1*353*I6*01~IK4*5*373*8*20260229~IK3*REF*3**8~\
          IK4*3*352*5*AAAAAAAAAAAAAAAAAAAAAAAAAAAAAAAAAAAAAAAAAAAAAAAAAAAAAAAAAAAAAAAAAAAAAAAAAAAAAAAAAAAAAAAAAAAAAAAAAAA~\
          IK3*DTM*4**8~IK4*3*337*9*2460~IK3*PO1*5*PO1*8~IK4*7*234*2~IK5*R*5*I5~AK9*R*1*1*0~SE*15*0001~",
    ),
    (
        SEGMENT_FAULTS,
        &[SetCode::SegmentsInError],
        &[],
        b"AK2*850*0001~IK3*BEG*2**3~IK3*N1*5*N1*4~IK3*Q9*6**1~IK5*R*5~AK9*R*1*1*0~SE*9*0001~",
    ),
    // a group that is not supported shows no set
    (
        ELEMENT_FAULTS_OF_FIVE_KINDS,
        &[],
        &[GroupCode::NotSupported],
        b"AK9*R*1*1*0*1~SE*4*0001~",
    ),
];

/// The faults of a set, and what is reported of them.
type Note = (&'static [FaultRow<'static>], &'static [u8]);

const NOTES: &[Note] = &[
    // a level of the hierarchy that may not be there
    (
        &[FaultRow {
            position: 3,
            id: b"HL",
            loop_id: b"HL",
            code: SegmentCode::ElementErrors,
            elem: Some(ElemRow {
                numbers: [4, 0, 0],
                code: ElementCode::PatternFailure,
                reference: b"736",
                copy: b"0",
            }),
        }],
        b"IK3*HL*3*HL*8~IK4*4*736*I12*0~",
    ),
    // a segment note begins again at another position
    (
        &[
            FaultRow {
                elem: Some(MISSING_1),
                ..BEG
            },
            FaultRow {
                position: 3,
                elem: Some(MISSING_1),
                ..BEG
            },
            FaultRow {
                position: 3,
                elem: Some(MISSING_2),
                ..BEG
            },
        ],
        b"IK3*BEG*2**8~IK4*1*353*1~IK3*BEG*3**8~IK4*1*353*1~IK4*2*353*1~",
    ),
    // and after a fault of the segment
    (
        &[
            FaultRow {
                elem: Some(MISSING_1),
                ..BEG
            },
            FaultRow {
                code: SegmentCode::NotUsedPresent,
                ..BEG
            },
            FaultRow {
                elem: Some(MISSING_2),
                ..BEG
            },
        ],
        b"IK3*BEG*2**8~IK4*1*353*1~IK3*BEG*2**I4~IK3*BEG*2**8~IK4*2*353*1~",
    ),
];

/// The numbers of an element, a component and a repetition, and what is reported of it.
const POSITIONS: &[([u32; 3], &[u8])] = &[
    ([4, 0, 0], b"IK3*SV1*7*LX*8~IK4*4**7*X~"),
    ([4, 2, 0], b"IK3*SV1*7*LX*8~IK4*4>2**7*X~"),
    ([4, 0, 3], b"IK3*SV1*7*LX*8~IK4*4>>3**7*X~"),
    ([4, 2, 3], b"IK3*SV1*7*LX*8~IK4*4>2>3**7*X~"),
    ([14, 0, 10], b"IK3*SV1*7*LX*8~IK4*14>>10**7*X~"),
];

/// A segment's id, and what is reported of it.
const IDS: &[(&[u8], &[u8])] = &[
    (b"", b"IK3*ZZZ*4**1~"),
    (b"Q", b"IK3*ZZZ*4**1~"),
    (b"Q9", b"IK3*Q9*4**1~"),
    (b"Q9Z", b"IK3*Q9Z*4**1~"),
    (b"Q9ZZ", b"IK3*ZZZ*4**1~"),
    (b"q9", b"IK3*ZZZ*4**1~"),
    (b"\xC4\xD6", b"IK3*ZZZ*4**1~"),
];

/// A rejected 850 with these faults.
fn rejected<'a>(faults: &'a [FaultRow<'a>], codes: &'a [SetCode]) -> SetRow<'a> {
    SetRow {
        control: b"0001",
        convention: b"",
        faults,
        codes,
        verdict: Verdict::Rejected,
    }
}

/// The text of this set.
fn told(alloc: Global, delims: &Delims, row: &SetRow) -> Result<Vec<u8>, NoMemory> {
    let mut out = Vec::new(alloc);
    append_set(&mut out, delims, &set(alloc, row)?)?;
    Ok(out)
}

/// The text of a rejected set between whose AK2 and IK5 this is.
fn between(alloc: Global, wanted: &[u8]) -> Result<Vec<u8>, NoMemory> {
    let mut whole = Vec::from_slice(alloc, b"AK2*850*0001~")?;
    whole.extend_from_slice(wanted)?;
    whole.extend_from_slice(b"IK5*R~")?;
    Ok(whole)
}

/// What is written of one set with these faults, between its AK2 and its IK5.
pub fn tells(
    alloc: Global,
    delims: &Delims,
    faults: &[FaultRow],
    wanted: &[u8],
) -> Result<(), Fail> {
    let out = told(alloc, delims, &rejected(faults, &[]))?;
    let whole = between(alloc, wanted)?;
    same(alloc, "a set", out.as_slice(), whole.as_slice())
}

/// The whole text of group 12, of this after its AK1.
fn behind_the_head(alloc: Global, wanted: &[u8]) -> Result<Vec<u8>, NoMemory> {
    let mut whole = Vec::from_slice(alloc, b"ST*999*0001*005010X231~AK1*PO*12*005010~")?;
    whole.extend_from_slice(wanted)?;
    Ok(whole)
}

/// What is written of a group of one set with these faults.
fn answers(
    alloc: Global,
    faults: &[FaultRow],
    set_codes: &[SetCode],
    group_codes: &[GroupCode],
    wanted: &[u8],
) -> Result<(), Fail> {
    let group = GroupRow {
        version: b"005010",
        listed: b"1",
        codes: group_codes,
        verdict: GroupVerdict::Rejected,
    };
    let bytes = acknowledgment(alloc, &group, &[rejected(faults, set_codes)], 1)?;
    let whole = behind_the_head(alloc, wanted)?;
    same(alloc, "a group", bytes.as_slice(), whole.as_slice())
}

fn answers_each(alloc: Global, cases: &[Answer]) -> Result<(), Fail> {
    for (faults, set_codes, group_codes, wanted) in cases {
        answers(alloc, faults, set_codes, group_codes, wanted)?;
    }
    Ok(())
}

#[test]
fn answers_a_group_of_one_set(rt: HostRuntime) -> Result<(), Fail> {
    answers_each(rt.alloc(), ANSWERS)
}

fn tells_each(alloc: Global, cases: &[Note]) -> Result<(), Fail> {
    for (faults, wanted) in cases {
        tells(alloc, &DELIMS, faults, wanted)?;
    }
    Ok(())
}

#[test]
fn tells_of_faults(rt: HostRuntime) -> Result<(), Fail> {
    tells_each(rt.alloc(), NOTES)
}

/// A code that is not used, at the element, component and repetition of these numbers.
fn invalid_code(numbers: [u32; 3]) -> FaultRow<'static> {
    FaultRow {
        position: 7,
        id: b"SV1",
        loop_id: b"LX",
        code: SegmentCode::ElementErrors,
        elem: Some(ElemRow {
            numbers,
            code: ElementCode::InvalidCode,
            reference: b"",
            copy: b"X",
        }),
    }
}

fn tells_positions(alloc: Global, cases: &[([u32; 3], &[u8])]) -> Result<(), Fail> {
    for (numbers, wanted) in cases {
        tells(alloc, &DELIMS, &[invalid_code(*numbers)], wanted)?;
    }
    Ok(())
}

#[test]
fn writes_positions_with_a_gap_and_without(rt: HostRuntime) -> Result<(), Fail> {
    tells_positions(rt.alloc(), POSITIONS)
}

/// A segment of this id that no guide has.
fn unrecognized(id: &[u8]) -> FaultRow<'_> {
    FaultRow {
        position: 4,
        id,
        loop_id: b"",
        code: SegmentCode::UnrecognizedSegment,
        elem: None,
    }
}

fn tells_ids(alloc: Global, cases: &[(&[u8], &[u8])]) -> Result<(), Fail> {
    for (id, wanted) in cases {
        tells(alloc, &DELIMS, &[unrecognized(id)], wanted)?;
    }
    Ok(())
}

#[test]
fn writes_zzz_for_what_is_no_id(rt: HostRuntime) -> Result<(), Fail> {
    tells_ids(rt.alloc(), IDS)
}
