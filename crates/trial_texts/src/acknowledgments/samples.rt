//! Groups and sets that are answered, as rows that own no memory.
use ack_999::write_999;
use hub_kinds::{
    ElemFault, ElementCode, Fault, Faults, GroupAnswer, GroupCode, GroupVerdict, Items, Lent,
    NoMemory, SegmentCode, SetAnswer, SetCode, Verdict,
};
use std::alloc::Global;
use x12_bytes::Delims;

pub const DELIMS: Delims = Delims {
    element: b'*',
    component: b'>',
    repetition: Some(b'^'),
    terminator: b'~',
};

/// A fault, with texts that own no memory, so that a test holds nothing that it has to release.
#[derive(Clone, Copy)]
pub struct FaultRow<'a> {
    pub position: u64,
    pub id: &'a [u8],
    pub loop_id: &'a [u8],
    pub code: SegmentCode,
    pub elem: Option<ElemRow<'a>>,
}

/// A fault of the element, component and repetition of these numbers.
#[derive(Clone, Copy)]
pub struct ElemRow<'a> {
    pub numbers: [u32; 3],
    pub code: ElementCode,
    pub reference: &'a [u8],
    pub copy: &'a [u8],
}

/// An 850.
#[derive(Clone, Copy)]
pub struct SetRow<'a> {
    pub control: &'a [u8],
    pub convention: &'a [u8],
    pub faults: &'a [FaultRow<'a>],
    pub codes: &'a [SetCode],
    pub verdict: Verdict,
}

/// A group of orders, number 12.
#[derive(Clone, Copy)]
pub struct GroupRow<'a> {
    pub version: &'a [u8],
    pub listed: &'a [u8],
    pub codes: &'a [GroupCode],
    pub verdict: GroupVerdict,
}

fn elem_fault<'a>(row: &ElemRow<'a>) -> ElemFault<'a> {
    let [element, component, repetition] = row.numbers;
    ElemFault {
        element,
        component,
        repetition,
        code: row.code,
        reference: Lent::new(row.reference),
        copy: Lent::new(row.copy),
    }
}

fn elem_of<'a>(row: &FaultRow<'a>) -> Option<ElemFault<'a>> {
    match &row.elem {
        None => None,
        Some(elem) => Some(elem_fault(elem)),
    }
}

fn fault<'a>(row: &FaultRow<'a>) -> Fault<'a> {
    Fault {
        position: row.position,
        id: Lent::new(row.id),
        loop_id: Lent::new(row.loop_id),
        code: row.code,
        slot: 1,
        elem: elem_of(row),
    }
}

fn faults<'a>(alloc: Global, rows: &[FaultRow<'a>]) -> Result<Faults<'a>, NoMemory> {
    let mut faults = Faults::new(alloc);
    for row in rows {
        faults.push(fault(row))?;
    }
    Ok(faults)
}

pub fn set<'a>(alloc: Global, row: &SetRow<'a>) -> Result<SetAnswer<'a>, NoMemory> {
    let faults = faults(alloc, row.faults)?;
    let codes = Vec::from_slice(alloc, row.codes)?;
    Ok(SetAnswer {
        identifier: Lent::new(b"850"),
        control: Lent::new(row.control),
        convention: Lent::new(row.convention),
        faults,
        codes: Items::from_vec(codes),
        verdict: row.verdict,
    })
}

fn sets<'a>(alloc: Global, rows: &[SetRow<'a>]) -> Result<Vec<SetAnswer<'a>>, NoMemory> {
    let mut sets = Vec::new(alloc);
    for row in rows {
        sets.push(set(alloc, row)?)?;
    }
    Ok(sets)
}

fn group<'a>(alloc: Global, row: &GroupRow<'a>) -> Result<GroupAnswer<'a>, NoMemory> {
    Ok(GroupAnswer {
        functional_id: Lent::new(b"PO"),
        control: Lent::new(b"12"),
        version: Lent::new(row.version),
        listed: Lent::new(row.listed),
        codes: Items::from_vec(Vec::from_slice(alloc, row.codes)?),
        verdict: row.verdict,
    })
}

/// The acknowledgment of a group with these sets.
pub fn acknowledgment(
    alloc: Global,
    group_row: &GroupRow,
    set_rows: &[SetRow],
    n: u32,
) -> Result<Vec<u8>, NoMemory> {
    let group = group(alloc, group_row)?;
    let sets = sets(alloc, set_rows)?;
    write_999(alloc, &group, sets.as_slice(), &DELIMS, n)
}

pub const ACCEPTED_GROUP: GroupRow<'static> = GroupRow {
    version: b"005010",
    listed: b"1",
    codes: &[],
    verdict: GroupVerdict::Accepted,
};

pub const ACCEPTED_SET: SetRow<'static> = SetRow {
    control: b"0001",
    convention: b"",
    faults: &[],
    codes: &[],
    verdict: Verdict::Accepted,
};
