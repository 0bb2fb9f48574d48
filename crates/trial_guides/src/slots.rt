//! Guides of one slot and segments of the tests, and how their faults are written.
use super::rows::{guide_of_nodes, none, segment, text};
use super::texts::{add_number, add_text, same};
use elem_rules::check_segment;
use guide_tree::{
    CodeList, Codes, Component, CompositeRow, Condition, Element, ElementType, Guide, Relation,
    Requirement, SimpleRow,
};
use hub_kinds::{ElemFault, Items, Texts, code_text};
use std::alloc::{AllocError, Global};
use std::test::Fail;
use x12_bytes::Delims;
use x12_segs::SegView;

pub const DELIMS: Delims = Delims {
    element: b'*',
    component: b'>',
    repetition: Some(b'^'),
    terminator: b'~',
};

/// What a test says of a row; the codes are with a space between them.
#[derive(Clone, Copy)]
pub struct Line {
    pub reference: &'static str,
    pub requirement: Requirement,
    pub data_type: ElementType,
    pub min: u32,
    pub max: u32,
    pub repeat: u32,
    pub wide: bool,
    pub used: &'static str,
    pub unused: &'static str,
}

/// An optional row of a text of one byte, without codes.
pub const OPTIONAL: Line = Line {
    reference: "",
    requirement: Requirement::Optional,
    data_type: ElementType::Text,
    min: 1,
    max: 1,
    repeat: 1,
    wide: false,
    used: "",
    unused: "",
};

fn texts(alloc: Global, listed: &str) -> Result<Texts, AllocError> {
    let mut texts = Vec::new(alloc);
    for code in listed.split(' ') {
        texts.push(text(alloc, code.as_bytes())?)?;
    }
    Ok(Items::from_vec(texts))
}

fn codes_of(alloc: Global, listed: &str) -> Result<Codes, AllocError> {
    Codes::new(alloc, texts(alloc, listed)?).map_err(|_| AllocError)
}

fn codes(alloc: Global, line: &Line) -> Result<Option<CodeList>, AllocError> {
    if line.used.is_empty() {
        return Ok(None);
    }
    let used = codes_of(alloc, line.used)?;
    let unused = Some(codes_of(alloc, line.unused)?);
    Ok(Some(CodeList { used, unused }))
}

fn row(alloc: Global, line: &Line) -> Result<SimpleRow, AllocError> {
    let reference = text(alloc, line.reference.as_bytes())?;
    let codes = codes(alloc, line)?;
    Ok(SimpleRow {
        reference,
        requirement: line.requirement,
        data_type: line.data_type,
        min: line.min,
        max: line.max,
        wide: line.wide,
        codes,
    })
}

/// Adds a row for each line.
pub fn add_rows(alloc: Global, rows: &mut Vec<Element>, lines: &[Line]) -> Result<(), AllocError> {
    for line in lines {
        let row = row(alloc, line)?;
        rows.push(Element::Simple(row, line.repeat))?;
    }
    Ok(())
}

/// Adds a component for each line.
pub fn add_components(
    alloc: Global,
    components: &mut Vec<Component>,
    lines: &[Line],
) -> Result<(), AllocError> {
    for line in lines {
        let row = row(alloc, line)?;
        components.push(Component::Simple(row))?;
    }
    Ok(())
}

pub fn composite(
    alloc: Global,
    reference: &str,
    requirement: Requirement,
    repeat: u32,
    components: Vec<Component>,
) -> Result<Element, AllocError> {
    let reference = text(alloc, reference.as_bytes())?;
    Ok(Element::Composite(CompositeRow {
        reference,
        requirement,
        repeat,
        components: Items::from_vec(components),
    }))
}

fn add_condition(
    alloc: Global,
    conditions: &mut Vec<Condition>,
    relation: Relation,
    positions: &[u32],
) -> Result<(), AllocError> {
    let positions = Items::from_vec(Vec::from_slice(alloc, positions)?);
    conditions.push(Condition {
        relation,
        positions,
    })?;
    Ok(())
}

/// A guide of one segment, which may be there.
pub fn guide(
    alloc: Global,
    elements: Vec<Element>,
    conditions: Vec<Condition>,
) -> Result<Guide, Fail> {
    let elements = Items::from_vec(elements);
    let conditions = Items::from_vec(conditions);
    let node = segment(alloc, b"SEG", (0, 1), none(alloc), elements, conditions)?;
    let mut nodes = Vec::new(alloc);
    nodes.push(node)?;
    guide_of_nodes(alloc, nodes)
}

/// A relational condition and its positions.
pub type Related = (Relation, &'static [u32]);

fn conditions_of(alloc: Global, related: &[Related]) -> Result<Vec<Condition>, AllocError> {
    let mut conditions = Vec::new(alloc);
    for (relation, positions) in related {
        add_condition(alloc, &mut conditions, *relation, positions)?;
    }
    Ok(conditions)
}

fn rows_of(alloc: Global, lines: &[Line]) -> Result<Vec<Element>, AllocError> {
    let mut rows = Vec::new(alloc);
    add_rows(alloc, &mut rows, lines)?;
    Ok(rows)
}

/// A guide of a segment of simple rows with conditions.
pub fn guide_of(alloc: Global, lines: &[Line], related: &[Related]) -> Result<Guide, Fail> {
    let conditions = conditions_of(alloc, related)?;
    let rows = rows_of(alloc, lines)?;
    guide(alloc, rows, conditions)
}

/// Adds `element component repetition code reference copy;`.
fn add_fault(out: &mut Vec<u8>, alloc: Global, fault: &ElemFault) -> Result<(), Fail> {
    add_number(out, alloc, u64::from(fault.element), b' ')?;
    add_number(out, alloc, u64::from(fault.component), b' ')?;
    add_number(out, alloc, u64::from(fault.repetition), b' ')?;
    add_text(out, code_text(fault.code).as_bytes(), b' ')?;
    add_text(out, fault.reference.bytes(), b' ')?;
    add_text(out, fault.copy.bytes(), b';')
}

fn written(alloc: Global, faults: &[ElemFault]) -> Result<Vec<u8>, Fail> {
    let mut out = Vec::new(alloc);
    for fault in faults {
        add_fault(&mut out, alloc, fault)?;
    }
    Ok(out)
}

/// What is found in a segment by the one slot of a guide, written.
fn told(alloc: Global, delims: Delims, guide: &Guide, segment: &[u8]) -> Result<Vec<u8>, Fail> {
    let Some(slot) = guide.slot(1) else {
        return Err("a guide without a slot".into());
    };
    let found = check_segment(alloc, &SegView::new(0, segment, delims), slot)?;
    written(alloc, found.as_slice())
}

/// Whether a segment has just these faults by the one slot of a guide.
fn expect_one(
    alloc: Global,
    delims: Delims,
    guide: &Guide,
    segment: &[u8],
    faults: &[u8],
) -> Result<(), Fail> {
    let found = told(alloc, delims, guide, segment)?;
    same(alloc, segment, found.as_slice(), faults)
}

/// Segments, each beside its faults.
pub type Cases = &'static [[&'static str; 2]];

fn expect_cases(alloc: Global, delims: Delims, guide: &Guide, cases: Cases) -> Result<(), Fail> {
    for [segment, faults] in cases {
        expect_one(alloc, delims, guide, segment.as_bytes(), faults.as_bytes())?;
    }
    Ok(())
}

/// Whether each segment has just the faults beside it.
pub fn expect(alloc: Global, delims: Delims, guide: &Guide, tables: &[Cases]) -> Result<(), Fail> {
    for cases in tables {
        expect_cases(alloc, delims, guide, cases)?;
    }
    Ok(())
}

/// Rows, their conditions, and segments with their faults.
pub type Group = (&'static [Line], &'static [Related], &'static [Cases]);

/// Whether each segment has by these rows just the faults beside it.
pub fn expect_by_rows(
    alloc: Global,
    lines: &[Line],
    related: &[Related],
    tables: &[Cases],
) -> Result<(), Fail> {
    let guide = guide_of(alloc, lines, related)?;
    expect(alloc, DELIMS, &guide, tables)
}

/// Whether each segment has by its rows just the faults beside it.
pub fn expect_groups(alloc: Global, groups: &[Group]) -> Result<(), Fail> {
    for (lines, related, tables) in groups {
        expect_by_rows(alloc, lines, related, tables)?;
    }
    Ok(())
}

fn expect_each_of_bytes(
    alloc: Global,
    guide: &Guide,
    cases: &[(&[u8], &[u8])],
) -> Result<(), Fail> {
    for (segment, faults) in cases {
        expect_one(alloc, DELIMS, guide, segment, faults)?;
    }
    Ok(())
}

/// Whether each segment has by these rows just the faults beside it, where not all of it is text.
pub fn expect_bytes(alloc: Global, lines: &[Line], cases: &[(&[u8], &[u8])]) -> Result<(), Fail> {
    let guide = guide_of(alloc, lines, &[])?;
    expect_each_of_bytes(alloc, &guide, cases)
}
