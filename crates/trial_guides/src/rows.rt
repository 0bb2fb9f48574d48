//! Guides that are made row by row, and what their check answers.
use guide_tree::{
    Codes, Condition, Element, ElementType, Guide, GuideFault, GuideHead, GuideRows, Loop, Node,
    Pick, Relation, Requirement, SimpleRow, Slot,
};
use hub_kinds::{Items, Text, Texts};
use std::alloc::{AllocError, Global};
use std::test::Fail;

/// A row of a guide that is tried.
#[derive(Clone, Copy)]
pub enum Row {
    /// A segment, with its least and greatest use.
    Segment(&'static str, u32, u32),
    /// A segment that is picked by a code in its first element.
    Picked(&'static str, u32, u32, &'static str),
    /// A segment with a relational condition of one position.
    Conditioned(&'static str),
    /// A loop of the last this many nodes, with its least and greatest number of repetitions.
    Loop(&'static str, u32, u32, usize),
}

pub fn text(alloc: Global, bytes: &[u8]) -> Result<Text, AllocError> {
    Ok(Items::from_vec(Vec::from_slice(alloc, bytes)?))
}

pub fn none<T>(alloc: Global) -> Items<T> {
    Items::from_vec(Vec::new(alloc))
}

/// A list of one text.
fn one_text(alloc: Global, bytes: &[u8]) -> Result<Texts, AllocError> {
    let text = text(alloc, bytes)?;
    let mut texts = Vec::new(alloc);
    texts.push(text)?;
    Ok(Items::from_vec(texts))
}

/// A segment by its id, its least and greatest use, its picks, its elements and its conditions.
pub fn segment(
    alloc: Global,
    id: &[u8],
    uses: (u32, u32),
    picks: Items<Pick>,
    elements: Items<Element>,
    conditions: Items<Condition>,
) -> Result<Node, AllocError> {
    let (min, max) = uses;
    Ok(Node::Segment(Slot {
        number: 0,
        id: text(alloc, id)?,
        label: None,
        min,
        max,
        picks,
        elements,
        conditions,
    }))
}

/// A segment by its id, and its least and greatest use.
pub fn plain(alloc: Global, id: &[u8], min: u32, max: u32) -> Result<Node, AllocError> {
    let uses = (min, max);
    segment(alloc, id, uses, none(alloc), none(alloc), none(alloc))
}

/// The row of one code.
fn code_row(alloc: Global) -> Result<Items<Element>, AllocError> {
    let row = SimpleRow {
        reference: text(alloc, b"128")?,
        requirement: Requirement::Mandatory,
        data_type: ElementType::Text,
        min: 2,
        max: 2,
        wide: false,
        codes: None,
    };
    let mut rows = Vec::new(alloc);
    rows.push(Element::Simple(row, 1))?;
    Ok(Items::from_vec(rows))
}

fn pick(alloc: Global, code: &[u8]) -> Result<Items<Pick>, AllocError> {
    let codes = Codes::new(alloc, one_text(alloc, code)?).map_err(|_| AllocError)?;
    let mut picks = Vec::new(alloc);
    picks.push(Pick { position: 1, codes })?;
    Ok(Items::from_vec(picks))
}

fn picked(alloc: Global, id: &[u8], uses: (u32, u32), code: &[u8]) -> Result<Node, AllocError> {
    let picks = pick(alloc, code)?;
    segment(alloc, id, uses, picks, code_row(alloc)?, none(alloc))
}

/// A relational condition of one position.
fn condition(alloc: Global) -> Result<Items<Condition>, AllocError> {
    let positions = Items::from_vec(Vec::from_slice(alloc, &[2u32])?);
    let mut conditions = Vec::new(alloc);
    conditions.push(Condition {
        relation: Relation::Required,
        positions,
    })?;
    Ok(Items::from_vec(conditions))
}

fn conditioned(alloc: Global, id: &[u8]) -> Result<Node, AllocError> {
    let conditions = condition(alloc)?;
    segment(alloc, id, (0, 1), none(alloc), none(alloc), conditions)
}

pub fn loop_of(
    alloc: Global,
    id: &[u8],
    min: u32,
    max: u32,
    nodes: Vec<Node>,
) -> Result<Node, AllocError> {
    let head = Loop {
        number: 0,
        id: text(alloc, id)?,
        min,
        max,
    };
    Ok(Node::Loop(head, nodes))
}

/// The node of a row; a loop takes its nodes off.
fn node_of(alloc: Global, row: Row, nodes: &mut Vec<Node>) -> Result<Node, AllocError> {
    match row {
        Row::Segment(id, min, max) => plain(alloc, id.as_bytes(), min, max),
        Row::Picked(id, min, max, code) => {
            picked(alloc, id.as_bytes(), (min, max), code.as_bytes())
        }
        Row::Conditioned(id) => conditioned(alloc, id.as_bytes()),
        Row::Loop(id, min, max, count) => {
            let from = nodes.len().saturating_sub(count);
            loop_of(alloc, id.as_bytes(), min, max, nodes.split_off(from)?)
        }
    }
}

fn nodes_of(alloc: Global, rows: &[Row]) -> Result<Vec<Node>, AllocError> {
    let mut nodes = Vec::new(alloc);
    for row in rows {
        let node = node_of(alloc, *row, &mut nodes)?;
        nodes.push(node)?;
    }
    Ok(nodes)
}

/// The head of an order; PER is known beside the segments of its nodes.
fn head(alloc: Global) -> Result<GuideHead, AllocError> {
    Ok(GuideHead {
        name: text(alloc, b"H")?,
        group: text(alloc, b"PO")?,
        set: text(alloc, b"850")?,
        version: text(alloc, b"005010")?,
        convention: None,
        dictionary: one_text(alloc, b"PER")?,
        tolerate_segment: none(alloc),
        tolerate_element: none(alloc),
    })
}

fn rows_of(alloc: Global, nodes: Vec<Node>) -> Result<GuideRows, AllocError> {
    Ok(GuideRows {
        head: head(alloc)?,
        hl: None,
        depends: none(alloc),
        nodes,
    })
}

pub fn fault_of(alloc: Global, nodes: Vec<Node>) -> Result<Option<GuideFault>, AllocError> {
    match Guide::check(rows_of(alloc, nodes)?) {
        Ok(_) => Ok(None),
        Err(fault) => Ok(Some(fault)),
    }
}

pub fn row_fault(alloc: Global, rows: &[Row]) -> Result<Option<GuideFault>, AllocError> {
    fault_of(alloc, nodes_of(alloc, rows)?)
}

pub fn guide_of_nodes(alloc: Global, nodes: Vec<Node>) -> Result<Guide, Fail> {
    Ok(Guide::check(rows_of(alloc, nodes)?)?)
}

pub fn guide_of(alloc: Global, rows: &[Row]) -> Result<Guide, Fail> {
    guide_of_nodes(alloc, nodes_of(alloc, rows)?)
}
