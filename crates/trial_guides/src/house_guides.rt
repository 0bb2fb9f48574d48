//! What the house guides read as.
use super::files::{expect, fault_of};
use super::house::{H850, H856};
use super::texts::same;
use guide_toml::read_guide;
use guide_tree::{CodeList, Element, ElementType, Guide, Node, SimpleRow};
use std::alloc::{AllocError, Global};
use std::test::Fail;

fn push_id(out: &mut String, id: &[u8]) -> Result<(), AllocError> {
    for byte in id {
        out.push(char::from(*byte))?;
    }
    Ok(())
}

fn push_slot(out: &mut String, number: u32, kind: &str, id: &[u8]) -> Result<(), AllocError> {
    write!(out, " {number} {kind}")?;
    push_id(out, id)
}

/// The numbers and ids of slots, parents first; a loop's id is after `loop`.
fn listed(nodes: &[Node], out: &mut String) -> Result<(), AllocError> {
    for node in nodes {
        match node {
            Node::Segment(slot) => push_slot(out, slot.number, "", slot.id.as_slice())?,
            Node::Loop(head, inner) => {
                push_slot(out, head.number, "loop ", head.id.as_slice())?;
                listed(inner, out)?;
            }
        }
    }
    Ok(())
}

/// The guide of a file. It has no contract, so that a test's proof doesn't read a whole file.
fn guide_of(alloc: Global, file: &str) -> Result<Guide, Fail> {
    Ok(read_guide(alloc, file.as_bytes())?)
}

fn slots(alloc: Global, guide: &Guide) -> Result<String, AllocError> {
    let mut out = String::new(alloc);
    listed(&guide.rows().nodes, &mut out)?;
    Ok(out)
}

fn counts_codes(codes: &CodeList, used: usize) -> bool {
    codes.used.as_slice().len() == used && codes.unused.is_some()
}

/// Whether it is an identifier of this reference, with this many codes that are used and some that are not.
fn is_identifier_row(row: &SimpleRow, reference: &[u8], used: usize) -> bool {
    match &row.codes {
        None => false,
        Some(codes) => {
            row.reference.as_slice() == reference
                && row.data_type == ElementType::Identifier
                && counts_codes(codes, used)
        }
    }
}

/// Whether an element, which occurs once, is this identifier.
fn is_identifier(element: &Element, reference: &[u8], used: usize) -> bool {
    match element {
        Element::Simple(row, repeat) => { *repeat == 1 && is_identifier_row(row, reference, used) }
        _ => false,
    }
}

/// How many elements the first node has, a segment.
fn first_count(guide: &Guide) -> usize {
    match guide.rows().nodes.first() {
        Some(Node::Segment(slot)) => slot.elements.as_slice().len(),
        _ => 0,
    }
}

/// The first element of the first node, a segment.
fn first_element(guide: &Guide) -> Option<&Element> {
    match guide.rows().nodes.first() {
        Some(Node::Segment(slot)) => slot.elements.as_slice().first(),
        _ => None,
    }
}

/// Whether the first element is an order's purpose.
fn begins_with_purpose(guide: &Guide) -> bool {
    match first_element(guide) {
        None => false,
        Some(element) => is_identifier(element, b"353", 2),
    }
}

/// Whether levels count from 1, and how many pairs of levels there are.
fn hierarchy(guide: &Guide) -> Option<(bool, usize)> {
    match &guide.rows().hl {
        None => None,
        Some(rule) => Some((rule.sequential, rule.pairs.as_slice().len())),
    }
}

/// What a guide says beside its slots: how many segment ids are known beside those of the nodes, how many element
/// faults are tolerated, how many dependencies there are, the hierarchy, and how many elements the first segment has.
fn facts(alloc: Global, guide: &Guide) -> Result<String, AllocError> {
    let rows = guide.rows();
    let known = rows.head.dictionary.as_slice().len();
    let tolerated = rows.head.tolerate_element.as_slice().len();
    let dependencies = rows.depends.as_slice().len();
    let hierarchy = hierarchy(guide);
    let elements = first_count(guide);
    format!(in alloc; "{known} {tolerated} {dependencies} {hierarchy:?} {elements}")
}

fn is_named(guide: &Guide, name: &[u8]) -> bool {
    guide.rows().head.name.as_slice() == name
}

/// The house guides, the numbers and ids of their slots, and what else they say.
const HOUSE: &[[&str; 3]] = &[
    [
        H850,
        " 1 BEG 2 REF 3 DTM 4 loop N9 5 N9 6 MSG 7 loop N1 8 N1 9 N3 10 N4 11 loop PO1 12 PO1 13 PID 14 CTT",
        "5 1 0 None 5",
    ],
    [
        H856,
        " 1 BSN 2 loop HL 3 HL 4 LIN 5 SN1 6 PRF 7 TD5 8 REF 9 MAN 10 DTM 11 loop N1 12 N1",
        "4 0 1 Some((true, 5)) 5",
    ],
];

fn expect_slots(alloc: Global, guide: &Guide, wanted: &str) -> Result<(), Fail> {
    let found = slots(alloc, guide)?;
    same(alloc, b"slots", found.as_bytes(), wanted.as_bytes())
}

fn expect_facts(alloc: Global, guide: &Guide, wanted: &str) -> Result<(), Fail> {
    let found = facts(alloc, guide)?;
    same(alloc, b"facts", found.as_bytes(), wanted.as_bytes())
}

fn expect_both(
    alloc: Global,
    guide: &Guide,
    slots_and_ids: &str,
    others: &str,
) -> Result<(), Fail> {
    expect_slots(alloc, guide, slots_and_ids)?;
    expect_facts(alloc, guide, others)
}

fn expect_house(alloc: Global, case: &[&str; 3]) -> Result<(), Fail> {
    let [file, slots_and_ids, others] = *case;
    let guide = guide_of(alloc, file)?;
    expect_both(alloc, &guide, slots_and_ids, others)
}

fn expect_houses(alloc: Global, cases: &[[&str; 3]]) -> Result<(), Fail> {
    for case in cases {
        expect_house(alloc, case)?;
    }
    Ok(())
}

#[test]
fn house_guides(rt: HostRuntime) -> Result<(), Fail> {
    expect_houses(rt.alloc(), HOUSE)
}

fn is_order_that_begins_with_purpose(alloc: Global, file: &str) -> Result<bool, Fail> {
    let guide = guide_of(alloc, file)?;
    Ok(is_named(&guide, b"H850") && begins_with_purpose(&guide))
}

#[test]
fn house_order_begins_with_purpose(rt: HostRuntime) -> Result<(), Fail> {
    assert!(rt; is_order_that_begins_with_purpose(rt.alloc(), H850)?);
    Ok(())
}

/// H850 with a second REF right after its slot 2.
fn with_rival(alloc: Global) -> Result<String, AllocError> {
    let behind = " {seg=\"DTM\"";
    match H850.split_once(behind) {
        None => String::from_str(alloc, H850),
        Some((front, back)) => format!(in alloc;
            "{front} {{seg=\"REF\", min=0, max=1, elements=[]}},\n{behind}{back}"
        ),
    }
}

#[test]
fn rival_in_a_house_guide(rt: HostRuntime) -> Result<(), Fail> {
    let file = with_rival(rt.alloc())?;
    let fault = fault_of(rt.alloc(), file.as_bytes());
    expect(rt.alloc(), b"a rival", &fault, "Guide(Ambiguous(2, 3))")
}
