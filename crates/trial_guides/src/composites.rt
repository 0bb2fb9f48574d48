//! Composites, repetitions, elements that aren't used, and elements without a row.
use super::rows::text;
use super::slots::{
    Cases, DELIMS, Line, OPTIONAL, add_components, add_rows, composite, expect, guide,
};
use guide_tree::{Component, Element, ElementType, Guide, Requirement};
use std::alloc::{AllocError, Global};
use std::test::Fail;
use x12_bytes::Delims;

const FIRST_OF_THREE: &[Line] = &[Line {
    reference: "11",
    requirement: Requirement::Mandatory,
    max: 3,
    ..OPTIONAL
}];

const THIRD_OF_THREE: &[Line] = &[Line {
    reference: "13",
    data_type: ElementType::Number(0),
    max: 2,
    ..OPTIONAL
}];

fn add_three(alloc: Global, components: &mut Vec<Component>) -> Result<(), AllocError> {
    add_components(alloc, components, FIRST_OF_THREE)?;
    components.push(Component::NotUsed(text(alloc, b"12")?))?;
    add_components(alloc, components, THIRD_OF_THREE)
}

/// A mandatory composite that may occur three times; its second component isn't used.
fn three_components(alloc: Global) -> Result<Element, AllocError> {
    let mut components = Vec::new(alloc);
    add_three(alloc, &mut components)?;
    composite(alloc, "C1", Requirement::Mandatory, 3, components)
}

const ONLY_COMPONENT: &[Line] = &[Line {
    reference: "21",
    max: 2,
    ..OPTIONAL
}];

fn one_component(alloc: Global) -> Result<Element, AllocError> {
    let mut components = Vec::new(alloc);
    add_components(alloc, &mut components, ONLY_COMPONENT)?;
    composite(alloc, "C2", Requirement::Optional, 1, components)
}

const ROW_TWICE: &[Line] = &[Line {
    reference: "3",
    max: 2,
    repeat: 2,
    ..OPTIONAL
}];

const LAST_ROW: &[Line] = &[Line {
    reference: "5",
    requirement: Requirement::Mandatory,
    ..OPTIONAL
}];

fn add_composites(alloc: Global, rows: &mut Vec<Element>) -> Result<(), AllocError> {
    rows.push(three_components(alloc)?)?;
    rows.push(one_component(alloc)?)?;
    Ok(())
}

fn add_not_used(alloc: Global, rows: &mut Vec<Element>) -> Result<(), AllocError> {
    rows.push(Element::NotUsed(text(alloc, b"4")?))?;
    Ok(())
}

fn add_without_components(alloc: Global, rows: &mut Vec<Element>) -> Result<(), AllocError> {
    let none = composite(alloc, "C6", Requirement::Optional, 1, Vec::new(alloc))?;
    rows.push(none)?;
    Ok(())
}

fn add_all(alloc: Global, rows: &mut Vec<Element>) -> Result<(), AllocError> {
    add_composites(alloc, rows)?;
    add_rows(alloc, rows, ROW_TWICE)?;
    add_not_used(alloc, rows)?;
    add_rows(alloc, rows, LAST_ROW)?;
    add_without_components(alloc, rows)
}

fn composites(alloc: Global) -> Result<Guide, Fail> {
    let mut rows = Vec::new(alloc);
    add_all(alloc, &mut rows)?;
    guide(alloc, rows, Vec::new(alloc))
}

const COMPONENTS_OF_COMPOSITES: Cases = &[
    ["CMP*a****x", ""],
    ["CMP", "1 0 0 1 C1 ;5 0 0 1 5 ;"],
    ["CMP*>>^>****x", "1 0 0 1 C1 ;"],
    ["CMP*a>>12****x", ""],
    ["CMP*>>1****x", "1 1 1 1 11 ;"],
    ["CMP*a>b****x", "1 2 1 I10 12 b;"],
    ["CMP*abcd>>x****x", "1 1 1 5 11 abcd;1 3 1 6 13 x;"],
    ["CMP*abcd>b>x>z>y****x", "1 4 1 13 C1 z;"],
    ["CMP*a>>1>>****x", ""],
    ["CMP*a*abc***x", "2 1 0 5 21 abc;"],
    ["CMP*a*a>b***x", "2 2 0 13 C2 b;"],
    ["CMP*a****x*z", "6 1 0 13 C6 z;"],
    ["CMP*a****x*>z", "6 1 0 13 C6 ;"],
];

const OCCURRENCES: Cases = &[
    ["CMP*a^^b^^****x", ""],
    ["CMP*a^b^c^d>e****x", "1 0 4 12 C1 d>e;"],
    ["CMP*a^b^c^^d****x", "1 0 4 12 C1 ;"],
    [
        "CMP*abcd^>>x^c>>y^abcd****x",
        "1 0 4 12 C1 abcd;1 1 1 5 11 abcd;1 1 2 1 11 ;1 3 2 6 13 x;1 3 3 6 13 y;",
    ],
    ["CMP*a^b>>>c****x", "1 4 2 13 C1 c;"],
    ["CMP*a*a^bcd^e***x", "2 0 2 12 C2 bcd;"],
    ["CMP*a**ab^abc**x", "3 0 2 5 3 abc;"],
    ["CMP*a**a>b^c**x", "3 2 1 13 3 b;"],
    ["CMP*a**abc^^x**x", "3 0 1 5 3 abc;3 0 3 12 3 x;"],
    ["CMP*a**a>>^b>**x", ""],
    ["CMP*a****x^y", "5 0 2 12 5 y;"],
];

const NOT_USED_AND_WITHOUT_A_ROW: Cases = &[
    ["CMP*a***q>^w*x", "4 0 0 I10 4 q>^w;"],
    ["CMP*a***>^*x", ""],
    ["CMP*a****x****", ""],
    ["CMP*a****x**7", "7 0 0 3  7;"],
    ["CMP*a****x****q", "7 0 0 3  ;"],
    ["CMP*a****x**7*8*9", "7 0 0 3  7;"],
    ["CMP*a****x**>^", ""],
];

/// Whether each segment has just the faults beside it by the guide of composites.
fn expect_by_composites(alloc: Global, delims: Delims, tables: &[Cases]) -> Result<(), Fail> {
    let guide = composites(alloc)?;
    expect(alloc, delims, &guide, tables)
}

const TABLES: &[Cases] = &[
    COMPONENTS_OF_COMPOSITES,
    OCCURRENCES,
    NOT_USED_AND_WITHOUT_A_ROW,
];

#[test]
fn composites_and_repetitions(rt: HostRuntime) -> Result<(), Fail> {
    expect_by_composites(rt.alloc(), DELIMS, TABLES)
}

const WITHOUT_A_REPETITION_SEPARATOR: Cases = &[
    ["CMP*a^b****x", ""],
    ["CMP*a^bc>>1****x", "1 1 1 5 11 a^bc;"],
    ["CMP*a****^", ""],
    ["CMP*a***^*x", "4 0 0 I10 4 ^;"],
];

const NO_REPETITION_SEPARATOR: Delims = Delims {
    repetition: None,
    ..DELIMS
};

#[test]
fn without_a_repetition_separator_an_element_occurs_once(rt: HostRuntime) -> Result<(), Fail> {
    expect_by_composites(
        rt.alloc(),
        NO_REPETITION_SEPARATOR,
        &[WITHOUT_A_REPETITION_SEPARATOR],
    )
}
