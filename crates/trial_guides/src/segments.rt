//! Segments of an order, by the rows of its guide.
use super::slots::{Cases, Group, Line, OPTIONAL, expect_groups};
use guide_tree::{ElementType, Relation, Requirement};
use std::test::Fail;

const BEGINNING_OF_AN_ORDER_ROWS: &[Line] = &[
    Line {
        reference: "353",
        requirement: Requirement::Mandatory,
        data_type: ElementType::Identifier,
        min: 2,
        max: 2,
        used: "00 05",
        unused: "01 04",
        ..OPTIONAL
    },
    Line {
        reference: "92",
        requirement: Requirement::Mandatory,
        data_type: ElementType::Identifier,
        min: 2,
        max: 2,
        used: "NE SA",
        unused: "XX",
        ..OPTIONAL
    },
    Line {
        reference: "324",
        requirement: Requirement::Mandatory,
        max: 22,
        ..OPTIONAL
    },
    Line {
        reference: "328",
        max: 30,
        ..OPTIONAL
    },
    Line {
        reference: "373",
        requirement: Requirement::Mandatory,
        data_type: ElementType::Date,
        min: 8,
        max: 8,
        ..OPTIONAL
    },
];

const BEGINNING_OF_AN_ORDER: Cases = &[
    ["BEG*00*SA*P1**20260228", ""],
    [
        "BEG*01*SA*P1**20260229",
        "1 0 0 I6 353 01;5 0 0 8 373 20260229;",
    ],
    ["BEG*02*SA**", "1 0 0 7 353 02;3 0 0 1 324 ;5 0 0 1 373 ;"],
];

const REFERENCE_IDENTIFICATION_ROWS: &[Line] = &[
    Line {
        reference: "128",
        requirement: Requirement::Mandatory,
        data_type: ElementType::Identifier,
        min: 2,
        max: 3,
        ..OPTIONAL
    },
    Line {
        reference: "127",
        max: 50,
        ..OPTIONAL
    },
    Line {
        reference: "352",
        max: 80,
        ..OPTIONAL
    },
];

const REFERENCE_IDENTIFICATION: Cases = &[
    ["REF*DP*7", ""],
    ["REF*DP", "2 0 0 2 127 ;"],
    [
        "REF*DP*7*AAAAAAAAAAAAAAAAAAAAAAAAAAAAAAAAAAAAAAAAAAAAAAAAAAAAAAAAAAAAAAAAAAAAAAAAAAAAAAAAAAAAAAAAAAAAAAAAAAAA",
        "3 0 0 5 352 AAAAAAAAAAAAAAAAAAAAAAAAAAAAAAAAAAAAAAAAAAAAAAAAAAAAAAAAAAAAAAAAAAAAAAAAAAAAAAAAAAAAAAAAAAAAAAAAAAAA;",
    ],
];

const DATE_OR_TIME_ROWS: &[Line] = &[
    Line {
        reference: "374",
        requirement: Requirement::Mandatory,
        data_type: ElementType::Identifier,
        min: 3,
        max: 3,
        ..OPTIONAL
    },
    Line {
        reference: "373",
        data_type: ElementType::Date,
        min: 8,
        max: 8,
        ..OPTIONAL
    },
    Line {
        reference: "337",
        data_type: ElementType::Time,
        min: 4,
        max: 8,
        ..OPTIONAL
    },
];

const DATE_OR_TIME: Cases = &[
    ["DTM*002*20260228", ""],
    ["DTM*002**2460", "3 0 0 9 337 2460;"],
    ["DTM*002", "2 0 0 2 373 ;"],
];

const BASELINE_ITEM_ROWS: &[Line] = &[
    Line {
        reference: "350",
        max: 20,
        ..OPTIONAL
    },
    Line {
        reference: "330",
        requirement: Requirement::Mandatory,
        data_type: ElementType::Decimal,
        max: 5,
        ..OPTIONAL
    },
    Line {
        reference: "355",
        requirement: Requirement::Mandatory,
        data_type: ElementType::Identifier,
        min: 2,
        max: 2,
        used: "CA EA",
        unused: "DZ",
        ..OPTIONAL
    },
    Line {
        reference: "212",
        data_type: ElementType::Decimal,
        max: 9,
        ..OPTIONAL
    },
    Line {
        reference: "639",
        data_type: ElementType::Identifier,
        min: 2,
        max: 2,
        ..OPTIONAL
    },
    Line {
        reference: "235",
        data_type: ElementType::Identifier,
        min: 2,
        max: 2,
        ..OPTIONAL
    },
    Line {
        reference: "234",
        max: 48,
        ..OPTIONAL
    },
];

const LINE_OF_AN_ORDER: Cases = &[
    ["PO1*1*5*EA*2.50*PE", ""],
    ["PO1*1*-0012.5*EA***UP", "7 0 0 2 234 ;"],
    ["PO1**0*DZ**PE", "3 0 0 I6 355 DZ;4 0 0 2 212 ;"],
];

const SEGMENTS: &[Group] = &[
    (BEGINNING_OF_AN_ORDER_ROWS, &[], &[BEGINNING_OF_AN_ORDER]),
    (
        REFERENCE_IDENTIFICATION_ROWS,
        &[(Relation::Required, &[2, 3])],
        &[REFERENCE_IDENTIFICATION],
    ),
    (
        DATE_OR_TIME_ROWS,
        &[(Relation::Required, &[2, 3])],
        &[DATE_OR_TIME],
    ),
    (
        BASELINE_ITEM_ROWS,
        &[
            (Relation::Conditional, &[5, 4]),
            (Relation::Paired, &[6, 7]),
        ],
        &[LINE_OF_AN_ORDER],
    ),
];

#[test]
fn segments_of_an_order(rt: HostRuntime) -> Result<(), Fail> {
    expect_groups(rt.alloc(), SEGMENTS)
}
