//! Relational conditions over a segment of six elements.
use super::slots::{Cases, Group, Line, OPTIONAL, Related, expect_groups};
use guide_tree::Relation;
use std::test::Fail;

const SIX_ROWS: &[Line] = &[
    Line {
        reference: "1",
        ..OPTIONAL
    },
    Line {
        reference: "2",
        ..OPTIONAL
    },
    Line {
        reference: "3",
        ..OPTIONAL
    },
    Line {
        reference: "4",
        ..OPTIONAL
    },
    Line {
        reference: "5",
        ..OPTIONAL
    },
    Line {
        reference: "6",
        ..OPTIONAL
    },
];

const PAIRED: Cases = &[
    ["S", ""],
    ["S**a", "3 0 0 2 3 ;5 0 0 2 5 ;"],
    ["S**>*b", "2 0 0 2 2 ;5 0 0 2 5 ;"],
    ["S**a*b**c", ""],
];

const AT_LEAST_ONE: Cases = &[["S*a", "2 0 0 2 2 ;"], ["S***x", ""], ["S*****x", ""]];

const AT_MOST_ONE: Cases = &[
    ["S**a*b**c", "2 0 0 10 2 a;3 0 0 10 3 b;"],
    ["S**a*b>c", "3 0 0 10 3 b>c;3 2 0 13 3 c;"],
    ["S****x", ""],
    ["S*****e", ""],
];

const ALL_OTHERS_WITH_THE_FIRST: Cases = &[
    ["S*****e", "2 0 0 2 2 ;3 0 0 2 3 ;"],
    ["S**a***e", "3 0 0 2 3 ;"],
    ["S**a", ""],
];

const ONE_OTHER_WITH_THE_FIRST: Cases = &[
    ["S*****e", "2 0 0 2 2 ;"],
    ["S***b**e", ""],
    ["S**a", ""],
];

const CONDITIONS: &[Group] = &[
    (SIX_ROWS, &[(Relation::Paired, &[2, 3, 5])], &[PAIRED]),
    (
        SIX_ROWS,
        &[(Relation::Required, &[2, 3, 5])],
        &[AT_LEAST_ONE],
    ),
    (
        SIX_ROWS,
        &[(Relation::Exclusion, &[5, 2, 3])],
        &[AT_MOST_ONE],
    ),
    (
        SIX_ROWS,
        &[(Relation::Conditional, &[5, 2, 3])],
        &[ALL_OTHERS_WITH_THE_FIRST],
    ),
    (
        SIX_ROWS,
        &[(Relation::ListConditional, &[5, 2, 3])],
        &[ONE_OTHER_WITH_THE_FIRST],
    ),
];

#[test]
fn conditions(rt: HostRuntime) -> Result<(), Fail> {
    expect_groups(rt.alloc(), CONDITIONS)
}

const FOUR_ROWS: &[Line] = &[
    Line {
        reference: "1",
        ..OPTIONAL
    },
    Line {
        reference: "2",
        ..OPTIONAL
    },
    Line {
        reference: "3",
        ..OPTIONAL
    },
    Line {
        reference: "4",
        ..OPTIONAL
    },
];

/// Two conditions that ask for the same element.
const TWICE: &[Related] = &[
    (Relation::Paired, &[2, 3]),
    (Relation::Conditional, &[2, 4, 3]),
];

const FOUND_TWICE: Cases = &[["S**a", "3 0 0 2 3 ;4 0 0 2 4 ;"], ["S***b", "2 0 0 2 2 ;"]];

/// Conditions of three relations, two of which exclude the same element.
const SEVERAL: &[Related] = &[
    (Relation::Exclusion, &[4, 2]),
    (Relation::Paired, &[2, 3]),
    (Relation::Exclusion, &[2, 4, 1]),
    (Relation::Required, &[1, 3]),
];

const FOUND_OF_SEVERAL: Cases = &[
    [
        "S**a**b",
        "1 0 0 2 1 ;2 0 0 10 2 a;3 0 0 2 3 ;4 0 0 10 4 b;",
    ],
    ["S*c", ""],
];

const TOGETHER: &[Group] = &[
    (FOUR_ROWS, TWICE, &[FOUND_TWICE]),
    (FOUR_ROWS, SEVERAL, &[FOUND_OF_SEVERAL]),
];

#[test]
fn a_fault_of_two_conditions_stands_once(rt: HostRuntime) -> Result<(), Fail> {
    expect_groups(rt.alloc(), TOGETHER)
}
