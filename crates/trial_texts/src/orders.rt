//! The order of places and of an interchange's faults, and the limit of a text's length.
use crate::texts::holds;
use hub_kinds::{
    InterchangeFault, LONGEST_TEXT, Place, interchange_fault_order, place_order, within_limit,
};
use std::cmp::Ordering;
use std::test::Fail;

/// Two places, by interchange, group and set, and how they are ordered.
const PLACES: &[(Place, Place, Ordering)] = &[
    (
        Place {
            isa: 1,
            gs: 2,
            st: 3,
        },
        Place {
            isa: 1,
            gs: 2,
            st: 3,
        },
        Ordering::Equal,
    ),
    (
        Place {
            isa: 1,
            gs: 9,
            st: 9,
        },
        Place {
            isa: 2,
            gs: 1,
            st: 1,
        },
        Ordering::Less,
    ),
    (
        Place {
            isa: 1,
            gs: 2,
            st: 1,
        },
        Place {
            isa: 1,
            gs: 1,
            st: 2,
        },
        Ordering::Greater,
    ),
    (
        Place {
            isa: 1,
            gs: 1,
            st: 0,
        },
        Place {
            isa: 1,
            gs: 1,
            st: 1,
        },
        Ordering::Less,
    ),
];

/// Two faults, and which is reported.
const FAULTS: &[(InterchangeFault, InterchangeFault, Ordering)] = &[
    (
        InterchangeFault::TrailerMissing,
        InterchangeFault::Duplicate,
        Ordering::Less,
    ),
    (
        InterchangeFault::SetHeaderInvalid,
        InterchangeFault::GroupHeaderInvalid,
        Ordering::Greater,
    ),
];

fn are_ordered(cases: &[(Place, Place, Ordering)]) -> bool {
    for (a, b, wanted) in cases {
        if place_order(*a, *b) != *wanted {
            return false;
        }
    }
    true
}

#[test]
fn orders_places() -> Result<(), Fail> {
    holds(are_ordered(PLACES), "places in another order")
}

fn are_faults_ordered(cases: &[(InterchangeFault, InterchangeFault, Ordering)]) -> bool {
    for (a, b, wanted) in cases {
        if interchange_fault_order(*a, *b) != *wanted {
            return false;
        }
    }
    true
}

#[test]
fn orders_faults_of_an_interchange() -> Result<(), Fail> {
    holds(are_faults_ordered(FAULTS), "faults in another order")
}

#[test]
fn tells_a_text_that_is_too_long(rt: HostRuntime) {
    assert!(rt; within_limit(0));
    assert!(rt; within_limit(LONGEST_TEXT));
    assert!(rt; !within_limit(4_294_967_296));
}
