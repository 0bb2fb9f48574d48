//! Counters files that are written.
use super::built::{built_of, example};
use super::examples::{ACME, BOLT, COUNTERS, ROUTES};
use hub_kinds::Counters;
use partner_setup::Setup;
use std::alloc::Global;
use std::test::Fail;

const FIRST: Counters = Counters {
    interchange: 1,
    group: 1,
    set: 1,
};

/// BOLT's counters alone, in version 1, in which there isn't a counter of groups.
const VERSION_1: &str = "version=1\n[[counter]]\npartner=\"BOLT\"\ninterchange=41\nset=7\n";

/// Files with BOLT's counters alone, and these.
const OF_BOLT: &[(&str, Counters)] = &[
    (
        VERSION_1,
        Counters {
            interchange: 41,
            group: 1,
            set: 7,
        },
    ),
    (
        "version=2\n[[counter]]\npartner=\"BOLT\"\ninterchange=41\ngroup=999999999\nset=7\n",
        Counters {
            interchange: 41,
            group: 999_999_999,
            set: 7,
        },
    ),
];

fn expect_text(alloc: Global, setup: &Setup, next: &[Counters], wanted: &str) -> Result<(), Fail> {
    if next.len() != setup.partners().len() {
        return Err("another number of partners")?;
    }
    let text = setup.counters_text(alloc, next)?;
    if text.as_slice() == wanted.as_bytes() {
        return Ok(());
    }
    Err(Fail::new(String::from_utf8_lossy(alloc, text.as_slice())?))
}

#[test]
fn what_is_read_is_written(rt: HostRuntime) -> Result<(), Fail> {
    let setup = example(rt.alloc())?;
    expect_text(rt.alloc(), &setup, &[FIRST, FIRST], COUNTERS)
}

fn expect_counters(setup: &Setup, place: usize, wanted: Counters) -> Result<(), Fail> {
    match setup.partners().get(place) {
        Some(partner) if partner.counters == wanted => Ok(()),
        _ => Err("other counters")?,
    }
}

fn expect_read(alloc: Global, file: &str, wanted: Counters) -> Result<(), Fail> {
    let setup = built_of(alloc, ACME, BOLT, ROUTES, file)?;
    expect_counters(&setup, 0, FIRST)?;
    expect_counters(&setup, 1, wanted)
}

fn expect_each_read(alloc: Global, cases: &[(&str, Counters)]) -> Result<(), Fail> {
    for (file, wanted) in cases {
        expect_read(alloc, file, *wanted)?;
    }
    Ok(())
}

#[test]
fn a_partner_without_a_row_starts_at_1(rt: HostRuntime) -> Result<(), Fail> {
    expect_each_read(rt.alloc(), OF_BOLT)
}

const LATER: Counters = Counters {
    interchange: 999_999_999,
    group: 20,
    set: 3,
};

const WRITTEN: &str =
    "version = 2\n\n[[counter]]\npartner = \"ACME\"\ninterchange = 999999999\ngroup = 20\nset = 3\n\n\
    [[counter]]\npartner = \"BOLT\"\ninterchange = 1\ngroup = 1\nset = 1\n";

#[test]
fn version_2_is_written_whatever_was_read(rt: HostRuntime) -> Result<(), Fail> {
    let setup = built_of(rt.alloc(), ACME, BOLT, ROUTES, VERSION_1)?;
    expect_text(rt.alloc(), &setup, &[LATER, FIRST], WRITTEN)
}
