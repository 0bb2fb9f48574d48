//! Setup files and counters files that aren't read, and why.
use super::examples::HUB;
use partner_setup::{FileFault, read_counters, read_setup};
use std::alloc::{AllocError, Global};
use std::test::Fail;

fn setup_fault(alloc: Global, file: &[u8]) -> Option<FileFault> {
    match read_setup(alloc, file) {
        Ok(_) => None,
        Err(fault) => Some(fault),
    }
}

fn counters_fault(alloc: Global, file: &[u8]) -> Option<FileFault> {
    match read_counters(alloc, file) {
        Ok(_) => None,
        Err(fault) => Some(fault),
    }
}

fn written(alloc: Global, fault: &Option<FileFault>) -> Result<String, AllocError> {
    match fault {
        None => String::from_str(alloc, "0 None"),
        Some(fault) => format!(in alloc; "{} {fault:?}", fault.number()),
    }
}

/// Whether it is the fault that is written so, after its number; if not, it is shown.
fn expect(alloc: Global, fault: &Option<FileFault>, wanted: &str) -> Result<(), Fail> {
    let found = written(alloc, fault)?;
    if found.as_str() == wanted {
        return Ok(());
    }
    Err(Fail::new(found))
}

/// Setup files, and the fault of each.
const SETUPS: &[(&[u8], &str)] = &[
    (&[], "2 Missing(\"hub\")"),
    (&[0xff], "1 NotToml"),
    (b"hub=\n", "1 NotToml"),
    (b"hub=1\n", "3 WrongKind(\"hub\")"),
    (b"zeta=1\nalpha=1\n", "4 Unknown(\"alpha\")"),
    (b"[hub]\n", "2 Missing(\"partner\")"),
    (b"partner=[]\n[hub]\n", "2 Missing(\"qualifier\")"),
    (
        b"partner=[]\n[hub]\nqualifier=\"ZZ\"\nid=\"HUB\"\ncode=\"HUB\"\nusage=\"X\"\n",
        "3 WrongKind(\"usage\")",
    ),
    (
        b"partner=[]\n[hub]\nqualifier=\"ZZ\"\nid=\"HUB\"\ncode=\"HUB\"\nusage=\"T\"\n",
        "0 None",
    ),
];

fn expect_setups(alloc: Global, cases: &[(&[u8], &str)]) -> Result<(), Fail> {
    for (file, wanted) in cases {
        expect(alloc, &setup_fault(alloc, file), wanted)?;
    }
    Ok(())
}

#[test]
fn setup_files(rt: HostRuntime) -> Result<(), Fail> {
    expect_setups(rt.alloc(), SETUPS)
}

/// What comes after the hub, and the fault of each file.
const BEHIND: &[[&str; 2]] = &[
    ["[[partner]]\n", "2 Missing(\"name\")"],
    [
        "[[partner]]\nname=\"ACME\"\ngroup=1\n",
        "4 Unknown(\"group\")",
    ],
    ["[[partner]]\n[[route]]\nzeta=1\n", "2 Missing(\"name\")"],
    ["[[partner]]\nname=7\n", "3 WrongKind(\"name\")"],
];

fn expect_behind(alloc: Global, behind: &str, wanted: &str) -> Result<(), Fail> {
    let file = format!(in alloc; "{HUB}{behind}")?;
    expect(alloc, &setup_fault(alloc, file.as_bytes()), wanted)
}

fn expect_all_behind(alloc: Global, cases: &[[&str; 2]]) -> Result<(), Fail> {
    for [behind, wanted] in cases {
        expect_behind(alloc, behind, wanted)?;
    }
    Ok(())
}

#[test]
fn rows_of_setup_files(rt: HostRuntime) -> Result<(), Fail> {
    expect_all_behind(rt.alloc(), BEHIND)
}

/// The receivers of a route, and the fault of each file.
const RECEIVERS: &[[&str; 2]] = &[
    ["", "2 Missing(\"to\")"],
    ["to=\"BOLT\"", "0 None"],
    ["to=[\"BOLT\"]", "0 None"],
    ["to=[\"BOLT\",\"ACME\"]", "0 None"],
    ["to=[]", "3 WrongKind(\"to\")"],
    ["to=7", "3 WrongKind(\"to\")"],
    ["to=[\"BOLT\",7]", "3 WrongKind(\"to\")"],
    ["to=[[\"BOLT\"]]", "3 WrongKind(\"to\")"],
    ["to={BOLT=1}", "3 WrongKind(\"to\")"],
    // sixteen
    [
        "to=[\"A\",\"B\",\"C\",\"D\",\"E\",\"F\",\"G\",\"H\",\"I\",\"J\",\"K\",\"L\",\"M\",\"N\",\"O\",\"P\"]",
        "0 None",
    ],
    // seventeen
    [
        "to=[\"A\",\"B\",\"C\",\"D\",\"E\",\"F\",\"G\",\"H\",\"I\",\"J\",\"K\",\"L\",\"M\",\"N\",\"O\",\"P\",\"Q\"]",
        "3 WrongKind(\"to\")",
    ],
];

fn expect_receivers(alloc: Global, to: &str, wanted: &str) -> Result<(), Fail> {
    let file = format!(in alloc; "partner=[]\n{HUB}[[route]]\ncode=\"BOLT\"\n{to}\n")?;
    expect(alloc, &setup_fault(alloc, file.as_bytes()), wanted)
}

fn expect_all_receivers(alloc: Global, cases: &[[&str; 2]]) -> Result<(), Fail> {
    for [to, wanted] in cases {
        expect_receivers(alloc, to, wanted)?;
    }
    Ok(())
}

#[test]
fn receivers_of_a_route(rt: HostRuntime) -> Result<(), Fail> {
    expect_all_receivers(rt.alloc(), RECEIVERS)
}

/// Counters files, and the fault of each.
const COUNTERS: &[(&[u8], &str)] = &[
    (&[], "2 Missing(\"version\")"),
    (b"version=1\n", "0 None"),
    (b"version=2\n", "0 None"),
    (b"version=0\n", "3 WrongKind(\"version\")"),
    (b"version=3\n", "3 WrongKind(\"version\")"),
    (b"version=\"2\"\n", "3 WrongKind(\"version\")"),
    (b"version=1\npartner=1\n", "4 Unknown(\"partner\")"),
    (
        b"version=1\n[[counter]]\npartner=\"ACME\"\nset=1\n",
        "2 Missing(\"interchange\")",
    ),
    (
        b"version=1\n[[counter]]\npartner=\"ACME\"\ninterchange=4294967296\nset=1\n",
        "3 WrongKind(\"interchange\")",
    ),
    // a counter of groups is of version 2 alone, and isn't left out there
    (
        b"version=1\n[[counter]]\npartner=\"ACME\"\ninterchange=1\ngroup=1\nset=1\n",
        "4 Unknown(\"group\")",
    ),
    (
        b"version=2\n[[counter]]\npartner=\"ACME\"\ninterchange=1\nset=1\n",
        "2 Missing(\"group\")",
    ),
    (
        b"version=2\n[[counter]]\npartner=\"ACME\"\n",
        "2 Missing(\"interchange\")",
    ),
    (
        b"version=2\n[[counter]]\npartner=\"ACME\"\ninterchange=1\ngroup=-1\nset=\"1\"\n",
        "3 WrongKind(\"group\")",
    ),
    (
        b"version=2\n[[counter]]\npartner=\"ACME\"\ninterchange=1\ngroup=1\n",
        "2 Missing(\"set\")",
    ),
    (
        b"version=2\n[[counter]]\npartner=\"ACME\"\ninterchange=1\ngroup=0\nset=1\n",
        "0 None",
    ),
];

fn expect_counters(alloc: Global, cases: &[(&[u8], &str)]) -> Result<(), Fail> {
    for (file, wanted) in cases {
        expect(alloc, &counters_fault(alloc, file), wanted)?;
    }
    Ok(())
}

#[test]
fn counters_files(rt: HostRuntime) -> Result<(), Fail> {
    expect_counters(rt.alloc(), COUNTERS)
}
