//! Rows and counters that make no setup, and why.
use super::built::{NoSetup, built_of};
use super::examples::ACME;
use partner_setup::{GuidesOwner, IdOwner, Setup, SetupFault};
use std::alloc::{AllocError, Global};
use std::test::Fail;

/// What files say beside ACME: of the partner BOLT and of its route; and of ACME's counters.
#[derive(Clone, Copy)]
struct Case {
    name: &'static str,
    code: &'static str,
    component: &'static str,
    cap: &'static str,
    guide: &'static str,
    to: &'static str,
    interchange: &'static str,
    group: &'static str,
    set: &'static str,
    wanted: SetupFault,
}

const PLAIN: Case = Case {
    name: "BOLT",
    code: "BOLT",
    component: ":",
    cap: "1",
    guide: "H850",
    to: "\"BOLT\"",
    interchange: "1",
    group: "1",
    set: "1",
    wanted: SetupFault::NoMemory,
};

const CASES: &[Case] = &[
    Case {
        name: "ACME",
        wanted: SetupFault::SamePartner(0),
        ..PLAIN
    },
    Case {
        component: "|",
        wanted: SetupFault::BadDelimiters(1),
        ..PLAIN
    },
    Case {
        component: "-",
        wanted: SetupFault::BadDelimiters(1),
        ..PLAIN
    },
    Case {
        code: "A",
        wanted: SetupFault::BadId(IdOwner::Partner(1)),
        ..PLAIN
    },
    Case {
        guide: "H999",
        wanted: SetupFault::BadGuides(GuidesOwner::Partner(1)),
        ..PLAIN
    },
    Case {
        to: "\"CARL\"",
        wanted: SetupFault::BadRoute(0),
        ..PLAIN
    },
    Case {
        to: "[\"BOLT\", \"CARL\"]",
        wanted: SetupFault::BadRoute(0),
        ..PLAIN
    },
    Case {
        to: "[\"BOLT\", \"ACME\", \"BOLT\"]",
        wanted: SetupFault::BadRoute(0),
        ..PLAIN
    },
    Case {
        interchange: "1000000000",
        wanted: SetupFault::BadCounter(0),
        ..PLAIN
    },
    Case {
        group: "0",
        wanted: SetupFault::BadCounter(0),
        ..PLAIN
    },
    Case {
        group: "1000000000",
        wanted: SetupFault::BadCounter(0),
        ..PLAIN
    },
    Case {
        set: "0",
        wanted: SetupFault::BadCounter(0),
        ..PLAIN
    },
    Case {
        cap: "100000",
        wanted: SetupFault::BadCap(1),
        ..PLAIN
    },
    // the first of two refusals
    Case {
        component: "|",
        set: "0",
        wanted: SetupFault::BadDelimiters(1),
        ..PLAIN
    },
];

/// The partner up to its component separator.
fn head(alloc: Global, case: &Case) -> Result<String, AllocError> {
    format!(in alloc;
        "[[partner]]\nname=\"{}\"\nqualifier=\"ZZ\"\nid=\"BOLT\"\ncode=\"{}\"\nelement=\"|\"\n",
        case.name, case.code
    )
}

/// What comes after this head.
fn partner_behind(alloc: Global, head: &str, case: &Case) -> Result<String, AllocError> {
    format!(in alloc;
        "{head}component=\"{}\"\nrepetition=\"^\"\nterminator=\"!\"\ncap={}\nguides=[\"{}\"]\n",
        case.component, case.cap, case.guide
    )
}

fn partner(alloc: Global, case: &Case) -> Result<String, AllocError> {
    let head = head(alloc, case)?;
    partner_behind(alloc, head.as_str(), case)
}

fn route(alloc: Global, case: &Case) -> Result<String, AllocError> {
    format!(in alloc; "[[route]]\ncode=\"BOLT\"\nto={}\n", case.to)
}

fn counters(alloc: Global, case: &Case) -> Result<String, AllocError> {
    format!(in alloc;
        "version=2\n[[counter]]\npartner=\"ACME\"\ninterchange={}\ngroup={}\nset={}\n",
        case.interchange, case.group, case.set
    )
}

/// What is built of this partner and this route.
fn built_with(alloc: Global, bolt: &str, route: &str, case: &Case) -> Result<Setup, NoSetup> {
    let counters = counters(alloc, case)?;
    built_of(alloc, ACME, bolt, route, counters.as_str())
}

fn built_by(alloc: Global, case: &Case) -> Result<Setup, NoSetup> {
    let bolt = partner(alloc, case)?;
    let route = route(alloc, case)?;
    built_with(alloc, bolt.as_str(), route.as_str(), case)
}

fn refusal_of(alloc: Global, case: &Case) -> Option<NoSetup> {
    match built_by(alloc, case) {
        Ok(_) => None,
        Err(refusal) => Some(refusal),
    }
}

fn fault_in(refusal: &NoSetup) -> Option<SetupFault> {
    match refusal {
        NoSetup::Setup(fault) => Some(*fault),
        _ => None,
    }
}

fn expect_refusal(alloc: Global, case: &Case) -> Result<(), Fail> {
    let refusal = refusal_of(alloc, case).ok_or("no refusal")?;
    if fault_in(&refusal) == Some(case.wanted) {
        return Ok(());
    }
    Err(refusal)?
}

fn expect_refusals(alloc: Global, cases: &[Case]) -> Result<(), Fail> {
    for case in cases {
        expect_refusal(alloc, case)?;
    }
    Ok(())
}

#[test]
fn first_refusals(rt: HostRuntime) -> Result<(), Fail> {
    expect_refusals(rt.alloc(), CASES)
}

const NUMBERS: &[(SetupFault, u32)] = &[
    (SetupFault::SamePartner(0), 1),
    (SetupFault::BadDelimiters(1), 2),
    (SetupFault::BadId(IdOwner::Partner(1)), 3),
    (SetupFault::BadGuides(GuidesOwner::Partner(1)), 4),
    (SetupFault::BadRoute(0), 5),
    (SetupFault::BadCounter(0), 6),
    (SetupFault::BadCap(1), 7),
    (SetupFault::NoMemory, 8),
];

#[test]
fn numbers_of_refusals(rt: HostRuntime) {
    for (fault, number) in NUMBERS {
        assert_eq!(rt; fault.number(), *number);
    }
}
