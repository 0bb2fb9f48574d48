//! Moments of a run.
use moment::At;
use std::alloc::Global;
use std::test::Fail;

/// Whether a moment is these digits.
fn expect_digits(alloc: Global, at: &At) -> Result<(), Fail> {
    if at.digits() == b"202603011530".as_slice() {
        return Ok(());
    }
    Err(Fail::new(String::from_utf8_lossy(alloc, at.digits())?))
}

#[test]
fn reads_the_digits_of_a_moment(rt: HostRuntime) -> Result<(), Fail> {
    match At::read(b"202603011530") {
        None => Err("no moment".into()),
        Some(at) => expect_digits(rt.alloc(), &at),
    }
}

/// Texts, and whether each is a moment.
const MOMENTS: &[(&[u8], bool)] = &[
    (b"000101010000", true),
    (b"200002290000", true),
    (b"202402292359", true),
    (b"999912312359", true),
    (b"", false),
    (b"20260301153", false),
    (b"2026030115300", false),
    (b"2026030115:0", false),
    (b"000003011530", false),
    (b"202600011530", false),
    (b"202613011530", false),
    (b"202603001530", false),
    (b"202604311530", false),
    (b"202602291530", false),
    (b"190002291530", false),
    (b"202603012400", false),
    (b"202603011560", false),
];

fn are_moments(cases: &[(&[u8], bool)]) -> bool {
    for (text, is_moment) in cases {
        if At::read(text).is_some() != *is_moment {
            return false;
        }
    }
    true
}

#[test]
fn reads_moments_that_exist_alone(rt: HostRuntime) {
    assert!(rt; are_moments(MOMENTS));
}
