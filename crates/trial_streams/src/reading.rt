//! Streams read in windows, from sources that are interrupted and that fail.
ghost use Rattle.std.specs.Prelude.{◌<◌};

use crate::sources::{Failing, Interrupted, Memory};
use crate::texts::ORDER;
use std::alloc::Global;
use std::test::Fail;
use stream_read::{Held, MOST_RETRIES, ReadFault, Source, StreamFault, read_again};

/// How many windows were full, and whether the order was held then, or why it isn't read.
type Answer = Result<(usize, bool), StreamFault>;

/// Reads windows of this many bytes up to the end, at most 1,000 of them.
fn answer<S: Source>(alloc: Global, source: &mut S, window: usize) -> Answer
    requires { 0 < window }
{
    let mut held = Held::new(alloc);
    for full in 0..1_000 {
        if !held.fill(source, window)? {
            return Ok((full, held.bytes() == ORDER));
        }
    }
    Ok((1_000, false))
}

fn expect<S: Source>(
    alloc: Global,
    source: &mut S,
    window: usize,
    wanted: Answer,
) -> Result<(), Fail> {
    if window == 0 {
        return Err("no window".into());
    }
    let found = answer(alloc, source, window);
    if found == wanted {
        return Ok(());
    }
    Err(Fail::new(format!(in alloc; "{window}, {wanted:?}: {found:?}")?))
}

/// A window, and how many of them are full.
const WINDOWS: &[(usize, usize)] = &[(1, 236), (53, 4), (235, 1), (236, 1), (237, 0), (4_096, 0)];

#[test]
fn windows_give_the_order(rt: HostRuntime) -> Result<(), Fail> {
    for (window, full) in WINDOWS {
        expect(
            rt.alloc(),
            &mut Memory::new(ORDER),
            *window,
            Ok((*full, true)),
        )?;
    }
    Ok(())
}

/// How often the source is interrupted before its first byte and before each other one, the window, and what is answered.
const INTERRUPTIONS: &[(u32, u32, usize, Answer)] = &[
    (0, 0, 53, Ok((4, true))),
    (1_000, 0, 53, Ok((4, true))),
    (1_001, 0, 53, Err(StreamFault::Read)),
    (1_000, 1_000, 4_096, Ok((0, true))),
    (3, 1, 1, Ok((236, true))),
    (0, 1_001, 4_096, Err(StreamFault::Read)),
];

#[test]
fn interruptions_are_read_through(rt: HostRuntime) -> Result<(), Fail> {
    assert_eq!(rt; MOST_RETRIES, 1_000);
    for (first, later, window, wanted) in INTERRUPTIONS {
        let mut source = Interrupted::new(ORDER, *first, *later);
        expect(rt.alloc(), &mut source, *window, *wanted)?;
    }
    Ok(())
}

/// Five reads give the order in windows of 53 bytes, and the sixth says that it ends.
#[test]
fn a_fault_is_no_end(rt: HostRuntime) -> Result<(), Fail> {
    for reads in 0..6 {
        let mut source = Failing::new(ORDER, reads);
        expect(rt.alloc(), &mut source, 53, Err(StreamFault::Read))?;
    }
    expect(rt.alloc(), &mut Failing::new(ORDER, 6), 53, Ok((4, true)))
}

/// Whether the rest of the order is held where this many of its first 106 bytes are dropped before it is read on.
fn is_rest_kept(alloc: Global, count: usize) -> Result<bool, StreamFault> {
    let mut source = Memory::new(ORDER);
    let mut held = Held::new(alloc);
    let is_full = held.fill(&mut source, 106)?;
    if count > 106 || count > held.bytes().len() {
        return Ok(false);
    }
    held.give_up(count);
    let is_kept = held.bytes() == &ORDER[count..106];
    let is_more = held.fill(&mut source, 4_096)?;
    Ok(is_full && is_kept && !is_more && held.bytes() == &ORDER[count..])
}

#[test]
fn the_rest_is_kept(rt: HostRuntime) -> Result<(), Fail> {
    for count in [0, 1, 53, 105, 106] {
        if !is_rest_kept(rt.alloc(), count)? {
            return Err(Fail::new(format!(in rt.alloc(); "{count} given up")?));
        }
    }
    Ok(())
}

#[test]
fn reads_again(rt: HostRuntime) {
    let mut buf = [0; 4];
    let mut text = Interrupted::new(b"ISA", 1_000, 0);
    assert_eq!(rt; (read_again(&mut text, &mut buf), buf[0]), (Ok(1), b'I'));
    assert_eq!(rt; read_again(&mut Memory::new(b"ISA"), &mut buf), Ok(3));
    assert_eq!(rt; read_again(&mut Memory::new(b""), &mut buf), Ok(0));
    assert_eq!(rt;
        read_again(&mut Failing::new(b"ISA", 0), &mut buf),
        Err(ReadFault)
    );
}
