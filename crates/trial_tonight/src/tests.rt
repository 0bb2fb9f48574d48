//! A whole night, and files that are refused.

use crate::examples::{BEGUN, FIRST, GUIDE, IN, LEFT, OUT, SETUP, TOTAL, TRACK};
use guide_toml::GuideFileFault;
use hub_kinds::{Counters, Items, copy_text};
use hub_ledger::{AddressNumbers, NightEntry};
use hub_tonight::{Call, HubFiles, Stopped, Tonight, tonight};
use moment::At;
use night_command::Sharing;
use night_shelf::NightFile;
use partner_setup::{FileFault, SetupFault};
use std::alloc::Global;
use std::sync::Wait;
use std::test::Fail;
use std::thread::Threads;
use std::time::Clock;

/// Whether bytes are those that are wanted; if not, they are shown.
fn same(alloc: Global, found: &[u8], wanted: &[u8]) -> Result<(), Fail> {
    if found == wanted {
        return Ok(());
    }
    Err(Fail::new(String::from_utf8_lossy(alloc, found)?))
}

/// A night that left ACME's address with these numbers, whose partner had another name then.
fn night_of(alloc: Global, left: Counters) -> Result<NightEntry, Fail> {
    let mut rows = Vec::new(alloc);
    rows.push(AddressNumbers {
        partner: copy_text(alloc, b"OLD")?,
        address: copy_text(alloc, b"01 ACME")?,
        begun: left,
        left,
    })?;
    Ok(NightEntry {
        name: copy_text(alloc, b"mon")?,
        moment: copy_text(alloc, b"202602281530")?,
        delivered: Items::from_vec(Vec::new(alloc)),
        again: Items::from_vec(Vec::new(alloc)),
        addresses: Items::from_vec(rows),
        files: Items::from_vec(Vec::new(alloc)),
    })
}

/// Two nights, the oldest first.
fn nights(alloc: Global) -> Result<Vec<NightEntry>, Fail> {
    let mut nights = Vec::new(alloc);
    nights.push(night_of(
        alloc,
        Counters {
            interchange: 5,
            group: 5,
            set: 5,
        },
    )?)?;
    nights.push(night_of(
        alloc,
        Counters {
            interchange: 42,
            group: 40,
            set: 9,
        },
    )?)?;
    Ok(nights)
}

fn guides(alloc: Global, texts: &[&[u8]]) -> Result<Vec<NightFile>, Fail> {
    let mut guides = Vec::new(alloc);
    for text in texts {
        guides.push(NightFile {
            name: copy_text(alloc, b"h850.toml")?,
            bytes: copy_text(alloc, text)?,
        })?;
    }
    Ok(guides)
}

/// The night of the order by these files.
fn night_by<R>(
    rt: &R,
    alloc: Global,
    setup: &[u8],
    texts: &[&[u8]],
    first: &[u8],
) -> Result<Result<Tonight, Stopped>, Fail>
where
    R: Threads + Wait + Clock + Sync,
{
    let nights = nights(alloc)?;
    let guides = guides(alloc, texts)?;
    let Some(at) = At::read(b"202603011530") else {
        return Err("no moment")?;
    };
    let call = Call {
        files: HubFiles {
            setup,
            guides: guides.as_slice(),
        },
        nights: nights.as_slice(),
        first,
        input: IN,
        at: &at,
        sharing: Sharing {
            workers: 2,
            piece: 100,
        },
    };
    Ok(tonight(rt, alloc, &call))
}

/// Whether the files are those of the example.
fn are_given(alloc: Global, night: &Tonight) -> Result<(), Fail> {
    let out = night.out.as_slice();
    if out.len() != OUT.len() {
        return Err("other files")?;
    }
    for i in 0..out.len() {
        same(alloc, out[i].name.as_slice(), OUT[i].0)?;
        same(alloc, out[i].bytes.as_slice(), OUT[i].1)?;
    }
    Ok(())
}

/// Whether the numbers that come next are those of the example.
fn are_left(alloc: Global, night: &Tonight) -> Result<(), Fail> {
    let left = night.left.as_slice();
    if left.len() != LEFT.len() {
        return Err("other partners")?;
    }
    for i in 0..left.len() {
        same(alloc, left[i].qualifier.as_slice(), LEFT[i].0)?;
        same(alloc, left[i].id.as_slice(), LEFT[i].1)?;
        let next = left[i].next;
        if [next.interchange, next.group, next.set] != LEFT[i].2 {
            return Err("other numbers")?;
        }
    }
    Ok(())
}

#[test]
fn addresses_continue_where_they_were_left(rt: HostRuntime) -> Result<(), Fail> {
    let alloc = rt.alloc();
    let Ok(night) = night_by(&rt, alloc, SETUP, &[GUIDE], FIRST)? else {
        return Err("no night")?;
    };
    same(alloc, night.counters.as_slice(), BEGUN)?;
    are_given(alloc, &night)?;
    same(alloc, night.total.as_slice(), TOTAL)?;
    same(alloc, night.track.as_slice(), TRACK)?;
    assert!(rt; night.status == 0);
    are_left(alloc, &night)
}

/// Why there is no night by these files.
fn stopped_by<R>(
    rt: &R,
    alloc: Global,
    setup: &[u8],
    texts: &[&[u8]],
    first: &[u8],
) -> Result<Stopped, Fail>
where
    R: Threads + Wait + Clock + Sync,
{
    match night_by(rt, alloc, setup, texts, first)? {
        Ok(_) => Err("a night")?,
        Err(stopped) => Ok(stopped),
    }
}

#[test]
fn a_guide_is_named_by_its_place_before_other_files(rt: HostRuntime) -> Result<(), Fail> {
    let stopped = stopped_by(
        &rt,
        rt.alloc(),
        b"hub = 1",
        &[GUIDE, b"name"],
        b"version = 3",
    )?;
    assert!(rt; matches!(stopped, Stopped::Guide(1, GuideFileFault::NotToml)));
    Ok(())
}

#[test]
fn the_setup_file_is_named_before_the_first_counters(rt: HostRuntime) -> Result<(), Fail> {
    let stopped = stopped_by(&rt, rt.alloc(), b"hub = 1", &[GUIDE], b"version = 3")?;
    assert!(rt; matches!(stopped, Stopped::SetupFile(FileFault::WrongKind("hub"))));
    Ok(())
}

#[test]
fn first_counters_of_no_version_are_refused(rt: HostRuntime) -> Result<(), Fail> {
    let stopped = stopped_by(&rt, rt.alloc(), SETUP, &[GUIDE], b"version = 3")?;
    assert!(rt;
        matches!(
            stopped,
            Stopped::FirstCounters(FileFault::WrongKind("version"))
        )
    );
    Ok(())
}

#[test]
fn a_guide_that_is_missing_is_a_fault_of_all_files(rt: HostRuntime) -> Result<(), Fail> {
    let stopped = stopped_by(&rt, rt.alloc(), SETUP, &[], b"")?;
    assert!(rt; matches!(stopped, Stopped::Setup(SetupFault::BadGuides(_))));
    Ok(())
}
