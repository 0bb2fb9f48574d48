//! A register that up to 64 threads share.
ghost use Rattle.std.specs.Prelude.{◌≡◌};
ghost use Rattle.env_index.specs.Words.{places_of};

use crate::recording::{place_at, recorded_of};
use crate::records::settled;
use crate::texts::of_sets;
use hub_kinds::Place;
use number_register::{FullRegister, RecordFault, Records};
use std::alloc::Global;
use std::sync::Wait;
use std::test::Fail;
use std::thread::Threads;
use std::time::Clock;

/// Whether the first of the sets is the first use of each other one's number.
fn is_told_by_first_use(full: &FullRegister<'_, '_>, places: &[Place]) -> bool
    requires { places.now ≡ places_of full.now.index }
{
    let first = Place {
        isa: 1,
        gs: 1,
        st: 1,
    };
    for k in 0..places.len() {
        let place = place_at(places, k);
        let wanted = if place.st > 1 { Some(first) } else { None };
        if full.earlier_of(place) != wanted {
            return false;
        }
    }
    true
}

/// Whether each place is refused as recorded already.
fn is_each_recorded(records: &mut Records<'_, '_>, places: &[Place]) -> bool
    requires { places.now ≡ places_of records.old.index }
    ensures { records.new.index ≡ records.old.index }
{
    for k in 0..places.len() {
        if records.record(place_at(places, k)) != Err(RecordFault::Already) {
            return false;
        }
    }
    true
}

/// Each place is fresh, then recorded already, and all are recorded.
fn expect_all_recorded<R: Threads + Wait + Clock + Sync>(
    rt: &R,
    alloc: Global,
    numbers: &[&str],
    workers: u64,
) -> Result<(), Fail> {
    let text = of_sets(alloc, numbers)?;
    let index = settled(alloc, text.as_slice())?;
    let places = index.places(alloc)?;
    if places.as_slice().len() > 1000 || workers == 0 || workers > 64 {
        return Err("too many".into());
    }
    let Ok((told, records)) = recorded_of(rt, alloc, &index, places.as_slice(), workers) else {
        return Err("refused".into());
    };
    if told.as_slice().iter().any(|one| !one.is_fresh) {
        return Err("recorded before".into());
    }
    if told.len() != places.as_slice().len() || records.recorded().len() != told.len() {
        return Err("another number of places".into());
    }
    let mut records = records;
    if !is_each_recorded(&mut records, places.as_slice()) {
        return Err("recorded twice".into());
    }
    let Ok(full) = records.finish() else {
        return Err("short".into());
    };
    if is_told_by_first_use(&full, places.as_slice()) {
        Ok(())
    } else {
        Err("another first use".into())
    }
}

/// Sets of one number: whoever records first, the first one in the text is its first use.
#[test]
fn each_place_is_recorded_once(rt: HostRuntime) -> Result<(), Fail> {
    for workers in [1, 2, 4, 64] {
        expect_all_recorded(&rt, rt.alloc(), &["0001"; 40], workers)?;
    }
    Ok(())
}
