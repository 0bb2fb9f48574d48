ghost use Rattle.std.specs.Prelude.{◌≡◌, true, Contains, IfOk, OnOk};
ghost use Rattle.env_index.specs.Words.{places_of};
ghost use Rattle.work_core.specs.Core.{was_recorded};
ghost use Rattle.number_register.specs.Recording.{IsFull};

use crate::fault::RecordFault;
use crate::full::{FullRegister, Short};
use crate::records::Records;
use hub_kinds::{NoMemory, Place};
use std::alloc::Global;

// A place that is recorded already stays so.
#[tactic(auto, using(crate::proofs::Once::own_there, crate::proofs::Once::still_there))]
fn record_too(records: &mut Records<'_, '_>, place: Place) -> Result<(), NoMemory>
    requires { Contains (places_of records.old.index) place }
    ensures index { records.new.index ≡ records.old.index }
    ensures there { OnOk result (was_recorded records.new.recorded place ≡ true) }
    ensures kept { (p : Place) → was_recorded records.old.recorded p ≡ true → was_recorded records.new.recorded p ≡ true }
{
    match records.record(place) {
        Ok(()) | Err(RecordFault::Already) => Ok(()),
        Err(RecordFault::NoMemory) => Err(NoMemory),
    }
}

fn record_all(records: &mut Records<'_, '_>, places: &[Place]) -> Result<(), NoMemory>
    requires { places.now ≡ places_of records.old.index }
    ensures index { records.new.index ≡ records.old.index }
    ensures full { OnOk result (IsFull records.new) }
{
    for place in places {
        record_too(records, *place)?;
    }
    Ok(())
}

/// The records of all places of an index: those that are missing are recorded now, after the others. The only error is out
/// of memory.
pub fn finish_all<'i, 'a>(
    alloc: Global,
    records: Records<'i, 'a>,
) -> Result<FullRegister<'i, 'a>, NoMemory>
    ensures { IfOk result (λ f. f.index ≡ records.entry.index) }
{
    let records = match records.finish() {
        Ok(full) => return Ok(full),
        Err(Short { records }) => records,
    };
    fill(alloc, records)
}

fn fill<'i, 'a>(alloc: Global, records: Records<'i, 'a>) -> Result<FullRegister<'i, 'a>, NoMemory>
    ensures { IfOk result (λ f. f.index ≡ records.entry.index) }
{
    let mut records = records;
    let places = records.places(alloc)?;
    record_all(&mut records, places.as_slice())?;
    Ok(FullRegister::new(records))
}
