ghost use Rattle.std.specs.Prelude.{◌≡◌, ◌++◌, OnOk, option_map};
ghost use Rattle.record_chain.specs.Breaks as breaks;

use crate::breaks::{ChainBreak, OtherNumber, OtherRecord};
use crate::night::ReadNight;
use hub_kinds::{Lent, NoMemory, Text};

fn number_of(before: Option<&ReadNight>) -> u32
    ensures { result ≡ breaks.number_of (option_map (λ night. night.now) before.entry) }
{
    match before {
        None => 0,
        Some(night) => night.record.number,
    }
}

fn name_of<'a>(before: Option<&'a ReadNight>) -> &'a [u8]
    ensures { result.now ≡ breaks.name_of (option_map (λ night. night.now) before.entry) }
{
    match before {
        None => b"",
        Some(night) => night.record.name.as_slice(),
    }
}

/// Whether `named` is the sum of the record of `before`.
fn is_sum(named: &Option<Text>, before: Option<&ReadNight>) -> bool
    ensures { result ≡ breaks.is_sum named.now (breaks.sum_of (option_map (λ night. night.now) before.entry)) }
{
    match (named, before) {
        (None, None) => true,
        (None, Some(_)) | (Some(_), None) => false,
        (Some(named), Some(night)) => named.as_slice() == night.sum.as_slice(),
    }
}

fn add_other_record<'a>(
    found: &mut Vec<ChainBreak<'a>>,
    before: Option<&'a ReadNight>,
    night: &'a ReadNight,
) -> Result<(), NoMemory>
    ensures { OnOk result (found.new.items
        ≡ found.old.items ++ breaks.other_record (option_map (λ b. b.now) before.entry) night.entry.now) }
{
    if !is_sum(&night.record.before, before) {
        found.push(ChainBreak::Record(OtherRecord {
            number: night.record.number,
            before: number_of(before),
        }))?;
    }
    Ok(())
}

/// Adds what `night` breaks after the one before it.
pub(crate) fn add_link_breaks<'a>(
    found: &mut Vec<ChainBreak<'a>>,
    before: Option<&'a ReadNight>,
    night: &'a ReadNight,
) -> Result<(), NoMemory>
    ensures { OnOk result (found.new.items
        ≡ found.old.items ++ breaks.link_breaks (option_map (λ b. b.now) before.entry) night.entry.now) }
{
    if u64::from(night.record.number) == u64::from(number_of(before)) + 1 {
        return add_other_record(found, before, night);
    }
    found.push(ChainBreak::Number(OtherNumber {
        number: night.record.number,
        name: Lent::new(night.record.name.as_slice()),
        before: number_of(before),
        before_name: Lent::new(name_of(before)),
    }))?;
    Ok(())
}
