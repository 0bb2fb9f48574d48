//! What a night breaks, rule by rule.
ghost use Rattle.std.specs.Prelude.{◌≡◌, ◌++◌, ◌∷◌, ℕ, List, IfOk, OnOk, filter, is_some, map, not, option_map};
ghost use Rattle.hub_ledger.specs.Entries.{fresh_keys};
ghost use Rattle.night_breaches.specs.Breaches as spec;
ghost use Rattle.night_breaches.specs.Known.{known_of, night_before, night_in, row_in};

use crate::breach::{
    Breach, FileFault, LateMoment, MomentBack, NumberBreak, SecondDelivery, WrongFile,
};
use crate::known::{Known, RowOfNight, add_keys, night_with, row_of};
use hub_kinds::{Counters, Lent, NoMemory, Text};
use hub_ledger::{AddressNumbers, FileSum, NightEntry};
use std::alloc::Global;
use std::cmp::Ordering;
use std::collections::BTreeMap;

fn add_second_delivery<'a>(
    found: &mut Vec<Breach<'a>>,
    night: &'a [u8],
    key: &'a [u8],
    earlier: Option<&'a [u8]>,
) -> Result<(), NoMemory>
    ensures { OnOk result (found.new.items
        ≡ found.old.items ++ spec.second_delivery night.entry.now key.entry.now (option_map (λ e. e.now) earlier.entry)) }
{
    if let Some(earlier) = earlier {
        found.push(Breach::DeliveredTwice(SecondDelivery {
            night: Lent::new(night),
            key: Lent::new(key),
            earlier: Lent::new(earlier),
        }))?;
    }
    Ok(())
}

/// The keys of a night that it wasn't asked for again, of which the map `again` has the others.
fn keys_without<'a>(
    alloc: Global,
    again: &BTreeMap<&'a [u8], &'a [u8]>,
    keys: &'a [Text],
) -> Result<Vec<&'a [u8]>, NoMemory>
    ensures { IfOk result (λ fresh. map (λ key. key.now) fresh.items
        ≡ filter (λ key. not (is_some (night_in again.now key))) keys.entry.now) }
{
    let mut fresh = Vec::new(alloc);
    for i in 0..keys.len() {
        let key = keys[i].as_slice();
        if night_with(again, key).is_none() {
            fresh.push(key)?;
        }
    }
    Ok(fresh)
}

/// The keys of the sets that a night delivered, without those that it was asked for again.
fn fresh_keys<'a>(alloc: Global, night: &'a NightEntry) -> Result<Vec<&'a [u8]>, NoMemory>
    ensures { IfOk result (λ keys. map (λ key. key.now) keys.items ≡ fresh_keys night.entry.now) }
{
    let mut again = BTreeMap::new(alloc);
    add_keys(&mut again, night.name.as_slice(), night.again.as_slice())?;
    keys_without(alloc, &again, night.delivered.as_slice())
}

/// Adds the sets of these keys that were delivered before.
fn add_second_deliveries<'a>(
    found: &mut Vec<Breach<'a>>,
    nights: &BTreeMap<&'a [u8], &'a [u8]>,
    night: &'a [u8],
    keys: &[&'a [u8]],
) -> Result<(), NoMemory>
    ensures { OnOk result (found.new.items
        ≡ found.old.items ++ spec.second_deliveries (night_in nights.now) night.entry.now (map (λ key. key.now) keys.now)) }
{
    for i in 0..keys.len() {
        let key = keys[i];
        add_second_delivery(found, night, key, night_with(nights, key))?;
    }
    Ok(())
}

fn same_numbers(a: Counters, b: Counters) -> bool
    ensures { result ≡ spec.same_numbers a b }
{
    a.interchange == b.interchange && (a.group == b.group && a.set == b.set)
}

fn add_number_break<'a>(
    found: &mut Vec<Breach<'a>>,
    night: &'a [u8],
    row: &'a AddressNumbers,
    known: Option<RowOfNight<'a>>,
) -> Result<(), NoMemory>
    ensures { OnOk result (found.new.items
        ≡ found.old.items ++ spec.number_break night.entry.now row.entry.now (option_map known_of known.entry)) }
{
    let Some(known) = known else {
        return Ok(());
    };
    if same_numbers(row.begun, known.row.left) {
        return Ok(());
    }
    found.push(Breach::NumbersBreak(NumberBreak {
        night: Lent::new(night),
        partner: Lent::new(row.partner.as_slice()),
        address: Lent::new(row.address.as_slice()),
        begun: row.begun,
        earlier: Lent::new(known.night.name.as_slice()),
        was: Lent::new(known.row.partner.as_slice()),
        left: known.row.left,
    }))?;
    Ok(())
}

/// Adds the addresses of a night whose numbers don't begin where they were left.
fn add_number_breaks<'a>(
    found: &mut Vec<Breach<'a>>,
    known: &BTreeMap<&'a [u8], RowOfNight<'a>>,
    night: &'a [u8],
    rows: &'a [AddressNumbers],
) -> Result<(), NoMemory>
    ensures { OnOk result (found.new.items
        ≡ found.old.items ++ spec.number_breaks (row_in known.now) night.entry.now rows.entry.now) }
{
    for i in 0..rows.len() {
        let row = &rows[i];
        add_number_break(found, night, row, row_of(known, row.address.as_slice()))?;
    }
    Ok(())
}

/// Why a file isn't what it must be.
fn file_fault(file: &FileSum) -> Option<FileFault>
    ensures { result ≡ spec.file_fault file.now }
{
    if !file.is_given {
        Some(FileFault::OfNoPartner)
    } else if file.listed.as_slice().is_empty() {
        Some(FileFault::NotListed)
    } else if file.listed.as_slice() == file.sum.as_slice() {
        None
    } else {
        Some(FileFault::Changed)
    }
}

fn add_wrong_file<'a>(
    found: &mut Vec<Breach<'a>>,
    night: &'a [u8],
    file: &'a [u8],
    fault: Option<FileFault>,
) -> Result<(), NoMemory>
    ensures { OnOk result (found.new.items ≡ found.old.items ++ spec.wrong_file night.entry.now file.entry.now fault) }
{
    if let Some(fault) = fault {
        found.push(Breach::File(WrongFile {
            night: Lent::new(night),
            file: Lent::new(file),
            fault,
        }))?;
    }
    Ok(())
}

/// Adds the files of a night that aren't what they must be.
fn add_wrong_files<'a>(
    found: &mut Vec<Breach<'a>>,
    night: &'a [u8],
    files: &'a [FileSum],
) -> Result<(), NoMemory>
    ensures { OnOk result (found.new.items ≡ found.old.items ++ spec.wrong_files night.entry.now files.entry.now) }
{
    for i in 0..files.len() {
        let file = &files[i];
        add_wrong_file(found, night, file.name.as_slice(), file_fault(file))?;
    }
    Ok(())
}

fn is_before(a: &[u8], b: &[u8]) -> bool
    ensures { result ≡ spec.is_before a.now b.now }
{
    a.cmp(b) == Ordering::Less
}

/// Adds a moment that is before that of the night before.
fn add_moment_back<'a>(
    found: &mut Vec<Breach<'a>>,
    before: Option<&'a NightEntry>,
    night: &'a NightEntry,
) -> Result<(), NoMemory>
    ensures { OnOk result (found.new.items
        ≡ found.old.items ++ spec.moment_back (night_before before.entry) night.entry.now) }
{
    let Some(before) = before else {
        return Ok(());
    };
    if is_before(night.moment.as_slice(), before.moment.as_slice()) {
        found.push(Breach::MomentBack(MomentBack {
            night: Lent::new(night.name.as_slice()),
            moment: Lent::new(night.moment.as_slice()),
            earlier: Lent::new(before.name.as_slice()),
            was: Lent::new(before.moment.as_slice()),
        }))?;
    }
    Ok(())
}

/// Adds a moment that is after the limit.
fn add_late_moment<'a>(
    found: &mut Vec<Breach<'a>>,
    limit: &[u8],
    night: &'a NightEntry,
) -> Result<(), NoMemory>
    ensures { OnOk result (found.new.items ≡ found.old.items ++ spec.late_moment limit.now night.entry.now) }
{
    if is_before(limit, night.moment.as_slice()) {
        found.push(Breach::LateMoment(LateMoment {
            night: Lent::new(night.name.as_slice()),
            moment: Lent::new(night.moment.as_slice()),
        }))?;
    }
    Ok(())
}

/// Adds what a night breaks, by what is known of those before it.
pub(crate) fn add_breaches<'a>(
    alloc: Global,
    found: &mut Vec<Breach<'a>>,
    known: &Known<'a>,
    limit: &[u8],
    night: &'a NightEntry,
) -> Result<(), NoMemory>
    ensures { OnOk result (found.new.items ≡ found.old.items
        ++ spec.breaches_by (night_in known.now.nights) (row_in known.now.rows) (night_before known.now.before) limit.now night.entry.now) }
{
    let name = night.name.as_slice();
    let keys = fresh_keys(alloc, night)?;
    add_second_deliveries(found, &known.nights, name, keys.as_slice())?;
    add_number_breaks(found, &known.rows, name, night.addresses.as_slice())?;
    add_wrong_files(found, name, night.files.as_slice())?;
    add_moment_back(found, known.before, night)?;
    add_late_moment(found, limit, night)
}
