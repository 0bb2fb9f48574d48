ghost use Rattle.std.specs.Prelude.{◌≡◌, ◌++◌, ◌∷◌, [], ◌&&◌, not, true, ℕ, List, map, option_map, slice_index_or};
ghost use Rattle.std.specs.Prelude.{IfErr, IfOk, IfSome, OnOk};
ghost use Rattle.std.specs.List.{filter_map, list_all};
ghost use Rattle.std.specs.Option.{option_to_list};
ghost use Rattle.csv.specs.Records.{fields_of};
ghost use Rattle.csv_fields.specs.declared.columns.TheConstants as column;
ghost use Rattle.night_definition.specs.Header.{header_at};
ghost use Rattle.hub_kinds.specs.Numbers.{value_of};
ghost use Rattle.night_entries.specs.Keys as keys;
ghost use Rattle.night_entries.specs.Named.{found_in};
ghost use Rattle.night_entries.specs.ReadFault.{IsTrackFault};
ghost use Rattle.night_entries.specs.Good.{has_byte, has_key, is_offset, is_row};

use crate::fault::{EntryFault, Paper};
use crate::named::{by_name, find};
use csv::ByteRecord;
use csv_fields::columns::{COLUMNS, GS06, OFFSET, OUTCOME, RECEIVER, ST02};
use hub_kinds::{Items, NoMemory, Text, read_number};
use hub_ledger::AddressNumbers;
use std::alloc::Global;
use std::collections::BTreeMap;
use x12_bytes::{Header, read_header};

const TRACK: EntryFault = EntryFault::Unreadable(Paper::Track);

/// Field `n` of a row, counted from 0; empty where there isn't one.
fn cell(row: &ByteRecord, n: usize) -> &[u8]
    ensures { result.now ≡ keys.cell (fields_of row.entry.now) n }
{
    match row.get(n) {
        None => b"",
        Some(cell) => cell,
    }
}

/// The header of the interchange that begins at the offset which a row writes.
fn header_of<'a>(input: &'a [u8], offset: &[u8]) -> Result<Header<'a>, EntryFault>
    ensures header { IfOk result (λ header. header ≡ header_at input.entry.now (value_of offset.now)) }
    ensures good { IfOk result (λ _. is_offset input.entry.now offset.now ≡ true) }
    ensures refused { IfErr result (IsTrackFault (is_offset input.entry.now offset.now)) }
{
    let Some(at) = read_number(offset, 10) else {
        return Err(TRACK);
    };
    match read_header(input, at as usize) {
        None => Err(TRACK),
        Some(header) => Ok(header),
    }
}

/// Appends ISA05 to ISA08 and ISA13.
fn append_interchange(key: &mut Vec<u8>, header: &Header<'_>) -> Result<(), NoMemory>
    ensures { OnOk result (key.new.items ≡ key.old.items ++ keys.interchange_key header.now) }
{
    key.extend_from_slice(header.field(5))?;
    key.extend_from_slice(header.field(6))?;
    key.extend_from_slice(header.field(7))?;
    key.extend_from_slice(header.field(8))?;
    key.extend_from_slice(header.field(13))?;
    Ok(())
}

/// Appends a text, and a byte that it must not have.
fn append_ended(key: &mut Vec<u8>, text: &[u8]) -> Result<(), EntryFault>
    ensures key { OnOk result (key.new.items ≡ key.old.items ++ (text.now ++ 0 ∷ [])) }
    ensures good { OnOk result (not (has_byte 0 text.now) ≡ true) }
    ensures refused { IfErr result (IsTrackFault (not (has_byte 0 text.now))) }
{
    if text.contains(&0) {
        return Err(TRACK);
    }
    key.extend_from_slice(text)?;
    key.push(0)?;
    Ok(())
}

/// The key of a set, by its interchange's header.
fn set_key(
    alloc: Global,
    header: &Header<'_>,
    group: &[u8],
    set: &[u8],
    receiver: &AddressNumbers,
) -> Result<Text, EntryFault>
    ensures key { IfOk result (λ key. key ≡ keys.interchange_key header.now
        ++ (group.now ++ (0 ∷ []) ++ (set.now ++ (0 ∷ []) ++ receiver.now.address))) }
    ensures good { IfOk result (λ _. (not (has_byte 0 group.now) && not (has_byte 0 set.now)) ≡ true) }
    ensures refused { IfErr result (IsTrackFault (not (has_byte 0 group.now) && not (has_byte 0 set.now))) }
{
    let mut key = Vec::new(alloc);
    append_interchange(&mut key, header)?;
    append_ended(&mut key, group)?;
    append_ended(&mut key, set)?;
    key.extend_from_slice(receiver.address.as_slice())?;
    Ok(Items::from_vec(key))
}

/// The key of the set of a row that says delivered.
fn delivered_key<'a>(
    alloc: Global,
    input: &[u8],
    receivers: &BTreeMap<&'a [u8], &'a AddressNumbers>,
    row: &ByteRecord,
) -> Result<Text, EntryFault>
    ensures key { IfOk result (λ key. let cells = fields_of row.now in
        key ≡ keys.set_key (header_at input.now (value_of (keys.cell cells column.OFFSET))) (keys.cell cells column.GS06)
        (keys.cell cells column.ST02) (found_in receivers.now (keys.cell cells column.RECEIVER))) }
    ensures good { IfOk result (λ _. has_key input.now (found_in receivers.now) (fields_of row.now) ≡ true) }
    ensures refused { IfErr result (IsTrackFault (has_key input.now (found_in receivers.now) (fields_of row.now))) }
{
    let Some(receiver) = find(receivers, cell(row, RECEIVER)) else {
        return Err(TRACK);
    };
    let header = header_of(input, cell(row, OFFSET))?;
    set_key(alloc, &header, cell(row, GS06), cell(row, ST02), receiver)
}

/// The key of the set of a row, if the row says delivered.
fn row_key<'a>(
    alloc: Global,
    input: &[u8],
    receivers: &BTreeMap<&'a [u8], &'a AddressNumbers>,
    row: &ByteRecord,
) -> Result<Option<Text>, EntryFault>
    ensures key { IfOk result (λ key. key ≡ keys.row_key input.now (found_in receivers.now) (fields_of row.now)) }
    ensures good { IfOk result (λ _. is_row input.now (found_in receivers.now) (fields_of row.now) ≡ true) }
    ensures refused { IfErr result (IsTrackFault (is_row input.now (found_in receivers.now) (fields_of row.now))) }
{
    if row.len() != COLUMNS {
        return Err(TRACK);
    }
    if cell(row, OUTCOME) == b"delivered".as_slice() {
        Ok(Some(delivered_key(alloc, input, receivers, row)?))
    } else {
        Ok(None)
    }
}

fn push_key(found: &mut Vec<Text>, key: Option<Text>) -> Result<(), NoMemory>
    ensures { OnOk result (found.new.items ≡ found.old.items ++ option_to_list key) }
{
    if let Some(key) = key {
        found.push(key)?;
    }
    Ok(())
}

/// The keys of the sets of rows that say delivered.
fn keys_by<'a>(
    alloc: Global,
    input: &[u8],
    receivers: &BTreeMap<&'a [u8], &'a AddressNumbers>,
    table: &[ByteRecord],
) -> Result<Vec<Text>, EntryFault>
    ensures keys { IfOk result (λ found. found.items
        ≡ filter_map (keys.row_key input.now (found_in receivers.now)) (map fields_of table.now)) }
    ensures good { IfOk result (λ _. list_all (is_row input.now (found_in receivers.now)) (map fields_of table.now) ≡ true) }
    ensures refused { IfErr result (IsTrackFault (list_all (is_row input.now (found_in receivers.now)) (map fields_of table.now))) }
{
    let mut found = Vec::new(alloc);
    for i in 0..table.len() {
        push_key(&mut found, row_key(alloc, input, receivers, &table[i])?)?;
    }
    Ok(found)
}

/// The keys of the sets that a night delivered, by the rows of its table and those of its partners.
pub(crate) fn delivered_keys(
    alloc: Global,
    input: &[u8],
    receivers: &[AddressNumbers],
    table: &[ByteRecord],
) -> Result<Vec<Text>, EntryFault>
    ensures keys { IfOk result (λ found. found.items ≡ keys.delivered_keys input.now receivers.now (map fields_of table.now)) }
    ensures good { IfOk result
        (λ _. list_all (is_row input.now (keys.receiver_named receivers.now)) (map fields_of table.now) ≡ true) }
    ensures refused { IfErr result
        (IsTrackFault (list_all (is_row input.now (keys.receiver_named receivers.now)) (map fields_of table.now))) }
{
    let receivers = by_name(alloc, receivers)?;
    keys_by(alloc, input, &receivers, table)
}
