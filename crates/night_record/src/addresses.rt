ghost use Rattle.std.specs.Prelude.{◌≡◌, ◌≢◌, ◌++◌, ◌∷◌, ℕ, List, true, IfErr, IfOk, MatchOption, OnOk, decimal, map};
ghost use Rattle.std.specs.List.{list_all};
ghost use Rattle.csv.specs.Records.{fields_of};
ghost use Rattle.csv_fields.specs.Csv as csv;
ghost use Rattle.night_record.specs.Rows.{last_three};
ghost use Rattle.night_record.specs.Tables as tables;
ghost use Rattle.night_record.specs.Values as values;
ghost use Rattle.night_record.specs.declared.addresses.AddressNext.{AddressNext};

use crate::fault::TableFault;
use crate::rows::{FIELDS, append_row, field, rows_of};
use crate::values::{comes_before, is_count, number_in, rest_after};
use csv::ByteRecord;
use hub_kinds::{Counters, Items, NoMemory, Text, copy_text};
use itoa::Buffer;
use std::alloc::Global;

/// The numbers that come next for an address.
#[derive(Debug, Drop)]
pub struct AddressNext {
    /// The qualifier of the address.
    pub qualifier: Text,
    /// The id of the address.
    pub id: Text,
    /// The numbers of the next interchange, group and set that it is sent.
    pub next: Counters,
}

/// The first line of the table.
fn address_columns() -> &'static [u8]
    ensures { result.now ≡ tables.address_columns }
{
    b"qualifier,id,interchange,group,set\r\n"
}

fn append_address_row(out: &mut Vec<u8>, next: &AddressNext) -> Result<(), NoMemory>
    ensures { OnOk result (out.new.items ≡ out.old.items ++ csv.record_text (tables.address_row next.now)) }
{
    let mut interchange = Buffer::new();
    let mut group = Buffer::new();
    let mut set = Buffer::new();
    append_row(
        out,
        &[
            next.qualifier.as_slice(),
            next.id.as_slice(),
            interchange.format(next.next.interchange).as_bytes(),
            group.format(next.next.group).as_bytes(),
            set.format(next.next.set).as_bytes(),
        ],
    )
}

fn append_address_rows(out: &mut Vec<u8>, list: &[AddressNext]) -> Result<(), NoMemory>
    ensures { OnOk result (out.new.items ≡ out.old.items ++ csv.table_text (map tables.address_row list.now)) }
{
    for i in 0..list.len() {
        append_address_row(out, &list[i])?;
    }
    Ok(())
}

/// The qualifier and the id of `next`, with a space between them.
fn address_of(alloc: Global, next: &AddressNext) -> Result<Text, NoMemory>
    ensures { IfOk result (λ address. address ≡ tables.address_of next.now) }
{
    let mut address = Vec::from_slice(alloc, next.qualifier.as_slice())?;
    address.push(b' ')?;
    address.extend_from_slice(next.id.as_slice())?;
    Ok(Items::from_vec(address))
}

fn addresses_of(alloc: Global, list: &[AddressNext]) -> Result<Vec<Text>, NoMemory>
    ensures { IfOk result (λ addresses. addresses.items ≡ map tables.address_of list.now) }
{
    let mut addresses = Vec::new(alloc);
    for i in 0..list.len() {
        addresses.push(address_of(alloc, &list[i])?)?;
    }
    Ok(addresses)
}

/// Whether each of `texts` comes after the one before it, and the first after `first`.
fn rise_after(first: &[u8], texts: &[Text]) -> bool
    ensures { result ≡ values.rise_after first.now texts.now }
{
    let mut last = first;
    for i in 0..texts.len() {
        let text = texts[i].as_slice();
        if !comes_before(last, text) {
            return false;
        }
        last = text;
    }
    true
}

/// Whether `texts` are in the order of bytes, each once.
fn are_rising(texts: &[Text]) -> bool
    ensures { result ≡ values.are_rising texts.now }
{
    match texts {
        [] => true,
        [first, rest @ ..] => rise_after(first.as_slice(), rest),
    }
}

fn are_counts(next: &AddressNext) -> bool
    ensures { result ≡ tables.are_counts next.now.next }
{
    is_count(next.next.interchange) && (is_count(next.next.group) && is_count(next.next.set))
}

fn can_each_count(list: &[AddressNext]) -> bool
    ensures { result ≡ list_all tables.can_count list.now }
{
    list.iter().all(are_counts)
}

fn are_in_order(alloc: Global, list: &[AddressNext]) -> Result<bool, NoMemory>
    ensures { IfOk result (λ are. are ≡ tables.are_in_order list.now) }
{
    let addresses = addresses_of(alloc, list)?;
    Ok(are_rising(addresses.as_slice()))
}

/// Appends the table of `list` to `out`. Errors: a number isn't 1 to 999,999,999; the addresses aren't in the order of bytes, each once; or
/// out of memory.
pub fn append_addresses(
    alloc: Global,
    out: &mut Vec<u8>,
    list: &[AddressNext],
) -> Result<(), TableFault>
    ensures text { OnOk result (out.new.items ≡ out.old.items ++ tables.addresses_text list.now) }
    ensures can_be { OnOk result (tables.are_addresses list.now ≡ true) }
    ensures refused { IfErr result (tables.IsAppendFault list.now) }
{
    if !can_each_count(list) {
        return Err(TableFault::Rows);
    }
    if !are_in_order(alloc, list)? {
        return Err(TableFault::Order);
    }
    out.extend_from_slice(address_columns())?;
    append_address_rows(out, list)?;
    Ok(())
}

fn count_in(text: &[u8]) -> Option<u32>
    ensures { MatchOption result ((n : ℕ) → values.is_count n ≡ true → text.now ≢ decimal n)
        (λ n. (text.now ≡ decimal n) × (values.is_count n ≡ true)) }
{
    match number_in(text) {
        Some(n) if is_count(n) => Some(n),
        Some(_) | None => None,
    }
}

/// The last three fields of `row` as numbers; none if one of them can't be.
fn counts_in(row: &ByteRecord) -> Option<Counters>
    ensures { MatchOption result
        ((next : Counters) → tables.are_counts next ≡ true → last_three (fields_of row.now) ≢ tables.count_fields next)
        (λ next. (last_three (fields_of row.now) ≡ tables.count_fields next) × (tables.are_counts next ≡ true)) }
{
    let Some(interchange) = count_in(field(row, 2)) else {
        return None;
    };
    let Some(group) = count_in(field(row, 3)) else {
        return None;
    };
    let Some(set) = count_in(field(row, 4)) else {
        return None;
    };
    Some(Counters {
        interchange,
        group,
        set,
    })
}

/// The address in `row`; none if it isn't the row of one. The only error is out of memory.
fn address_in(alloc: Global, row: &ByteRecord) -> Result<Option<AddressNext>, NoMemory>
    ensures { IfOk result (λ found. MatchOption found
        ((next : AddressNext) → tables.can_count next ≡ true → fields_of row.now ≢ tables.address_row next)
        (λ next. (fields_of row.now ≡ tables.address_row next) × (tables.can_count next ≡ true))) }
{
    if row.len() != FIELDS {
        return Ok(None);
    }
    let Some(next) = counts_in(row) else {
        return Ok(None);
    };
    Ok(Some(AddressNext {
        qualifier: copy_text(alloc, field(row, 0))?,
        id: copy_text(alloc, field(row, 1))?,
        next,
    }))
}

/// The address of each of `rows`; none if one isn't the row of an address. The only error is out of memory.
fn each_address(alloc: Global, rows: &[ByteRecord]) -> Result<Option<Vec<AddressNext>>, NoMemory>
    ensures { IfOk result (λ found. MatchOption found
        ((list : List AddressNext) → list_all tables.can_count list ≡ true → map fields_of rows.now ≢ map tables.address_row list)
        (λ list. (map fields_of rows.now ≡ map tables.address_row list.items) × (list_all tables.can_count list.items ≡ true))) }
{
    let mut list = Vec::new(alloc);
    for i in 0..rows.len() {
        match address_in(alloc, &rows[i])? {
            Some(next) => list.push(next)?,
            None => return Ok(None),
        }
    }
    Ok(Some(list))
}

/// The addresses whose table is `bytes`. Errors: the first line isn't the names of the columns; the rest isn't rows of addresses with their
/// numbers; the rows aren't in order; or out of memory.
pub fn read_addresses(alloc: Global, bytes: &[u8]) -> Result<Vec<AddressNext>, TableFault>
    ensures list { IfOk result (λ list. (bytes.now ≡ tables.addresses_text list.items) × (tables.are_addresses list.items ≡ true)) }
    ensures refused { IfErr result (tables.IsAddressesFault bytes.now) }
{
    let Some(text) = rest_after(bytes, address_columns()) else {
        return Err(TableFault::Columns);
    };
    let Some(rows) = rows_of(alloc, text)? else {
        return Err(TableFault::Rows);
    };
    let Some(list) = each_address(alloc, rows.as_slice())? else {
        return Err(TableFault::Rows);
    };
    if !are_in_order(alloc, list.as_slice())? {
        return Err(TableFault::Order);
    }
    Ok(list)
}
