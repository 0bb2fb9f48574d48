ghost use Rattle.std.specs.Prelude.{◌≡◌, ◌++◌, ◌∷◌, [], IfOk, OnOk, map, option_map};
ghost use Rattle.std.specs.List.{filter_map};
ghost use Rattle.csv.specs.Records.{fields_of};
ghost use Rattle.night_page.specs.Causes as causes;
ghost use Rattle.night_page.specs.Names.{texts_of};

use crate::name::{Name, names_in_order};
use crate::rows::{has_outcome, is_refused, words_of};
use csv::ByteRecord;
use csv_fields::columns::{BYTE, FAULT, GS03, RECEIVER};
use hub_kinds::{NoMemory, Text};
use std::alloc::Global;
use track_read::field;

fn is_unknown_sender(row: &ByteRecord) -> bool
    ensures { result ≡ causes.is_unknown_sender (fields_of row.now) }
{
    is_refused(row) && field(row, FAULT) == b"8".as_slice()
}

fn no_route(alloc: Global, row: &ByteRecord) -> Result<Vec<u8>, NoMemory>
    ensures { IfOk result (λ words. words.items ≡ causes.no_route (fields_of row.now)) }
{
    words_of(
        alloc,
        &[
            b"No route leads from GS03 ",
            field(row, GS03),
            b": add a route, and run these sets again",
        ],
    )
}

fn delimiter_used(alloc: Global, row: &ByteRecord) -> Result<Vec<u8>, NoMemory>
    ensures { IfOk result (λ words. words.items ≡ causes.delimiter_used (fields_of row.now)) }
{
    words_of(
        alloc,
        &[
            b"The delimiter ",
            field(row, BYTE),
            b" of ",
            field(row, RECEIVER),
            b" occurs in a set: choose another one, or ask the sender",
        ],
    )
}

fn unknown_sender(alloc: Global) -> Result<Vec<u8>, NoMemory>
    ensures { IfOk result (λ words. words.items ≡ causes.unknown_sender) }
{
    Ok(Vec::from_slice(
        alloc,
        b"No partner has this ISA05 and ISA06: add the partner, or ask who sends this",
    )?)
}

/// What there is to do because of `row`, if anything.
fn cause_words(alloc: Global, row: &ByteRecord) -> Result<Option<Vec<u8>>, NoMemory>
    ensures { IfOk result (λ cause. option_map (λ words. words.items) cause ≡ causes.cause_of (fields_of row.now)) }
{
    if has_outcome(row, b"held route") {
        Ok(Some(no_route(alloc, row)?))
    } else if has_outcome(row, b"held delimiter") {
        Ok(Some(delimiter_used(alloc, row)?))
    } else if is_unknown_sender(row) {
        Ok(Some(unknown_sender(alloc)?))
    } else {
        Ok(None)
    }
}

/// Whether there is `cause` to do something because of `row`.
pub(crate) fn has_cause(alloc: Global, cause: &[u8], row: &ByteRecord) -> Result<bool, NoMemory>
    ensures { IfOk result (λ has. has ≡ causes.has_cause cause.now (fields_of row.now)) }
{
    match cause_words(alloc, row)? {
        None => Ok(false),
        Some(words) => Ok(words.as_slice() == cause),
    }
}

fn push_cause(alloc: Global, found: &mut Vec<Name>, row: &ByteRecord) -> Result<(), NoMemory>
    ensures { OnOk result (texts_of found.new.items ≡ texts_of found.old.items ++ filter_map causes.cause_of (fields_of row.now ∷ [])) }
{
    if let Some(words) = cause_words(alloc, row)? {
        found.push(Name {
            text: Text::from_vec(words),
        })?;
    }
    Ok(())
}

fn causes_found(alloc: Global, rows: &[ByteRecord]) -> Result<Vec<Name>, NoMemory>
    ensures { IfOk result (λ found. texts_of found.items ≡ filter_map causes.cause_of (map fields_of rows.now)) }
{
    let mut found = Vec::new(alloc);
    for i in 0..rows.len() {
        push_cause(alloc, &mut found, &rows[i])?;
    }
    Ok(found)
}

/// The causes of what there is to do because of `rows`, each once, in the order of bytes.
pub(crate) fn causes_of(alloc: Global, rows: &[ByteRecord]) -> Result<Vec<Name>, NoMemory>
    ensures { IfOk result (λ found. causes.AreCauses (map fields_of rows.now) found.items) }
{
    Ok(names_in_order(causes_found(alloc, rows)?))
}
