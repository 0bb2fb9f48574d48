//! What is wrong with a key of a file, in words.
ghost use Rattle.std.specs.Prelude.{◌≡◌, ◌++◌, OnOk, map, option_map};
ghost use Rattle.toml.specs.View.{table_view, view};
ghost use Rattle.key_errors.specs.KeyWords as words;
ghost use Rattle.key_errors.specs.Seen.{seen};

use crate::guide_spot::guide_spot;
use crate::items_words::append_value;
use crate::key_tables::KeyFault;
use crate::spot::{RefusedKey, Spot, first_spot};
use crate::spots::{counters_spots, setup_spots};
use crate::table_words::append_table;
use crate::wanted::{guide_wanted, setup_wanted};
use crate::words::{MISSING, NO_MEMORY, NO_TABLE, NOT_WANTED, REFUSED_GUIDE, UNKNOWN};
use guide_toml::GuideFileFault;
use hub_kinds::NoMemory;
use setup_errors::{Detail, Sentence, append, append_sentence};
use std::alloc::Global;
use toml::{Table, Value};
use toml_keys::{FileFault, value_at};

fn append_wrong(
    alloc: Global,
    out: &mut Vec<u8>,
    key: &[u8],
    wanted: &[u8],
    value: Option<&Value>,
) -> Result<(), NoMemory>
    ensures { OnOk result (out.new.items
        ≡ out.old.items ++ words.wrong_words key.now wanted.now (option_map (λ v. view v.now) value.entry)) }
{
    match value {
        None => append_sentence(
            out,
            Sentence::Two(NOT_WANTED, Detail::Text(key), Detail::Text(wanted)),
        ),
        Some(value) => append_value(alloc, out, key, wanted, value),
    }
}

/// Adds what is wrong with a key, by what is there.
fn append_fault(
    alloc: Global,
    out: &mut Vec<u8>,
    refused: RefusedKey<'_>,
    wanted: &[u8],
    value: Option<&Value>,
) -> Result<(), NoMemory>
    ensures { OnOk result (out.new.items ≡ out.old.items
        ++ words.fault_words refused.entry.why refused.entry.key.now wanted.now (option_map (λ v. view v.now) value.entry)) }
{
    let key = refused.key.as_bytes();
    match refused.why {
        KeyFault::Missing => append_sentence(out, Sentence::One(MISSING, Detail::Text(key))),
        KeyFault::WrongKind => append_wrong(alloc, out, key, wanted, value),
        KeyFault::Unknown => append_sentence(out, Sentence::One(UNKNOWN, Detail::Text(key))),
    }
}

/// Adds where a key is, where that is found, and what is wrong with it.
pub(crate) fn append_spot(
    alloc: Global,
    out: &mut Vec<u8>,
    refused: RefusedKey<'_>,
    wanted: &[u8],
    spot: Option<Spot<'_>>,
) -> Result<(), NoMemory>
    ensures { OnOk result (out.new.items ≡ out.old.items
        ++ words.spot_words refused.entry.why refused.entry.key.now wanted.now (option_map seen spot.entry)) }
{
    match spot {
        None => append_fault(alloc, out, refused, wanted, None),
        Some(spot) => {
            append_table(out, &spot)?;
            append_fault(
                alloc,
                out,
                refused,
                wanted,
                value_at(spot.table, refused.key),
            )
        }
    }
}

fn append_file_key(
    alloc: Global,
    out: &mut Vec<u8>,
    tables: &[Spot<'_>],
    why: KeyFault,
    key: &str,
) -> Result<(), NoMemory>
    ensures { OnOk result (out.new.items ≡ out.old.items ++ words.file_key (map seen tables.now) why key.now) }
{
    let refused = RefusedKey { why, key };
    let wanted = setup_wanted(key.as_bytes());
    match first_spot(alloc, refused, tables) {
        Ok(spot) => append_spot(alloc, out, refused, wanted, spot),
        Err(NoMemory) => Err(NoMemory),
    }
}

/// Appends to `out` what is wrong with a file of these tables. Where memory is refused it says so; that isn't a refusal of the file.
fn append_file_words(
    alloc: Global,
    out: &mut Vec<u8>,
    tables: &[Spot<'_>],
    fault: &FileFault,
) -> Result<(), NoMemory>
    ensures { OnOk result (out.new.items ≡ out.old.items ++ words.file_words (map seen tables.now) fault.now) }
{
    match fault {
        FileFault::NotToml => append(out, NO_TABLE.as_bytes()),
        FileFault::Missing(key) => append_file_key(alloc, out, tables, KeyFault::Missing, key),
        FileFault::WrongKind(key) => append_file_key(alloc, out, tables, KeyFault::WrongKind, key),
        FileFault::Unknown(key) => {
            append_file_key(alloc, out, tables, KeyFault::Unknown, key.as_str())
        }
        FileFault::NoMemory => append(out, NO_MEMORY.as_bytes()),
    }
}

/// Appends to `out` what is wrong with a setup file that writes this table. The only error is out of memory.
pub fn append_setup_key_words(
    alloc: Global,
    out: &mut Vec<u8>,
    top: &Table,
    fault: &FileFault,
) -> Result<(), NoMemory>
    ensures { OnOk result (out.new.items ≡ out.old.items ++ words.setup_key_words (table_view top.now) fault.now) }
{
    let tables = setup_spots(alloc, top)?;
    append_file_words(alloc, out, tables.as_slice(), fault)
}

/// Appends to `out` what is wrong with a counters file that writes this table. The only error is out of memory.
pub fn append_counters_key_words(
    alloc: Global,
    out: &mut Vec<u8>,
    top: &Table,
    fault: &FileFault,
) -> Result<(), NoMemory>
    ensures { OnOk result (out.new.items ≡ out.old.items ++ words.counters_key_words (table_view top.now) fault.now) }
{
    let tables = counters_spots(alloc, top)?;
    append_file_words(alloc, out, tables.as_slice(), fault)
}

fn append_guide_key(
    alloc: Global,
    out: &mut Vec<u8>,
    top: &Table,
    number: u32,
    why: KeyFault,
    key: &str,
) -> Result<(), NoMemory>
    ensures { OnOk result (out.new.items ≡ out.old.items ++ words.guide_key number why key.now (table_view top.now)) }
{
    let refused = RefusedKey { why, key };
    let wanted = guide_wanted(key.as_bytes());
    match guide_spot(alloc, number, refused, top) {
        Ok(spot) => append_spot(alloc, out, refused, wanted, spot),
        Err(NoMemory) => Err(NoMemory),
    }
}

/// Appends to `out` what is wrong with a guide file that writes this table, where a key is refused. The only error is out of memory.
pub fn append_guide_key_words(
    alloc: Global,
    out: &mut Vec<u8>,
    top: &Table,
    fault: &GuideFileFault,
) -> Result<(), NoMemory>
    ensures { OnOk result (out.new.items ≡ out.old.items ++ words.guide_key_words (table_view top.now) fault.now) }
{
    match fault {
        GuideFileFault::NotToml => append(out, NO_TABLE.as_bytes()),
        GuideFileFault::Missing(key, number) => {
            append_guide_key(alloc, out, top, *number, KeyFault::Missing, key)
        }
        GuideFileFault::WrongKind(key, number) => {
            append_guide_key(alloc, out, top, *number, KeyFault::WrongKind, key)
        }
        GuideFileFault::Unknown(key, number) => {
            append_guide_key(alloc, out, top, *number, KeyFault::Unknown, key.as_str())
        }
        GuideFileFault::Guide(_) => append(out, REFUSED_GUIDE.as_bytes()),
        GuideFileFault::NoMemory => append(out, NO_MEMORY.as_bytes()),
    }
}
