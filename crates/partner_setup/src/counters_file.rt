ghost use Rattle.std.specs.Prelude.{◌≡◌, ◌≢◌, ◌↔◌, None, Some, Err};
ghost use Rattle.std.specs.Str.{IsUtf8};
ghost use Rattle.toml.specs.Data.{Members};
ghost use Rattle.toml.specs.View.{table_view, items_view, view};
ghost use Rattle.toml.specs.Parse.{parse_document};
ghost use Rattle.toml_keys.specs.Meanings.{GivesAs};
ghost use Rattle.toml_keys.specs.Tables as tables;
ghost use Rattle.toml_keys.specs.Answers.{Gives, meaning_of};
ghost use Rattle.partner_setup.specs.CountersFile as file;
ghost use Rattle.partner_setup.specs.SetupFile.{known};

use crate::keyed::{count_at, text_at};
use crate::row::{RowReading, rows_in};
use crate::rows::{CounterRow, CounterRows};
use crate::values::{Version, VersionNumber};
use hub_kinds::Counters;
use std::alloc::Global;
use toml::{Table, Value};
use toml_keys::{FileFault, refuse_unknown, required, some_tables_at};

const FILE_KEYS: &[&str] = &["version", "counter"];

/// The keys of a counter in version 1.
const FIRST_KEYS: &[&str] = &["partner", "interchange", "set"];

/// The keys of a counter in version 2.
const SECOND_KEYS: &[&str] = &["partner", "interchange", "group", "set"];

#[tactic(auto, unfolding(crate::specs::CountersFile::first_counter_of))]
fn first_counter_of(alloc: Global, table: &Table) -> Result<CounterRow, FileFault>
    ensures { Gives result (file.first_counter_of (table_view table.now)) }
{
    let partner = text_at(alloc, table, "partner")?;
    let interchange = count_at(alloc, table, "interchange")?;
    let set = count_at(alloc, table, "set")?;
    Ok(CounterRow {
        partner,
        counters: Counters {
            interchange,
            group: 1,
            set,
        },
    })
}

#[tactic(auto, unfolding(crate::specs::CountersFile::second_counter_of))]
fn second_counter_of(alloc: Global, table: &Table) -> Result<CounterRow, FileFault>
    ensures { Gives result (file.second_counter_of (table_view table.now)) }
{
    let partner = text_at(alloc, table, "partner")?;
    let interchange = count_at(alloc, table, "interchange")?;
    let group = count_at(alloc, table, "group")?;
    let set = count_at(alloc, table, "set")?;
    Ok(CounterRow {
        partner,
        counters: Counters {
            interchange,
            group,
            set,
        },
    })
}

fn known_first(alloc: Global, table: &Table) -> Result<CounterRow, FileFault>
    ensures { Gives result (known file.first_keys (table_view table.now) (file.first_counter_of (table_view table.now))) }
{
    refuse_unknown(alloc, table, FIRST_KEYS)?;
    first_counter_of(alloc, table)
}

fn known_second(alloc: Global, table: &Table) -> Result<CounterRow, FileFault>
    ensures { Gives result (known file.second_keys (table_view table.now) (file.second_counter_of (table_view table.now))) }
{
    refuse_unknown(alloc, table, SECOND_KEYS)?;
    second_counter_of(alloc, table)
}

fn counter_of(alloc: Global, version: Version, table: &Table) -> Result<CounterRow, FileFault>
    ensures { Gives result (file.counter_of version (table_view table.now)) }
{
    match version {
        Version::First => known_first(alloc, table),
        Version::Second => known_second(alloc, table),
    }
}

/// How a `counter` is read, by the version of its file.
#[derive(Clone, Copy)]
struct CounterReading {
    version: Version,
}

impl RowReading for CounterReading {
    type Row = CounterRow;

    ghost reading = { λ r. file.counter_in r.version };

    fn read(&self, alloc: Global, value: &Value) -> Result<CounterRow, FileFault> {
        match value {
            Value::Table(table) => counter_of(alloc, self.version, table),
            _ => Err(FileFault::WrongKind("counter")),
        }
    }
}

#[tactic(auto, unfolding(crate::specs::CountersFile::counters_of_table, crate::specs::CountersFile::counters_top))]
fn rows_of(alloc: Global, table: &Table) -> Result<CounterRows, FileFault>
    ensures { Gives result (file.counters_of_table (table_view table.now)) }
{
    refuse_unknown(alloc, table, FILE_KEYS)?;
    let version = required(alloc, table, "version", &VersionNumber)?;
    let rows = some_tables_at(table, "counter")?;
    rows_in(alloc, &CounterReading { version }, rows)
}

/// Reads a counters file. Its bytes are TOML. The first fault of its table is the least key that the top table may not
/// have; then its version, which is 1 or 2; then its list; then the keys of each `counter`, each table's least unknown key
/// first. In version 1 a counter has no key `group`, and its group counter is 1.
pub fn read_counters(alloc: Global, bytes: &[u8]) -> Result<CounterRows, FileFault>
    ensures table { (t : Members) → IsUtf8 bytes.now → parse_document bytes.now ≡ Some t → Gives result (file.counters_of_table t) }
    ensures not_toml { (result ≡ Err FileFault.NotToml)
        ↔ ((result ≢ Err FileFault.NoMemory) × (IsUtf8 bytes.now → parse_document bytes.now ≡ None)) }
{
    let Ok(text) = std::str::from_utf8(bytes) else {
        return Err(FileFault::NotToml);
    };
    match toml::table_from_str(alloc, text) {
        Ok(table) => rows_of(alloc, &table),
        Err(e) if e.is_memory() => Err(FileFault::NoMemory),
        Err(_) => Err(FileFault::NotToml),
    }
}
