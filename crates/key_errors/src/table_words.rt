ghost use Rattle.std.specs.Prelude.{◌≡◌, ◌++◌, OnOk, [], option_and_then, option_map};
ghost use Rattle.std.specs.List.{list_all};
ghost use Rattle.toml.specs.Data.{as_str, get_member};
ghost use Rattle.toml.specs.View.{table_view};
ghost use Rattle.key_errors.specs.KeyWords as words;
ghost use Rattle.key_errors.specs.Shown as shown;

use crate::key_tables::KeyTable;
use crate::shown::is_control;
use crate::spot::Spot;
use crate::words::{COUNTER_ROW, DEPENDENCY, HIERARCHY, HUB, NODE, PARTNER, ROUTE};
use hub_kinds::{NoMemory, is_alphanumeric};
use setup_errors::{Sentence, append_sentence, in_place};
use toml::Table;
use toml_keys::value_at;

fn can_be_seen(text: &[u8]) -> bool
    ensures { result ≡ list_all shown.is_seen text.now }
{
    text.iter().all(|byte| !is_control(*byte))
}

/// The text at a key, where there is one.
fn text_at<'t>(table: &'t Table, key: &str) -> Option<&'t [u8]>
    ensures { option_map (λ s. s.now) result ≡ option_and_then as_str (get_member key.now (table_view table.entry.now)) }
{
    match value_at(table, key) {
        None => None,
        Some(value) => match value.as_str() {
            None => None,
            Some(text) => Some(text.as_bytes()),
        },
    }
}

fn name_at<'t>(table: &'t Table, key: &str) -> &'t [u8]
    ensures { result.now ≡ words.name_at key.now (table_view table.entry.now) }
{
    match text_at(table, key) {
        Some(text) if can_be_seen(text) => text,
        _ => &[],
    }
}

fn id_at<'t>(table: &'t Table, key: &str) -> &'t [u8]
    ensures { result.now ≡ words.id_at key.now (table_view table.entry.now) }
{
    match text_at(table, key) {
        Some(text) if is_alphanumeric(text, 1, 4) => text,
        _ => &[],
    }
}

/// What a node is called: its segment, or its loop.
fn node_name<'t>(table: &'t Table) -> &'t [u8]
    ensures { result.now ≡ words.node_name (table_view table.entry.now) }
{
    let segment = id_at(table, "seg");
    if segment.is_empty() {
        id_at(table, "loop")
    } else {
        segment
    }
}

/// Adds the table in which a key is, before what is said of the key.
pub(crate) fn append_table(out: &mut Vec<u8>, spot: &Spot<'_>) -> Result<(), NoMemory>
    ensures { OnOk result (out.new.items ≡ out.old.items
        ++ words.table_words spot.now.kind spot.now.number (table_view spot.now.table.now)) }
{
    let number = spot.number;
    let table = spot.table;
    let place = match spot.kind {
        KeyTable::Setup | KeyTable::Counters | KeyTable::Guide => return Ok(()),
        KeyTable::Hub => Sentence::Plain(HUB),
        KeyTable::Hierarchy => Sentence::Plain(HIERARCHY),
        KeyTable::Partner => in_place(PARTNER, number, name_at(table, "name")),
        KeyTable::Route => in_place(ROUTE, number, name_at(table, "code")),
        KeyTable::Counter => in_place(COUNTER_ROW, number, name_at(table, "partner")),
        KeyTable::Dependency => in_place(DEPENDENCY, number, &[]),
        KeyTable::Node => in_place(NODE, number, node_name(table)),
    };
    append_sentence(out, place)
}
