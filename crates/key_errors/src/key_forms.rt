//! What may be at each key of a file's tables, and which keys must be there.
ghost use Rattle.std.specs.Prelude.{◌≡◌, IfOk, false, is_some, map, if◌then◌else◌};
ghost use Rattle.std.specs.Char.{is_ascii_uppercase};
ghost use Rattle.std.specs.List.{list_all};
ghost use Rattle.std.specs.Option.{option_map_or};
ghost use Rattle.toml.specs.Data.{as_array, as_str};
ghost use Rattle.toml.specs.View.{items_view, table_view, view};
ghost use Rattle.toml_keys.specs.Tables.{are_tables};
ghost use Rattle.guide_toml.specs.Keys.{keys_of as guide_keys_of};
ghost use Rattle.guide_toml.specs.declared.keys.TableKind.TheVariants as guide;
ghost use Rattle.guide_toml.specs.Values.{group_in, is_group};
ghost use Rattle.partner_setup.specs.SetupFile.{receivers_in};
ghost use Rattle.key_errors.specs.KeyForms as forms;

use crate::key_tables::{KeyTable, is_among};
use crate::list_items::{ListItem, first_wrong};
use crate::rows::find_in;
use guide_toml::{AnyText, Count, ListOf, ListedText, Reading, TextFault, Word};
use hub_kinds::NoMemory;
use std::alloc::Global;
use toml::{Table, Value};
use toml_keys::value_at;

/// What may be at a key.
#[derive(Clone, Copy, Debug, PartialEq, Eq)]
pub enum ValueForm {
    Text,
    /// This many to this many letters or digits.
    Word(usize, usize),
    Number,
    Flag,
    Table,
    /// A list of tables.
    Rows,
    /// A list of these.
    Items(ListItem),
    Receivers,
    Usage,
    Version,
    Group,
    DependencyKind,
}

const PICKS: ValueForm = ValueForm::Items(ListItem::Guide(ListedText::Pick));

const ELEMENTS: ValueForm = ValueForm::Items(ListItem::Guide(ListedText::Element));

const CONDITIONS: ValueForm = ValueForm::Items(ListItem::Guide(ListedText::Condition));

const LEVEL_PAIRS: ValueForm = ValueForm::Items(ListItem::Guide(ListedText::LevelPair));

const CODES: ValueForm = ValueForm::Items(ListItem::Guide(ListedText::Code));

const SEGMENT_IDS: ValueForm = ValueForm::Items(ListItem::Guide(ListedText::SegmentId));

const SEGMENT_CODES: ValueForm = ValueForm::Items(ListItem::Guide(ListedText::SegmentCode));

const ELEMENT_CODES: ValueForm = ValueForm::Items(ListItem::Guide(ListedText::ElementCode));

/// Keys of each table, and what may be at each; `form_of` says what may be at its other keys.
pub const SETUP_FORMS: [(&str, ValueForm); 1] = [("hub", ValueForm::Table)];

pub const HUB_FORMS: [(&str, ValueForm); 1] = [("usage", ValueForm::Usage)];

pub const PARTNER_FORMS: [(&str, ValueForm); 2] = [
    ("cap", ValueForm::Number),
    ("guides", ValueForm::Items(ListItem::AnyText)),
];

pub const ROUTE_FORMS: [(&str, ValueForm); 1] = [("to", ValueForm::Receivers)];

pub const COUNTERS_FORMS: [(&str, ValueForm); 1] = [("version", ValueForm::Version)];

pub const COUNTER_FORMS: [(&str, ValueForm); 1] = [("partner", ValueForm::Text)];

pub const GUIDE_FORMS: [(&str, ValueForm); 9] = [
    ("name", ValueForm::Word(1, 20)),
    ("group", ValueForm::Group),
    ("set", ValueForm::Word(3, 3)),
    ("version", ValueForm::Word(1, 12)),
    ("convention", ValueForm::Word(1, 35)),
    ("dictionary", SEGMENT_IDS),
    ("tolerate_segment", SEGMENT_CODES),
    ("tolerate_element", ELEMENT_CODES),
    ("hl", ValueForm::Table),
];

pub const HIERARCHY_FORMS: [(&str, ValueForm); 1] = [("pairs", LEVEL_PAIRS)];

pub const DEPENDENCY_FORMS: [(&str, ValueForm); 4] = [
    ("kind", ValueForm::DependencyKind),
    ("codes", CODES),
    ("slot", ValueForm::Word(1, 20)),
    ("target", ValueForm::Word(1, 20)),
];

pub const NODE_FORMS: [(&str, ValueForm); 7] = [
    ("seg", ValueForm::Text),
    ("loop", ValueForm::Word(1, 4)),
    ("label", ValueForm::Word(1, 20)),
    ("pick", PICKS),
    ("elements", ELEMENTS),
    ("conditions", CONDITIONS),
    ("nodes", ValueForm::Rows),
];

/// Whether a value is read so.
fn reads<R: Reading>(alloc: Global, reading: &R, value: &Value) -> Result<bool, NoMemory>
    ensures { IfOk result (λ yes. yes ≡ is_some (R.reading reading.now (view value.now))) }
{
    match reading.read(alloc, value) {
        Ok(_) => Ok(true),
        Err(TextFault::Malformed) => Ok(false),
        Err(TextFault::NoMemory) => Err(NoMemory),
    }
}

fn is_text(value: &Value) -> bool
    ensures { result ≡ is_some (as_str (view value.now)) }
{
    value.as_str().is_some()
}

fn are_receivers(alloc: Global, value: &Value) -> Result<bool, NoMemory>
    ensures { IfOk result (λ yes. yes ≡ is_some (receivers_in (view value.now))) }
{
    if is_text(value) {
        return Ok(true);
    }
    match ListOf(AnyText).read(alloc, value) {
        Ok(texts) => {
            let count = texts.as_slice().len();
            Ok(1 <= count && count <= 16)
        }
        Err(TextFault::Malformed) => Ok(false),
        Err(TextFault::NoMemory) => Err(NoMemory),
    }
}

fn is_dependency_kind(value: &Value) -> bool
    ensures { result ≡ forms.is_dependency_kind (view value.now) }
{
    match value.as_str() {
        None => false,
        Some(text) => {
            text.as_bytes() == b"need".as_slice() || text.as_bytes() == b"ban".as_slice()
        }
    }
}

fn are_items(alloc: Global, kind: ListItem, value: &Value) -> Result<bool, NoMemory>
    ensures { IfOk result (λ yes. yes ≡ forms.are_items kind (view value.now)) }
{
    match value.as_array() {
        None => Ok(false),
        Some(values) => match first_wrong(alloc, kind, values) {
            Ok(found) => Ok(found.is_none()),
            Err(NoMemory) => Err(NoMemory),
        },
    }
}

fn are_rows(value: &Value) -> bool
    ensures { result ≡ option_map_or are_tables (as_array (view value.now)) false }
{
    match value.as_array() {
        None => false,
        Some(values) => are_tables(values),
    }
}

fn are_tables(values: &[Value]) -> bool
    ensures { result ≡ are_tables (items_view values.now) }
{
    for i in 0..values.len() {
        if values[i].as_table().is_none() {
            return false;
        }
    }
    true
}

fn is_usage(value: &Value) -> bool
    ensures { result ≡ forms.is_usage (view value.now) }
{
    match value.as_str() {
        None => false,
        Some(text) => text.as_bytes() == b"P".as_slice() || text.as_bytes() == b"T".as_slice(),
    }
}

fn is_version(alloc: Global, value: &Value) -> Result<bool, NoMemory>
    ensures { IfOk result (λ yes. yes ≡ forms.is_version (view value.now)) }
{
    match Count.read(alloc, value) {
        Ok(number) => Ok(number == 1 || number == 2),
        Err(TextFault::Malformed) => Ok(false),
        Err(TextFault::NoMemory) => Err(NoMemory),
    }
}

fn are_upper_case(text: &[u8]) -> bool
    ensures { result ≡ list_all is_ascii_uppercase text.now }
{
    text.iter().all(|byte| byte.is_ascii_uppercase())
}

fn is_group(text: &[u8]) -> bool
    ensures { result ≡ is_group text.now }
{
    text.len() == 2 && are_upper_case(text) && !(text == b"FA".as_slice())
}

fn is_group_id(value: &Value) -> bool
    ensures { result ≡ is_some (group_in (view value.now)) }
{
    match value.as_str() {
        None => false,
        Some(text) => is_group(text.as_bytes()),
    }
}

/// Whether a value has a form. The only error is out of memory.
pub(crate) fn stands(alloc: Global, form: ValueForm, value: &Value) -> Result<bool, NoMemory>
    ensures { IfOk result (λ yes. yes ≡ forms.stands form (view value.now)) }
{
    match form {
        ValueForm::Text => Ok(is_text(value)),
        ValueForm::Word(least, most) => reads(alloc, &Word { least, most }, value),
        ValueForm::Number => reads(alloc, &Count, value),
        ValueForm::Flag => Ok(value.as_bool().is_some()),
        ValueForm::Table => Ok(value.as_table().is_some()),
        ValueForm::Rows => Ok(are_rows(value)),
        ValueForm::Items(kind) => are_items(alloc, kind, value),
        ValueForm::Receivers => are_receivers(alloc, value),
        ValueForm::Usage => Ok(is_usage(value)),
        ValueForm::Version => is_version(alloc, value),
        ValueForm::Group => Ok(is_group_id(value)),
        ValueForm::DependencyKind => Ok(is_dependency_kind(value)),
    }
}

/// What may be at a key of a table.
pub(crate) fn form_of(kind: KeyTable, key: &[u8]) -> ValueForm
    ensures { result ≡ forms.form_of kind key.now }
{
    match kind {
        KeyTable::Setup => find_in(&SETUP_FORMS, key).unwrap_or(ValueForm::Rows),
        KeyTable::Hub => find_in(&HUB_FORMS, key).unwrap_or(ValueForm::Text),
        KeyTable::Partner => find_in(&PARTNER_FORMS, key).unwrap_or(ValueForm::Text),
        KeyTable::Route => find_in(&ROUTE_FORMS, key).unwrap_or(ValueForm::Text),
        KeyTable::Counters => find_in(&COUNTERS_FORMS, key).unwrap_or(ValueForm::Rows),
        KeyTable::Counter => find_in(&COUNTER_FORMS, key).unwrap_or(ValueForm::Number),
        KeyTable::Guide => find_in(&GUIDE_FORMS, key).unwrap_or(ValueForm::Rows),
        KeyTable::Hierarchy => find_in(&HIERARCHY_FORMS, key).unwrap_or(ValueForm::Flag),
        KeyTable::Dependency => find_in(&DEPENDENCY_FORMS, key).unwrap_or(ValueForm::Number),
        KeyTable::Node => find_in(&NODE_FORMS, key).unwrap_or(ValueForm::Number),
    }
}

/// Whether a key of a table is optional.
pub(crate) fn is_free(kind: KeyTable, key: &[u8]) -> bool
    ensures { result ≡ forms.is_free kind key.now }
{
    match kind {
        KeyTable::Counters => key == b"counter".as_slice(),
        KeyTable::Counter => key == b"group".as_slice(),
        KeyTable::Guide => is_among(
            &[
                "convention",
                "dictionary",
                "tolerate_segment",
                "tolerate_element",
                "hl",
                "depends",
            ],
            key,
        ),
        KeyTable::Node => is_among(&["label", "pick", "conditions"], key),
        KeyTable::Setup
        | KeyTable::Hub
        | KeyTable::Partner
        | KeyTable::Route
        | KeyTable::Hierarchy
        | KeyTable::Dependency => false,
    }
}

/// Whether a node's table is that of a loop.
fn is_loop(table: &Table) -> bool
    ensures { result ≡ forms.is_loop (table_view table.now) }
{
    value_at(table, "loop").is_some() && value_at(table, "seg").is_none()
}

fn node_keys(is_loop: bool) -> &'static [&'static str]
    ensures { map (λ key. key.now) result.now ≡ (if is_loop then guide_keys_of guide.Loop else guide_keys_of guide.Segment) }
{
    if is_loop {
        &["loop", "min", "max", "nodes"]
    } else {
        &[
            "seg",
            "min",
            "max",
            "label",
            "pick",
            "elements",
            "conditions",
        ]
    }
}

/// The keys that a table may have.
pub(crate) fn own_keys(kind: KeyTable, table: &Table) -> &'static [&'static str]
    ensures { map (λ key. key.now) result.now ≡ forms.own_keys kind (table_view table.now) }
{
    match kind {
        KeyTable::Node => node_keys(is_loop(table)),
        _ => kind.keys(),
    }
}
