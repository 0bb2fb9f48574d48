ghost use Rattle.std.specs.Prelude.{◌≡◌, ◌≢◌, ◌↔◌, None, Some, Ok, Err, ◌∷◌, ◌++◌, [], codes, IfOk, IfErr, OnOk};
ghost use Rattle.std.specs.Str.{IsUtf8};
ghost use Rattle.toml.specs.Data.{Members, as_str};
ghost use Rattle.toml.specs.View.{table_view, items_view, view};
ghost use Rattle.toml.specs.Parse.{parse_document};
ghost use Rattle.toml_keys.specs.Meanings.{GivesAs, FailsAs};
ghost use Rattle.toml_keys.specs.Tables.{◌>>=◌ as ◌⊳◌};
ghost use Rattle.toml_keys.specs.Tables as tables;
ghost use Rattle.toml_keys.specs.Answers.{Gives, meaning_of};
ghost use Rattle.partner_setup.specs.SetupFile as file;

use crate::keyed::{count_at, text_at};
use crate::receivers::Receivers;
use crate::row::{RowReading, rows_in};
use crate::rows::{HubRow, PartnerRow, RouteRow, SetupRows};
use crate::values::UsageText;
use hub_kinds::{Text, Texts};
use std::alloc::Global;
use toml::{Table, Value};
use toml_keys::{
    AnyText, FileFault, ListOf, refuse_unknown, required, some_tables_at, table_at, tables_at,
};

const TOP_KEYS: &[&str] = &["hub", "partner", "route"];

const HUB_KEYS: &[&str] = &["qualifier", "id", "code", "usage"];

const PARTNER_KEYS: &[&str] = &[
    "name",
    "qualifier",
    "id",
    "code",
    "element",
    "component",
    "repetition",
    "terminator",
    "cap",
    "guides",
];

const ROUTE_KEYS: &[&str] = &["code", "to"];

#[tactic(auto, unfolding(crate::specs::SetupFile::hub_of))]
fn hub_of(alloc: Global, table: &Table) -> Result<HubRow, FileFault>
    ensures { Gives result (file.hub_of (table_view table.now)) }
{
    let qualifier = text_at(alloc, table, "qualifier")?;
    let id = text_at(alloc, table, "id")?;
    let code = text_at(alloc, table, "code")?;
    let usage = required(alloc, table, "usage", &UsageText)?;
    Ok(HubRow {
        qualifier,
        id,
        code,
        usage,
    })
}

fn known_hub(alloc: Global, table: &Table) -> Result<HubRow, FileFault>
    ensures { Gives result (file.known file.hub_keys (table_view table.now) (file.hub_of (table_view table.now))) }
{
    refuse_unknown(alloc, table, HUB_KEYS)?;
    hub_of(alloc, table)
}

fn guides_at(alloc: Global, table: &Table, key: &'static str) -> Result<Texts, FileFault>
    ensures { Gives result (tables.required (tables.list_in as_str) key.now (table_view table.now)) }
{
    required(alloc, table, key, &ListOf(AnyText))
}

/// How a partner is named, in files and where it sends.
struct Names {
    name: Text,
    qualifier: Text,
    id: Text,
    code: Text,
}

impl Drop for Names {
    fn drop(self) {
        let Names {
            name: _,
            qualifier: _,
            id: _,
            code: _,
        } = self;
    }
}

/// What a partner is written to with.
#[derive(Drop)]
struct Marks {
    element: Text,
    component: Text,
    repetition: Text,
    terminator: Text,
}

impl Names {
    ghost use Rattle.std.specs.Prelude.{◌≡◌};

    /// The row of the partner with these names.
    fn into_row(self, marks: Marks, cap: u32, guides: Texts) -> PartnerRow
        ensures { result ≡ record {
          name = self.name;
          qualifier = self.qualifier;
          id = self.id;
          code = self.code;
          element = marks.element;
          component = marks.component;
          repetition = marks.repetition;
          terminator = marks.terminator;
          cap = cap;
          guides = guides;
        } }
    {
        let Names {
            name,
            qualifier,
            id,
            code,
        } = self;
        PartnerRow {
            name,
            qualifier,
            id,
            code,
            element: marks.element,
            component: marks.component,
            repetition: marks.repetition,
            terminator: marks.terminator,
            cap,
            guides,
        }
    }
}

#[tactic(auto, unfolding(crate::specs::SetupFile::partner_of))]
fn names_of(alloc: Global, table: &Table) -> Result<Names, FileFault>
    ensures name { IfOk result (λ n. tables.required as_str (codes "name") (table_view table.now) ≡ Ok n.name) }
    ensures qualifier { IfOk result (λ n. tables.required as_str (codes "qualifier") (table_view table.now) ≡ Ok n.qualifier) }
    ensures id { IfOk result (λ n. tables.required as_str (codes "id") (table_view table.now) ≡ Ok n.id) }
    ensures code { IfOk result (λ n. tables.required as_str (codes "code") (table_view table.now) ≡ Ok n.code) }
    ensures fault { IfErr result (λ e. FailsAs (meaning_of e) (file.partner_of (table_view table.now))) }
{
    let name = text_at(alloc, table, "name")?;
    let qualifier = text_at(alloc, table, "qualifier")?;
    let id = text_at(alloc, table, "id")?;
    let code = text_at(alloc, table, "code")?;
    Ok(Names {
        name,
        qualifier,
        id,
        code,
    })
}

/// The row of a partner of which the names are read.
fn named_partner(alloc: Global, table: &Table, names: Names) -> Result<PartnerRow, FileFault>
    ensures { Gives result
        (tables.required as_str (codes "element") (table_view table.now) ⊳ λ element.
        tables.required as_str (codes "component") (table_view table.now) ⊳ λ component.
        tables.required as_str (codes "repetition") (table_view table.now) ⊳ λ repetition.
        tables.required as_str (codes "terminator") (table_view table.now) ⊳ λ terminator.
        tables.required tables.count_of_data (codes "cap") (table_view table.now) ⊳ λ cap.
        tables.required (tables.list_in as_str) (codes "guides") (table_view table.now) ⊳ λ guides.
        Ok (record {
          name = names.name;
          qualifier = names.qualifier;
          id = names.id;
          code = names.code;
          element = element;
          component = component;
          repetition = repetition;
          terminator = terminator;
          cap = cap;
          guides = guides;
        })) }
{
    let element = text_at(alloc, table, "element")?;
    let component = text_at(alloc, table, "component")?;
    let repetition = text_at(alloc, table, "repetition")?;
    let terminator = text_at(alloc, table, "terminator")?;
    let marks = Marks {
        element,
        component,
        repetition,
        terminator,
    };
    let cap = count_at(alloc, table, "cap")?;
    let guides = guides_at(alloc, table, "guides")?;
    Ok(names.into_row(marks, cap, guides))
}

#[tactic(auto, unfolding(crate::specs::SetupFile::partner_of))]
fn partner_of(alloc: Global, table: &Table) -> Result<PartnerRow, FileFault>
    ensures { Gives result (file.partner_of (table_view table.now)) }
{
    let names = names_of(alloc, table)?;
    named_partner(alloc, table, names)
}

fn known_partner(alloc: Global, table: &Table) -> Result<PartnerRow, FileFault>
    ensures { Gives result (file.known file.partner_keys (table_view table.now) (file.partner_of (table_view table.now))) }
{
    refuse_unknown(alloc, table, PARTNER_KEYS)?;
    partner_of(alloc, table)
}

#[tactic(auto, unfolding(crate::specs::SetupFile::route_of))]
fn route_of(alloc: Global, table: &Table) -> Result<RouteRow, FileFault>
    ensures { Gives result (file.route_of (table_view table.now)) }
{
    let code = text_at(alloc, table, "code")?;
    let to = required(alloc, table, "to", &Receivers)?;
    Ok(RouteRow { code, to })
}

fn known_route(alloc: Global, table: &Table) -> Result<RouteRow, FileFault>
    ensures { Gives result (file.known file.route_keys (table_view table.now) (file.route_of (table_view table.now))) }
{
    refuse_unknown(alloc, table, ROUTE_KEYS)?;
    route_of(alloc, table)
}

/// How a `partner` is read.
#[derive(Clone, Copy)]
struct PartnerReading;

impl RowReading for PartnerReading {
    type Row = PartnerRow;

    ghost reading = { λ _. file.partner_in };

    fn read(&self, alloc: Global, value: &Value) -> Result<PartnerRow, FileFault> {
        match value {
            Value::Table(table) => known_partner(alloc, table),
            _ => Err(FileFault::WrongKind("partner")),
        }
    }
}

/// How a `route` is read.
#[derive(Clone, Copy)]
struct RouteReading;

impl RowReading for RouteReading {
    type Row = RouteRow;

    ghost reading = { λ _. file.route_in };

    fn read(&self, alloc: Global, value: &Value) -> Result<RouteRow, FileFault> {
        match value {
            Value::Table(table) => known_route(alloc, table),
            _ => Err(FileFault::WrongKind("route")),
        }
    }
}

#[tactic(auto, unfolding(crate::specs::SetupFile::setup_of_table, crate::specs::SetupFile::top_of))]
fn rows_of(alloc: Global, table: &Table) -> Result<SetupRows, FileFault>
    ensures { Gives result (file.setup_of_table (table_view table.now)) }
{
    refuse_unknown(alloc, table, TOP_KEYS)?;
    let hub = table_at(table, "hub")?;
    let partners = tables_at(table, "partner")?;
    let routes = some_tables_at(table, "route")?;
    let hub = known_hub(alloc, hub)?;
    let partners = rows_in(alloc, &PartnerReading, partners)?;
    let routes = rows_in(alloc, &RouteReading, routes)?;
    Ok(SetupRows {
        hub,
        partners,
        routes,
    })
}

/// Reads a setup file. Its bytes are TOML. The first fault of its table is the least key that the top table may not
/// have; then its keys in their order; then those of `hub`, of each `partner` and of each `route`, each table's least
/// unknown key first.
pub fn read_setup(alloc: Global, bytes: &[u8]) -> Result<SetupRows, FileFault>
    ensures table { (t : Members) → IsUtf8 bytes.now → parse_document bytes.now ≡ Some t → Gives result (file.setup_of_table t) }
    ensures not_toml { (result ≡ Err FileFault.NotToml)
        ↔ ((result ≢ Err FileFault.NoMemory) × (IsUtf8 bytes.now → parse_document bytes.now ≡ None)) }
{
    let Ok(text) = std::str::from_utf8(bytes) else {
        return Err(FileFault::NotToml);
    };
    match toml::table_from_str(alloc, text) {
        Ok(table) => rows_of(alloc, &table),
        Err(e) if e.is_memory() => Err(FileFault::NoMemory),
        Err(_) => Err(FileFault::NotToml),
    }
}
