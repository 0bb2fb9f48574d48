ghost use Rattle.std.specs.Prelude.{◌≡◌, ◌≢◌, ◌↔◌, Ok, None, Some, [], ◌∷◌, ◌++◌, codes, option_map, IfOk, IfErr, OnOk};
ghost use Rattle.std.specs.Str.{IsUtf8};
ghost use Rattle.toml.specs.Data.{Members, no_items};
ghost use Rattle.toml.specs.View.{table_view, items_view, view};
ghost use Rattle.toml.specs.Parse.{parse_document};
ghost use Rattle.guide_tree.specs.Words.{guide_of};
ghost use Rattle.toml_keys.specs.Meanings.{FailsAs};
ghost use Rattle.toml_keys.specs.Tables.{◌>>=◌ as ◌⊳◌};
ghost use Rattle.toml_keys.specs.Tables as tables;
ghost use Rattle.guide_toml.specs.declared.entry.Form.TheVariants as form;
ghost use Rattle.guide_toml.specs.Answers.{Gives, GivesAt, Answers, meaning_of};
ghost use Rattle.guide_toml.specs.Entries.{formed, segment_code_of, element_code_of};
ghost use Rattle.guide_toml.specs.Values as values;
ghost use Rattle.guide_toml.specs.Guides as guides;

use crate::entry::Form;
use crate::fault::GuideFileFault;
use crate::keys::TableKind;
use crate::nodes::nodes_of;
use crate::table::{
    codes_at, count_at, dependency_kind_at, entries_at, flag_at, group_at, refuse_unlisted,
    some_entries_at, some_texts_at, some_word_at, word_at,
};
use guide_tree::{Dependency, Guide, GuideHead, GuideRows, HlRule};
use hub_kinds::{ElementCode, Items, SegmentCode, Text, Texts};
use std::alloc::Global;
use toml::{Table, Value};
use toml_keys::{some_table_at, some_tables_at, tables_at};

/// What a guide is called, and for which sets it is.
struct Purpose {
    name: Text,
    group: Text,
    set: Text,
    version: Text,
}

impl Drop for Purpose {
    fn drop(self) {
        let Purpose {
            name: _,
            group: _,
            set: _,
            version: _,
        } = self;
    }
}

impl Purpose {
    ghost use Rattle.std.specs.Prelude.{◌≡◌};

    /// The head of the guide that is for this.
    fn into_head(
        self,
        convention: Option<Text>,
        dictionary: Texts,
        tolerate_segment: Items<SegmentCode>,
        tolerate_element: Items<ElementCode>,
    ) -> GuideHead
        ensures { result ≡ record {
          name = self.name;
          group = self.group;
          set = self.set;
          version = self.version;
          convention = convention;
          dictionary = dictionary;
          tolerate_segment = tolerate_segment;
          tolerate_element = tolerate_element;
        } }
    {
        let Purpose {
            name,
            group,
            set,
            version,
        } = self;
        GuideHead {
            name,
            group,
            set,
            version,
            convention,
            dictionary,
            tolerate_segment,
            tolerate_element,
        }
    }
}

#[tactic(auto, unfolding(crate::specs::Guides::head_of))]
fn purpose_of(alloc: Global, table: &Table) -> Result<Purpose, GuideFileFault>
    ensures name { IfOk result (λ p. tables.required (tables.word_in 1 20) (codes "name") (table_view table.now) ≡ Ok p.name) }
    ensures group { IfOk result (λ p. tables.required values.group_in (codes "group") (table_view table.now) ≡ Ok p.group) }
    ensures set { IfOk result (λ p. tables.required (tables.word_in 3 3) (codes "set") (table_view table.now) ≡ Ok p.set) }
    ensures version { IfOk result (λ p. tables.required (tables.word_in 1 12) (codes "version") (table_view table.now) ≡ Ok p.version) }
    ensures fault { IfErr result (λ e. FailsAs (meaning_of e) (guides.head_of (table_view table.now))) }
{
    let name = word_at(alloc, table, "name", 1, 20)?;
    let group = group_at(alloc, table, "group")?;
    let set = word_at(alloc, table, "set", 3, 3)?;
    let version = word_at(alloc, table, "version", 1, 12)?;
    Ok(Purpose {
        name,
        group,
        set,
        version,
    })
}

/// The head of a guide of which it is read what it is for.
fn head_for(alloc: Global, table: &Table, purpose: Purpose) -> Result<GuideHead, GuideFileFault>
    ensures { Gives (λ x. x) result
        (tables.optional None (tables.some_word_in 1 35) (codes "convention") (table_view table.now) ⊳ λ convention.
        tables.optional [] (values.texts_in (formed form.SegmentId)) (codes "dictionary") (table_view table.now) ⊳ λ dictionary.
        tables.optional [] (values.texts_in segment_code_of) (codes "tolerate_segment") (table_view table.now) ⊳ λ segments.
        tables.optional [] (values.texts_in element_code_of) (codes "tolerate_element") (table_view table.now) ⊳ λ elements.
        Ok (record {
          name = purpose.name;
          group = purpose.group;
          set = purpose.set;
          version = purpose.version;
          convention = convention;
          dictionary = dictionary;
          tolerate_segment = segments;
          tolerate_element = elements;
        })) }
{
    let convention = some_word_at(alloc, table, "convention", 1, 35)?;
    let dictionary = some_texts_at(alloc, table, "dictionary", Form::SegmentId)?;
    let segments = some_entries_at(alloc, table, "tolerate_segment")?;
    let elements = some_entries_at(alloc, table, "tolerate_element")?;
    Ok(purpose.into_head(convention, dictionary, segments, elements))
}

#[tactic(auto, unfolding(crate::specs::Guides::head_of))]
fn head_of(alloc: Global, table: &Table) -> Result<GuideHead, GuideFileFault>
    ensures { Gives (λ x. x) result (guides.head_of (table_view table.now)) }
{
    let purpose = purpose_of(alloc, table)?;
    head_for(alloc, table, purpose)
}

fn known_head(alloc: Global, table: &Table) -> Result<GuideHead, GuideFileFault>
    ensures { Gives (λ x. x) result (guides.known_keys TableKind.Guide (table_view table.now) (guides.head_of (table_view table.now))) }
{
    refuse_unlisted(alloc, table, TableKind::Guide)?;
    head_of(alloc, table)
}

#[tactic(auto, unfolding(crate::specs::Guides::hl_of))]
fn hl_of(alloc: Global, table: &Table) -> Result<HlRule, GuideFileFault>
    ensures { Gives (λ x. x) result (guides.hl_of (table_view table.now)) }
{
    let pairs = entries_at(alloc, table, "pairs")?;
    let sequential = flag_at(alloc, table, "sequential")?;
    Ok(HlRule { pairs, sequential })
}

fn known_hl(alloc: Global, table: &Table) -> Result<HlRule, GuideFileFault>
    ensures { Gives (λ x. x) result (guides.known_keys TableKind.Hierarchy (table_view table.now) (guides.hl_of (table_view table.now))) }
{
    refuse_unlisted(alloc, table, TableKind::Hierarchy)?;
    hl_of(alloc, table)
}

fn hl_in(alloc: Global, table: Option<&Table>) -> Result<Option<HlRule>, GuideFileFault>
    ensures { Gives (λ x. x) result (guides.hl_in (option_map (λ t. table_view t.now) table.entry)) }
{
    match table {
        None => Ok(None),
        Some(table) => Ok(Some(known_hl(alloc, table)?)),
    }
}

#[tactic(auto, unfolding(crate::specs::Guides::dependency_of))]
fn dependency_of(alloc: Global, table: &Table) -> Result<Dependency, GuideFileFault>
    ensures { Gives (λ x. x) result (guides.dependency_of (table_view table.now)) }
{
    let kind = dependency_kind_at(alloc, table, "kind")?;
    let slot = word_at(alloc, table, "slot", 1, 20)?;
    let at = count_at(alloc, table, "at")?;
    let codes = codes_at(alloc, table, "codes")?;
    let target = word_at(alloc, table, "target", 1, 20)?;
    let element = count_at(alloc, table, "element")?;
    Ok(Dependency {
        kind,
        slot,
        at,
        codes,
        target,
        element,
    })
}

fn known_dependency(alloc: Global, table: &Table) -> Result<Dependency, GuideFileFault>
    ensures { Gives (λ x. x) result
        (guides.known_keys TableKind.Dependency (table_view table.now) (guides.dependency_of (table_view table.now))) }
{
    refuse_unlisted(alloc, table, TableKind::Dependency)?;
    dependency_of(alloc, table)
}

fn dependency_in(alloc: Global, value: &Value) -> Result<Dependency, GuideFileFault>
    ensures { Gives (λ x. x) result (guides.dependency_in (view value.now)) }
{
    match value {
        Value::Table(table) => known_dependency(alloc, table),
        _ => Err(GuideFileFault::WrongKind("depends", 0)),
    }
}

fn push_dependency(rows: &mut Vec<Dependency>, row: Dependency) -> Result<(), GuideFileFault>
    ensures ok { OnOk result (rows.new.items ≡ rows.old.items ++ row ∷ []) }
    ensures err { IfErr result (λ e. e ≡ GuideFileFault.NoMemory) }
{
    match rows.push(row) {
        Ok(()) => Ok(()),
        Err(_) => Err(GuideFileFault::NoMemory),
    }
}

fn dependencies_in(alloc: Global, values: &[Value]) -> Result<Items<Dependency>, GuideFileFault>
    ensures { Gives (λ x. x) result (guides.dependencies_in (items_view values.now)) }
{
    let mut rows = Vec::new(alloc);
    for value in values {
        match dependency_in(alloc, value) {
            Ok(row) => push_dependency(&mut rows, row)?,
            Err(fault) => return Err(fault),
        }
    }
    Ok(Items::from_vec(rows))
}

/// What the top table writes, and the tables of its nodes.
#[derive(Drop)]
struct Top<'a> {
    head: GuideHead,
    hl: Option<HlRule>,
    depends: Items<Dependency>,
    nodes: &'a [Value],
}

#[tactic(auto, unfolding(crate::specs::Guides::guide_top))]
fn top_of<'a>(alloc: Global, table: &'a Table) -> Result<Top<'a>, GuideFileFault>
    ensures { Gives (λ t. (t.head, t.hl, t.depends, items_view t.nodes.now)) result (guides.guide_top (table_view table.entry.now)) }
{
    let head = known_head(alloc, table)?;
    let rule = some_table_at(table, "hl")?;
    let rows = some_tables_at(table, "depends")?;
    let nodes = tables_at(table, "nodes")?;
    let hl = hl_in(alloc, rule)?;
    let depends = dependencies_in(alloc, rows)?;
    Ok(Top {
        head,
        hl,
        depends,
        nodes,
    })
}

#[tactic(auto, using(crate::proofs::Placing::fails_at))]
fn rows_of(alloc: Global, table: &Table) -> Result<GuideRows, GuideFileFault>
    ensures { GivesAt guide_of result (guides.guide_of_table (table_view table.now)) }
{
    let Top {
        head,
        hl,
        depends,
        nodes,
    } = match top_of(alloc, table) {
        Ok(top) => top,
        Err(fault) => return Err(fault.at(0)),
    };
    let mut next = 1;
    let nodes = nodes_of(alloc, nodes, &mut next)?;
    Ok(GuideRows {
        head,
        hl,
        depends,
        nodes,
    })
}

/// Reads the rows that a guide file writes, without their check: the same but for what `Guide::check` refuses.
pub fn read_rows(alloc: Global, bytes: &[u8]) -> Result<GuideRows, GuideFileFault>
    ensures table { (t : Members) → IsUtf8 bytes.now → parse_document bytes.now ≡ Some t
        → GivesAt guide_of result (guides.guide_of_table t) }
    ensures not_toml { (result ≡ Err GuideFileFault.NotToml)
        ↔ ((result ≢ Err GuideFileFault.NoMemory) × (IsUtf8 bytes.now → parse_document bytes.now ≡ None)) }
{
    let Ok(text) = std::str::from_utf8(bytes) else {
        return Err(GuideFileFault::NotToml);
    };
    match toml::table_from_str(alloc, text) {
        Ok(table) => rows_of(alloc, &table),
        Err(e) if e.is_memory() => Err(GuideFileFault::NoMemory),
        Err(_) => Err(GuideFileFault::NotToml),
    }
}

/// Reads a guide file. Its bytes are TOML. The first fault of its table is the least key that the top table may
/// not have; then the keys of the top table in their order; then those of `hl`, of `depends` and of `nodes`, each
/// table's least unknown key first, a node's own keys before its nodes; then what `Guide::check` refuses.
pub fn read_guide(alloc: Global, bytes: &[u8]) -> Result<Guide, GuideFileFault>
    ensures table { (t : Members) → IsUtf8 bytes.now → parse_document bytes.now ≡ Some t → Answers result (guides.guide_of_table t) }
    ensures not_toml { (result ≡ Err GuideFileFault.NotToml)
        ↔ ((result ≢ Err GuideFileFault.NoMemory) × (IsUtf8 bytes.now → parse_document bytes.now ≡ None)) }
{
    let rows = match read_rows(alloc, bytes) {
        Ok(rows) => rows,
        Err(fault) => return Err(fault),
    };
    match Guide::check(rows) {
        Ok(guide) => Ok(guide),
        Err(fault) => Err(GuideFileFault::Guide(fault)),
    }
}
