ghost use Rattle.std.specs.Prelude.{◌≡◌, ◌↔◌, ◌⊎◌, ◌++◌, ◌∷◌, [], ℕ, List, true, IfErr, IfOk, OnOk, map};
ghost use Rattle.std.specs.List.{AllZip};
ghost use Rattle.track_read.specs.declared.night.NightTable.{NightTable};
ghost use Rattle.day_command.specs.Export as export;
ghost use Rattle.day_command.specs.Failure.{IsBefore};
ghost use Rattle.day_command.specs.Outcome.{IsExportReport};
ghost use Rattle.day_command.specs.Tables.{IsTableAt};

use crate::failure::Failure;
use crate::tables::table_at;
use hub_kinds::NoMemory;
use night_marks::{NightMark, in_order, unarchived};
use night_review::nights_at;
use night_search::append_unread;
use std::alloc::Global;
use std::rt::Files;
use track_read::{Form, NightTable, append_columns, append_rows};

/// The tables of nights as they are exported.
#[derive(Drop)]
pub(crate) struct Export {
    /// The rows, for standard output.
    pub(crate) text: Vec<u8>,
    /// The tables that weren't read, for standard error.
    pub(crate) unread: Vec<u8>,
    pub(crate) all_read: bool,
}

fn new_export(alloc: Global, form: Form) -> Result<Export, NoMemory>
    ensures { IfOk result (export.IsExport form []) }
{
    let mut text = Vec::new(alloc);
    append_columns(&mut text)?;
    Ok(Export {
        text,
        unread: Vec::new(alloc),
        all_read: true,
    })
}

/// Adds `table` to the export `all`, as `form` says.
fn add_table(
    alloc: Global,
    all: &mut Export,
    form: Form,
    table: &NightTable,
) -> Result<(), NoMemory>
    ensures { OnOk result ((tables : List NightTable) → export.IsExport form tables all.old
        → export.IsExport form (tables ++ table.now ∷ []) all.new) }
{
    let rows = table.state.rows();
    append_rows(alloc, &mut all.text, form, table.night.as_slice(), rows)?;
    append_unread(alloc, &mut all.unread, table)?;
    let is_read = table.state.is_read();
    all.all_read = all.all_read && is_read;
    Ok(())
}

/// Exports the table of each night of `order`, as `form` says. The nights are in the folder at the path `nights`.
fn export_tables<R: Files + AllocGlobal>(
    rt: &R,
    nights: &[u8],
    order: &[&NightMark],
    form: Form,
) -> Result<Export, NoMemory>
    ensures { IfOk result (λ all. (tables : List NightTable)
        × AllZip (IsTableAt nights.now) (map (λ n. n.now) order.now) tables × export.IsExport form tables all) }
{
    let mut all = new_export(rt.alloc(), form)?;
    for i in 0..order.len() {
        let table = table_at(rt, nights, order[i])?;
        add_table(rt.alloc(), &mut all, form, &table)?;
    }
    Ok(all)
}

/// The tables of the nights of the folder at the path `nights`, as they are exported.
pub(crate) fn export_nights<R: Files + AllocGlobal + Clone + Drop>(
    rt: &R,
    nights: &str,
    form: Form,
) -> Result<Export, Failure>
    ensures export { IfOk result (λ all. (status : ℕ) → ((status ≡ 0) ↔ (all.all_read ≡ true))
        → IsExportReport nights.now form all.text.items all.unread.items status) }
    ensures before { IfErr result IsBefore }
{
    let marks = nights_at(rt, nights)?;
    let order = in_order(rt.alloc(), marks.as_slice())?;
    let left = unarchived(rt.alloc(), order.as_slice())?;
    Ok(export_tables(rt, nights.as_bytes(), left.as_slice(), form)?)
}
