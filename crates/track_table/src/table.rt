ghost use Rattle.std.specs.Prelude.{◌≡◌, ◌++◌, IfOk, OnOk, length};
ghost use Rattle.track_table.specs.Cells.{column_names};
ghost use Rattle.csv_fields.specs.Csv.{record_text};
ghost use Rattle.track_table.specs.Rows.{track_text};

use crate::notes::Notes;
use crate::rows::append_all;
use crate::starting::first_cursors;
use crate::tracking::Tracking;
use answered_sets::JudgedInterchange;
use csv_fields::columns::column_line;
use hub_kinds::{Items, NoMemory, Text};
use partner_setup::Setup;
use set_documents::Document;
use std::alloc::Global;

/// Appends the names of the columns to `out`, as a record.
fn append_names(out: &mut Vec<u8>) -> Result<(), NoMemory>
    ensures { OnOk result (out.new.items ≡ out.old.items ++ record_text column_names) }
{
    out.extend_from_slice(column_line())?;
    Ok(())
}

/// The table of a night, by its interchanges and what is kept of their answers. The only error is out of memory.
pub fn track_text(
    alloc: Global,
    setup: &Setup,
    documents: &[Document<'_>],
    interchanges: &[JudgedInterchange<'_, '_>],
    notes: &[Notes],
) -> Result<Text, NoMemory>
    requires { length notes.now ≡ length interchanges.now }
    ensures { IfOk result (λ text. text
        ≡ track_text (record { setup = setup.now; night = notes.now; documents = documents.now }) interchanges.now) }
{
    let by = Tracking {
        alloc,
        setup,
        night: notes,
        documents,
    };
    let mut cursors = first_cursors(&by)?;
    let mut out = Vec::new(alloc);
    append_names(&mut out)?;
    append_all(&mut out, cursors.as_mut_slice(), &by, interchanges)?;
    Ok(Items::from_vec(out))
}
