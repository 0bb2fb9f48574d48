//! The list of the samples that break a rule: for each file what the 999 says of it.
ghost use Rattle.std.specs.Prelude.{◌≡◌, ◌++◌, ◌∷◌, [], IfOk, OnOk, codes};
ghost use Rattle.csv_fields.specs.Csv.{field_text, fields_text};

use csv_fields::{append_end, append_field, append_fields};
use hub_kinds::NoMemory;
use std::alloc::Global;

fn append_lines(out: &mut Vec<u8>, lines: &[u8]) -> Result<(), NoMemory>
    ensures { OnOk result (out.new.items ≡ out.old.items ++ fields_text (lines.now ∷ [])) }
{
    append_fields(out, &[lines])
}

/// Adds the row of a file with this `name`, of which the 999 says `lines`.
pub(crate) fn append_row(out: &mut Vec<u8>, name: &[u8], lines: &[u8]) -> Result<(), NoMemory>
    ensures { OnOk result (out.new.items ≡ out.old.items
        ++ (field_text name.now ++ (fields_text (lines.now ∷ []) ++ 13 ∷ 10 ∷ []))) }
{
    append_field(out, name)?;
    append_lines(out, lines)?;
    append_end(out)
}

/// The list with its titles, before any row.
pub(crate) fn titles(alloc: Global) -> Result<Vec<u8>, NoMemory>
    ensures { IfOk result (λ list. list.items ≡ codes "sample,answer\r\n") }
{
    Ok(Vec::from_slice(alloc, b"sample,answer\r\n")?)
}
