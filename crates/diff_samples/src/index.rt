//! The list of the differences that aren't wider: for each the set that shows it, if one is known, and what the 999 says of it.
ghost use Rattle.std.specs.Prelude.{◌≡◌, ◌++◌, ◌∷◌, [], IfOk, OnOk, codes};
ghost use Rattle.csv_fields.specs.Csv.{field_text, fields_text};

use csv_fields::{append_end, append_field, append_fields};
use hub_kinds::NoMemory;
use std::alloc::Global;

fn append_two(out: &mut Vec<u8>, name: &[u8], lines: &[u8]) -> Result<(), NoMemory>
    ensures { OnOk result (out.new.items ≡ out.old.items ++ fields_text (name.now ∷ lines.now ∷ [])) }
{
    append_fields(out, &[name, lines])
}

/// Adds the row of a difference with this `line`, which the file `name` shows, of which the 999 says `lines`.
pub(crate) fn append_row(
    out: &mut Vec<u8>,
    line: &[u8],
    name: &[u8],
    lines: &[u8],
) -> Result<(), NoMemory>
    ensures { OnOk result (out.new.items ≡ out.old.items
        ++ (field_text line.now ++ (fields_text (name.now ∷ lines.now ∷ []) ++ 13 ∷ 10 ∷ []))) }
{
    append_field(out, line)?;
    append_two(out, name, lines)?;
    append_end(out)
}

/// The list with its titles, before any row.
pub(crate) fn titles(alloc: Global) -> Result<Vec<u8>, NoMemory>
    ensures { IfOk result (λ list. list.items ≡ codes "difference,sample,answer\r\n") }
{
    Ok(Vec::from_slice(alloc, b"difference,sample,answer\r\n")?)
}
