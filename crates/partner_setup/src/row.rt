ghost use Rattle.std.specs.Prelude.{◌≡◌, ◌++◌, [], ◌∷◌, IfErr, OnOk, Result};
ghost use Rattle.toml.specs.Data.{Data};
ghost use Rattle.toml.specs.View.{items_view, view};
ghost use Rattle.toml_keys.specs.Refusals.{Refusal};
ghost use Rattle.toml_keys.specs.Answers.{Gives};
ghost use Rattle.partner_setup.specs.SetupFile as file;

use hub_kinds::Items;
use std::alloc::Global;
use toml::Value;
use toml_keys::FileFault;

/// How a row of a list of tables is read.
pub trait RowReading {
    /// The row.
    type Row: Drop;

    /// What data is read as.
    ghost reading: { Self → Data → Result Self.Row Refusal };

    /// Reads a value of the list.
    fn read(&self, alloc: Global, value: &Value) -> Result<Self::Row, FileFault>
        ensures { Gives result (reading self.now (view value.now)) };
}

fn push_row<T: Drop>(rows: &mut Vec<T>, row: T) -> Result<(), FileFault>
    ensures ok { OnOk result (rows.new.items ≡ rows.old.items ++ row ∷ []) }
    ensures err { IfErr result (λ e. e ≡ FileFault.NoMemory) }
{
    match rows.push(row) {
        Ok(()) => Ok(()),
        Err(_) => Err(FileFault::NoMemory),
    }
}

/// The rows of a list of tables, in their order.
pub(crate) fn rows_in<R: RowReading>(
    alloc: Global,
    reading: &R,
    values: &[Value],
) -> Result<Items<R::Row>, FileFault>
    ensures { Gives result (file.rows_in (R.reading reading.now) (items_view values.now)) }
{
    let mut rows = Vec::new(alloc);
    for value in values {
        match reading.read(alloc, value) {
            Ok(row) => push_row(&mut rows, row)?,
            Err(fault) => return Err(fault),
        }
    }
    Ok(Items::from_vec(rows))
}
