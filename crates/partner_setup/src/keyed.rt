ghost use Rattle.std.specs.Prelude.{◌≡◌};
ghost use Rattle.toml.specs.Data.{as_str};
ghost use Rattle.toml.specs.View.{table_view};
ghost use Rattle.toml_keys.specs.Tables as tables;
ghost use Rattle.toml_keys.specs.Answers.{Gives};

use hub_kinds::Text;
use std::alloc::Global;
use toml::Table;
use toml_keys::{AnyText, Count, FileFault, required};

/// The text at a key.
pub(crate) fn text_at(alloc: Global, table: &Table, key: &'static str) -> Result<Text, FileFault>
    ensures { Gives result (tables.required as_str key.now (table_view table.now)) }
{
    required(alloc, table, key, &AnyText)
}

/// The number of 0 to 4,294,967,295 at a key.
pub(crate) fn count_at(alloc: Global, table: &Table, key: &'static str) -> Result<u32, FileFault>
    ensures { Gives result (tables.required tables.count_of_data key.now (table_view table.now)) }
{
    required(alloc, table, key, &Count)
}
