ghost use Rattle.std.specs.Prelude.{◌≡◌, IfErr, IfOk, map};
ghost use Rattle.csv.specs.Reading.{AreRecords, default_config, strip_bom};
ghost use Rattle.csv.specs.Records.{fields_of};
ghost use Rattle.csv.specs.declared.parser.State.TheVariants as st;
ghost use Rattle.night_entries.specs.declared.fault.EntryFault.TheVariants as fault;

use crate::fault::EntryFault;
use csv::{ByteRecord, ReaderBuilder};
use std::alloc::Global;

/// Every record of a table. The only error is out of memory: rows of any length are read.
pub(crate) fn records_of(alloc: Global, text: &[u8]) -> Result<Vec<ByteRecord>, EntryFault>
    ensures records { IfOk result (λ v. AreRecords default_config st.StartRecord (strip_bom text.now) (map fields_of v.items)) }
    ensures memory { IfErr result (λ found. found ≡ fault.Memory) }
{
    let rdr = ReaderBuilder::new()
        .has_headers(false)
        .flexible(true)
        .from_reader(alloc, text);
    let mut rows = Vec::new(alloc);
    for row in rdr.into_byte_records() {
        rows.push(row?)?;
    }
    Ok(rows)
}
