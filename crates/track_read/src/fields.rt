ghost use Rattle.std.specs.Prelude.{◌≡◌};
ghost use Rattle.csv.specs.Records.{fields_of};
ghost use Rattle.track_read.specs.Table as table;

use csv::ByteRecord;

/// Field `n` of `row`, counted from 0; empty if the row is shorter.
pub fn field(row: &ByteRecord, n: usize) -> &[u8]
    ensures { result.now ≡ table.field (fields_of row.entry.now) n }
{
    match row.get(n) {
        None => b"",
        Some(field) => field,
    }
}
