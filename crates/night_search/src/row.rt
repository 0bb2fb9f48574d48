ghost use Rattle.std.specs.Prelude.{◌≡◌, ◌++◌, OnOk};
ghost use Rattle.csv.specs.Records.{fields_of};
ghost use Rattle.night_search.specs.Lines as lines;

use crate::append::{append_line, append_parts};
use csv::ByteRecord;
use csv_fields::columns::{DOCUMENT, OUTCOME, RECEIVER, RECEIVER_ISA13, SENDER, ST01, VERDICT};
use hub_kinds::NoMemory;
use std::alloc::Global;
use track_read::field;

fn append_delivered(out: &mut Vec<u8>, row: &ByteRecord) -> Result<(), NoMemory>
    ensures { OnOk result (out.new.items ≡ out.old.items ++ lines.delivered_words (fields_of row.now)) }
{
    let receiver = field(row, RECEIVER);
    let isa13 = field(row, RECEIVER_ISA13);
    append_parts(
        out,
        &[
            b"delivered to ",
            receiver,
            b", ISA13 ",
            isa13,
            b", out/",
            receiver,
            b".box",
        ],
    )
}

fn append_other(out: &mut Vec<u8>, outcome: &[u8], receiver: &[u8]) -> Result<(), NoMemory>
    ensures { OnOk result (out.new.items ≡ out.old.items ++ lines.other_words outcome.now receiver.now) }
{
    match receiver {
        [] => {
            out.extend_from_slice(outcome)?;
            Ok(())
        }
        [..] => append_parts(out, &[outcome, b" for ", receiver]),
    }
}

/// Appends the outcome of `row` to `out`. The only error is out of memory.
pub fn append_outcome(out: &mut Vec<u8>, row: &ByteRecord) -> Result<(), NoMemory>
    ensures { OnOk result (out.new.items ≡ out.old.items ++ lines.outcome_words (fields_of row.now)) }
{
    let outcome = field(row, OUTCOME);
    if outcome == b"delivered".as_slice() {
        append_delivered(out, row)
    } else if outcome == b"rejected".as_slice() {
        append_parts(out, &[b"rejected, verdict ", field(row, VERDICT)])
    } else {
        append_other(out, outcome, field(row, RECEIVER))
    }
}

/// Appends which document of which sender `row` is about.
fn append_set(out: &mut Vec<u8>, night: &[u8], row: &ByteRecord) -> Result<(), NoMemory>
    ensures { OnOk result (out.new.items ≡ out.old.items ++ lines.set_words night.now (fields_of row.now)) }
{
    append_parts(
        out,
        &[
            b"night ",
            night,
            b": ",
            field(row, ST01),
            b" ",
            field(row, DOCUMENT),
            b" from ",
            field(row, SENDER),
            b" ",
        ],
    )
}

/// Appends the line on `row` of the night `night`.
pub(crate) fn append_row(
    alloc: Global,
    out: &mut Vec<u8>,
    night: &[u8],
    row: &ByteRecord,
) -> Result<(), NoMemory>
    ensures { OnOk result (out.new.items ≡ out.old.items ++ lines.row_line night.now (fields_of row.now)) }
{
    let mut words = Vec::new(alloc);
    append_set(&mut words, night, row)?;
    append_outcome(&mut words, row)?;
    append_line(out, words.as_slice())
}
