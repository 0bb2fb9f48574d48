ghost use Rattle.std.specs.Prelude.{◌≡◌, ◌++◌, OnOk, decimal};
ghost use Rattle.gather_command.specs.Lines.{aside_words, byte_words, cause_words, element_words, end_words, gathered_words};
ghost use Rattle.gather_command.specs.Lines.{interchange_words, length_words, line_of_file, outcome_words, separator_words};
ghost use Rattle.gather_command.specs.Lines.{taken_words, written_words};

use crate::outcome::Outcome;
use file_names::{append_delimiter, append_shown};
use gather_files::{Cause, ElementLength, End, Gathered, Separators, Taken};
use hub_kinds::NoMemory;
use itoa::Buffer;

/// Writes the line on a file, from whose first byte on this many bytes are before it in what is gathered.
pub(crate) fn append_line(
    out: &mut Vec<u8>,
    path: &str,
    outcome: Outcome,
    before: u64,
) -> Result<(), NoMemory>
    ensures { OnOk result (out.new.items ≡ out.old.items ++ line_of_file path.now outcome before) }
{
    append_shown(out, path.as_bytes())?;
    append_outcome(out, outcome, before)
}

/// Appends to `out` what became of a file, up to the end of its line. Before its first byte `before` bytes are gathered. The only error is
/// out of memory.
pub fn append_outcome(out: &mut Vec<u8>, outcome: Outcome, before: u64) -> Result<(), NoMemory>
    ensures { OnOk result (out.new.items ≡ out.old.items ++ outcome_words outcome before) }
{
    match outcome {
        Outcome::Read(gathered) => append_gathered(out, gathered, before),
        Outcome::Changed => append(out, ": set aside: it changed while it was read\n"),
        Outcome::NameNotUtf8 => append(out, ": set aside: its name isn't UTF-8\n"),
    }
}

fn append_gathered(out: &mut Vec<u8>, gathered: Gathered, before: u64) -> Result<(), NoMemory>
    ensures { OnOk result (out.new.items ≡ out.old.items ++ gathered_words gathered before) }
{
    match gathered {
        Gathered::Taken(taken) => append_taken(out, taken, before),
        Gathered::SetAside(cause) => append_aside(out, cause),
    }
}

fn append_taken(out: &mut Vec<u8>, taken: Taken, before: u64) -> Result<(), NoMemory>
    ensures { OnOk result (out.new.items ≡ out.old.items ++ taken_words taken before) }
{
    append(out, ": ")?;
    append_interchanges(out, taken.interchanges)?;
    append_bytes(out, taken.len, before, taken.end)
}

fn append_interchanges(out: &mut Vec<u8>, n: u64) -> Result<(), NoMemory>
    ensures { OnOk result (out.new.items ≡ out.old.items ++ interchange_words n) }
{
    append_number(out, n)?;
    append(
        out,
        if n == 1 {
            " interchange, "
        } else {
            " interchanges, "
        },
    )
}

fn append_bytes(out: &mut Vec<u8>, len: u64, before: u64, end: End) -> Result<(), NoMemory>
    ensures { OnOk result (out.new.items ≡ out.old.items ++ byte_words len before end) }
{
    append_number(out, len)?;
    append(out, " bytes at ")?;
    append_number(out, before)?;
    append_end(out, end)
}

fn append_aside(out: &mut Vec<u8>, cause: Cause) -> Result<(), NoMemory>
    ensures { OnOk result (out.new.items ≡ out.old.items ++ aside_words cause) }
{
    append(out, ": set aside: ")?;
    append_cause(out, cause)
}

/// Writes how a file ends, in words, up to the end of its line.
fn append_end(out: &mut Vec<u8>, end: End) -> Result<(), NoMemory>
    ensures { OnOk result (out.new.items ≡ out.old.items ++ end_words end) }
{
    match end {
        End::Whole => append(out, "\n"),
        End::Mended => append(out, ", with the terminator that its end lacked\n"),
        End::CutOff => append(
            out,
            ", truncated: its last interchange has no IEA, and will be refused\n",
        ),
        End::OtherSeparator(separators) => append_separators(out, separators),
        End::CutInHeader => append(out, ", truncated: its last bytes may begin a header\n"),
    }
}

fn append_separators(out: &mut Vec<u8>, separators: Separators) -> Result<(), NoMemory>
    ensures { OnOk result (out.new.items ≡ out.old.items ++ separator_words separators) }
{
    append(out, ", will be refused: its ISA names ")?;
    append_delimiter(out, separators.named)?;
    append_written(out, separators.written)
}

fn append_written(out: &mut Vec<u8>, separator: u8) -> Result<(), NoMemory>
    ensures { OnOk result (out.new.items ≡ out.old.items ++ written_words separator) }
{
    append(out, ", its IEA is written with ")?;
    append_delimiter(out, separator)?;
    append(out, "\n")
}

/// Writes why a file isn't taken, in words, up to the end of its line.
fn append_cause(out: &mut Vec<u8>, cause: Cause) -> Result<(), NoMemory>
    ensures { OnOk result (out.new.items ≡ out.old.items ++ cause_words cause) }
{
    match cause {
        Cause::Empty => append(out, "it is empty\n"),
        Cause::NoHeader => append(out, "it doesn't begin with ISA\n"),
        Cause::Compressed => append(out, "it is compressed\n"),
        Cause::Utf16 => append(out, "it is UTF-16\n"),
        Cause::HeaderLength => append(out, "its ISA isn't a header of 106 bytes\n"),
        Cause::ElementLength(element) => append_element(out, element),
    }
}

fn append_element(out: &mut Vec<u8>, element: ElementLength) -> Result<(), NoMemory>
    ensures { OnOk result (out.new.items ≡ out.old.items ++ element_words element) }
{
    append(
        out,
        if element.element <= 9 {
            "its ISA0"
        } else {
            "its ISA"
        },
    )?;
    append_number(out, element.element)?;
    append_length(out, element)
}

fn append_length(out: &mut Vec<u8>, element: ElementLength) -> Result<(), NoMemory>
    ensures { OnOk result (out.new.items ≡ out.old.items ++ length_words element) }
{
    append(out, " has ")?;
    append_number(out, element.len)?;
    append(
        out,
        if element.len == 1 {
            " byte, not "
        } else {
            " bytes, not "
        },
    )?;
    append_number(out, element.width)?;
    append(out, "\n")
}

pub(crate) fn append(out: &mut Vec<u8>, text: &str) -> Result<(), NoMemory>
    ensures { OnOk result (out.new.items ≡ out.old.items ++ text.now) }
{
    out.extend_from_slice(text.as_bytes())?;
    Ok(())
}

pub(crate) fn append_number(out: &mut Vec<u8>, n: u64) -> Result<(), NoMemory>
    ensures { OnOk result (out.new.items ≡ out.old.items ++ decimal n) }
{
    let mut buffer = Buffer::new();
    out.extend_from_slice(buffer.format(n).as_bytes())?;
    Ok(())
}
