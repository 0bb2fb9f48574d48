ghost use Rattle.std.specs.Prelude.{◌≡◌, ◌≢◌, ◌<◌, ◌∷◌, [], List, ℕ, true, codes, length, take, IfErr, IfOk, MatchOption};
ghost use Rattle.std.specs.List.{list_all};
ghost use Rattle.csv_fields.specs.Csv.{read};
ghost use Rattle.night_record.specs.Reading as reading;
ghost use Rattle.night_record.specs.declared.fault.Part.TheVariants as part;

use crate::fault::{Part, RecordFault};
use crate::files::read_files;
use crate::record::SummedFile;
use std::alloc::Global;

/// What the lines after the first eight say.
#[derive(Drop)]
pub(crate) struct Parts {
    pub(crate) made_of: Vec<SummedFile>,
    pub(crate) gave: Vec<SummedFile>,
}

/// Which of `lines` is the first empty one.
fn blank_in(lines: &[&[u8]]) -> Option<usize>
    ensures { MatchOption result (list_all reading.is_filled (read lines.now) ≡ true)
        (λ n. (n < length lines.now) × (reading.line (read lines.now) n ≡ [])
        × (list_all reading.is_filled (take n (read lines.now)) ≡ true)) }
{
    for i in 0..lines.len() {
        if lines[i].is_empty() {
            return Some(i);
        }
    }
    None
}

/// The lines after an empty line and the title of the files that a night was made of.
fn after_made_of_title<'a>(lines: &'a [&'a [u8]]) -> Option<&'a [&'a [u8]]>
    ensures { MatchOption result
        ((rest : List (List ℕ)) → read lines.entry.now ≢ [] ∷ codes "[made_of]" ∷ rest)
        (λ rest. read lines.entry.now ≡ [] ∷ codes "[made_of]" ∷ read rest.now) }
{
    match lines {
        [blank, title, rest @ ..] if blank.is_empty() && *title == b"[made_of]".as_slice() => Some(
            rest,
        ),
        _ => None,
    }
}

/// The lines after the title of the files that a night gave.
fn after_gave_title<'a>(lines: &'a [&'a [u8]]) -> Option<&'a [&'a [u8]]>
    ensures { MatchOption result
        ((rest : List (List ℕ)) → read lines.entry.now ≢ codes "[gave]" ∷ rest)
        (λ rest. read lines.entry.now ≡ codes "[gave]" ∷ read rest.now) }
{
    match lines {
        [title, rest @ ..] if *title == b"[gave]".as_slice() => Some(rest),
        _ => None,
    }
}

/// The files that a night was made of, and the lines after the empty line that ends them.
fn read_made_of<'a>(
    alloc: Global,
    lines: &'a [&'a [u8]],
) -> Result<(Vec<SummedFile>, &'a [&'a [u8]]), RecordFault>
    ensures files { IfOk result (λ both. reading.IsMadeOf (read lines.entry.now) both.0.items (read both.1.now)) }
    ensures refused { IfErr result (reading.IsWrongFor part.MadeOf (reading.IsNoMadeOf (read lines.entry.now))) }
{
    let Some(rest) = after_made_of_title(lines) else {
        return Err(RecordFault::Wrong(Part::MadeOf));
    };
    let Some(end) = blank_in(rest) else {
        return Err(RecordFault::Wrong(Part::MadeOf));
    };
    let files = read_files(alloc, &rest[..end], Part::MadeOf)?;
    Ok((files, &rest[end + 1..]))
}

/// The files that a night gave.
fn read_gave(alloc: Global, lines: &[&[u8]]) -> Result<Vec<SummedFile>, RecordFault>
    ensures files { IfOk result (λ files. reading.IsGave (read lines.now) files.items) }
    ensures refused { IfErr result (reading.IsWrongFor part.Gave (reading.IsNoGave (read lines.now))) }
{
    let Some(rest) = after_gave_title(lines) else {
        return Err(RecordFault::Wrong(Part::Gave));
    };
    read_files(alloc, rest, Part::Gave)
}

/// The files in `lines`, which are those after the first eight. Errors: the first part that is wrong; or out of memory.
pub(crate) fn read_parts(alloc: Global, lines: &[&[u8]]) -> Result<Parts, RecordFault>
    ensures parts { IfOk result (λ parts. reading.ArePartsOf (read lines.now) parts.made_of.items parts.gave.items) }
    ensures refused { IfErr result (reading.IsPartsFault (read lines.now)) }
{
    let (made_of, rest) = read_made_of(alloc, lines)?;
    let gave = read_gave(alloc, rest)?;
    Ok(Parts { made_of, gave })
}
