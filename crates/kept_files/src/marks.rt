ghost use Rattle.std.specs.Prelude.{◌≡◌, ◌∷◌, ◌++◌, ℕ, List, IfOk, [], codes, map};
ghost use Rattle.kept_files.specs.Files as files;
ghost use Rattle.kept_files.specs.Sums as sums;
ghost use Rattle.night_shelf.specs.declared.night.NightFile.{NightFile};

use crate::heading::Heading;
use crate::sums::append_line;
use hub_kinds::{Items, NoMemory, Text, copy_text};
use night_entries::sum_of;
use night_record::SummedFile;
use night_shelf::NightFile;
use std::alloc::Global;

/// A file of these `bytes` with the name `name`.
pub(crate) fn file_of(alloc: Global, name: &str, bytes: Vec<u8>) -> Result<NightFile, NoMemory>
    ensures { IfOk result (λ file. file ≡ files.file name.now bytes.items) }
{
    Ok(NightFile {
        name: copy_text(alloc, name.as_bytes())?,
        bytes: Items::from_vec(bytes),
    })
}

/// The sum of a night's input: the last of `made`, the sums of the files that the night was made of.
pub(crate) fn input_sum(alloc: Global, made: &[SummedFile]) -> Result<Text, NoMemory>
    ensures { IfOk result (λ sum. (of : List NightFile) → made.now ≡ map sums.sum_of of → sum ≡ sums.sum_text (files.input_of of)) }
{
    match made.last() {
        None => sum_of(alloc, b""),
        Some(input) => copy_text(alloc, input.sum.as_slice()),
    }
}

fn input_mark(alloc: Global, sum: &[u8]) -> Result<Vec<u8>, NoMemory>
    ensures { IfOk result (λ text. text.items ≡ sums.line_of (codes "-") sum.now) }
{
    let mut text = Vec::new(alloc);
    append_line(&mut text, b"-", sum)?;
    Ok(text)
}

fn before_mark(alloc: Global, before: &[u8]) -> Result<Vec<u8>, NoMemory>
    ensures { IfOk result (λ text. text.items ≡ before.now ++ 10 ∷ []) }
{
    let mut text = Vec::from_slice(alloc, before)?;
    text.push(b'\n')?;
    Ok(text)
}

/// The files that mark a night: `sum` is the sum of its input.
pub(crate) fn mark_files(
    alloc: Global,
    heading: &Heading<'_>,
    sum: &[u8],
) -> Result<Vec<NightFile>, NoMemory>
    ensures { IfOk result (λ list. (input : List ℕ) → sum.now ≡ sums.sum_text input → list.items ≡ files.mark_files heading.now input) }
{
    let moment = Vec::from_slice(alloc, heading.moment)?;
    let mut list = Vec::new(alloc);
    list.push(file_of(alloc, "from/in.sum", input_mark(alloc, sum)?)?)?;
    list.push(file_of(alloc, "from/at", moment)?)?;
    list.push(file_of(alloc, "from/before", before_mark(alloc, heading.before)?)?)?;
    Ok(list)
}
