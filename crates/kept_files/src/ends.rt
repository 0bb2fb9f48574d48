ghost use Rattle.std.specs.Prelude.{◌≡◌, ◌∷◌, ◌++◌, List, IfOk, [], decimal, map};
ghost use Rattle.kept_files.specs.Files as files;
ghost use Rattle.kept_files.specs.Sums as sums;
ghost use Rattle.night_shelf.specs.declared.night.NightFile.{NightFile};

use crate::heading::Heading;
use crate::marks::file_of;
use crate::sums::lines_of;
use hub_kinds::NoMemory;
use itoa::Buffer;
use night_record::SummedFile;
use night_shelf::NightFile;
use std::alloc::Global;

fn status_line(alloc: Global, status: u8) -> Result<Vec<u8>, NoMemory>
    ensures { IfOk result (λ text. text.items ≡ decimal status ++ 10 ∷ []) }
{
    let mut digits = Buffer::new();
    let mut text = Vec::from_slice(alloc, digits.format(status).as_bytes())?;
    text.push(b'\n')?;
    Ok(text)
}

/// The files of the sums of what a night gave, `out`, and of its status.
pub(crate) fn end_files(
    alloc: Global,
    heading: &Heading<'_>,
    out: &[SummedFile],
) -> Result<Vec<NightFile>, NoMemory>
    ensures { IfOk result (λ list. (of : List NightFile) → out.now ≡ map sums.sum_of of → list.items ≡ files.end_files heading.now of) }
{
    let mut list = Vec::new(alloc);
    list.push(file_of(alloc, "sums", lines_of(alloc, out)?)?)?;
    list.push(file_of(alloc, "done", status_line(alloc, heading.status)?)?)?;
    Ok(list)
}
