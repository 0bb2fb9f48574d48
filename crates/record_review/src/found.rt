ghost use Rattle.std.specs.Prelude.{◌≡◌, IfOk, option_map};
ghost use Rattle.std.specs.List.{AllZip};
ghost use Rattle.night_folder.specs.Nights.{sum_or_none};
ghost use Rattle.record_review.specs.Found as found;

use crate::names::names_of;
use hub_kinds::{NoMemory, Text, copy_text};
use night_entries::sum_of;
use night_folder::read_paper;
use night_record::SummedFile;
use std::alloc::Global;
use std::rt::Files;

fn sum_or_none(alloc: Global, bytes: Option<&[u8]>) -> Result<Text, NoMemory>
    ensures { IfOk result (λ sum. sum ≡ sum_or_none (option_map (λ b. b.now) bytes.entry)) }
{
    match bytes {
        None => copy_text(alloc, b""),
        Some(bytes) => sum_of(alloc, bytes),
    }
}

/// The sum of the file `name` in the folder at the path `night`.
fn sum_at<R: Files + AllocGlobal>(rt: &R, night: &[u8], name: &[u8]) -> Result<SummedFile, NoMemory>
    ensures { IfOk result (found.IsSumOf night.now name.now) }
{
    let file = read_paper(rt, night, name)?;
    Ok(SummedFile {
        name: copy_text(rt.alloc(), name)?,
        sum: sum_or_none(rt.alloc(), file.bytes())?,
    })
}

/// The sums of the files of these names.
fn sums_at<R: Files + AllocGlobal>(
    rt: &R,
    night: &[u8],
    names: &[Text],
) -> Result<Vec<SummedFile>, NoMemory>
    ensures { IfOk result (λ sums. AllZip (found.IsSumOf night.now) names.now sums.items) }
{
    let mut sums = Vec::new(rt.alloc());
    for i in 0..names.len() {
        sums.push(sum_at(rt, night, names[i].as_slice())?)?;
    }
    Ok(sums)
}

/// The files in the folder of a night, which is at the path `night`, and in the folders in it, with their sums.
pub(crate) fn found_at<R: Files + AllocGlobal + Clone + Drop>(
    rt: &R,
    night: &[u8],
) -> Result<Vec<SummedFile>, NoMemory>
    ensures { IfOk result (λ sums. found.AreFound night.now sums.items) }
{
    let names = names_of(rt, night)?;
    sums_at(rt, night, names.as_slice())
}
