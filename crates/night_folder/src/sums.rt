ghost use Rattle.std.specs.Prelude.{◌≡◌, ◌++◌, IfOk, IfSome, codes, map, option_map};
ghost use Rattle.std.specs.List.{AllZip};
ghost use Rattle.system_io.specs.Outbox.{path_in};
ghost use Rattle.night_folder.specs.Nights as nights;

use crate::listing::list_at;
use crate::paper::{path_in, read_paper};
use hub_kinds::{Items, NoMemory, Text, copy_text};
use night_entries::{NamedSum, sum_of};
use std::alloc::Global;
use std::rt::Files;
use std::str;

fn sum_or_none(alloc: Global, bytes: Option<&[u8]>) -> Result<Text, NoMemory>
    ensures { IfOk result (λ sum. sum ≡ nights.sum_or_none (option_map (λ b. b.now) bytes.entry)) }
{
    match bytes {
        None => copy_text(alloc, b""),
        Some(bytes) => sum_of(alloc, bytes),
    }
}

/// The sum of the file `name` in `folder`.
fn sum_at<R: Files + AllocGlobal>(rt: &R, folder: &[u8], name: &[u8]) -> Result<NamedSum, NoMemory>
    ensures { IfOk result (nights.IsSumOf folder.now name.now) }
{
    let file = read_paper(rt, folder, name)?;
    Ok(NamedSum {
        name: copy_text(rt.alloc(), name)?,
        sum: sum_or_none(rt.alloc(), file.bytes())?,
    })
}

/// The sums of the files of these names.
fn sums_at<R: Files + AllocGlobal>(
    rt: &R,
    folder: &[u8],
    names: &[Text],
) -> Result<Vec<NamedSum>, NoMemory>
    ensures { IfOk result (λ found. AllZip (nights.IsSumOf folder.now) names.now found.items) }
{
    let mut found = Vec::new(rt.alloc());
    for i in 0..names.len() {
        found.push(sum_at(rt, folder, names[i].as_slice())?)?;
    }
    Ok(found)
}

fn out_name(alloc: Global, name: &[u8]) -> Result<Text, NoMemory>
    ensures { IfOk result (λ text. text ≡ codes "out/" ++ name.now) }
{
    let mut text = Vec::from_slice(alloc, b"out/")?;
    text.extend_from_slice(name)?;
    Ok(Items::from_vec(text))
}

/// The names of the files of which a night has sums, by the names in its folder out/.
fn summed_names(alloc: Global, out: &[Text]) -> Result<Vec<Text>, NoMemory>
    ensures { IfOk result (λ names. names.items ≡ nights.summed_names out.now) }
{
    let mut names = Vec::new(alloc);
    for i in 0..out.len() {
        names.push(out_name(alloc, out[i].as_slice())?)?;
    }
    names.push(copy_text(alloc, b"total")?)?;
    Ok(names)
}

/// The sums of the files that the night in `folder` gave; none if its folder out/ can't be listed.
pub(crate) fn found_sums<R: Files + AllocGlobal + Clone + Drop>(
    rt: &R,
    folder: &[u8],
) -> Result<Option<Items<NamedSum>>, NoMemory>
    ensures { IfOk result (λ found. IfSome found (nights.AreSums folder.now)) }
{
    let path = path_in(rt.alloc(), folder, b"out")?;
    let Ok(text) = str::from_utf8(path.as_slice()) else {
        return Ok(None);
    };
    let out = list_at(rt, text)?;
    let Some(out) = out.names() else {
        return Ok(None);
    };
    let names = summed_names(rt.alloc(), out)?;
    Ok(Some(Items::from_vec(sums_at(rt, folder, names.as_slice())?)))
}
