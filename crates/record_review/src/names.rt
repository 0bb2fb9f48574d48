ghost use Rattle.std.specs.Prelude.{◌≡◌, ◌++◌, IfOk, OnOk};
ghost use Rattle.std.specs.Str.{bytes_eq};
ghost use Rattle.hub_kinds.specs.Words.{contains_text};
ghost use Rattle.system_io.specs.Outbox as outbox;
ghost use Rattle.record_review.specs.Found as found;

use hub_kinds::{Items, NoMemory, Text, copy_text};
use night_folder::{Listing, list_at};
use std::alloc::Global;
use std::rt::Files;
use std::str;

/// The path of `name` in the folder at the path `folder`.
pub(crate) fn path_in(alloc: Global, folder: &[u8], name: &[u8]) -> Result<Text, NoMemory>
    ensures { IfOk result (λ path. path ≡ outbox.path_in folder.now name.now) }
{
    let mut path = Vec::from_slice(alloc, folder)?;
    path.extend_from_slice(b"/")?;
    path.extend_from_slice(name)?;
    Ok(Items::from_vec(path))
}

fn is_text(name: &[u8], text: &str) -> bool
    ensures { result ≡ bytes_eq text.now name.now }
{
    text.as_bytes() == name
}

/// Whether `name` is that of a folder in a night's folder.
fn is_folder(name: &[u8]) -> bool
    ensures { result ≡ contains_text found.folders name.now }
{
    is_text(name, "from")
        || (is_text(name, "from/guides") || (is_text(name, "from/files") || is_text(name, "out")))
}

fn folder_path(alloc: Global, night: &[u8], folder: &[u8]) -> Result<Text, NoMemory>
    ensures { IfOk result (λ path. path ≡ found.folder_path night.now folder.now) }
{
    match folder {
        [] => copy_text(alloc, night),
        [..] => path_in(alloc, night, folder),
    }
}

fn name_in(alloc: Global, folder: &[u8], name: &[u8]) -> Result<Text, NoMemory>
    ensures { IfOk result (λ text. text ≡ found.name_in folder.now name.now) }
{
    match folder {
        [] => copy_text(alloc, name),
        [..] => path_in(alloc, folder, name),
    }
}

/// The names of files among the names in a folder.
fn file_names(alloc: Global, folder: &[u8], names: &[Text]) -> Result<Vec<Text>, NoMemory>
    ensures { IfOk result (λ files. files.items ≡ found.file_names folder.now names.now) }
{
    let mut files = Vec::new(alloc);
    for i in 0..names.len() {
        let name = name_in(alloc, folder, names[i].as_slice())?;
        if !is_folder(name.as_slice()) {
            files.push(name)?;
        }
    }
    Ok(files)
}

fn names_or_none(listing: &Listing) -> &[Text]
    ensures { result.now ≡ found.names_or_none listing.now.names }
{
    match listing.names() {
        Some(names) => names,
        None => &[],
    }
}

/// The files in a folder of the night at the path `night`.
fn names_at<R: Files + AllocGlobal + Clone + Drop>(
    rt: &R,
    night: &[u8],
    folder: &[u8],
) -> Result<Vec<Text>, NoMemory>
    ensures { IfOk result (λ names. found.AreNamesIn night.now folder.now names.items) }
{
    let path = folder_path(rt.alloc(), night, folder)?;
    let Ok(text) = str::from_utf8(path.as_slice()) else {
        return Ok(Vec::new(rt.alloc()));
    };
    let listing = list_at(rt, text)?;
    file_names(rt.alloc(), folder, names_or_none(&listing))
}

fn append_all(names: &mut Vec<Text>, more: Vec<Text>) -> Result<(), NoMemory>
    ensures { OnOk result (names.new.items ≡ names.old.items ++ more.items) }
{
    for name in more {
        names.push(name)?;
    }
    Ok(())
}

/// The files in the folder of a night, which is at the path `night`, and in the folders in it.
pub(crate) fn names_of<R: Files + AllocGlobal + Clone + Drop>(
    rt: &R,
    night: &[u8],
) -> Result<Vec<Text>, NoMemory>
    ensures { IfOk result (λ names. found.AreNames night.now names.items) }
{
    let mut names = names_at(rt, night, b"")?;
    let from = names_at(rt, night, b"from")?;
    let guides = names_at(rt, night, b"from/guides")?;
    let given = names_at(rt, night, b"from/files")?;
    let out = names_at(rt, night, b"out")?;
    append_all(&mut names, from)?;
    append_all(&mut names, guides)?;
    append_all(&mut names, given)?;
    append_all(&mut names, out)?;
    Ok(names)
}
