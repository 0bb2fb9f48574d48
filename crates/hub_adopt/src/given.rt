ghost use Rattle.std.specs.Prelude.{◌≡◌, ◌≤◌, ◌++◌, ◌∷◌, [], None, IfOk, OnOk, length};
ghost use Rattle.std.specs.Cmp.Lexicographic.{slice_cmp};
ghost use Rattle.std.specs.List.{AllZip};
ghost use Rattle.std.specs.List.Sorted.{IsPermutation};
ghost use Rattle.std.specs.Ordering.{nat_cmp};
ghost use Rattle.hub_adopt.specs.Given as given;

use crate::refusal::Refusal;
use hub_folder::{Failure, path_in};
use hub_kinds::{NoMemory, Text, copy_text};
use night_folder::{list_at, read_paper};
use night_shelf::NightFile;
use std::alloc::Global;
use std::cmp::Ordering;
use std::rt::Files;
use std::str;

/// The file `name` in the folder at the path `folder`.
fn file_in<R: Files + AllocGlobal>(rt: &R, folder: &[u8], name: &[u8]) -> Result<NightFile, Refusal>
    ensures { IfOk result (given.IsFileIn folder.now name.now) }
{
    let file = read_paper(rt, folder, name)?;
    let Some(bytes) = file.bytes() else {
        return Err(Refusal::Hub(Failure::Unread(copy_text(rt.alloc(), file.path())?)));
    };
    Ok(NightFile {
        name: copy_text(rt.alloc(), name)?,
        bytes: copy_text(rt.alloc(), bytes)?,
    })
}

fn push(files: &mut Vec<NightFile>, file: NightFile) -> Result<(), NoMemory>
    ensures { OnOk result (files.new.items ≡ files.old.items ++ file ∷ []) }
{
    files.push(file)?;
    Ok(())
}

/// The file `name` of the folder out/ in the folder at the path `folder`.
fn out_file<R: Files + AllocGlobal>(
    rt: &R,
    folder: &[u8],
    name: &[u8],
) -> Result<NightFile, Refusal>
    ensures { IfOk result (given.IsOutFile folder.now name.now) }
{
    let mut named = Vec::from_slice(rt.alloc(), b"out/")?;
    named.extend_from_slice(name)?;
    file_in(rt, folder, named.as_slice())
}

/// The files of these names of the folder out/ in the folder at the path `folder`.
fn out_files<R: Files + AllocGlobal>(
    rt: &R,
    folder: &[u8],
    names: &[Text],
) -> Result<Vec<NightFile>, Refusal>
    ensures { IfOk result (λ files. AllZip (given.IsOutFile folder.now) names.now files.items) }
{
    let mut files = Vec::new(rt.alloc());
    for i in 0..names.len() {
        push(&mut files, out_file(rt, folder, names[i].as_slice())?)?;
    }
    Ok(files)
}

/// What the night in the folder at the path `folder` gave: the files of out/, and the total.
pub(crate) fn given_at<R: Files + AllocGlobal + Clone + Drop>(
    rt: &R,
    folder: &[u8],
) -> Result<Vec<NightFile>, Refusal>
    ensures { IfOk result (λ files. given.AreGivenIn folder.now files.items) }
{
    let out = path_in(rt.alloc(), folder, b"out")?;
    let Ok(path) = str::from_utf8(out.as_slice()) else {
        return Err(Refusal::Hub(Failure::Unread(out)));
    };
    let listing = list_at(rt, path)?;
    let Some(names) = listing.names() else {
        return Err(Refusal::Hub(Failure::Unread(copy_text(rt.alloc(), path.as_bytes())?)));
    };
    let mut files = out_files(rt, folder, names)?;
    push(&mut files, file_in(rt, folder, b"total")?)?;
    Ok(files)
}

fn is_given(file: &NightFile) -> bool
    ensures { result ≡ given.is_given file.now }
{
    file.name.as_slice().starts_with(b"out/") || file.name.as_slice() == b"total".as_slice()
}

/// Those of `files` that a night gives.
fn given_among(alloc: Global, files: &[NightFile]) -> Result<Vec<NightFile>, NoMemory>
    ensures { IfOk result (λ found. found.items ≡ given.given_in files.now) }
{
    let mut found = Vec::new(alloc);
    for i in 0..files.len() {
        if is_given(&files[i]) {
            found.push(copy_file(alloc, &files[i])?)?;
        }
    }
    Ok(found)
}

fn by_name(file: &NightFile, other: &NightFile) -> Ordering
    ensures { result ≡ slice_cmp nat_cmp file.now.name other.now.name }
{
    file.name.as_slice().cmp(other.name.as_slice())
}

fn in_order(files: Vec<NightFile>) -> Vec<NightFile>
    ensures { IsPermutation files.items result.items }
{
    let mut files = files;
    files.sort_unstable_by(|file, other| by_name(file, other));
    files
}

/// Those of the files of a night that it gives, the files of out/ and the total, in the order of their names.
pub(crate) fn given_in(alloc: Global, files: &[NightFile]) -> Result<Vec<NightFile>, NoMemory>
    ensures { IfOk result (λ found. IsPermutation (given.given_in files.now) found.items) }
{
    let found = given_among(alloc, files)?;
    Ok(in_order(found))
}

fn copy_file(alloc: Global, file: &NightFile) -> Result<NightFile, NoMemory>
    ensures { IfOk result (λ copy. copy ≡ file.now) }
{
    Ok(NightFile {
        name: copy_text(alloc, file.name.as_slice())?,
        bytes: copy_text(alloc, file.bytes.as_slice())?,
    })
}

fn is_same(a: &NightFile, b: &NightFile) -> bool
    ensures { result ≡ given.is_same a.now b.now }
{
    a.name.as_slice() == b.name.as_slice() && a.bytes.as_slice() == b.bytes.as_slice()
}

/// The name that comes first of the names of two files.
fn first_name<'a>(a: &'a NightFile, b: &'a NightFile) -> &'a [u8] {
    if by_name(a, b) == Ordering::Greater {
        b.name.as_slice()
    } else {
        a.name.as_slice()
    }
}

/// The name of the file after `count` of `files`, if there is one.
fn name_after(files: &[NightFile], count: usize) -> Option<&[u8]>
    ensures { result ≡ None → length files.entry.now ≤ count }
{
    match files.get(count) {
        None => None,
        Some(file) => Some(file.name.as_slice()),
    }
}

/// The name of the first file in which `these` and `those`, both in the order of their names, differ; none if they are the same.
pub(crate) fn first_other<'a>(these: &'a [NightFile], those: &'a [NightFile]) -> Option<&'a [u8]>
    ensures { result ≡ None → these.entry.now ≡ those.entry.now }
{
    for i in 0..these.len() {
        if those.len() <= i {
            return Some(these[i].name.as_slice());
        }
        if !is_same(&these[i], &those[i]) {
            return Some(first_name(&these[i], &those[i]));
        }
    }
    name_after(those, these.len())
}
