ghost use Rattle.std.specs.Prelude.{◌≡◌, ◌++◌, None, Some, Ok, IfErr, IfOk, IfSome, IsOk};
ghost use Rattle.system_io.specs.Outbox.{path_in};
ghost use Rattle.night_folder.specs.Files as files;

use hub_kinds::{Items, NoMemory, Text, copy_text};
use std::alloc::Global;
use std::io::Read;
use std::marker::Model;
use std::rt::Files;
use std::{io, str};
use system_io::{Opened, open_at, read_whole};

/// A file that was asked for by its path, and its bytes if it can be read. Only `read_paper` and `paper_of` make one.
#[derive(Drop)]
pub struct PaperAt {
    path: Text,
    bytes: Option<Text>,
}

impl Model for PaperAt {
    ghost use Rattle.night_folder.specs.Files.{FileValue};

    ghost Value = { FileValue };

    ghost view = { λ p. record { path = p.path; bytes = p.bytes } };
}

impl PaperAt {
    ghost use Rattle.std.specs.Prelude.{◌≡◌, option_map};

    /// The path of the file.
    pub fn path(&self) -> &[u8]
        ensures { result.now ≡ self.now.path }
    {
        self.path.as_slice()
    }

    /// The bytes of the file, if it can be read.
    pub fn bytes(&self) -> Option<&[u8]>
        ensures { option_map (λ bytes. bytes.now) result ≡ self.now.bytes }
    {
        match &self.bytes {
            None => None,
            Some(bytes) => Some(bytes.as_slice()),
        }
    }

    /// The bytes of the file, or none if it can't be read.
    pub fn bytes_or_none(&self) -> &[u8]
        ensures { result.now ≡ files.bytes_or_none self.now.bytes }
    {
        match &self.bytes {
            None => b"",
            Some(bytes) => bytes.as_slice(),
        }
    }
}

/// The path of a file in a folder.
pub(crate) fn path_in(alloc: Global, folder: &[u8], name: &[u8]) -> Result<Text, NoMemory>
    ensures { IfOk result (λ path. path ≡ path_in folder.now name.now) }
{
    let mut path = Vec::from_slice(alloc, folder)?;
    path.extend_from_slice(b"/")?;
    path.extend_from_slice(name)?;
    Ok(Items::from_vec(path))
}

/// The bytes of a file that was opened.
fn bytes_of<F: Read + Drop>(alloc: Global, answer: io::Result<F>) -> io::Result<Vec<u8>>
    ensures bytes { IfOk answer (λ input. IfOk result (λ text. IfSome (F.remaining input) (λ bytes. text.items ≡ bytes))) }
    ensures some { IsOk result → IsOk answer }
{
    match answer {
        Ok(input) => read_whole(alloc, input),
        Err(error) => Err(error),
    }
}

/// None for a file that can't be read. The only error is out of memory, which says nothing of the file.
fn bytes_or_none(read: io::Result<Vec<u8>>) -> Result<Option<Text>, NoMemory>
    ensures bytes { IfOk read (λ bytes. result ≡ Ok (Some bytes.items)) }
    ensures fault { IfErr read (λ _. IfOk result (λ bytes. bytes ≡ None)) }
{
    match read {
        Ok(bytes) => Ok(Some(Text::from_vec(bytes))),
        Err(error) if error.kind() == io::ErrorKind::OutOfMemory => Err(NoMemory),
        Err(_) => Ok(None),
    }
}

/// Reads the file that `opened` opened. A file that can't be opened or read has no bytes; the only error is out of memory.
pub fn paper_of<F: Read + Drop>(alloc: Global, opened: Opened<'_, F>) -> Result<PaperAt, NoMemory>
    ensures path { IfOk result (λ paper. paper.path ≡ opened.entry.path) }
    ensures bytes { IfOk opened.entry.answer (λ input. IfOk result (λ paper. IfSome paper.bytes (λ bytes.
        IfSome (F.remaining input) (λ given. bytes ≡ given)))) }
    ensures closed { IfErr opened.entry.answer (λ _. IfOk result (λ paper. paper.bytes ≡ None)) }
{
    let path = copy_text(alloc, opened.path().as_bytes())?;
    let bytes = bytes_or_none(bytes_of(alloc, opened.into_answer()))?;
    Ok(PaperAt { path, bytes })
}

/// Reads the file `name` in `folder`. A file that can't be read has no bytes; the only error is out of memory.
pub fn read_paper<R: Files + AllocGlobal>(
    rt: &R,
    folder: &[u8],
    name: &[u8],
) -> Result<PaperAt, NoMemory>
    ensures { IfOk result (λ paper. paper.path ≡ path_in folder.now name.now) }
{
    let path = path_in(rt.alloc(), folder, name)?;
    match str::from_utf8(path.as_slice()) {
        Ok(text) => paper_of(rt.alloc(), open_at(rt, text)),
        Err(_) => Ok(PaperAt {
            path: copy_text(rt.alloc(), path.as_slice())?,
            bytes: None,
        }),
    }
}

/// The text of `bytes` up to the first line feed.
pub fn first_line(bytes: &[u8]) -> &[u8]
    ensures { result.now ≡ files.first_line bytes.now }
{
    let mut end = 0;
    while end < bytes.len() && bytes[end] != b'\n' {
        end += 1;
    }
    &bytes[..end]
}
