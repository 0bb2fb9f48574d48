ghost use Rattle.std.specs.Prelude.{◌≡◌, Some, None, Ok, IfErr, IfOk, IfSome, IsOk, map};
ghost use Rattle.std.specs.IoError.{error_kind};
ghost use Rattle.night_command.specs.Failure.{IsMissing};
ghost use Rattle.night_command.specs.SetupFiles.{IsUnread, path_of, paths_of};

use hub_kinds::{Items, NoMemory, Text};
use std::alloc::Global;
use std::io;
use std::io::Read;
use std::marker::Model;
use std::rt::Files;
use system_io::{Opened, open_at, read_whole};

/// A file that was asked for by its path, and its bytes, where it can be read. Only `read_at` makes one.
#[derive(Debug, Drop)]
pub struct FileAt<'a> {
    path: &'a str,
    bytes: Option<Text>,
}

impl<'a> Model for FileAt<'a> {
    ghost use Rattle.night_command.specs.FileAt.{FileValue};

    ghost Value = { FileValue };

    ghost view = { λ f. record { path = f.path.now; bytes = f.bytes } };
}

impl<'a> FileAt<'a> {
    ghost use Rattle.std.specs.Prelude.{◌≡◌};

    /// Its path, as it was given.
    pub fn path(&self) -> &'a str
        ensures { result.now ≡ self.now.path }
    {
        self.path
    }

    /// Its bytes, where it can be read.
    pub fn bytes(&self) -> &Option<Text>
        ensures { result.now ≡ self.now.bytes }
    {
        &self.bytes
    }
}

/// The files of a setup. One that can't be read has no bytes.
#[derive(Debug, Drop)]
pub struct SetupFiles<'a> {
    /// The guides, in the order in which they are given.
    pub guides: Items<FileAt<'a>>,
    /// The setup file.
    pub setup: FileAt<'a>,
    /// The counters file.
    pub counters: FileAt<'a>,
}

/// Reads the files of a setup: those of the guides, of the setup and of the counters.
pub(crate) fn read_files<'a, R: Files + AllocGlobal>(
    rt: &R,
    guides: &[&'a str],
    setup: &'a str,
    counters: &'a str,
) -> Result<SetupFiles<'a>, NoMemory>
    ensures guides { IfOk result (λ files. paths_of files ≡ map (λ g. g.now) guides.now) }
    ensures setup { IfOk result (λ files. path_of files.setup ≡ setup.now) }
    ensures counters { IfOk result (λ files. path_of files.counters ≡ counters.now) }
{
    let guides = read_guides(rt, guides)?;
    Ok(SetupFiles {
        guides: Items::from_vec(guides),
        setup: read_at(rt.alloc(), open_at(rt, setup))?,
        counters: read_at(rt.alloc(), open_at(rt, counters))?,
    })
}

fn read_guides<'a, R: Files + AllocGlobal>(
    rt: &R,
    paths: &[&'a str],
) -> Result<Vec<FileAt<'a>>, NoMemory>
    ensures { IfOk result (λ files. map path_of files.items ≡ map (λ p. p.now) paths.now) }
{
    let mut files = Vec::new(rt.alloc());
    for path in paths {
        let file = read_at(rt.alloc(), open_at(rt, path))?;
        files.push(file)?;
    }
    Ok(files)
}

/// Reads what was opened. A file that can't be opened or read has no bytes; out of memory says nothing of it.
pub fn read_at<'a, F: Read + Drop>(
    alloc: Global,
    opened: Opened<'a, F>,
) -> Result<FileAt<'a>, NoMemory>
    ensures path { IfOk result (λ file. file.path ≡ opened.entry.path) }
    ensures bytes { IfOk opened.entry.answer (λ input. IfOk result (λ file. IfSome file.bytes (λ bytes.
        IfSome (F.remaining input) (λ told. bytes ≡ told)))) }
    ensures unread { IfErr opened.entry.answer (λ error. IsUnread (error_kind error) result) }
{
    let path = opened.path();
    let bytes = bytes_or_none(bytes_of(alloc, opened.into_answer()))?;
    Ok(FileAt { path, bytes })
}

/// The bytes of a file that was opened.
fn bytes_of<F: Read + Drop>(alloc: Global, answer: io::Result<F>) -> io::Result<Vec<u8>>
    ensures bytes { IfOk answer (λ input. IfOk result (λ text. IfSome (F.remaining input) (λ told. text.items ≡ told))) }
    ensures unread { IfErr answer (λ error. IfErr result (λ same. error_kind same ≡ error_kind error)) }
    ensures some { IsOk result → IsOk answer }
{
    match answer {
        Ok(input) => read_whole(alloc, input),
        Err(error) => Err(error),
    }
}

/// None for a file that can't be read; out of memory says nothing of the file.
fn bytes_or_none(read: io::Result<Vec<u8>>) -> Result<Option<Text>, NoMemory>
    ensures bytes { IfOk read (λ bytes. result ≡ Ok (Some bytes.items)) }
    ensures fault { IfErr read (λ error. IsMissing (error_kind error) result) }
{
    match read {
        Ok(bytes) => Ok(Some(Text::from_vec(bytes))),
        Err(error) if error.kind() == io::ErrorKind::OutOfMemory => Err(NoMemory),
        Err(_) => Ok(None),
    }
}
