ghost use Rattle.std.specs.Prelude.{◌≡◌, Some, None, Ok, IfErr, IfOk, IfSome, IsErrOf, map, option_map};
ghost use Rattle.std.specs.IoError.{error_kind};
ghost use Rattle.check_command.specs.Files as files;

use crate::command::Options;
use hub_kinds::{Items, NoMemory, Text};
use std::alloc::Global;
use std::io;
use std::io::Read;
use std::rt::Files;
use system_io::{Opened, open_at, read_whole};

/// A file that was given.
#[derive(Debug, Drop)]
pub struct Given<'a> {
    /// Its path, as it was given.
    pub path: &'a str,
    /// Its bytes, where it can be read.
    pub bytes: Option<Text>,
}

/// The files that were given.
#[derive(Debug, Drop)]
pub struct GivenFiles<'a> {
    /// The guides, in their order.
    pub guides: Items<Given<'a>>,
    pub setup: Option<Given<'a>>,
    pub counters: Option<Given<'a>>,
}

/// Reads the files that these options name.
pub(crate) fn read_files<'a, R: Files + AllocGlobal>(
    rt: &R,
    options: &Options<'a>,
) -> Result<GivenFiles<'a>, NoMemory>
    ensures { IfOk result (λ given. files.paths_of given ≡ files.paths_in options.now) }
{
    let guides = read_guides(rt, options.guides.as_slice())?;
    Ok(GivenFiles {
        guides: Items::from_vec(guides),
        setup: read_some(rt, options.setup)?,
        counters: read_some(rt, options.counters)?,
    })
}

fn read_guides<'a, R: Files + AllocGlobal>(
    rt: &R,
    paths: &[&'a str],
) -> Result<Vec<Given<'a>>, NoMemory>
    ensures { IfOk result (λ given. map files.path_of given.items ≡ map (λ p. p.now) paths.now) }
{
    let mut given = Vec::new(rt.alloc());
    for path in paths {
        given.push(read_file(rt, path)?)?;
    }
    Ok(given)
}

fn read_some<'a, R: Files + AllocGlobal>(
    rt: &R,
    path: Option<&'a str>,
) -> Result<Option<Given<'a>>, NoMemory>
    ensures { IfOk result (λ given. option_map files.path_of given ≡ option_map (λ p. p.now) path.entry) }
{
    match path {
        None => Ok(None),
        Some(path) => Ok(Some(read_file(rt, path)?)),
    }
}

/// Reads the file at `path`.
pub fn read_file<'a, R: Files + AllocGlobal>(rt: &R, path: &'a str) -> Result<Given<'a>, NoMemory>
    ensures { IfOk result (λ given. files.path_of given ≡ path.entry.now) }
{
    given_of(rt.alloc(), path, open_at(rt, path))
}

/// The file at `path` with its bytes, which `opened` gives.
fn given_of<'a, I: Read + Drop>(
    alloc: Global,
    path: &'a str,
    opened: Opened<'a, I>,
) -> Result<Given<'a>, NoMemory>
    requires { opened.path ≡ path.now }
    ensures path { IfOk result (λ given. files.path_of given ≡ path.entry.now) }
    ensures bytes { IfOk opened.entry.answer (λ input. IfOk result (λ given. files.AreBytesOf (I.remaining input) given.bytes)) }
    ensures closed { IfErr opened.entry.answer (λ _. IfOk result (λ given. given.bytes ≡ None)) }
{
    let bytes = bytes_or_none(read_opened(alloc, opened.into_answer()))?;
    Ok(Given { path, bytes })
}

/// All bytes of a file that was opened, or the error with which it couldn't be opened or read.
fn read_opened<I: Read + Drop>(alloc: Global, opened: io::Result<I>) -> io::Result<Vec<u8>>
    ensures bytes { IfOk opened (λ input. IfOk result (λ text. IfSome (I.remaining input) (λ bytes. text.items ≡ bytes))) }
    ensures closed { IfErr opened (λ error. IsErrOf result error) }
{
    match opened {
        Ok(input) => read_whole(alloc, input),
        Err(error) => Err(error),
    }
}

/// None for a file that can't be read; out of memory says nothing of the file.
fn bytes_or_none(read: io::Result<Vec<u8>>) -> Result<Option<Text>, NoMemory>
    ensures bytes { IfOk read (λ bytes. result ≡ Ok (Some bytes.items)) }
    ensures fault { IfErr read (λ error. files.IsMissing (error_kind error) result) }
    ensures none { IfErr read (λ _. IfOk result (λ bytes. bytes ≡ None)) }
{
    match read {
        Ok(bytes) => Ok(Some(Text::from_vec(bytes))),
        Err(error) if error.kind() == io::ErrorKind::OutOfMemory => Err(NoMemory),
        Err(_) => Ok(None),
    }
}
