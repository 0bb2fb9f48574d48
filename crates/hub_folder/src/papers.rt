ghost use Rattle.std.specs.Prelude.{◌≡◌, ◌++◌, ◌∷◌, [], IfErr, IfOk, OnOk, codes, false, filter};
ghost use Rattle.std.specs.List.{AllZip};
ghost use Rattle.std.specs.String.{string_vec};
ghost use Rattle.system_io.specs.Outbox.{path_in};
ghost use Rattle.night_folder.specs.Marks.{IsAbsent};
ghost use Rattle.hub_folder.specs.Failure.{IsBefore};
ghost use Rattle.hub_folder.specs.Papers as papers;

use crate::failure::Failure;
use hub_kinds::{Items, NoMemory, Text, copy_text};
use night_folder::{PaperAt, list_at, read_paper};
use night_shelf::NightFile;
use std::alloc::Global;
use std::rt::Files;
use std::{io, str};
use system_io::{Presence, look_at};

/// The files of a hub.
#[derive(Drop)]
pub struct HubPapers {
    pub setup: PaperAt,
    /// The guides, in the order of the bytes of their names.
    pub guides: Items<NightFile>,
    /// Where partners begin to whom no night has sent.
    pub first: PaperAt,
}

/// The path of `name` in `folder`.
pub fn path_in(alloc: Global, folder: &[u8], name: &[u8]) -> Result<Text, NoMemory>
    ensures { IfOk result (λ path. path ≡ path_in folder.now name.now) }
{
    let mut path = Vec::from_slice(alloc, folder)?;
    path.extend_from_slice(b"/")?;
    path.extend_from_slice(name)?;
    Ok(Items::from_vec(path))
}

/// The path of `name` in `folder` as text. Errors: the path isn't UTF-8; or out of memory.
pub fn path_text(alloc: Global, folder: &str, name: &[u8]) -> io::Result<String>
    ensures { IfOk result (λ path. (string_vec path).items ≡ path_in folder.now name.now) }
{
    let mut path = Vec::new(alloc);
    path.extend_from_slice(folder.as_bytes())?;
    path.push(b'/')?;
    path.extend_from_slice(name)?;
    match String::from_utf8(path) {
        Ok(path) => Ok(path),
        Err(_) => Err(io::Error::from(io::ErrorKind::InvalidInput)),
    }
}

fn is_guide(name: &[u8]) -> bool
    ensures { result ≡ papers.is_guide name.now }
{
    name.ends_with(b".toml") && !name.starts_with(b".")
}

/// The names of guides among `names`.
fn guide_names(alloc: Global, names: &[Text]) -> Result<Vec<Text>, NoMemory>
    ensures { IfOk result (λ guides. guides.items ≡ filter papers.is_guide names.now) }
{
    let mut guides = Vec::new(alloc);
    for i in 0..names.len() {
        if is_guide(names[i].as_slice()) {
            guides.push(copy_text(alloc, names[i].as_slice())?)?;
        }
    }
    Ok(guides)
}

fn guide_at<R: Files + AllocGlobal>(
    rt: &R,
    folder: &[u8],
    name: &[u8],
) -> Result<NightFile, Failure>
    ensures guide { IfOk result (papers.IsGuideAt folder.now name.now) }
    ensures before { IfErr result IsBefore }
{
    let file = read_paper(rt, folder, name)?;
    let Some(bytes) = file.bytes() else {
        return Err(Failure::Unread(copy_text(rt.alloc(), file.path())?));
    };
    Ok(NightFile {
        name: copy_text(rt.alloc(), name)?,
        bytes: copy_text(rt.alloc(), bytes)?,
    })
}

fn push(guides: &mut Vec<NightFile>, guide: NightFile) -> Result<(), NoMemory>
    ensures { OnOk result (guides.new.items ≡ guides.old.items ++ guide ∷ []) }
{
    guides.push(guide)?;
    Ok(())
}

fn read_guides<R: Files + AllocGlobal>(
    rt: &R,
    folder: &[u8],
    names: &[Text],
) -> Result<Vec<NightFile>, Failure>
    ensures guides { IfOk result (λ guides. AllZip (papers.IsGuideAt folder.now) names.now guides.items) }
    ensures before { IfErr result IsBefore }
{
    let mut guides = Vec::new(rt.alloc());
    for i in 0..names.len() {
        push(&mut guides, guide_at(rt, folder, names[i].as_slice())?)?;
    }
    Ok(guides)
}

/// The guides in the folder at the path `folder`.
fn guides_at<R: Files + AllocGlobal + Clone + Drop>(
    rt: &R,
    folder: Text,
) -> Result<Vec<NightFile>, Failure>
    ensures guides { IfOk result (λ guides. papers.AreGuidesAt folder guides.items) }
    ensures before { IfErr result IsBefore }
{
    let Ok(path) = str::from_utf8(folder.as_slice()) else {
        return Err(Failure::Unread(folder));
    };
    let listing = list_at(rt, path)?;
    let Some(names) = listing.names() else {
        return Err(Failure::Unread(copy_text(rt.alloc(), folder.as_slice())?));
    };
    let names = guide_names(rt.alloc(), names)?;
    read_guides(rt, folder.as_slice(), names.as_slice())
}

/// Whether something may be at `path`.
fn is_there<R: Files>(rt: &R, path: &[u8]) -> bool
    ensures { result ≡ false → IsAbsent path.now }
{
    match str::from_utf8(path) {
        Err(_) => true,
        Ok(text) => match look_at(rt, text).presence() {
            Presence::Nothing(_) => false,
            Presence::Something | Presence::Unknown(_) => true,
        },
    }
}

/// Reads the first counters, which may be absent: a file that is there and can't be read is a failure.
fn first_at<R: Files + AllocGlobal>(rt: &R, hub: &[u8]) -> Result<PaperAt, Failure>
    ensures at { IfOk result (λ first. first.path ≡ path_in hub.now (codes "counters.toml")) }
    ensures read { IfOk result (λ first. papers.IsReadOrAbsent first.path first.bytes) }
    ensures before { IfErr result IsBefore }
{
    let first = read_paper(rt, hub, b"counters.toml")?;
    if first.bytes().is_none() && is_there(rt, first.path()) {
        return Err(Failure::Unread(copy_text(rt.alloc(), first.path())?));
    }
    Ok(first)
}

fn setup_at<R: Files + AllocGlobal>(rt: &R, hub: &[u8]) -> Result<PaperAt, Failure>
    ensures at { IfOk result (λ setup. setup.path ≡ path_in hub.now (codes "setup.toml")) }
    ensures read { IfOk result (λ setup. papers.IsReadFile setup.bytes) }
    ensures before { IfErr result IsBefore }
{
    let setup = read_paper(rt, hub, b"setup.toml")?;
    match setup.bytes() {
        Some(_) => Ok(setup),
        None => Err(Failure::Unread(copy_text(rt.alloc(), setup.path())?)),
    }
}

/// Reads the files of the hub in the folder at the path `hub`.
pub fn papers_at<R: Files + AllocGlobal + Clone + Drop>(
    rt: &R,
    hub: &[u8],
) -> Result<HubPapers, Failure>
    ensures papers { IfOk result (papers.ArePapersAt hub.now) }
    ensures before { IfErr result IsBefore }
{
    let setup = setup_at(rt, hub)?;
    let guides = guides_at(rt, path_in(rt.alloc(), hub, b"guides")?)?;
    Ok(HubPapers {
        setup,
        guides: Items::from_vec(guides),
        first: first_at(rt, hub)?,
    })
}
