ghost use Rattle.std.specs.Prelude.{◌≡◌, ◌++◌, IfErr, IfOk, OnOk, codes};
ghost use Rattle.file_names.specs.Shown.{shown};
ghost use Rattle.hub_folder.specs.Failure.{IsBefore};
ghost use Rattle.hub_command.specs.Lines as lines;

use file_names::append_shown;
use hub_folder::{Failure, Told, papers_at, path_text};
use hub_kinds::{Lent, NoMemory, copy_text};
use std::alloc::Global;
use std::fs::OpenFile;
use std::rt::Files;
use std::{fs, io};
use system_io::{create_new_at, write_and_sync};

/// What the file hub.toml says.
const MARK: &[u8] = b"version = 1\n";

/// Makes the folder of nights, or sees to it that it is there and empty.
fn make_nights<R: Files + AllocGlobal + Clone + Drop>(rt: &R, hub: &str) -> io::Result<()> {
    let nights = path_text(rt.alloc(), hub, b"nights")?;
    if fs::create_dir(rt, nights.as_str()).is_ok() {
        return Ok(());
    }
    for entry in fs::read_dir(rt, nights.as_str())? {
        entry?;
        return Err(io::Error::from(io::ErrorKind::AlreadyExists));
    }
    Ok(())
}

/// Writes hub.toml, which wasn't there, and syncs it with the folder of the hub.
fn write_mark<R: Files + AllocGlobal>(rt: &R, hub: &str) -> io::Result<()> {
    let path = path_text(rt.alloc(), hub, b"hub.toml")?;
    let mut created = create_new_at(rt, path)?;
    write_and_sync(rt.alloc(), &mut created, b"hub.toml", &[Lent::new(MARK)])?;
    fs::open(rt, hub)?.sync_all()
}

/// What is printed of a new hub.
fn told(alloc: Global, hub: &[u8]) -> Result<Told, NoMemory>
    ensures text { IfOk result (λ told. told.text.items ≡ lines.init_text hub.now) }
    ensures status { IfOk result (λ told. told.status ≡ 0) }
{
    let mut text = Vec::new(alloc);
    append_shown(&mut text, hub)?;
    text.extend_from_slice(b" is a hub of no night\n")?;
    Ok(Told { text, status: 0 })
}

/// Makes the folder `hub` a hub of no night, if it has a setup and guides that can be read.
pub(crate) fn init_hub<R: Files + AllocGlobal + Clone + Drop>(
    rt: &R,
    hub: &str,
) -> Result<Told, Failure>
    ensures text { IfOk result (λ told. told.text.items ≡ lines.init_text hub.now) }
    ensures status { IfOk result (λ told. told.status ≡ 0) }
    ensures before { IfErr result IsBefore }
{
    let alloc = rt.alloc();
    papers_at(rt, hub.as_bytes())?;
    let named = copy_text(alloc, hub.as_bytes())?;
    if make_nights(rt, hub).is_err() || write_mark(rt, hub).is_err() {
        return Err(Failure::IsHub(named));
    }
    Ok(told(alloc, hub.as_bytes())?)
}
