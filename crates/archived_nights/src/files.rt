ghost use Rattle.std.specs.Prelude.{◌≡◌, IfOk};
ghost use Rattle.kept_files.specs.Files.{file};
ghost use Rattle.night_record.specs.Again.{again_text};
ghost use Rattle.night_record.specs.Tables.{addresses_text};
ghost use Rattle.archived_nights.specs.Files as files;

use crate::archive::Archive;
use crate::fault::MakeFault;
use crate::sums::sums_text;
use hub_kinds::{Items, NoMemory, Text, copy_text};
use night_record::{AddressNext, AgainSet, TableFault, append_addresses, append_again};
use night_shelf::NightFile;
use std::alloc::Global;

fn file_of(alloc: Global, name: &[u8], bytes: Text) -> Result<NightFile, NoMemory>
    ensures { IfOk result (λ made. made ≡ file name.now bytes) }
{
    Ok(NightFile {
        name: copy_text(alloc, name)?,
        bytes,
    })
}

fn copied_file(alloc: Global, name: &[u8], bytes: &[u8]) -> Result<NightFile, NoMemory>
    ensures { IfOk result (λ made. made ≡ file name.now bytes.now) }
{
    file_of(alloc, name, copy_text(alloc, bytes)?)
}

fn delivered_table(alloc: Global, sets: &[AgainSet]) -> Result<Text, NoMemory>
    ensures { IfOk result (λ table. table ≡ again_text sets.now) }
{
    let mut table = Vec::new(alloc);
    append_again(&mut table, sets)?;
    Ok(Items::from_vec(table))
}

fn address_table(alloc: Global, next: &[AddressNext]) -> Result<Text, MakeFault>
    ensures { IfOk result (λ table. table ≡ addresses_text next.now) }
{
    let mut table = Vec::new(alloc);
    match append_addresses(alloc, &mut table, next) {
        Ok(()) => Ok(Items::from_vec(table)),
        Err(TableFault::Memory) => Err(MakeFault::Memory),
        Err(_) => Err(MakeFault::Unwritable),
    }
}

/// The files of an archive whose tables have these bytes: the tables, their sums, and those that mark it.
fn files_by(
    alloc: Global,
    moment: &[u8],
    of_last: &[u8],
    delivered: Text,
    addresses: Text,
) -> Result<Vec<NightFile>, NoMemory>
    ensures { IfOk result (λ list. list.items ≡ files.files_by moment.now of_last.now delivered addresses) }
{
    let sums = sums_text(alloc, delivered.as_slice(), addresses.as_slice())?;
    let mut list = Vec::new(alloc);
    list.push(copied_file(alloc, b"from/at", moment)?)?;
    list.push(file_of(alloc, b"delivered.csv", delivered)?)?;
    list.push(file_of(alloc, b"addresses.csv", addresses)?)?;
    list.push(file_of(alloc, b"sums", sums)?)?;
    list.push(copied_file(alloc, b"night.toml", of_last)?)?;
    list.push(copied_file(alloc, b"done", b"0\n")?)?;
    Ok(list)
}

/// The files of `archive`, whose last night has a record of the bytes `of_last`. Errors: the addresses aren't a table; or out of memory.
pub fn archive_files(
    alloc: Global,
    archive: &Archive,
    of_last: &[u8],
) -> Result<Vec<NightFile>, MakeFault>
    ensures { IfOk result (λ list. list.items ≡ files.archive_files archive.now of_last.now) }
{
    let delivered = delivered_table(alloc, archive.sets.as_slice())?;
    let addresses = address_table(alloc, archive.next.as_slice())?;
    let moment = archive.moment.as_slice();
    Ok(files_by(alloc, moment, of_last, delivered, addresses)?)
}
