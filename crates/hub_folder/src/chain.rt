ghost use Rattle.std.specs.Prelude.{◌≡◌, IfErr, IfOk, Some, option_map};
ghost use Rattle.night_record.specs.Tables.{addresses_text};
ghost use Rattle.hub_folder.specs.Chain.{ContinuesChain, IsChain, IsSumIn};
ghost use Rattle.hub_folder.specs.Failure.{IsBefore};

use crate::failure::Failure;
use crate::papers::path_in;
use hub_kinds::{Items, Text, copy_text};
use night_entries::sum_of;
use night_folder::{PaperAt, home_of, read_paper};
use night_marks::NightMark;
use night_record::{AddressNext, TableFault, read_addresses};
use std::alloc::Global;
use std::rt::Files;

/// What a night takes over of the night before.
#[derive(Drop)]
pub struct Chain {
    /// The folder of the night before; empty if there is none.
    pub before: Text,
    /// The SHA-256 of its record.
    pub before_sum: Option<Text>,
    /// What comes next for each address that was ever sent to.
    pub addresses: Items<AddressNext>,
}

/// The failure of a file that isn't what a night leaves.
fn bad(alloc: Global, file: &PaperAt) -> Failure
    ensures { IsBefore result }
{
    match copy_text(alloc, file.path()) {
        Ok(path) => Failure::Chain(path),
        Err(_) => Failure::Memory,
    }
}

/// The sum of a record that was read.
fn sum_in(alloc: Global, file: &PaperAt) -> Result<Text, Failure>
    ensures sum { IfOk result (λ sum. IsSumIn file.now.bytes sum) }
    ensures before { IfErr result IsBefore }
{
    match file.bytes() {
        Some(bytes) => Ok(sum_of(alloc, bytes)?),
        None => Err(bad(alloc, file)),
    }
}

/// The addresses of a table that was read.
fn addresses_in(alloc: Global, file: &PaperAt) -> Result<Vec<AddressNext>, Failure>
    ensures table { IfOk result (λ list. file.now.bytes ≡ Some (addresses_text list.items)) }
    ensures before { IfErr result IsBefore }
{
    let Some(bytes) = file.bytes() else {
        return Err(bad(alloc, file));
    };
    match read_addresses(alloc, bytes) {
        Ok(list) => Ok(list),
        Err(TableFault::Memory) => Err(Failure::Memory),
        Err(_) => Err(bad(alloc, file)),
    }
}

/// What is taken over of the night `last`, whose folder is in the one at the path `home`.
fn chain_of<R: Files + AllocGlobal>(rt: &R, home: &[u8], last: &NightMark) -> Result<Chain, Failure>
    ensures chain { IfOk result (ContinuesChain home.now last.now) }
    ensures before { IfErr result IsBefore }
{
    let folder = path_in(rt.alloc(), home, last.name.as_slice())?;
    let record = read_paper(rt, folder.as_slice(), b"night.toml")?;
    let sum = sum_in(rt.alloc(), &record)?;
    let table = read_paper(rt, folder.as_slice(), b"addresses.csv")?;
    let addresses = addresses_in(rt.alloc(), &table)?;
    Ok(Chain {
        before: copy_text(rt.alloc(), last.name.as_slice())?,
        before_sum: Some(sum),
        addresses: Items::from_vec(addresses),
    })
}

/// What is taken over of the night `last` of the folder at the path `nights`.
pub fn chain_at<R: Files + AllocGlobal>(
    rt: &R,
    nights: &[u8],
    last: Option<&NightMark>,
) -> Result<Chain, Failure>
    ensures chain { IfOk result (IsChain nights.now (option_map (λ mark. mark.now) last.entry)) }
    ensures before { IfErr result IsBefore }
{
    match last {
        Some(mark) => {
            let home = home_of(rt.alloc(), nights, mark)?;
            chain_of(rt, home.as_slice(), mark)
        }
        None => Ok(Chain {
            before: Items::from_vec(Vec::new(rt.alloc())),
            before_sum: None,
            addresses: Items::from_vec(Vec::new(rt.alloc())),
        }),
    }
}
