ghost use Rattle.std.specs.Prelude.{◌≡◌, ◌+◌, IfErr, IfOk, option_map};
ghost use Rattle.night_marks.specs.Count.{night_count};
ghost use Rattle.hub_folder.specs.Failure.{IsBefore};
ghost use Rattle.hub_folder.specs.Older.{IsOlder, last_mark, map_now};
ghost use Rattle.hub_folder.specs.Names.{folder_after};

use crate::chain::{Chain, chain_at};
use crate::failure::Failure;
use crate::names::next_folder;
use hub_kinds::{Items, Text};
use hub_ledger::NightEntry;
use night_folder::{entries_in, read_nights};
use night_marks::{BadFile, NightMark, in_order, night_count};
use std::alloc::Global;
use std::rt::Files;

/// The nights of a hub, and what was read of them.
#[derive(Drop)]
pub struct Older<'a> {
    /// The nights, in their order.
    pub order: Items<&'a NightMark>,
    /// What is kept of those whose files are what a night leaves.
    pub entries: Items<NightEntry>,
    /// A file of each other.
    pub bad: Items<BadFile>,
    /// What the next night takes over of the last.
    pub chain: Chain,
}

/// The last night of `order`.
pub fn last_of<'a>(order: &[&'a NightMark]) -> Option<&'a NightMark>
    ensures { option_map (λ mark. mark.now) result ≡ last_mark order.entry.now }
{
    order.last().copied()
}

/// Reads the nights `marks` of the folder at the path `nights`.
pub fn older_of<'a, R: Files + AllocGlobal + Clone + Drop>(
    rt: &R,
    nights: &[u8],
    marks: &'a [NightMark],
) -> Result<Older<'a>, Failure>
    ensures older { IfOk result (IsOlder nights.now marks.entry.now) }
    ensures before { IfErr result IsBefore }
{
    let order = in_order(rt.alloc(), marks)?;
    let reads = read_nights(rt, nights, order.as_slice())?;
    let (entries, bad) = entries_in(rt.alloc(), reads)?;
    let chain = chain_at(rt, nights, last_of(order.as_slice()))?;
    Ok(Older {
        order: Items::from_vec(order),
        entries: Items::from_vec(entries),
        bad: Items::from_vec(bad),
        chain,
    })
}

/// The number and the folder of the night called `name` after `older`.
pub fn next_after(alloc: Global, older: &Older<'_>, name: &[u8]) -> Result<(u32, Text), Failure>
    ensures number { IfOk result (λ next. next.0 ≡ night_count (map_now older.now.order) + 1) }
    ensures folder { IfOk result (λ next. next.1 ≡ folder_after (night_count (map_now older.now.order)) name.now) }
    ensures before { IfErr result IsBefore }
{
    let count = night_count(alloc, older.order.as_slice())?;
    let (number, folder) = next_folder(alloc, count, name)?;
    Ok((number, folder))
}
