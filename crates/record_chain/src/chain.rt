ghost use Rattle.std.specs.Prelude.{◌≡◌, ◌++◌, ◌↔◌, [], IfOk, OnOk, option_map};
ghost use Rattle.record_chain.specs.Breaks as breaks;
ghost use Rattle.record_chain.specs.Chained.{AreChained};

use crate::breaks::ChainBreak;
use crate::files::add_file_breaks;
use crate::links::add_link_breaks;
use crate::night::ReadNight;
use hub_kinds::NoMemory;
use std::alloc::Global;

fn add_breaks<'a>(
    alloc: Global,
    found: &mut Vec<ChainBreak<'a>>,
    before: Option<&'a ReadNight>,
    night: &'a ReadNight,
) -> Result<(), NoMemory>
    ensures { OnOk result (found.new.items
        ≡ found.old.items ++ breaks.breaks_on (option_map (λ b. b.now) before.entry) night.entry.now) }
{
    add_link_breaks(found, before, night)?;
    add_file_breaks(alloc, found, night)
}

/// What breaks the chain of `nights`, which are in their order, after the night `before`; the first night of a hub has none before it. The
/// only error is out of memory.
pub fn chain_breaks<'a>(
    alloc: Global,
    before: Option<&'a ReadNight>,
    nights: &'a [ReadNight],
) -> Result<Vec<ChainBreak<'a>>, NoMemory>
    ensures breaks { IfOk result (λ found. found.items ≡ breaks.breaks_after (option_map (λ b. b.now) before.entry) nights.entry.now) }
    ensures chained { IfOk result (λ found. (found.items ≡ []) ↔ AreChained (option_map (λ b. b.now) before.entry) nights.entry.now) }
{
    let mut found = Vec::new(alloc);
    let mut last = before;
    for i in 0..nights.len() {
        let night = &nights[i];
        add_breaks(alloc, &mut found, last, night)?;
        last = Some(night);
    }
    Ok(found)
}
