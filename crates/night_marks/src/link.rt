ghost use Rattle.std.specs.Prelude.{◌≡◌, ◌++◌, [], IfOk, OnOk, map};
ghost use Rattle.night_marks.specs.Links as links;

use crate::mark::NightMark;
use hub_kinds::{Lent, NoMemory};
use std::alloc::Global;

/// A night that doesn't name the night before it.
#[derive(Debug, Drop)]
pub struct BrokenLink<'a> {
    pub night: Lent<'a>,
    /// The night that it names as the one before it; empty if it names none.
    pub named: Lent<'a>,
    /// The night that is before it; empty if it is the first.
    pub before: Lent<'a>,
}

fn add_broken_link<'a>(
    found: &mut Vec<BrokenLink<'a>>,
    night: &'a NightMark,
    before: &'a [u8],
) -> Result<(), NoMemory>
    ensures { OnOk result (found.new.items ≡ found.old.items ++ links.broken_link before.entry.now night.entry.now) }
{
    if night.before.as_slice() != before {
        found.push(BrokenLink {
            night: Lent::new(night.name.as_slice()),
            named: Lent::new(night.before.as_slice()),
            before: Lent::new(before),
        })?;
    }
    Ok(())
}

/// The nights, one after another, that don't name the night before them; the first one is to name none. The only error is out of memory.
pub fn broken_links<'a>(
    alloc: Global,
    nights: &[&'a NightMark],
) -> Result<Vec<BrokenLink<'a>>, NoMemory>
    ensures { IfOk result (λ found. found.items ≡ links.broken_links [] (map (λ n. n.now) nights.now)) }
{
    let mut found = Vec::new(alloc);
    let mut before: &[u8] = b"";
    for i in 0..nights.len() {
        let night = nights[i];
        add_broken_link(&mut found, night, before)?;
        before = night.name.as_slice();
    }
    Ok(found)
}
