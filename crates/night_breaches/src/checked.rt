ghost use Rattle.std.specs.Prelude.{◌≡◌, ◌↔◌, ◌++◌, [], IfOk, OnOk};
ghost use Rattle.std.specs.List.{AllByRecursion};
ghost use Rattle.night_breaches.specs.Breaches as spec;
ghost use Rattle.night_breaches.specs.Broken.{IsBreachOf};
ghost use Rattle.night_breaches.specs.Sound.{AreSound};

use crate::breach::{Breach, LastNight};
use crate::known::{add_night, nothing_known};
use crate::rules::add_breaches;
use hub_kinds::{Lent, NoMemory};
use hub_ledger::NightEntry;
use std::alloc::Global;

/// What nights break, one after another. No moment may be after `limit`.
pub fn breaches<'a>(
    alloc: Global,
    nights: &'a [NightEntry],
    limit: &[u8],
) -> Result<Vec<Breach<'a>>, NoMemory>
    ensures found { IfOk result (λ found. found.items ≡ spec.breaches_after limit.now [] nights.entry.now) }
    ensures none { IfOk result (λ found. (found.items ≡ []) ↔ AreSound limit.now [] nights.entry.now) }
    ensures each { IfOk result (λ found. AllByRecursion (IsBreachOf limit.now nights.entry.now) found.items) }
{
    let mut found = Vec::new(alloc);
    let mut known = nothing_known(alloc);
    for i in 0..nights.len() {
        let night = &nights[i];
        add_breaches(alloc, &mut found, &known, limit, night)?;
        add_night(&mut known, night)?;
    }
    Ok(found)
}

fn last_name(nights: &[NightEntry]) -> &[u8]
    ensures { result.now ≡ spec.last_name nights.entry.now }
{
    match nights.last() {
        None => b"",
        Some(night) => night.name.as_slice(),
    }
}

/// Adds that the last night is another one than the one that is named last; empty names mean none.
pub fn last_breach<'a>(
    found: &mut Vec<Breach<'a>>,
    nights: &'a [NightEntry],
    named: &'a [u8],
) -> Result<(), NoMemory>
    ensures { OnOk result (found.new.items ≡ found.old.items ++ spec.last_breach named.entry.now nights.entry.now) }
{
    let last = last_name(nights);
    if last != named {
        found.push(Breach::LastNight(LastNight {
            last: Lent::new(last),
            named: Lent::new(named),
        }))?;
    }
    Ok(())
}
