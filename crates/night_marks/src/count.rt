ghost use Rattle.std.specs.Prelude.{◌≡◌, ◌≤◌, IfOk, length, map, take};
ghost use Rattle.night_marks.specs.Count as count;

use crate::mark::NightMark;
use hub_kinds::{NoMemory, read_number};
use std::alloc::Global;

/// How many digits the number of a night has.
const DIGITS: usize = 6;

fn first_six(name: &[u8]) -> &[u8]
    ensures { result.now ≡ take 6 name.now }
{
    if DIGITS <= name.len() {
        &name[..DIGITS]
    } else {
        name
    }
}

/// The number of the night whose folder is called `name`; 0 if it has none.
pub fn number_in(name: &[u8]) -> u64
    ensures { result ≡ count.number_in name.now }
{
    read_number(first_six(name), DIGITS).unwrap_or(0)
}

/// The nights of `nights` that aren't archived. The only error is out of memory.
pub fn unarchived<'a>(
    alloc: Global,
    nights: &[&'a NightMark],
) -> Result<Vec<&'a NightMark>, NoMemory>
    ensures { IfOk result (λ left. map (λ n. n.now) left.items ≡ count.unarchived (map (λ n. n.now) nights.now)) }
{
    let mut left = Vec::new(alloc);
    for i in 0..nights.len() {
        let night = nights[i];
        if !night.is_archived {
            left.push(night)?;
        }
    }
    Ok(left)
}

/// The entries of archived nights among `nights`. The only error is out of memory.
pub fn archived<'a>(alloc: Global, nights: &[&'a NightMark]) -> Result<Vec<&'a NightMark>, NoMemory>
    ensures { IfOk result (λ found. map (λ n. n.now) found.items ≡ count.archived (map (λ n. n.now) nights.now)) }
{
    let mut found = Vec::new(alloc);
    for i in 0..nights.len() {
        let night = nights[i];
        if night.is_archived {
            found.push(night)?;
        }
    }
    Ok(found)
}

/// How many nights are archived. The first of `nights` is their entry, if any are.
pub fn archived_count(nights: &[&NightMark]) -> u64
    ensures { result ≡ count.archived_count (map (λ n. n.now) nights.now) }
{
    match nights {
        [] => 0,
        [first, ..] => {
            if first.is_archived {
                number_in(first.name.as_slice())
            } else {
                0
            }
        }
    }
}

/// How many nights there are, archived nights included. The only error is out of memory.
pub fn night_count(alloc: Global, nights: &[&NightMark]) -> Result<u64, NoMemory>
    ensures { IfOk result (λ n. n ≡ count.night_count (map (λ n. n.now) nights.now)) }
{
    let left = unarchived(alloc, nights)?;
    match archived_count(nights).checked_add(left.len() as u64) {
        Some(n) => Ok(n),
        None => Err(NoMemory),
    }
}
