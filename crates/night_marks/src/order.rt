ghost use Rattle.std.specs.Prelude.{◌≡◌, [], IfOk, length, map, option_map};
ghost use Rattle.night_marks.specs.Order as order;

use crate::mark::NightMark;
use hub_kinds::NoMemory;
use std::alloc::Global;
use std::cmp::Ordering;

/// The first night that names `last` as the one before it.
fn naming<'a>(nights: &[&'a NightMark], last: &[u8]) -> Option<&'a NightMark>
    ensures { option_map (λ n. n.now) result ≡ order.naming last.now (map (λ n. n.now) nights.now) }
{
    for i in 0..nights.len() {
        let night = nights[i];
        if night.before.as_slice() == last {
            return Some(night);
        }
    }
    None
}

fn earlier<'a>(a: &'a NightMark, b: &'a NightMark) -> &'a NightMark
    ensures { result.now ≡ order.earlier a.now b.now }
{
    if b.moment.as_slice().cmp(a.moment.as_slice()) == Ordering::Less {
        b
    } else {
        a
    }
}

/// The first night of the least moment.
fn earliest<'a>(nights: &[&'a NightMark]) -> Option<&'a NightMark>
    ensures { option_map (λ n. n.now) result ≡ order.earliest (map (λ n. n.now) nights.now) }
{
    if nights.is_empty() {
        return None;
    }
    let mut found = nights[0];
    for i in 1..nights.len() {
        found = earlier(found, nights[i]);
    }
    Some(found)
}

/// The night that comes after the one of the name `last`.
fn next_night<'a>(nights: &[&'a NightMark], last: &[u8]) -> Option<&'a NightMark>
    ensures { option_map (λ n. n.now) result ≡ order.next_night last.now (map (λ n. n.now) nights.now) }
{
    match naming(nights, last) {
        Some(night) => Some(night),
        None => earliest(nights),
    }
}

/// The nights of other names.
fn others<'a>(
    alloc: Global,
    nights: &[&'a NightMark],
    name: &[u8],
) -> Result<Vec<&'a NightMark>, NoMemory>
    ensures { IfOk result (λ left. map (λ n. n.now) left.items ≡ order.others name.now (map (λ n. n.now) nights.now)) }
{
    let mut left = Vec::new(alloc);
    for i in 0..nights.len() {
        let night = nights[i];
        if night.name.as_slice() != name {
            left.push(night)?;
        }
    }
    Ok(left)
}

fn all_of<'a>(alloc: Global, nights: &'a [NightMark]) -> Result<Vec<&'a NightMark>, NoMemory>
    ensures { IfOk result (λ all. map (λ n. n.now) all.items ≡ nights.entry.now) }
{
    let mut all = Vec::new(alloc);
    for i in 0..nights.len() {
        all.push(&nights[i])?;
    }
    Ok(all)
}

/// The nights in the order in which they went on from one another. The only error is out of memory.
pub fn in_order<'a>(alloc: Global, nights: &'a [NightMark]) -> Result<Vec<&'a NightMark>, NoMemory>
    ensures { IfOk result (λ all. map (λ n. n.now) all.items ≡ order.in_order (length nights.entry.now) [] nights.entry.now) }
{
    let mut left = all_of(alloc, nights)?;
    let mut order = Vec::new(alloc);
    let mut last: &[u8] = b"";
    for i in 0..nights.len() {
        let Some(next) = next_night(left.as_slice(), last) else {
            return Ok(order);
        };
        order.push(next)?;
        last = next.name.as_slice();
        left = others(alloc, left.as_slice(), last)?;
    }
    Ok(order)
}
