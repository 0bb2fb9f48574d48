ghost use Rattle.std.specs.Prelude.{◌≡◌, ◌&&◌, drop, map, take};
ghost use Rattle.csv.specs.Records.{fields_of};
ghost use Rattle.x12_segs.specs.Words.{element_of};
ghost use Rattle.sets_again.specs.Fits as fits;

use crate::rows::{gs06, st02};
use csv::ByteRecord;
use env_index::{GroupEnvelope, Interchange, SetEnvelope};

/// The first `count` of `all`, and those after them.
pub(crate) fn parted<T>(all: &[T], count: usize) -> (&[T], &[T])
    ensures first { result.0.now ≡ take count all.entry.now }
    ensures others { result.1.now ≡ drop count all.entry.now }
{
    if count < all.len() {
        all.split_at(count)
    } else {
        (all, &[])
    }
}

/// Those of `all` after the first `count`.
pub(crate) fn rest_from<T>(all: &[T], count: usize) -> &[T]
    ensures { result.now ≡ drop count all.entry.now }
{
    let (_, others) = parted(all, count);
    others
}

fn is_row_of(number: &[u8], set: &SetEnvelope<'_>, row: &ByteRecord) -> bool
    ensures { result ≡ fits.is_row_of number.now set.now (fields_of row.now) }
{
    gs06(row) == number && st02(row) == set.header.element(2)
}

/// Whether `rows` are one for each set of a group.
fn sets_fit(group: &GroupEnvelope<'_, '_>, rows: &[&ByteRecord]) -> bool
    ensures { result ≡ fits.sets_fit (element_of group.now.header 6) group.now.sets (map (λ r. fields_of r.now) rows.now) }
{
    if rows.len() != group.set_count() {
        return false;
    }
    let header = group.header();
    let number = header.element(6);
    for i in 0..rows.len() {
        if !is_row_of(number, &group.set(i), rows[i]) {
            return false;
        }
    }
    true
}

fn both(first: bool, second: bool) -> bool
    ensures { result ≡ (first && second) }
{
    first && second
}

/// Whether `rows` are one for each set of each group of an interchange.
pub(crate) fn groups_fit(interchange: &Interchange<'_>, rows: &[&ByteRecord]) -> bool
    ensures { result ≡ fits.groups_fit interchange.now.content.groups (map (λ r. fields_of r.now) rows.now) }
{
    let mut at = 0;
    let mut fit = true;
    for i in 0..interchange.group_count() {
        let group = interchange.group(i);
        let rest = rest_from(rows, at);
        let (here, after) = parted(rest, group.set_count());
        fit = both(sets_fit(&group, here), fit);
        at = rows.len() - after.len();
    }
    fit && rest_from(rows, at).is_empty()
}
