ghost use Rattle.std.specs.Prelude.{◌≡◌, ◌≤◌, ◌+◌, ◌++◌, ℕ, List, length, map, option_map, slice_get, take, IfOk};
ghost use Rattle.std.specs.List.{AllZip};
ghost use Rattle.partner_setup.specs.Tables.{KeepsPlaces};
ghost use Rattle.set_findings.specs.Keys.{IsStart, KeepsGuides, guide_key, joined, key_at};

use crate::lookup::guide_at;
use guide_fast::FastGuide;
use hub_kinds::NoMemory;
use partner_setup::Partner;
use std::alloc::Global;
use std::collections::BTreeMap;

/// How many bytes a GS01, a GS08 and an ST01 have at most that are found by a table. Longer ones are looked for one by one.
const PART_LEN: usize = 16;

/// How many bytes they have together.
const KEY_LEN: usize = 3 * PART_LEN;

fn guide_key(alloc: Global, guide: &FastGuide<'_>) -> Result<Vec<u8>, NoMemory>
    ensures { IfOk result (λ key. key.items ≡ guide_key guide.now) }
{
    let head = &guide.guide().rows().head;
    let mut key = Vec::from_slice(alloc, head.group.as_slice())?;
    key.extend_from_slice(head.version.as_slice())?;
    key.extend_from_slice(head.set.as_slice())?;
    Ok(key)
}

fn key_at(alloc: Global, guides: &[FastGuide<'_>], place: usize) -> Result<Vec<u8>, NoMemory>
    ensures { IfOk result (λ key. key.items ≡ key_at guides.now place) }
{
    match guide_at(guides, place) {
        None => Ok(Vec::new(alloc)),
        Some(guide) => guide_key(alloc, guide),
    }
}

/// The table of a partner with guides at these places.
fn table_of(
    alloc: Global,
    guides: &[FastGuide<'_>],
    places: &[usize],
) -> Result<BTreeMap<Vec<u8>, usize>, NoMemory>
    ensures { IfOk result (λ table. KeepsPlaces table 0 (map (key_at guides.now) places.now)) }
{
    let mut table = BTreeMap::new(alloc);
    for behind in 0..places.len() {
        let i = places.len() - 1 - behind;
        let key = key_at(alloc, guides, places[i])?;
        table.insert(key, i)?;
    }
    Ok(table)
}

/// The table of each partner.
pub(crate) fn tables_of(
    alloc: Global,
    guides: &[FastGuide<'_>],
    partners: &[Partner],
) -> Result<Vec<BTreeMap<Vec<u8>, usize>>, NoMemory>
    ensures { IfOk result (λ v. AllZip (KeepsGuides guides.now) partners.now v.items) }
{
    let mut tables = Vec::new(alloc);
    for i in 0..partners.len() {
        tables.push(table_of(alloc, guides, partners[i].guides.as_slice())?)?;
    }
    Ok(tables)
}

pub(crate) fn table_at<'s>(
    tables: &'s [BTreeMap<Vec<u8>, usize>],
    partner: usize,
) -> Option<&'s BTreeMap<Vec<u8>, usize>>
    ensures { option_map (λ t. t.now) result ≡ slice_get tables.entry.now partner }
{
    tables.get(partner)
}

/// Writes a text at a place of a key.
fn put(key: &mut [u8; KEY_LEN], at: usize, text: &[u8])
    requires { at + length text.now ≤ 48 }
    ensures { take (at + length text.now) key.new ≡ take at key.old ++ text.now }
{
    for i in 0..text.len() {
        key[at + i] = text[i];
    }
}

/// From which of a partner's guides on a guide for these can be, by the partner's table; none where there is none.
pub(crate) fn start_of(
    table: &BTreeMap<Vec<u8>, usize>,
    group: &[u8],
    version: &[u8],
    set: &[u8],
) -> Option<usize>
    ensures { (keys : List (List ℕ)) → KeepsPlaces table.now 0 keys → IsStart keys (joined group.now version.now set.now) result }
{
    if group.len() > PART_LEN || version.len() > PART_LEN || set.len() > PART_LEN {
        return Some(0);
    }
    let mut key = [0; KEY_LEN];
    put(&mut key, 0, group);
    put(&mut key, group.len(), version);
    put(&mut key, group.len() + version.len(), set);
    let end = group.len() + version.len() + set.len();
    table.get(&key[..end]).copied()
}
