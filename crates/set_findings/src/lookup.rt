ghost use Rattle.std.specs.Prelude.{◌≡◌, ◌≤◌, drop, find, length, map, option_map, slice_get};
ghost use Rattle.partner_setup.specs.Names.{those_at};
ghost use Rattle.partner_setup.specs.Setup.{is_for_set};
ghost use Rattle.partner_setup.specs.Tables.{KeepsPlaces};
ghost use Rattle.set_findings.specs.Keys.{key_at};

use crate::table::start_of;
use guide_fast::FastGuide;
use std::collections::BTreeMap;

pub(crate) fn guide_at<'s, 'a>(
    guides: &'s [FastGuide<'a>],
    place: usize,
) -> Option<&'s FastGuide<'a>>
    ensures { option_map (λ g. g.now) result ≡ slice_get guides.entry.now place }
{
    guides.get(place)
}

/// Whether a guide is for a GS01, GS08 and ST01.
fn is_for_set(guide: &FastGuide<'_>, group: &[u8], version: &[u8], set: &[u8]) -> bool
    ensures { result ≡ is_for_set group.now version.now set.now guide.now }
{
    let head = &guide.guide().rows().head;
    head.group.as_slice() == group
        && head.version.as_slice() == version
        && head.set.as_slice() == set
}

/// The first for them of the guides at some places.
pub(crate) fn first_for_set<'s, 'a>(
    guides: &'s [FastGuide<'a>],
    places: &[usize],
    group: &[u8],
    version: &[u8],
    set: &[u8],
) -> Option<&'s FastGuide<'a>>
    ensures { option_map (λ g. g.now) result
        ≡ find (is_for_set group.now version.now set.now) (those_at guides.entry.now places.now) }
{
    for place in places {
        if let Some(guide) = guide_at(guides, *place) {
            if is_for_set(guide, group, version, set) {
                return Some(guide);
            }
        }
    }
    None
}

/// The places from a number on; none where they are fewer.
fn places_from(places: &[usize], from: usize) -> &[usize]
    ensures { result.now ≡ drop from places.entry.now }
{
    if from <= places.len() {
        &places[from..]
    } else {
        &[]
    }
}

/// The first for them of the guides at a partner's places, by the partner's table.
pub(crate) fn first_by_table<'s, 'a>(
    guides: &'s [FastGuide<'a>],
    places: &[usize],
    table: &BTreeMap<Vec<u8>, usize>,
    group: &[u8],
    version: &[u8],
    set: &[u8],
) -> Option<&'s FastGuide<'a>>
    requires { KeepsPlaces table.now 0 (map (key_at guides.now) places.now) }
    ensures { option_map (λ g. g.now) result
        ≡ find (is_for_set group.now version.now set.now) (those_at guides.entry.now places.now) }
{
    match start_of(table, group, version, set) {
        None => None,
        Some(from) => { first_for_set(guides, places_from(places, from), group, version, set) }
    }
}
