ghost use Rattle.std.specs.Prelude.{◌≡◌, ◌++◌, [], ℕ, List, Some, None, map, not, option_map, slice_get, IfOk, OnOk};
ghost use Rattle.std.specs.List.{list_all};
ghost use Rattle.hub_kinds.specs.Words.{contains_text};
ghost use Rattle.partner_setup.specs.Known.{KnowsPlaces};
ghost use Rattle.partner_setup.specs.Names.{and_some, places_of_texts, those_at};
ghost use Rattle.partner_setup.specs.SetupFaults as faults;
ghost use Rattle.partner_setup.specs.declared.setup_fault.SetupFault.TheVariants as refusal;

use crate::delimiters::bad_delimiters;
use crate::ids::{bad_id, is_id};
use crate::names::{is_name, place_of, places_by_name};
use crate::rows::{CounterRow, PartnerRow, RouteRow, SetupRows};
use crate::setup_fault::{GuidesOwner, SetupFault};
use crate::told::Told;
use crate::twice::{
    CounterPartner, GuideName, PartnerId, PartnerName, RouteCode, TargetName, first_twin,
    given_twice,
};
use guide_tree::Guide;
use hub_kinds::{Counters, NoMemory, Text, has_twice};
use std::alloc::Global;
use std::collections::BTreeMap;

/// The lesser of two places.
fn lesser(a: Option<usize>, b: Option<usize>) -> Option<usize>
    ensures { result ≡ faults.lesser_place a b }
{
    match (a, b) {
        (None, b) => b,
        (Some(m), None) => Some(m),
        (Some(m), Some(n)) => Some(m.min(n)),
    }
}

fn same_partner(alloc: Global, partners: &[PartnerRow]) -> Result<Option<usize>, NoMemory>
    ensures { IfOk result (λ place. place ≡ faults.same_partner partners.now) }
{
    let name = first_twin::<PartnerName>(alloc, partners)?;
    let id = first_twin::<PartnerId>(alloc, partners)?;
    Ok(lesser(name, id))
}

fn are_names(places: &BTreeMap<&[u8], usize>, names: &[Text]) -> bool
    ensures { (known : List (List ℕ)) → KnowsPlaces places.now 0 known → result ≡ list_all (contains_text known) names.now }
{
    for name in names {
        if !is_name(places, name.as_slice()) {
            return false;
        }
    }
    true
}

/// Adds a place, if there is one.
fn push_some(places: &mut Vec<usize>, place: Option<usize>) -> Result<(), NoMemory>
    ensures { OnOk result (places.new.items ≡ places.old.items ++ and_some place []) }
{
    if let Some(place) = place {
        places.push(place)?;
    }
    Ok(())
}

/// The places of names, of those that are there.
pub(crate) fn places_of(
    alloc: Global,
    places: &BTreeMap<&[u8], usize>,
    names: &[Text],
) -> Result<Vec<usize>, NoMemory>
    ensures { IfOk result (λ found. (known : List (List ℕ)) → KnowsPlaces places.now 0 known
        → found.items ≡ places_of_texts known names.now) }
{
    let mut found = Vec::new(alloc);
    for name in names {
        push_some(&mut found, place_of(places, name.as_slice()))?;
    }
    Ok(found)
}

fn purpose_of(guide: &Guide) -> Told<'_>
    ensures { faults.key_of_texts result.first.now result.second.now result.third.now ≡ faults.purpose_key guide.entry.now }
{
    let head = &guide.rows().head;
    Told {
        first: head.group.as_slice(),
        second: head.version.as_slice(),
        third: head.set.as_slice(),
    }
}

/// Adds what a guide is for, if there is one.
fn push_purpose<'a>(told: &mut Vec<Told<'a>>, guide: Option<&'a Guide>) -> Result<(), NoMemory>
    ensures { OnOk result (map (λ t. faults.key_of_texts t.first.now t.second.now t.third.now) told.new.items
        ≡ map (λ t. faults.key_of_texts t.first.now t.second.now t.third.now) told.old.items
        ++ map faults.purpose_key (and_some (option_map (λ g. g.now) guide.entry) [])) }
{
    if let Some(guide) = guide {
        told.push(purpose_of(guide))?;
    }
    Ok(())
}

fn guide_at(guides: &[Guide], place: usize) -> Option<&Guide>
    ensures { option_map (λ g. g.now) result ≡ slice_get guides.entry.now place }
{
    guides.get(place)
}

fn purposes_at<'a>(
    alloc: Global,
    guides: &'a [Guide],
    places: &[usize],
) -> Result<Vec<Told<'a>>, NoMemory>
    ensures { IfOk result (λ told. map (λ t. faults.key_of_texts t.first.now t.second.now t.third.now) told.items
        ≡ map faults.purpose_key (those_at guides.entry.now places.now)) }
{
    let mut told = Vec::new(alloc);
    for place in places {
        push_purpose(&mut told, guide_at(guides, *place))?;
    }
    Ok(told)
}

/// Whether a partner's guides are there, and no two of them are for the same sets.
fn has_guides(
    alloc: Global,
    places: &BTreeMap<&[u8], usize>,
    guides: &[Guide],
    partner: &PartnerRow,
) -> Result<bool, NoMemory>
    requires { KnowsPlaces places.now 0 (map faults.guide_name guides.now) }
    ensures { IfOk result (λ has. has ≡ faults.has_guides guides.now partner.now) }
{
    let names = partner.guides.as_slice();
    if !are_names(places, names) {
        return Ok(false);
    }
    let found = places_of(alloc, places, names)?;
    Ok(!has_twice(purposes_at(alloc, guides, found.as_slice())?))
}

fn lacks_guides(
    alloc: Global,
    places: &BTreeMap<&[u8], usize>,
    guides: &[Guide],
    partners: &[PartnerRow],
) -> Result<Option<usize>, NoMemory>
    requires { KnowsPlaces places.now 0 (map faults.guide_name guides.now) }
    ensures { IfOk result (λ place. place ≡ faults.first_row (λ p. not (faults.has_guides guides.now p)) partners.now) }
{
    for i in 0..partners.len() {
        if !has_guides(alloc, places, guides, &partners[i])? {
            return Ok(Some(i));
        }
    }
    Ok(None)
}

fn bad_guides(
    alloc: Global,
    partners: &[PartnerRow],
    guides: &[Guide],
) -> Result<Option<GuidesOwner>, NoMemory>
    ensures { IfOk result (λ owner. owner ≡ faults.bad_guides partners.now guides.now) }
{
    let places = places_by_name(alloc, guides)?;
    if let Some(partner) = lacks_guides(alloc, &places, guides, partners)? {
        return Ok(Some(GuidesOwner::Partner(partner)));
    }
    match first_twin::<GuideName>(alloc, guides)? {
        None => Ok(None),
        Some(guide) => Ok(Some(GuidesOwner::Guide(guide))),
    }
}

/// Whether each target is a partner, and none is named twice.
fn are_targets(
    alloc: Global,
    places: &BTreeMap<&[u8], usize>,
    names: &[Text],
) -> Result<bool, NoMemory>
    ensures { IfOk result (λ are. (ps : List PartnerRow) → KnowsPlaces places.now 0 (map faults.name_of_row ps)
        → are ≡ faults.are_targets ps names.now) }
{
    if !are_names(places, names) {
        return Ok(false);
    }
    let twice = given_twice::<TargetName>(alloc, names)?;
    Ok(!twice)
}

fn is_route(
    alloc: Global,
    places: &BTreeMap<&[u8], usize>,
    route: &RouteRow,
) -> Result<bool, NoMemory>
    ensures { IfOk result (λ is. (ps : List PartnerRow) → KnowsPlaces places.now 0 (map faults.name_of_row ps)
        → is ≡ faults.is_route ps route.now) }
{
    if !is_id(route.code.as_slice(), 2, 15) {
        return Ok(false);
    }
    are_targets(alloc, places, route.to.as_slice())
}

fn wrong_route(
    alloc: Global,
    places: &BTreeMap<&[u8], usize>,
    routes: &[RouteRow],
) -> Result<Option<usize>, NoMemory>
    ensures { IfOk result (λ place. (ps : List PartnerRow) → KnowsPlaces places.now 0 (map faults.name_of_row ps)
        → place ≡ faults.first_row (λ r. not (faults.is_route ps r)) routes.now) }
{
    for i in 0..routes.len() {
        if !is_route(alloc, places, &routes[i])? {
            return Ok(Some(i));
        }
    }
    Ok(None)
}

fn bad_route(
    alloc: Global,
    places: &BTreeMap<&[u8], usize>,
    routes: &[RouteRow],
) -> Result<Option<usize>, NoMemory>
    ensures { IfOk result (λ place. (ps : List PartnerRow) → KnowsPlaces places.now 0 (map faults.name_of_row ps)
        → place ≡ faults.bad_route ps routes.now) }
{
    let wrong = wrong_route(alloc, places, routes)?;
    let twin = first_twin::<RouteCode>(alloc, routes)?;
    Ok(lesser(wrong, twin))
}

/// Whether `number` is a control number: 1 to 999,999,999 (X12.5, ISA13; X12.6, GS06).
pub fn is_counter(number: u32) -> bool
    ensures { result ≡ faults.is_counter number }
{
    1 <= number && number <= 999_999_999
}

fn are_counters(counters: &Counters) -> bool
    ensures { result ≡ faults.are_counters counters.now }
{
    is_counter(counters.interchange) && is_counter(counters.group) && is_counter(counters.set)
}

fn counts_for(places: &BTreeMap<&[u8], usize>, row: &CounterRow) -> bool
    ensures { (ps : List PartnerRow) → KnowsPlaces places.now 0 (map faults.name_of_row ps) → result ≡ faults.counts_for ps row.now }
{
    are_counters(&row.counters) && is_name(places, row.partner.as_slice())
}

fn wrong_counter(places: &BTreeMap<&[u8], usize>, rows: &[CounterRow]) -> Option<usize>
    ensures { (ps : List PartnerRow) → KnowsPlaces places.now 0 (map faults.name_of_row ps)
        → result ≡ faults.first_row (λ c. not (faults.counts_for ps c)) rows.now }
{
    for i in 0..rows.len() {
        if !counts_for(places, &rows[i]) {
            return Some(i);
        }
    }
    None
}

fn bad_counter(
    alloc: Global,
    places: &BTreeMap<&[u8], usize>,
    rows: &[CounterRow],
) -> Result<Option<usize>, NoMemory>
    ensures { IfOk result (λ place. (ps : List PartnerRow) → KnowsPlaces places.now 0 (map faults.name_of_row ps)
        → place ≡ faults.bad_counter ps rows.now) }
{
    let wrong = wrong_counter(places, rows);
    let twin = first_twin::<CounterPartner>(alloc, rows)?;
    Ok(lesser(wrong, twin))
}

/// Whether `cap` is the cap of a partner: 1 to 99,999.
pub fn is_cap(cap: u32) -> bool
    ensures { result ≡ faults.is_cap cap }
{
    1 <= cap && cap <= 99_999
}

fn bad_cap(partners: &[PartnerRow]) -> Option<usize>
    ensures { result ≡ faults.bad_cap partners.now }
{
    for i in 0..partners.len() {
        if !is_cap(partners[i].cap) {
            return Some(i);
        }
    }
    None
}

/// The first refusal of what speaks of partners by their names, or of a cap.
fn fault_of_names(
    alloc: Global,
    rows: &SetupRows,
    counters: &[CounterRow],
) -> Result<Option<SetupFault>, NoMemory>
    ensures { IfOk result (λ fault. fault ≡ faults.fault_of_names rows.now counters.now) }
{
    let partners = rows.partners.as_slice();
    let places = places_by_name(alloc, partners)?;
    if let Some(route) = bad_route(alloc, &places, rows.routes.as_slice())? {
        return Ok(Some(SetupFault::BadRoute(route)));
    }
    if let Some(row) = bad_counter(alloc, &places, counters)? {
        return Ok(Some(SetupFault::BadCounter(row)));
    }
    if let Some(partner) = bad_cap(partners) {
        return Ok(Some(SetupFault::BadCap(partner)));
    }
    Ok(None)
}

/// The first refusal of rows, counters and guides that are to make a setup.
pub(crate) fn first_fault(
    alloc: Global,
    rows: &SetupRows,
    counters: &[CounterRow],
    guides: &[Guide],
) -> Result<Option<SetupFault>, NoMemory>
    ensures { IfOk result (λ fault. fault ≡ faults.first_fault rows.now counters.now guides.now) }
{
    let partners = rows.partners.as_slice();
    if let Some(partner) = same_partner(alloc, partners)? {
        return Ok(Some(SetupFault::SamePartner(partner)));
    }
    if let Some(partner) = bad_delimiters(partners) {
        return Ok(Some(SetupFault::BadDelimiters(partner)));
    }
    if let Some(owner) = bad_id(rows) {
        return Ok(Some(SetupFault::BadId(owner)));
    }
    if let Some(owner) = bad_guides(alloc, partners, guides)? {
        return Ok(Some(SetupFault::BadGuides(owner)));
    }
    fault_of_names(alloc, rows, counters)
}
