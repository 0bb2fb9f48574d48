ghost use Rattle.std.specs.Prelude.{◌≡◌, ◌++◌, ◌∷◌, [], ◌⊎◌, List, ℕ, None, Some, map, option_map, slice_get, IfOk, IfErr, OnOk};
ghost use Rattle.guide_tree.specs.declared.rows.GuideRows.{GuideRows};
ghost use Rattle.partner_setup.specs.Known.{KnowsPlaces};
ghost use Rattle.partner_setup.specs.Names.{places_of_texts};
ghost use Rattle.partner_setup.specs.Setup as setup;
ghost use Rattle.partner_setup.specs.SetupFaults as faults;

use crate::delimiters::delims_of;
use crate::judge::{first_fault, places_of};
use crate::keys::places_by_key;
use crate::names::{place_of, places_by_name};
use crate::partner::{Partner, Route};
use crate::rows::{CounterRow, CounterRows, PartnerRow, RouteRow, SetupRows};
use crate::setup::Setup;
use crate::setup_fault::SetupFault;
use guide_tree::Guide;
use hub_kinds::{Counters, Items, NoMemory};
use std::alloc::Global;
use std::collections::BTreeMap;
use x12_bytes::Delims;

fn row_at(rows: &[CounterRow], place: usize) -> Option<&CounterRow>
    ensures { option_map (λ c. c.now) result ≡ slice_get rows.entry.now place }
{
    rows.get(place)
}

fn row_of<'a>(
    places: &BTreeMap<&[u8], usize>,
    rows: &'a [CounterRow],
    name: &[u8],
) -> Option<&'a CounterRow>
    requires { KnowsPlaces places.now 0 (map (λ c. c.partner) rows.now) }
    ensures { option_map (λ c. c.now) result ≡ setup.row_of rows.entry.now name.now }
{
    let place = place_of(places, name)?;
    row_at(rows, place)
}

/// A partner's counters; 1, 1 and 1 where it has no row.
fn counters_of(places: &BTreeMap<&[u8], usize>, rows: &[CounterRow], name: &[u8]) -> Counters
    requires { KnowsPlaces places.now 0 (map (λ c. c.partner) rows.now) }
    ensures { result ≡ setup.counters_of rows.now name.now }
{
    match row_of(places, rows, name) {
        None => Counters {
            interchange: 1,
            group: 1,
            set: 1,
        },
        Some(row) => row.counters,
    }
}

/// The delimiters of a partner's row, which were judged before.
fn delims_or_none(row: &PartnerRow) -> Delims
    ensures { result ≡ setup.delims_or_none row.now }
{
    match delims_of(row) {
        Some(delims) => delims,
        None => Delims {
            element: 0,
            component: 0,
            repetition: None,
            terminator: 0,
        },
    }
}

/// A partner of the setup, by its row.
fn partner_of(
    alloc: Global,
    counters: &BTreeMap<&[u8], usize>,
    counter_rows: &[CounterRow],
    guides: &BTreeMap<&[u8], usize>,
    row: PartnerRow,
) -> Result<Partner, NoMemory>
    requires counters { KnowsPlaces counters.now 0 (map (λ c. c.partner) counter_rows.now) }
    ensures { IfOk result (λ partner. (gs : List GuideRows) → KnowsPlaces guides.now 0 (map faults.guide_name gs)
        → partner ≡ setup.partner_of counter_rows.now gs row) }
{
    let delims = delims_or_none(&row);
    let counters = counters_of(counters, counter_rows, row.name.as_slice());
    let guides = places_of(alloc, guides, row.guides.as_slice())?;
    Ok(row.into_partner(delims, counters, Items::from_vec(guides)))
}

fn partners_of(
    alloc: Global,
    rows: Items<PartnerRow>,
    counter_rows: &[CounterRow],
    guides: &[Guide],
) -> Result<Vec<Partner>, NoMemory>
    ensures { IfOk result (λ partners. partners.items ≡ map (setup.partner_of counter_rows.now guides.now) rows) }
{
    let counters = places_by_name(alloc, counter_rows)?;
    let names = places_by_name(alloc, guides)?;
    let mut partners = Vec::new(alloc);
    for row in rows.into_vec() {
        partners.push(partner_of(alloc, &counters, counter_rows, &names, row)?)?;
    }
    Ok(partners)
}

/// A route, by its row.
fn route_by(
    alloc: Global,
    partners: &BTreeMap<&[u8], usize>,
    row: RouteRow,
) -> Result<Route, NoMemory>
    ensures { IfOk result (λ route. (ps : List PartnerRow) → KnowsPlaces partners.now 0 (map faults.name_of_row ps)
        → route ≡ setup.route_by ps row) }
{
    let to = places_of(alloc, partners, row.to.as_slice())?;
    Ok(Route {
        code: row.code,
        to: Items::from_vec(to),
    })
}

fn routes_of(
    alloc: Global,
    partners: &[PartnerRow],
    rows: Items<RouteRow>,
) -> Result<Vec<Route>, NoMemory>
    ensures { IfOk result (λ routes. routes.items ≡ map (setup.route_by partners.now) rows) }
{
    let places = places_by_name(alloc, partners)?;
    let mut routes = Vec::new(alloc);
    for row in rows.into_vec() {
        routes.push(route_by(alloc, &places, row)?)?;
    }
    Ok(routes)
}

impl Setup {
    ghost use Rattle.std.specs.Prelude.{◌≡◌, None, Some, IfOk, IfErr, ◌⊎◌};
    ghost use Rattle.partner_setup.specs.Setup.{setup_of};
    ghost use Rattle.partner_setup.specs.SetupFaults.{first_fault};
    ghost use Rattle.partner_setup.specs.declared.setup_fault.SetupFault.TheVariants as refusal;

    /// The setup that rows, counters and guides make, or the first refusal, in the order of the refusals' numbers. Out
    /// of memory may come before any.
    pub fn build(
        alloc: Global,
        rows: SetupRows,
        counters: CounterRows,
        guides: Vec<Guide>,
    ) -> Result<Setup, SetupFault>
        ensures accepted { IfOk result (λ setup. first_fault rows counters guides.items ≡ None) }
        ensures setup { IfOk result (λ setup. setup ≡ setup_of rows counters guides.items) }
        ensures refused { IfErr result (λ fault. (fault ≡ refusal.NoMemory) ⊎ (first_fault rows counters guides.items ≡ Some fault)) }
    {
        if let Some(fault) = first_fault(alloc, &rows, counters.as_slice(), guides.as_slice())? {
            return Err(fault);
        }
        Ok(Setup::made(alloc, rows, counters.as_slice(), guides)?)
    }

    /// The setup of rows, counters and guides of which nothing is refused.
    fn made(
        alloc: Global,
        rows: SetupRows,
        counters: &[CounterRow],
        guides: Vec<Guide>,
    ) -> Result<Setup, NoMemory>
        requires { first_fault rows counters.now guides.items ≡ None }
        ensures { IfOk result (λ setup. setup ≡ setup_of rows counters.now guides.items) }
    {
        let SetupRows {
            hub,
            partners,
            routes,
        } = rows;
        let routes = routes_of(alloc, partners.as_slice(), routes)?;
        let partners = partners_of(alloc, partners, counters, guides.as_slice())?;
        let senders = places_by_key(alloc, partners.as_slice())?;
        let codes = places_by_key(alloc, routes.as_slice())?;
        Ok(Setup::of(hub, partners, routes, guides, senders, codes))
    }
}
