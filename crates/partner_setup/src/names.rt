ghost use Rattle.std.specs.Prelude.{◌≡◌, ℕ, List, map, is_some, drop, IfOk};
ghost use Rattle.hub_kinds.specs.Words.{contains_text};
ghost use Rattle.partner_setup.specs.Known.{KnowsPlaces};
ghost use Rattle.partner_setup.specs.Names.{place_of};
ghost use Rattle.partner_setup.specs.SetupFaults as faults;

use crate::rows::{CounterRow, PartnerRow};
use guide_tree::Guide;
use hub_kinds::NoMemory;
use std::alloc::Global;
use std::collections::BTreeMap;

/// What has a name.
pub trait Named {
    /// The name.
    ghost name: { Self → List ℕ };

    /// The name.
    fn name(&self) -> &[u8]
        ensures { result.now ≡ name self.now };
}

impl Named for PartnerRow {
    ghost name = { faults.name_of_row };

    fn name(&self) -> &[u8] {
        self.name.as_slice()
    }
}

impl Named for CounterRow {
    ghost name = { λ c. c.partner };

    fn name(&self) -> &[u8] {
        self.partner.as_slice()
    }
}

impl Named for Guide {
    ghost name = { faults.guide_name };

    fn name(&self) -> &[u8] {
        self.rows().head.name.as_slice()
    }
}

/// The first places of the names of rows.
pub(crate) fn places_by_name<'a, T: Named>(
    alloc: Global,
    rows: &'a [T],
) -> Result<BTreeMap<&'a [u8], usize>, NoMemory>
    ensures { IfOk result (λ places. KnowsPlaces places 0 (map T.name rows.entry.now)) }
{
    let mut places = BTreeMap::new(alloc);
    for behind in 0..rows.len() {
        let i = rows.len() - 1 - behind;
        places.insert(rows[i].name(), i)?;
    }
    Ok(places)
}

/// The first place of a name.
pub(crate) fn place_of(places: &BTreeMap<&[u8], usize>, name: &[u8]) -> Option<usize>
    ensures { (names : List (List ℕ)) → KnowsPlaces places.now 0 names → result ≡ place_of names name.now }
{
    places.get(name).copied()
}

/// Whether a name is there.
pub(crate) fn is_name(places: &BTreeMap<&[u8], usize>, name: &[u8]) -> bool
    ensures { (names : List (List ℕ)) → KnowsPlaces places.now 0 names → result ≡ contains_text names name.now }
{
    place_of(places, name).is_some()
}
