ghost use Rattle.std.specs.Prelude.{◌≡◌, ◌+◌, ◌≤◌, ◌<◌, ◌^◌, ◌++◌, ◌∷◌, [], map, is_none, length, IfOk, OnOk};
ghost use Rattle.std.specs.List.{All};
ghost use Rattle.hub_kinds.specs.declared.limits.TheConstants.{LONGEST_TEXT};
ghost use Rattle.env_index.specs.Numbers.{group_numbers_from, kept_places, place_at, set_numbers_from};
ghost use Rattle.env_index.specs.Placed.{AreFew, place_in, places_of};

use crate::index::{Index, IndexedInterchange};
use crate::interchange::{GroupEnvelope, Interchange};
use hub_kinds::{Items, NoMemory, Place};
use std::alloc::Global;

/// The places of a group's sets.
fn add_sets(
    places: &mut Vec<Place>,
    isa: u32,
    gs: u32,
    group: &GroupEnvelope<'_, '_>,
) -> Result<(), NoMemory>
    requires { length group.now.sets ≤ LONGEST_TEXT }
    ensures { OnOk result (places.new.items ≡ places.old.items ++ map place_in (set_numbers_from isa gs 1 group.now.sets)) }
{
    for index in 0..group.set_count() {
        let st = index as u32 + 1;
        places.push(Place { isa, gs, st })?;
    }
    Ok(())
}

/// The place of a group, and those of its sets.
fn add_group(
    places: &mut Vec<Place>,
    isa: u32,
    gs: u32,
    group: &GroupEnvelope<'_, '_>,
) -> Result<(), NoMemory>
    requires { length group.now.sets ≤ LONGEST_TEXT }
    ensures { OnOk result (places.new.items ≡ places.old.items
        ++ (place_at isa gs 0 ∷ map place_in (set_numbers_from isa gs 1 group.now.sets))) }
{
    places.push(Place { isa, gs, st: 0 })?;
    add_sets(places, isa, gs, group)
}

/// The places of an interchange's groups, each before those of its sets.
fn add_groups(
    places: &mut Vec<Place>,
    isa: u32,
    interchange: &Interchange<'_>,
) -> Result<(), NoMemory>
    requires { AreFew interchange.now }
    ensures { OnOk result (places.new.items ≡ places.old.items ++ map place_in (group_numbers_from isa 1 interchange.now.content.groups)) }
{
    for index in 0..interchange.group_count() {
        let gs = index as u32 + 1;
        add_group(places, isa, gs, &interchange.group(index))?;
    }
    Ok(())
}

/// The places of an interchange, where it has no fault.
fn add_interchange(
    places: &mut Vec<Place>,
    isa: u32,
    entry: &IndexedInterchange<'_>,
) -> Result<(), NoMemory>
    ensures { OnOk result (places.new.items
        ≡ places.old.items ++ map place_in (kept_places (is_none entry.now.fault) isa entry.now.interchange)) }
{
    if entry.fault.is_some() {
        return Ok(());
    }
    places.push(Place { isa, gs: 0, st: 0 })?;
    add_groups(places, isa, &entry.interchange)
}

impl<'a> Index<'a> {
    /// The places of the interchanges that have no fault, of their groups and of their sets, in the order of the text. Each
    /// interchange is counted, also one with a fault. The only error is out of memory. X12.5, interchange; X12.6, functional
    /// group and transaction set.
    ///
    /// An index is settled with the faults 1 to 8 for this, not with 9: the places of an interchange whose number is used
    /// earlier are recorded and checked like others.
    pub fn places(&self, alloc: Global) -> Result<Items<Place>, NoMemory>
        ensures { IfOk result (λ places. places ≡ places_of self.now) }
    {
        let mut places = Vec::new(alloc);
        let entries = self.interchanges.as_slice();
        for index in 0..entries.len() {
            let isa = index as u32 + 1;
            add_interchange(&mut places, isa, &entries[index])?;
        }
        Ok(Items::from_vec(places))
    }
}
