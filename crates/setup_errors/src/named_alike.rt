//! Partners whose name differs from an earlier one's in case alone.
ghost use Rattle.std.specs.Prelude.{◌≡◌, ◌++◌, ◌∷◌, [], ℕ, List, length, map, option_and_then, option_map, IfOk, OnOk};
ghost use Rattle.partner_setup.specs.Known.{KnowsPlaces};
ghost use Rattle.partner_setup.specs.Names.{place_of};
ghost use Rattle.setup_errors.specs.NamedAlike as alike;
ghost use Rattle.setup_errors.specs.Sentences.{text_of};

use crate::sentence::{Detail, Sentence, in_place, push_told};
use crate::words::{ALIKE, PARTNER};
use hub_kinds::{Items, NoMemory, Text};
use partner_setup::PartnerRow;
use std::alloc::Global;
use std::collections::BTreeMap;

/// The names of partners in small letters.
fn small_names(alloc: Global, partners: &[PartnerRow]) -> Result<Vec<Text>, NoMemory>
    ensures { IfOk result (λ names. names.items ≡ map alike.small_name partners.now) }
{
    let mut names = Vec::new(alloc);
    for i in 0..partners.len() {
        let name = partners[i].name.as_slice().to_ascii_lowercase(alloc)?;
        names.push(Items::from_vec(name))?;
    }
    Ok(names)
}

/// The first place of a name among those so far. Where it has none, this is its first.
fn first_place<'a>(
    places: &mut BTreeMap<&'a [u8], usize>,
    name: &'a [u8],
    place: usize,
) -> Result<Option<usize>, NoMemory>
    ensures first { IfOk result (λ first. (names : List (List ℕ)) → KnowsPlaces places.old 0 names
        → first ≡ place_of names name.entry.now) }
    ensures known { OnOk result ((names : List (List ℕ)) → KnowsPlaces places.old 0 names → place ≡ length names
        → KnowsPlaces places.new 0 (names ++ name.entry.now ∷ [])) }
{
    let first = places.get(name).copied();
    if first.is_none() {
        places.insert(name, place)?;
    }
    Ok(first)
}

/// That the name differs from that of the partner at the place `earlier`, by its number and its name.
fn alike_cause<'a>(partners: &'a [PartnerRow], earlier: Option<usize>) -> Option<Sentence<'a>>
    ensures { option_map text_of result ≡ option_and_then (alike.alike_cause partners.entry.now) earlier }
{
    let Some(place) = earlier else {
        return None;
    };
    match partners.get(place) {
        None => None,
        Some(partner) => {
            let name = Detail::Text(partner.name.as_slice());
            Some(Sentence::Two(ALIKE, Detail::Number(place as u64 + 1), name))
        }
    }
}

#[tactic(auto, unfolding(crate::specs::NamedAlike::earlier_said))]
fn push_alike(
    alloc: Global,
    found: &mut Vec<Text>,
    partners: &[PartnerRow],
    number: u64,
    partner: &PartnerRow,
    earlier: Option<usize>,
) -> Result<(), NoMemory>
    ensures { OnOk result (found.new.items ≡ found.old.items ++ alike.earlier_said partners.now number partner.now earlier) }
{
    let place = in_place(PARTNER, number, partner.name.as_slice());
    push_told(alloc, found, place, alike_cause(partners, earlier))
}

/// Adds all partners, whose names in small letters these are.
fn push_known(
    alloc: Global,
    found: &mut Vec<Text>,
    names: &[Text],
    partners: &[PartnerRow],
) -> Result<(), NoMemory>
    requires { names.now ≡ map alike.small_name partners.now }
    ensures { OnOk result (found.new.items ≡ found.old.items ++ alike.alike_warnings partners.now) }
{
    let mut places = BTreeMap::new(alloc);
    for i in 0..partners.len() {
        let earlier = first_place(&mut places, names[i].as_slice(), i)?;
        push_alike(alloc, found, partners, i as u64 + 1, &partners[i], earlier)?;
    }
    Ok(())
}

/// Adds the partners whose name differs from an earlier one's in case alone.
pub(crate) fn push_named_alike(
    alloc: Global,
    found: &mut Vec<Text>,
    partners: &[PartnerRow],
) -> Result<(), NoMemory>
    ensures { OnOk result (found.new.items ≡ found.old.items ++ alike.alike_warnings partners.now) }
{
    let names = small_names(alloc, partners)?;
    push_known(alloc, found, names.as_slice(), partners)
}
