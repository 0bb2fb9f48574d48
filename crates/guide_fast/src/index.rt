ghost use Rattle.std.specs.Prelude.{◌≡◌, ◌≤◌, ℕ, List, length, drop};
ghost use Rattle.guide_fast.specs.Listed.{places_of, kept_places};

use hub_kinds::NoMemory;
use std::alloc::Global;
use std::collections::BTreeMap;

/// The places of each text among texts, from the first to the last, by an ordered map.
#[derive(Drop)]
pub struct TextIndex<'g> {
    alloc: Global,
    places: BTreeMap<&'g [u8], Vec<usize>>,
}

impl<'g> TextIndex<'g> {
    ghost use Rattle.std.specs.Prelude.{◌≡◌, ◌++◌, ◌∷◌, [], List, ℕ, length, OnOk};
    ghost use Rattle.hub_kinds.specs.Words.{contains_text};
    ghost use Rattle.guide_fast.specs.Listed.{places_of, Knows};

    /// An index without a text.
    pub fn new(alloc: Global) -> TextIndex<'g>
        ensures { Knows result.places [] }
    {
        TextIndex {
            alloc,
            places: BTreeMap::new(alloc),
        }
    }

    /// Adds a text after the others, of which there are `at`.
    pub fn add(&mut self, text: &'g [u8], at: usize) -> Result<(), NoMemory>
        ensures { OnOk result ((texts : List (List ℕ)) → length texts ≡ at → Knows self.old.places texts
            → Knows self.new.places (texts ++ text.entry.now ∷ [])) }
    {
        let mut all = list_of(self.alloc, self.places.remove(text));
        all.push(at)?;
        self.places.insert(text, all)?;
        Ok(())
    }

    /// The places of a text.
    pub fn places(&self, text: &[u8]) -> &[usize]
        ensures { (texts : List (List ℕ)) → Knows self.entry.now.places texts → result.now ≡ places_of text.now 0 texts }
    {
        match self.places.get(text) {
            None => &[],
            Some(all) => all.as_slice(),
        }
    }

    /// Whether a text is among them.
    pub fn contains(&self, text: &[u8]) -> bool
        ensures { (texts : List (List ℕ)) → Knows self.now.places texts → result ≡ contains_text texts text.now }
    {
        !self.places(text).is_empty()
    }
}

fn list_of(alloc: Global, found: Option<Vec<usize>>) -> Vec<usize>
    ensures { result.items ≡ kept_places found }
{
    match found {
        Some(all) => all,
        None => Vec::new(alloc),
    }
}

/// Those of a text's places that are at or after a place.
pub(crate) fn places_from(all: &[usize], from: usize) -> &[usize]
    ensures { (text : List ℕ) (texts : List (List ℕ)) → from ≤ length texts → all.entry.now ≡ places_of text 0 texts
        → result.now ≡ places_of text from (drop from texts) }
{
    let at = all.partition_point(|place| *place < from);
    &all[at..]
}
