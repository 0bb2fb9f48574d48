//! The segments and loops of a proposal as a tree, in which each knows how often it was seen.
use crate::cause::Trouble;
use hub_kinds::NoMemory;
use std::alloc::Global;
use std::collections::{BTreeMap, BTreeSet};
use x12_segs::SegView;

/// What a place of the tree is begun by.
#[derive(Clone, Copy)]
pub(crate) struct Key<'a> {
    pub is_loop: bool,
    /// The id of its segment, or of its first segment.
    pub id: &'a [u8],
    /// The level of a loop that begins with an HL; otherwise empty.
    pub level: &'a [u8],
    /// Where it is in the set: before, in, or after the lines.
    pub zone: u8,
}

/// That a set had a place directly before another one.
#[derive(Clone, Copy)]
pub(crate) struct Step {
    pub to: usize,
    pub sample: usize,
}

/// A segment or a loop under a loop, or under the set.
#[derive(Drop)]
pub(crate) struct Place<'a> {
    pub key: Key<'a>,
    pub is_line: bool,
    /// How often the loop was begun.
    pub times: usize,
    /// In how many uses of its parent it was seen, and how often at most in one.
    pub uses: usize,
    pub most: usize,
    /// The number of the parent's use in which it was seen last, and how often there.
    pub last_use: usize,
    pub now: usize,
    /// The segments of a place that is no loop.
    pub segments: Vec<SegView<'a>>,
    /// The places under a loop, in the order in which they were seen first.
    pub children: Vec<usize>,
    /// What was seen directly after it under the same parent, and how many such steps lead to it.
    pub steps: Vec<Step>,
    pub waits: usize,
}

impl<'a> Place<'a> {
    pub(crate) fn new(alloc: Global, key: Key<'a>) -> Place<'a> {
        Place {
            key,
            is_line: false,
            times: 0,
            uses: 0,
            most: 0,
            last_use: 0,
            now: 0,
            segments: Vec::new(alloc),
            children: Vec::new(alloc),
            steps: Vec::new(alloc),
            waits: 0,
        }
    }
}

/// The places, of which the first is the set; and what was seen of the hierarchy.
#[derive(Drop)]
pub(crate) struct Tree<'a> {
    pub places: Vec<Place<'a>>,
    known: BTreeMap<Vec<u8>, usize>,
    /// How many uses of loops were begun.
    pub uses: usize,
    /// The levels of HL, as a guide file writes them: `PARENT/CHILD`.
    pub pairs: BTreeSet<Vec<u8>>,
    /// Whether each HL01 was the HL's ordinal.
    pub sequential: bool,
    /// The first trouble.
    pub trouble: Option<Trouble<'a>>,
}

/// The bytes by which a place is found: its parent, and its key.
fn name_of(alloc: Global, parent: usize, key: &Key) -> Result<Vec<u8>, NoMemory> {
    let mut name = Vec::from_slice(alloc, &(parent as u64).to_be_bytes())?;
    name.push(key.zone)?;
    name.push(if key.is_loop { 1 } else { 0 })?;
    name.extend_from_slice(key.id)?;
    name.push(0)?;
    name.extend_from_slice(key.level)?;
    Ok(name)
}

impl<'a> Tree<'a> {
    /// A tree of the set alone.
    pub(crate) fn new(alloc: Global) -> Result<Tree<'a>, NoMemory> {
        let mut places = Vec::new(alloc);
        let key = Key {
            is_loop: true,
            id: b"",
            level: b"",
            zone: 0,
        };
        places.push(Place::new(alloc, key))?;
        Ok(Tree {
            places,
            known: BTreeMap::new(alloc),
            uses: 0,
            pairs: BTreeSet::new(alloc),
            sequential: true,
            trouble: None,
        })
    }

    /// The number of the place with a key under a parent; it is made if there is none.
    pub(crate) fn child(
        &mut self,
        alloc: Global,
        parent: usize,
        key: Key<'a>,
    ) -> Result<usize, NoMemory> {
        let name = name_of(alloc, parent, &key)?;
        if let Some(found) = self.known.get(name.as_slice()) {
            return Ok(*found);
        }
        let number = self.places.len();
        self.places.push(Place::new(alloc, key))?;
        if let Some(place) = self.places.get_mut(parent) {
            place.children.push(number)?;
        }
        let _old = self.known.insert(name, number)?;
        Ok(number)
    }

    /// Notes the first trouble.
    pub(crate) fn note(&mut self, trouble: Trouble<'a>) {
        if self.trouble.is_none() {
            self.trouble = Some(trouble);
        }
    }
}
