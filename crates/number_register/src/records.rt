ghost use Rattle.std.specs.Prelude.{◌≡◌, ◌≤◌, ◌++◌, ◌∷◌, [], false, Contains, IfOk, IfErr, OnOk, OnErr};
ghost use Rattle.std.specs.List.{list_all};
ghost use Rattle.env_index.specs.Words.{places_of};
ghost use Rattle.work_core.specs.Complete.{AreOnce};
ghost use Rattle.work_core.specs.Core.{was_recorded};
ghost use Rattle.number_register.specs.Placing.{IsKeyAt, IsPlaced};
ghost use Rattle.number_register.specs.Recording.{IsEarlierIn, IsFull, IsRefused, IsShort};
ghost use Rattle.number_register.specs.declared.key.Key.TheVariants.{OfGroup, OfInterchange, OfSet};

use crate::book::Book;
use crate::books::Books;
use crate::fault::RecordFault;
use crate::full::{FullRegister, Short};
use crate::key::{InterchangeKey, Key, key_at};
use crate::making::{group_books, set_books};
use env_index::Index;
use hub_kinds::{Items, NoMemory, Place};
use std::alloc::Global;
use std::marker::Model;

/// The places recorded so far, each once.
#[derive(Drop)]
pub struct Records<'i, 'a> {
    index: &'i Index<'a>,
    places: Items<Place>,
    recorded: Vec<Place>,
    interchanges: Book<InterchangeKey<'a>>,
    groups: Books<u64>,
    sets: Vec<Books<&'a [u8]>>,
}

impl<'i, 'a> Model for Records<'i, 'a> {
    ghost use Rattle.number_register.specs.Recording.{Recording};
    ghost use Rattle.number_register.specs.Inside.{recording_of, IsRecords};

    ghost Value = { Recording };

    ghost view = { recording_of };

    ghost invariant = { IsRecords };
}

impl<'i, 'a> Records<'i, 'a> {
    /// Nothing is recorded yet.
    pub fn new(alloc: Global, index: &'i Index<'a>) -> Result<Records<'i, 'a>, NoMemory>
        ensures { IfOk result (λ r. (r.index ≡ index.entry.now) × (r.recorded ≡ [])) }
    {
        let entries = index.interchanges();
        let interchanges = Book::new(alloc, entries.len())?;
        let groups = group_books(alloc, entries)?;
        let sets = set_books(alloc, entries)?;
        let places = index.places(alloc)?;
        let recorded = Vec::with_capacity(alloc, places.as_slice().len())?;
        Ok(Records {
            index,
            places,
            recorded,
            interchanges,
            groups,
            sets,
        })
    }

    /// The places that were recorded, in the order of recording.
    pub fn recorded(&self) -> &[Place]
        ensures { result.now ≡ self.now.recorded }
    {
        self.recorded.as_slice()
    }

    // The places of the index.
    pub(crate) fn places(&self, alloc: Global) -> Result<Items<Place>, NoMemory>
        ensures { IfOk result (λ places. places ≡ places_of self.now.index) }
    {
        Ok(self.index.places(alloc)?)
    }

    // The places that were recorded, once each place of the index is.
    pub(crate) fn recorded_once(&self) -> &[Place]
        requires { IsFull self.now }
        ensures value { result.now ≡ self.now.recorded }
        ensures once { AreOnce (places_of self.now.index) self.now.recorded }
    {
        let recorded = &self.recorded;
        recorded.as_slice()
    }

    /// Records a place of the index, at the end. Errors: it was recorded before; else memory is refused. Both leave the records as
    /// they were.
    pub fn record(&mut self, place: Place) -> Result<(), RecordFault>
        requires { Contains (places_of self.old.index) place }
        ensures index { self.new.index ≡ self.old.index }
        ensures ok { OnOk result ((was_recorded self.old.recorded place ≡ false) × (self.new.recorded ≡ self.old.recorded ++ place ∷ [])) }
        ensures err { IfErr result (λ e. IsRefused e self.old.recorded place × (self.new.recorded ≡ self.old.recorded)) }
    {
        let key = key_at(self.index, place);
        self.record_key(place, key)
    }

    pub(crate) fn record_key(&mut self, place: Place, key: Key<'a>) -> Result<(), RecordFault>
        requires place { Contains (places_of self.old.index) place }
        requires key { IsKeyAt self.old.index.entries place key }
        ensures index { self.new.index ≡ self.old.index }
        ensures ok { OnOk result ((was_recorded self.old.recorded place ≡ false) × (self.new.recorded ≡ self.old.recorded ++ place ∷ [])) }
        ensures err { IfErr result (λ e. IsRefused e self.old.recorded place × (self.new.recorded ≡ self.old.recorded)) }
    {
        if self.holds(place) {
            return Err(RecordFault::Already);
        }
        match self.put(place, key) {
            Ok(()) => Ok(()),
            Err(_) => Err(RecordFault::NoMemory),
        }
    }

    fn holds(&self, place: Place) -> bool
        requires { IsPlaced self.now.index.entries place }
        ensures { result ≡ was_recorded self.now.recorded place }
    {
        let n = place.isa as usize - 1;
        if place.gs == 0 {
            return self.interchanges.holds(n);
        }
        let k = place.gs as usize - 1;
        if place.st == 0 {
            return self.groups.holds(n, k);
        }
        self.sets[n].holds(k, place.st as usize - 1)
    }

    fn put(&mut self, place: Place, key: Key<'a>) -> Result<(), NoMemory>
        requires place { Contains (places_of self.old.index) place }
        requires key { IsKeyAt self.old.index.entries place key }
        requires fresh { was_recorded self.old.recorded place ≡ false }
        ensures index { self.new.index ≡ self.old.index }
        ensures ok { OnOk result (self.new.recorded ≡ self.old.recorded ++ place ∷ []) }
        ensures err { OnErr result (self.new.recorded ≡ self.old.recorded) }
    {
        match key {
            Key::OfInterchange(number) => self.put_interchange(place, number),
            Key::OfGroup(code) => self.put_group(place, code),
            Key::OfSet(control) => self.put_set(place, control),
        }
    }

    fn put_interchange(&mut self, place: Place, number: InterchangeKey<'a>) -> Result<(), NoMemory>
        requires place { Contains (places_of self.old.index) place }
        requires key { IsKeyAt self.old.index.entries place (OfInterchange number) }
        requires fresh { was_recorded self.old.recorded place ≡ false }
        ensures index { self.new.index ≡ self.old.index }
        ensures ok { OnOk result (self.new.recorded ≡ self.old.recorded ++ place ∷ []) }
        ensures err { OnErr result (self.new.recorded ≡ self.old.recorded) }
    {
        let n = place.isa as usize - 1;
        self.recorded.reserve(1)?;
        self.interchanges.add(n, number)?;
        self.recorded.push_reserved(place);
        Ok(())
    }

    fn put_group(&mut self, place: Place, code: u64) -> Result<(), NoMemory>
        requires place { Contains (places_of self.old.index) place }
        requires key { IsKeyAt self.old.index.entries place (OfGroup code) }
        requires fresh { was_recorded self.old.recorded place ≡ false }
        ensures index { self.new.index ≡ self.old.index }
        ensures ok { OnOk result (self.new.recorded ≡ self.old.recorded ++ place ∷ []) }
        ensures err { OnErr result (self.new.recorded ≡ self.old.recorded) }
    {
        let n = place.isa as usize - 1;
        let k = place.gs as usize - 1;
        self.recorded.reserve(1)?;
        self.groups.add(n, k, code)?;
        self.recorded.push_reserved(place);
        Ok(())
    }

    fn put_set(&mut self, place: Place, control: &'a [u8]) -> Result<(), NoMemory>
        requires place { Contains (places_of self.old.index) place }
        requires key { IsKeyAt self.old.index.entries place (OfSet control) }
        requires fresh { was_recorded self.old.recorded place ≡ false }
        ensures index { self.new.index ≡ self.old.index }
        ensures ok { OnOk result (self.new.recorded ≡ self.old.recorded ++ place ∷ []) }
        ensures err { OnErr result (self.new.recorded ≡ self.old.recorded) }
    {
        let n = place.isa as usize - 1;
        let k = place.gs as usize - 1;
        let j = place.st as usize - 1;
        self.recorded.reserve(1)?;
        self.sets[n].add(k, j, control)?;
        self.recorded.push_reserved(place);
        Ok(())
    }

    fn is_full(&self) -> bool
        ensures { result ≡ list_all (was_recorded self.now.recorded) (places_of self.now.index) }
    {
        for place in self.places.as_slice() {
            if !self.holds(*place) {
                return false;
            }
        }
        true
    }

    /// The records as those of a whole index: Ok exactly where each place of it is recorded. Else they are handed back.
    pub fn finish(self) -> Result<FullRegister<'i, 'a>, Short<'i, 'a>>
        ensures ok { IfOk result (λ f. (f ≡ self.entry) × IsFull self.entry) }
        ensures err { IfErr result (λ s. (s.records ≡ self.entry) × IsShort self.entry) }
    {
        if self.is_full() {
            Ok(FullRegister::new(self))
        } else {
            Err(Short { records: self })
        }
    }

    /// The first use of a place's number, where that is an earlier place.
    pub(crate) fn earlier_use(&self, place: Place) -> Option<Place>
        requires place { Contains (places_of self.now.index) place }
        requires full { IsFull self.now }
        ensures { IsEarlierIn self.now.index place result }
    {
        if place.gs == 0 {
            return self.earlier_interchange(place, place.isa);
        }
        if place.st == 0 {
            return self.earlier_group(place, place.gs);
        }
        self.earlier_set(place, place.st)
    }

    fn earlier_interchange(&self, place: Place, isa: u32) -> Option<Place>
        requires place { Contains (places_of self.now.index) place }
        requires full { IsFull self.now }
        requires kind { (isa ≡ place.isa) × (place.gs ≡ 0) }
        ensures { IsEarlierIn self.now.index place result }
    {
        match self.interchanges.earlier(isa as usize - 1) {
            None => None,
            Some(first) => Some(Place {
                isa: first as u32 + 1,
                gs: 0,
                st: 0,
            }),
        }
    }

    fn earlier_group(&self, place: Place, gs: u32) -> Option<Place>
        requires place { Contains (places_of self.now.index) place }
        requires full { IsFull self.now }
        requires kind { (gs ≡ place.gs) × (1 ≤ place.gs) × (place.st ≡ 0) }
        ensures { IsEarlierIn self.now.index place result }
    {
        let n = place.isa as usize - 1;
        match self.groups.earlier(n, gs as usize - 1) {
            None => None,
            Some(first) => Some(Place {
                isa: place.isa,
                gs: first as u32 + 1,
                st: 0,
            }),
        }
    }

    fn earlier_set(&self, place: Place, st: u32) -> Option<Place>
        requires place { Contains (places_of self.now.index) place }
        requires full { IsFull self.now }
        requires kind { (st ≡ place.st) × (1 ≤ place.gs) × (1 ≤ place.st) }
        ensures { IsEarlierIn self.now.index place result }
    {
        let books = &self.sets[place.isa as usize - 1];
        match books.earlier(place.gs as usize - 1, st as usize - 1) {
            None => None,
            Some(first) => Some(Place {
                isa: place.isa,
                gs: place.gs,
                st: first as u32 + 1,
            }),
        }
    }
}
