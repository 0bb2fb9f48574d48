ghost use Rattle.std.specs.Prelude.{◌≡◌, Contains};
ghost use Rattle.env_index.specs.Words.{places_of};
ghost use Rattle.work_core.specs.Complete.{AreOnce};
ghost use Rattle.number_register.specs.Recording.{IsEarlierIn, IsFull};

use crate::records::Records;
use hub_kinds::Place;
use std::marker::Model;

/// Records of which some place of the index is still missing.
#[derive(Drop)]
pub struct Short<'i, 'a> {
    pub records: Records<'i, 'a>,
}

/// The records of all places of an index.
#[derive(Drop)]
pub struct FullRegister<'i, 'a> {
    records: Records<'i, 'a>,
}

impl<'i, 'a> Model for FullRegister<'i, 'a> {
    ghost use Rattle.number_register.specs.Recording.{IsFull, Recording};

    ghost Value = { Recording };

    ghost view = { λ f. f.records };

    ghost invariant = { λ f. IsFull f.records };
}

impl<'i, 'a> FullRegister<'i, 'a> {
    pub(crate) fn new(records: Records<'i, 'a>) -> FullRegister<'i, 'a>
        requires { IsFull records }
        ensures { result ≡ records.entry }
    {
        FullRegister { records }
    }

    /// The places that were recorded, in the order of recording: those of the index, each once.
    pub fn recorded(&self) -> &[Place]
        ensures value { result.now ≡ self.now.recorded }
        ensures once { AreOnce (places_of self.now.index) self.now.recorded }
    {
        self.records.recorded_once()
    }

    /// The first use of a place's number, where that is an earlier place of the index; none where the place is the first with it.
    pub fn earlier_of(&self, place: Place) -> Option<Place>
        requires { Contains (places_of self.now.index) place }
        ensures { IsEarlierIn self.now.index place result }
    {
        self.records.earlier_use(place)
    }
}
