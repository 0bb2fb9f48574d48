use crate::builder::Builder;
use crate::places::Stretch;
use hub_kinds::NoMemory;
use std::alloc::Global;

impl Builder {
    ghost use Rattle.std.specs.Prelude.{◌≡◌, ◌+◌, ◌<◌, ◌^◌, ℕ, List, OnOk};
    ghost use Rattle.x12_bytes.specs.declared.delims.Delims.{Delims};
    ghost use Rattle.env_index.specs.Places.{seg_in};
    ghost use Rattle.env_index.specs.Reading.{step, state_of};
    ghost use Rattle.x12_segs.specs.declared.kind.Kind.TheVariants.{GroupHeader, GroupTrailer, SetHeader, SetTrailer, Ta1, Other};

    /// Takes a GS: all that is open ends, and a group begins.
    pub(crate) fn open_group(&mut self, alloc: Global, header: Stretch) -> Result<(), NoMemory>
        requires { self.old.seen + 2 < 2 ^ 32 }
        ensures seen { self.new.seen ≡ self.old.seen }
        ensures state { OnOk result ((text : List ℕ) (delims : Delims) →
            state_of text delims self.new ≡ step GroupHeader (seg_in text delims header) (state_of text delims self.old)) }
    {
        self.end_all(alloc)?;
        self.group = Some(header);
        self.sets.clear();
        self.set = None;
        Ok(())
    }

    /// Takes a GE, which ends the open group; without one it is out of place.
    pub(crate) fn close_group(&mut self, alloc: Global, trailer: Stretch) -> Result<(), NoMemory>
        requires { self.old.seen + 2 < 2 ^ 32 }
        ensures seen { self.new.seen ≡ self.old.seen }
        ensures state { OnOk result ((text : List ℕ) (delims : Delims) →
            state_of text delims self.new ≡ step GroupTrailer (seg_in text delims trailer) (state_of text delims self.old)) }
    {
        if self.group.is_none() {
            self.misplaced = true;
            return Ok(());
        }
        self.end_set(None)?;
        self.end_group(alloc, Some(trailer))
    }

    /// Takes an ST, which begins a set in the open group; without one it is out of place.
    pub(crate) fn open_set(&mut self, header: Stretch) -> Result<(), NoMemory>
        requires { self.old.seen + 2 < 2 ^ 32 }
        ensures seen { self.new.seen ≡ self.old.seen }
        ensures state { OnOk result ((text : List ℕ) (delims : Delims) →
            state_of text delims self.new ≡ step SetHeader (seg_in text delims header) (state_of text delims self.old)) }
    {
        if self.group.is_none() {
            self.misplaced = true;
            return Ok(());
        }
        self.end_set(None)?;
        self.set = Some(header);
        self.count = 0;
        self.last = None;
        Ok(())
    }

    /// Takes an SE, which ends the open set; without one it is out of place.
    pub(crate) fn close_set(&mut self, trailer: Stretch) -> Result<(), NoMemory>
        requires { self.old.seen + 2 < 2 ^ 32 }
        ensures seen { self.new.seen ≡ self.old.seen }
        ensures state { OnOk result ((text : List ℕ) (delims : Delims) →
            state_of text delims self.new ≡ step SetTrailer (seg_in text delims trailer) (state_of text delims self.old)) }
    {
        if self.group.is_none() || self.set.is_none() {
            self.misplaced = true;
            return Ok(());
        }
        self.end_set(Some(trailer))
    }

    /// Takes a TA1: directly in the interchange it is counted, in a set it is one of its segments.
    pub(crate) fn take_ta1(&mut self, place: Stretch)
        requires ta1s { self.old.ta1s < self.old.seen }
        requires segments { self.old.count < self.old.seen }
        ensures seen { self.new.seen ≡ self.old.seen }
        ensures state { (text : List ℕ) (delims : Delims) →
            state_of text delims self.new ≡ step Ta1 (seg_in text delims place) (state_of text delims self.old) }
    {
        if self.group.is_none() {
            self.ta1s += 1;
        } else if self.set.is_none() {
            self.misplaced = true;
        } else {
            self.count += 1;
            self.last = Some(place);
        }
    }

    /// Takes any other segment, which may be in a set alone.
    pub(crate) fn take_other(&mut self, place: Stretch)
        requires { self.old.count < self.old.seen }
        ensures seen { self.new.seen ≡ self.old.seen }
        ensures state { (text : List ℕ) (delims : Delims) →
            state_of text delims self.new ≡ step Other (seg_in text delims place) (state_of text delims self.old) }
    {
        if self.group.is_none() || self.set.is_none() {
            self.misplaced = true;
        } else {
            self.count += 1;
            self.last = Some(place);
        }
    }
}
