ghost use Rattle.std.specs.Prelude.{◌≤◌};

use crate::places::{BodyPlace, GroupPlace, SetPlace, Stretch};
use hub_kinds::NoMemory;
use std::alloc::Global;
use std::mem;
use x12_segs::Kind;

/// What has been read of an interchange so far.
#[derive(Drop)]
pub(crate) struct Builder {
    /// The groups that are whole.
    pub(crate) groups: Vec<GroupPlace>,
    /// How many TA1 stood directly in the interchange.
    pub(crate) ta1s: u32,
    /// Whether a segment was out of place.
    pub(crate) misplaced: bool,
    /// The GS of the open group.
    pub(crate) group: Option<Stretch>,
    /// The whole sets of the open group.
    pub(crate) sets: Vec<SetPlace>,
    /// The ST of the open set.
    pub(crate) set: Option<Stretch>,
    /// How many segments are after that ST.
    pub(crate) count: u32,
    /// The last of these.
    pub(crate) last: Option<Stretch>,
    /// How many segments were taken: what bounds the counts.
    pub(crate) seen: u32,
    ghost few_ta1s: { ta1s ≤ seen },
    ghost few_segments: { count ≤ seen },
}

impl Builder {
    ghost use Rattle.std.specs.Prelude.{◌≡◌, ℕ, ◌+◌, ◌<◌, ◌≤◌, ◌^◌, List, OnOk, IfOk, option_map, unwrap_or};
    ghost use Rattle.x12_bytes.specs.declared.delims.Delims.{Delims};
    ghost use Rattle.env_index.specs.Places.{seg_in, body_in};
    ghost use Rattle.x12_segs.specs.declared.kind.Kind.TheVariants.{Other};
    ghost use Rattle.env_index.specs.Reading.{step, end_set, end_group, end_all, finished, nothing_read, state_of};

    /// Nothing yet.
    pub(crate) fn new(alloc: Global) -> Builder
        ensures seen { result.seen ≡ 0 }
        ensures state { (text : List ℕ) (delims : Delims) → state_of text delims result ≡ nothing_read }
    {
        Builder {
            groups: Vec::new(alloc),
            ta1s: 0,
            misplaced: false,
            group: None,
            sets: Vec::new(alloc),
            set: None,
            count: 0,
            last: None,
            seen: 0,
        }
    }

    /// Ends the open set, without an SE or with this one.
    pub(crate) fn end_set(&mut self, trailer: Option<Stretch>) -> Result<(), NoMemory>
        requires { self.old.seen + 2 < 2 ^ 32 }
        ensures seen { self.new.seen ≡ self.old.seen }
        ensures state { OnOk result ((text : List ℕ) (delims : Delims) →
            state_of text delims self.new ≡ end_set (option_map (seg_in text delims) trailer) (state_of text delims self.old)) }
    {
        let Some(header) = self.set else {
            return Ok(());
        };
        let place = match trailer {
            Some(last) => SetPlace {
                header,
                segments: self.count + 2,
                last,
                closed: true,
            },
            None => SetPlace {
                header,
                segments: self.count + 1,
                last: self.last_segment(header),
                closed: false,
            },
        };
        self.sets.push(place)?;
        self.set = None;
        Ok(())
    }

    /// The last segment of the open set, which has this ST, before an SE.
    fn last_segment(&self, header: Stretch) -> Stretch
        ensures { (text : List ℕ) (delims : Delims) → seg_in text delims result
            ≡ unwrap_or (option_map (seg_in text delims) self.now.last) (seg_in text delims header) }
    {
        match self.last {
            Some(last) => last,
            None => header,
        }
    }

    /// Ends the open group, without a GE or with this one.
    pub(crate) fn end_group(
        &mut self,
        alloc: Global,
        trailer: Option<Stretch>,
    ) -> Result<(), NoMemory>
        ensures seen { self.new.seen ≡ self.old.seen }
        ensures state { OnOk result ((text : List ℕ) (delims : Delims) →
            state_of text delims self.new ≡ end_group (option_map (seg_in text delims) trailer) (state_of text delims self.old)) }
    {
        if let Some(header) = self.group {
            let sets = mem::replace(&mut self.sets, Vec::new(alloc));
            self.groups.push(GroupPlace {
                header,
                sets,
                trailer,
            })?;
            self.group = None;
        }
        Ok(())
    }

    /// Ends all that is open.
    pub(crate) fn end_all(&mut self, alloc: Global) -> Result<(), NoMemory>
        requires { self.old.seen + 2 < 2 ^ 32 }
        ensures seen { self.new.seen ≡ self.old.seen }
        ensures state { OnOk result ((text : List ℕ) (delims : Delims) →
            state_of text delims self.new ≡ end_all (state_of text delims self.old)) }
    {
        self.end_set(None)?;
        self.end_group(alloc, None)
    }

    /// Takes one more segment, by its kind.
    pub(crate) fn take(&mut self, alloc: Global, kind: Kind, place: Stretch) -> Result<(), NoMemory>
        requires { self.old.seen + 3 < 2 ^ 32 }
        ensures seen { self.new.seen ≡ self.old.seen + 1 }
        ensures state { OnOk result ((text : List ℕ) (delims : Delims) →
            state_of text delims self.new ≡ step kind (seg_in text delims place) (state_of text delims self.old)) }
    {
        self.seen += 1;
        match kind {
            Kind::InterchangeTrailer => self.end_all(alloc)?,
            Kind::GroupHeader => self.open_group(alloc, place)?,
            Kind::GroupTrailer => self.close_group(alloc, place)?,
            Kind::SetHeader => self.open_set(place)?,
            Kind::SetTrailer => self.close_set(place)?,
            Kind::Ta1 => self.take_ta1(place),
            Kind::Other => self.take_other(place),
        }
        Ok(())
    }

    /// Takes one more segment that isn't a control segment.
    pub(crate) fn take_inner(&mut self, place: Stretch)
        requires { self.old.seen + 3 < 2 ^ 32 }
        ensures seen { self.new.seen ≡ self.old.seen + 1 }
        ensures state { (text : List ℕ) (delims : Delims) →
            state_of text delims self.new ≡ step Other (seg_in text delims place) (state_of text delims self.old) }
    {
        self.seen += 1;
        self.take_other(place);
    }

    /// Ends all that is open, at the interchange's end.
    pub(crate) fn finish(
        mut self,
        alloc: Global,
        trailer: Option<Stretch>,
        end: usize,
    ) -> Result<BodyPlace, NoMemory>
        requires { self.seen + 2 < 2 ^ 32 }
        ensures end { IfOk result (λ body. body.end ≡ end) }
        ensures body { IfOk result (λ body. (text : List ℕ) (delims : Delims) →
            body_in text delims body ≡ finished (option_map (seg_in text delims) trailer) (end_all (state_of text delims self))) }
    {
        self.end_all(alloc)?;
        let Builder {
            groups,
            ta1s,
            misplaced,
            ..
        } = self;
        Ok(BodyPlace {
            groups,
            ta1s,
            misplaced,
            trailer,
            end,
        })
    }
}
