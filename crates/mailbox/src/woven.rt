ghost use Rattle.std.specs.Prelude.{◌≡◌, ◌≤◌, ◌++◌, OnOk, length, map, slice_range};
ghost use Rattle.mailbox.specs.Rendered.{text_in};

use crate::rendered::Rendered;
use crate::rendered_sets::RenderedSets;
use hub_kinds::{Lent, NoMemory};
use std::alloc::Global;
use std::marker::Model;

/// Where sets are between envelopes: after this many bytes of the envelopes, this many of them.
#[derive(Clone, Copy, Debug)]
pub(crate) struct Cut {
    /// How many bytes of the envelopes are before them.
    pub(crate) at: usize,
    /// How many they are.
    pub(crate) sets: usize,
}

/// The text of a mailbox as it is held: the sets in the rows in which they were written, the envelopes in a text of their own, and
/// where sets are between them. It is woven only when it is written: nothing is copied for it.
#[derive(Drop)]
pub struct Woven {
    sets: RenderedSets,
    ends: Vec<u8>,
    cuts: Vec<Cut>,
}

impl Model for Woven {
    ghost use Rattle.std.specs.Prelude.{ℕ, List, length};
    ghost use Rattle.mailbox.specs.Woven.{AreCuts, woven};

    ghost Value = { List ℕ };

    ghost view = { λ w. woven w.ends.items 0 w.cuts.items w.sets };

    ghost invariant = { λ w. AreCuts 0 (length w.ends.items) (length w.sets) w.cuts.items };
}

impl Woven {
    ghost use Rattle.std.specs.Prelude.{◌≡◌, IfOk, length};
    ghost use Rattle.x12_write.specs.Group.{texts_in_row};
    ghost use Rattle.mailbox.specs.Woven.{AreCuts, woven};

    /// Sets with the envelopes that are between them.
    pub(crate) fn new(sets: RenderedSets, ends: Vec<u8>, cuts: Vec<Cut>) -> Woven
        requires { AreCuts 0 (length ends.items) (length sets) cuts.items }
        ensures { result ≡ woven ends.items 0 cuts.items sets }
    {
        Woven { sets, ends, cuts }
    }

    /// The text in parts, one after the other. The only error is out of memory.
    pub fn parts(&self, alloc: Global) -> Result<Vec<Lent<'_>>, NoMemory>
        ensures { IfOk result (λ parts. texts_in_row parts.items ≡ self.now) }
    {
        let sets = self.sets.lent(alloc)?;
        let ends = self.ends.as_slice();
        let mut parts = Vec::with_capacity(alloc, sets.len())?;
        let mut from = 0;
        let mut set = 0;
        for i in 0..self.cuts.len() {
            let cut = self.cuts[i];
            let next = set + cut.sets;
            parts.push(part_of(ends, from, cut.at))?;
            append_texts(&mut parts, sets.as_slice(), set, next)?;
            from = cut.at;
            set = next;
        }
        parts.push(part_of(ends, from, ends.len()))?;
        Ok(parts)
    }
}

/// A part of a text.
fn part_of<'r>(text: &'r [u8], from: usize, to: usize) -> Lent<'r>
    requires order { from ≤ to }
    requires within { to ≤ length text.now }
    ensures { result ≡ slice_range text.entry.now from to }
{
    Lent::new(&text[from..to])
}

/// Adds the texts of sets from a place up to another.
fn append_texts<'r>(
    parts: &mut Vec<Lent<'r>>,
    sets: &[Rendered<'r>],
    from: usize,
    to: usize,
) -> Result<(), NoMemory>
    requires order { from ≤ to }
    requires within { to ≤ length sets.now }
    ensures { OnOk result (parts.new.items ≡ parts.old.items ++ map text_in (slice_range sets.now from to)) }
{
    let some = &sets[from..to];
    for i in 0..some.len() {
        parts.push(Lent::new(some[i].text()))?;
    }
    Ok(())
}
