ghost use Rattle.std.specs.Prelude.{◌≡◌};
ghost use Rattle.mailbox.specs.Numbered.{sender_in};

use crate::kept::{Kept, lent_of};
use crate::rendered::Rendered;
use crate::row::append_written;
use crate::writers::Writers;
use answered_sets::PlacedSet;
use hub_kinds::NoMemory;
use partner_setup::Partner;
use std::alloc::Global;
use std::marker::Model;

/// Sets that one thread wrote for a partner, front to back, in one text: of each GS01, GS08 and its own text.
#[derive(Drop)]
pub struct Row {
    text: Vec<u8>,
    sets: Vec<Kept>,
}

impl Model for Row {
    ghost use Rattle.std.specs.Prelude.{List, map};
    ghost use Rattle.std.specs.List.{All};
    ghost use Rattle.mailbox.specs.Kept.{StandsIn, kept_in};
    ghost use Rattle.mailbox.specs.Rendered.{RenderedValue};

    ghost Value = { List RenderedValue };

    ghost view = { λ s. map (kept_in s.text.items) s.sets.items };

    ghost invariant = { λ s. All (StandsIn s.text.items) s.sets.items };
}

impl Row {
    ghost use Rattle.std.specs.Prelude.{◌≡◌, ◌++◌, ◌∷◌, [], IfOk, OnOk};
    ghost use Rattle.mailbox.specs.Numbers.{HasCounters};
    ghost use Rattle.mailbox.specs.Rendered.{rendered};

    /// None yet, with room for this many bytes and sets.
    pub(crate) fn with_room(alloc: Global, bytes: usize, sets: usize) -> Result<Row, NoMemory>
        ensures { IfOk result (λ all. all ≡ []) }
    {
        Ok(Row {
            text: Vec::with_capacity(alloc, bytes)?,
            sets: Vec::with_capacity(alloc, sets)?,
        })
    }

    /// With a set more, before which `k` sets were delivered to the partner.
    pub(crate) fn with(
        self,
        partner: &Partner,
        k: u64,
        placed: &PlacedSet<'_, '_, '_>,
    ) -> Result<Row, NoMemory>
        requires { HasCounters partner.now }
        ensures { IfOk result (λ all. all ≡ self ++ rendered partner.now k placed.now ∷ []) }
    {
        let Row { mut text, mut sets } = self;
        let header = placed.group().header();
        let id = header.element(1);
        let version = header.element(8);
        let from = text.len();
        append_written(&mut text, partner, k, placed, id, version)?;
        sets.push(Kept {
            from,
            to: text.len(),
            id_len: id.len(),
            version_len: version.len(),
            sender: sender_in(placed),
        })?;
        Ok(Row { text, sets })
    }

    /// Lends the sets, after those that were lent before.
    fn append_lent<'r>(&'r self, lent: &mut Vec<Rendered<'r>>) -> Result<(), NoMemory>
        ensures { OnOk result (lent.new.items ≡ lent.old.items ++ self.entry.now) }
    {
        let text = self.text.as_slice();
        for i in 0..self.sets.len() {
            lent.push(lent_of(text, self.sets[i]))?;
        }
        Ok(())
    }
}

/// The sets that were written for one partner, front to back, in the rows in which they were written.
#[derive(Drop)]
pub struct RenderedSets {
    rows: Vec<Row>,
    count: usize,
}

impl Model for RenderedSets {
    ghost use Rattle.std.specs.Prelude.{◌≡◌, List, length};
    ghost use Rattle.std.specs.List.{flat_map};
    ghost use Rattle.mailbox.specs.Rendered.{RenderedValue};

    ghost Value = { List RenderedValue };

    ghost view = { λ s. flat_map (λ sets. sets) s.rows.items };

    ghost invariant = { λ s. s.count ≡ length (flat_map (λ sets. sets) s.rows.items) };
}

impl RenderedSets {
    ghost use Rattle.std.specs.Prelude.{◌≡◌, ◌++◌, [], IfOk, OnOk, length};
    ghost use Rattle.mailbox.specs.Numbers.{HasCounters};
    ghost use Rattle.mailbox.specs.Rendered.{rendered_from};

    /// None yet.
    pub(crate) fn none(alloc: Global) -> RenderedSets
        ensures { result ≡ [] }
    {
        RenderedSets {
            rows: Vec::new(alloc),
            count: 0,
        }
    }

    /// How many they are.
    pub fn count(&self) -> u64
        ensures { result ≡ length self.now }
    {
        self.count as u64
    }

    /// The sets, lent.
    pub(crate) fn lent(&self, alloc: Global) -> Result<Vec<Rendered<'_>>, NoMemory>
        ensures { IfOk result (λ sets. sets.items ≡ self.now) }
    {
        let mut lent = Vec::with_capacity(alloc, self.count)?;
        for i in 0..self.rows.len() {
            let row = &self.rows[i];
            row.append_lent(&mut lent)?;
        }
        Ok(lent)
    }

    /// Writes sets after the others, and numbers them on. No memory holds more sets than can be counted, so that's an error of memory.
    pub(crate) fn add_all<W: Writers>(
        &mut self,
        alloc: Global,
        writers: &W,
        partner: &Partner,
        sets: &[PlacedSet<'_, '_, '_>],
    ) -> Result<(), NoMemory>
        requires ready { W.is_ready writers.now }
        requires counters { HasCounters partner.now }
        ensures { OnOk result (self.new ≡ self.old ++ rendered_from partner.now (length self.old) sets.now) }
    {
        let before = self.count;
        match before.checked_add(sets.len()) {
            None => Err(NoMemory),
            Some(all) => {
                let mut rows = writers.write_sets(alloc, partner, before as u64, sets)?;
                self.rows.append(&mut rows)?;
                self.count = all;
                Ok(())
            }
        }
    }
}

/// The sender's place in the setup.
fn sender_in(placed: &PlacedSet<'_, '_, '_>) -> usize
    ensures { result ≡ sender_in placed.now }
{
    placed.interchange().sender().unwrap_or(0)
}
