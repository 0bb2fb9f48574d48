ghost use Rattle.std.specs.Prelude.{◌≡◌, ◌+◌, ◌<◌, ◌≤◌, ◌^◌, List, Some, IfOk, length, map, slice_get};
ghost use Rattle.std.specs.List.{flat_map};
ghost use Rattle.std.specs.Thread.{IsSync};
ghost use Rattle.answered_sets.specs.Judged.{PlacedValue};
ghost use Rattle.mailbox.specs.Numbers.{HasCounters};
ghost use Rattle.mailbox.specs.Parts.{AreParts, rendered_part};
ghost use Rattle.mailbox.specs.Rendered.{rendered_from};
ghost use Rattle.mailbox.specs.declared.parts.Part.{Part};

use crate::parts::{Part, parts_of};
use crate::rendered_sets::Row;
use crate::row::write_row;
use answered_sets::PlacedSet;
use hub_kinds::NoMemory;
use job_pool::{ManyThreads, OneThread};
use partner_setup::Partner;
use rayon::prelude::*;
use std::alloc::Global;
use std::thread::Threads;

/// How many sets a thread is worth being started for.
const FEWEST: usize = 64;

/// Who writes the sets that are delivered to a partner: one thread, or many.
pub trait Writers {
    // it can be shared by the threads that write
    ghost is_ready: { Self → Type 0 };

    /// Writes sets that are delivered to a partner, before which `k` sets were delivered to it, front to back (X12.6, transaction
    /// set): in parts, which are all of them one after the other. The only error is out of memory.
    fn write_sets(
        &self,
        alloc: Global,
        partner: &Partner,
        k: u64,
        sets: &[PlacedSet<'_, '_, '_>],
    ) -> Result<Vec<Row>, NoMemory>
        requires ready { is_ready self.now }
        requires counters { HasCounters partner.now }
        requires few { k + length sets.now < 2 ^ 64 }
        ensures { IfOk result (λ parts. flat_map (λ sets. sets) parts.items ≡ rendered_from partner.now k sets.now) };
}

impl Writers for OneThread {
    ghost is_ready = { λ w. Unit {0} };

    fn write_sets(
        &self,
        alloc: Global,
        partner: &Partner,
        k: u64,
        sets: &[PlacedSet<'_, '_, '_>],
    ) -> Result<Vec<Row>, NoMemory> {
        let mut parts = Vec::new(alloc);
        parts.push(write_row(alloc, partner, k, sets)?)?;
        Ok(parts)
    }
}

impl<'r, R: Threads + Sync> Writers for ManyThreads<'r, R> {
    ghost is_ready = { λ w. IsSync R.row };

    fn write_sets(
        &self,
        alloc: Global,
        partner: &Partner,
        k: u64,
        sets: &[PlacedSet<'_, '_, '_>],
    ) -> Result<Vec<Row>, NoMemory> {
        let share = self.share_of(sets.len(), FEWEST);
        let parts = parts_of(alloc, sets.len(), share)?;
        write_by(self.rt, alloc, parts.as_slice(), partner, k, sets)
    }
}

/// Writes the sets of a part.
fn write_part(
    alloc: Global,
    partner: &Partner,
    k: u64,
    sets: &[PlacedSet<'_, '_, '_>],
    part: Part,
) -> Result<Row, NoMemory>
    requires counters { HasCounters partner.now }
    requires few { k + length sets.now < 2 ^ 64 }
    requires order { part.from ≤ part.to }
    requires within { part.to ≤ length sets.now }
    ensures { IfOk result (λ v. v ≡ rendered_part partner.now k sets.now part) }
{
    write_row(
        alloc,
        partner,
        k + part.from as u64,
        &sets[part.from..part.to],
    )
}

/// Writes sets in threads, a part in each, and gathers what they wrote front to back.
fn write_by<R: Threads + Sync>(
    rt: &R,
    alloc: Global,
    parts: &[Part],
    partner: &Partner,
    k: u64,
    sets: &[PlacedSet<'_, '_, '_>],
) -> Result<Vec<Row>, NoMemory>
    requires counters { HasCounters partner.now }
    requires few { k + length sets.now < 2 ^ 64 }
    requires parts { AreParts 0 (length sets.now) parts.now }
    ensures { IfOk result (λ v. v.items ≡ map (rendered_part partner.now k sets.now) parts.now) }
{
    let written: Result<Vec<Row>, NoMemory> = (0..parts.len())
        .into_par_iter()
        .with_min_len(1)
        .map(
            |i: usize| -> Result<Row, NoMemory>
                requires { (i < length parts.now) × AreParts 0 (length sets.now) parts.now × HasCounters partner.now
                    × (k + length sets.now < 2 ^ 64) }
                ensures { IfOk result (λ v. (p : Part) → slice_get parts.entry.now i ≡ Some p
                    → v ≡ rendered_part partner.entry.now k sets.entry.now p) }
            { write_part(alloc, partner, k, sets, parts[i]) },
        )
        .collect(rt, alloc)?;
    written
}
