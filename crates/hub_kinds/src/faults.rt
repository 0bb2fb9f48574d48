ghost use Rattle.std.specs.Prelude.{◌↔◌};
ghost use Rattle.std.specs.List.{Contains};
ghost use Rattle.hub_kinds.specs.declared.fault.Fault.{Fault as FaultValue};
ghost use Rattle.hub_kinds.specs.Fault.{AreRising, key_of};
ghost use Rattle.hub_kinds.specs.Rising.{IsKeyedBy};

use crate::fault::{Fault, FaultHead};
use crate::fault_rows::FaultRows;
use crate::memory::NoMemory;
use std::alloc::Global;
use std::boxed::Box;
use std::marker::Model;

/// A list of faults, which contracts see as the list of them. It keeps each in few bytes: its numbers in 24 bytes, and the texts that
/// were not there before.
#[derive(Debug, Drop)]
pub struct Faults<'a> {
    alloc: Global,
    rows: Option<Box<FaultRows<'a>>>,
}

impl<'a> Model for Faults<'a> {
    ghost use Rattle.std.specs.Prelude.{List, []};
    ghost use Rattle.std.specs.Option.{option_map_or};
    ghost use Rattle.hub_kinds.specs.declared.fault.Fault.{Fault};

    ghost Value = { List Fault };

    ghost view = { λ f. option_map_or (λ rows. rows.value) f.rows [] };
}

impl<'a> Faults<'a> {
    ghost use Rattle.std.specs.Prelude.{◌≡◌, ◌↔◌, ◌<◌, ◌++◌, ◌==◌, ◌∷◌, [], length, OnOk, slice_index_or};
    ghost use Rattle.std.specs.List.{Contains};
    ghost use Rattle.std.specs.List.Sorted.{IsBinarySearchResult, IsSearchInRange};
    ghost use Rattle.hub_kinds.specs.declared.fault.Fault.{Fault};
    ghost use Rattle.hub_kinds.specs.Fault.{AreRising, head_of, key_of};
    ghost use Rattle.hub_kinds.specs.Rising.{IsKeyedBy, order_by};

    /// No fault.
    pub fn new(alloc: Global) -> Faults<'a>
        ensures { result ≡ [] }
    {
        Faults { alloc, rows: None }
    }

    /// How many faults there are.
    pub fn len(&self) -> usize
        ensures value { result ≡ length self.now }
        ensures bound { length self.now < 9223372036854775808 }
    {
        match &self.rows {
            None => 0,
            Some(rows) => rows.len(),
        }
    }

    /// Whether there is none.
    pub fn is_empty(&self) -> bool
        ensures { result ≡ (length self.now == 0) }
    {
        self.len() == 0
    }

    /// Adds a fault. The only error is out of memory.
    pub fn push(&mut self, fault: Fault<'a>) -> Result<(), NoMemory>
        ensures { OnOk result (self.new ≡ self.old ++ fault.entry ∷ []) }
    {
        match &mut self.rows {
            Some(rows) => rows.push(fault)?,
            None => {
                let mut rows = FaultRows::new(self.alloc);
                rows.push(fault)?;
                self.rows = Some(Box::new(self.alloc, rows)?);
            }
        }
        Ok(())
    }

    /// The fault at an index.
    pub fn at(&self, index: usize) -> Fault<'a>
        requires { index < length self.now }
        ensures { (f : Fault) → result ≡ slice_index_or self.now index f }
    {
        match &self.rows {
            None => unreachable!(),
            Some(rows) => rows.at(index),
        }
    }

    /// What the fault at an index says without its texts.
    pub fn head(&self, index: usize) -> FaultHead
        requires { index < length self.now }
        ensures { (f : Fault) → result ≡ head_of (slice_index_or self.now index f) }
    {
        match &self.rows {
            None => unreachable!(),
            Some(rows) => rows.head(index),
        }
    }

    /// Adds other faults after these. The only error is out of memory.
    pub fn append(&mut self, others: Faults<'a>) -> Result<(), NoMemory>
        ensures { OnOk result (self.new ≡ self.old ++ others.entry) }
    {
        for i in 0..others.len() {
            self.push(others.at(i))?;
        }
        Ok(())
    }

    /// Where a fault with the key of `fault` is, if the faults are in order.
    pub fn search(&self, fault: &Fault) -> Result<usize, usize>
        ensures bound { IsSearchInRange result (length self.now) }
        ensures position { IsBinarySearchResult (λ other. order_by key_of other fault.now) self.now result }
    {
        match &self.rows {
            None => Err(0),
            Some(rows) => rows.search(fault),
        }
    }

    /// The faults in the order of their keys, each once. No two different ones may share a key.
    pub fn in_order(self) -> Faults<'a>
        requires { IsKeyedBy key_of self }
        ensures same { (f : Fault) → Contains result f ↔ Contains self.entry f }
        ensures rising { AreRising result }
    {
        let Faults { alloc, rows } = self;
        match rows {
            None => Faults { alloc, rows: None },
            Some(rows) => Faults {
                alloc,
                rows: Some(in_order(rows)),
            },
        }
    }
}

/// The faults of a box in the order of their keys, each once.
fn in_order<'a>(rows: Box<FaultRows<'a>>) -> Box<FaultRows<'a>>
    requires { IsKeyedBy key_of rows.value }
    ensures same { (f : FaultValue) → Contains result.value f ↔ Contains rows.entry.value f }
    ensures rising { AreRising result.value }
{
    let mut rows = rows;
    rows.put_in_order();
    rows
}
