//! Faults in rows of numbers.
use crate::fault::{Fault, FaultHead, key};
use crate::memory::NoMemory;
use crate::row::{Row, fits, row_of, whole_row};
use crate::row_fault::{fault_at, head_at};
use crate::row_key::{put_in_order, search_rows};
use crate::texts::{Texts, no_texts};
use std::alloc::Global;
use std::marker::Model;

/// How many pairs of texts there are at most, so that each has an index of 32 bits.
const MOST_PAIRS: usize = 0xFFFF_FFF0;

/// Faults in rows of numbers, with the texts that they share. Contracts see their list.
#[derive(Debug, Drop)]
pub(crate) struct FaultRows<'a> {
    rows: Vec<Row>,
    texts: Texts<'a>,
    /// The faults that fit no row.
    whole: Vec<Fault<'a>>,
}

impl<'a> Model for FaultRows<'a> {
    ghost use Rattle.std.specs.Prelude.{List, map};
    ghost use Rattle.hub_kinds.specs.declared.fault.Fault.{Fault};
    ghost use Rattle.hub_kinds.specs.Rows.{AreKept, fault_at};

    ghost Value = { List Fault };

    ghost view = { λ f. map (fault_at f.texts.pairs.items f.whole.items) f.rows.items };

    ghost invariant = { λ f. AreKept f.texts.pairs.items f.whole.items f.rows.items };
}

impl<'a> FaultRows<'a> {
    ghost use Rattle.std.specs.Prelude.{◌≡◌, ◌↔◌, ◌<◌, ◌++◌, ◌∷◌, [], length, OnOk, slice_index_or};
    ghost use Rattle.std.specs.List.{Contains};
    ghost use Rattle.std.specs.List.Sorted.{IsBinarySearchResult, IsSearchInRange};
    ghost use Rattle.hub_kinds.specs.declared.fault.Fault.{Fault};
    ghost use Rattle.hub_kinds.specs.Fault.{AreRising, head_of, key_of};
    ghost use Rattle.hub_kinds.specs.Rising.{IsKeyedBy, order_by};

    /// No fault.
    pub(crate) fn new(alloc: Global) -> FaultRows<'a>
        ensures { result ≡ [] }
    {
        FaultRows {
            rows: Vec::new(alloc),
            texts: no_texts(alloc),
            whole: Vec::new(alloc),
        }
    }

    /// How many faults there are.
    pub(crate) fn len(&self) -> usize
        ensures value { result ≡ length self.now }
        ensures bound { length self.now < 9223372036854775808 }
    {
        self.rows.len()
    }

    /// Adds a fault. The only error is out of memory.
    pub(crate) fn push(&mut self, fault: Fault<'a>) -> Result<(), NoMemory>
        ensures { OnOk result (self.new ≡ self.old ++ fault.entry ∷ []) }
    {
        if fits(&fault) && self.texts.pairs.len() < MOST_PAIRS {
            let row = row_of(&mut self.texts, &fault)?;
            self.rows.push(row)?;
        } else {
            let row = whole_row(self.whole.len() as u64);
            self.whole.push(fault)?;
            self.rows.push(row)?;
        }
        Ok(())
    }

    /// The fault at an index.
    pub(crate) fn at(&self, index: usize) -> Fault<'a>
        requires { index < length self.now }
        ensures { (f : Fault) → result ≡ slice_index_or self.now index f }
    {
        let row = &self.rows[index];
        fault_at(self.texts.pairs.as_slice(), self.whole.as_slice(), row)
    }

    /// What the fault at an index says without its texts.
    pub(crate) fn head(&self, index: usize) -> FaultHead
        requires { index < length self.now }
        ensures { (f : Fault) → result ≡ head_of (slice_index_or self.now index f) }
    {
        let row = &self.rows[index];
        head_at(self.whole.as_slice(), row)
    }

    /// Where a fault with the key of this one is, if the faults are in order.
    pub(crate) fn search(&self, fault: &Fault) -> Result<usize, usize>
        ensures bound { IsSearchInRange result (length self.now) }
        ensures position { IsBinarySearchResult (λ other. order_by key_of other fault.now) self.now result }
    {
        search_rows(self.whole.as_slice(), self.rows.as_slice(), &key(fault))
    }

    /// Puts the faults in the order of their keys, each once. No two different ones may share a key.
    pub(crate) fn put_in_order(&mut self)
        requires { IsKeyedBy key_of self.old }
        ensures same { (f : Fault) → Contains self.new f ↔ Contains self.old f }
        ensures rising { AreRising self.new }
    {
        put_in_order(self.whole.as_slice(), &mut self.rows);
    }
}
