ghost use Rattle.std.specs.Prelude.{◌≡◌, ◌<◌, ◌++◌, ◌∷◌, [], List, Option, Some, None, IfOk, OnOk, OnErr};
ghost use Rattle.std.specs.Prelude.{true, length, slice_get, slice_set};
ghost use Rattle.std.specs.BTreeMap.{get};
ghost use Rattle.std.specs.Bool.{OnFalse};
ghost use Rattle.number_register.specs.First.{AreBelow, AreRising, Follows, Precedes, first_of, where_before};
ghost use Rattle.number_register.specs.Known.{KnowsFirst};

use crate::least::note;
use std::alloc::{AllocError, Global};
use std::collections::BTreeMap;
use std::marker::Model;

/// How far a neighbour is looked for: beyond that the keys are put in order.
const FAR: usize = 64;

/// Keys by position, some of them absent. While keys rise with their positions they are only kept; from the first that doesn't
/// on, or where its neighbours are far, the first position of each is kept in an ordered map. Contracts see the keys.
#[derive(Drop)]
pub struct Book<K: Ord + Copy + Drop> {
    alloc: Global,
    keys: Vec<Option<K>>,
    end: usize,
    least: Option<BTreeMap<K, usize>>,
}

impl<K: Ord + Copy + Drop> Model for Book<K> {
    ghost use Rattle.std.specs.Prelude.{List, Option};
    ghost use Rattle.number_register.specs.First.{AreBelow};
    ghost use Rattle.number_register.specs.Known.{KnowsFirst};

    ghost Value = { List (Option K) };

    ghost view = { λ b. b.keys.items };

    ghost invariant = { λ b. AreBelow b.end b.keys.items × KnowsFirst K.cmp b.least b.keys.items };
}

impl<K: Ord + Copy + Drop> Book<K> {
    ghost use Rattle.std.specs.Prelude.{replicate, is_some};

    /// No key at each of that many positions. The only error is out of memory.
    pub fn new(alloc: Global, count: usize) -> Result<Book<K>, AllocError>
        ensures { IfOk result (λ b. b ≡ replicate count None) }
    {
        let mut keys = Vec::new(alloc);
        for _ in 0..count {
            keys.push(None)?;
        }
        Ok(Book {
            alloc,
            keys,
            end: 0,
            least: None,
        })
    }

    /// How many positions there are.
    pub fn len(&self) -> usize
        ensures { result ≡ length self.now }
    {
        self.keys.len()
    }

    /// Whether there is a key at a position.
    pub fn holds(&self, at: usize) -> bool
        requires { at < length self.now }
        ensures holds { (k : Option _) → slice_get self.now at ≡ Some k → result ≡ is_some k }
        ensures absent { OnFalse result (slice_get self.now at ≡ Some None) }
    {
        self.keys[at].is_some()
    }

    /// Puts a key at a position that has none. The only error is out of memory, which leaves the book as it was.
    pub fn add(&mut self, at: usize, key: K) -> Result<(), AllocError>
        requires { slice_get self.old at ≡ Some None }
        ensures ok { OnOk result (self.new ≡ slice_set self.old at (Some key)) }
        ensures err { OnErr result (self.new ≡ self.old) }
    {
        know(
            self.alloc,
            self.keys.as_slice(),
            self.end,
            &mut self.least,
            at,
            key,
        )?;
        self.keys[at] = Some(key);
        self.end = self.end.max(at + 1);
        Ok(())
    }

    /// The first position before this one whose key is equal to its own.
    pub fn earlier(&self, at: usize) -> Option<usize>
        requires { at < length self.now }
        ensures { (key : _) → slice_get self.now at ≡ Some (Some key) → result ≡ where_before at (first_of K.cmp self.now key) }
    {
        match &self.least {
            None => None,
            Some(least) => earlier_by(least, self.keys[at], at),
        }
    }
}

fn earlier_by<K: Ord + Copy + Drop>(
    least: &BTreeMap<K, usize>,
    key: Option<K>,
    at: usize,
) -> Option<usize>
    ensures { (k : _) → key ≡ Some k → result ≡ where_before at (get K.cmp least.now k) }
{
    let key = key?;
    let first = *least.get(&key)?;
    if first < at { Some(first) } else { None }
}

/// Whether keys continue rising with this one, as far as its near neighbours show.
fn fits<K: Ord + Copy + Drop>(keys: &[Option<K>], end: usize, at: usize, key: K) -> bool
    requires end { AreBelow end keys.now }
    requires absent { slice_get keys.now at ≡ Some None }
    ensures { result ≡ true → AreRising K.cmp keys.now → AreRising K.cmp (slice_set keys.now at (Some key)) }
{
    follows(keys, at, key) && precedes(keys, end, at, key)
}

fn follows<K: Ord + Copy + Drop>(keys: &[Option<K>], at: usize, key: K) -> bool
    requires { at < length keys.now }
    ensures { result ≡ true → AreRising K.cmp keys.now → Follows K.cmp keys.now at key }
{
    for step in 0..FAR {
        if step >= at {
            return true;
        }
        let place = at - 1 - step;
        if let Some(other) = keys[place] {
            return other.cmp(&key).is_lt();
        }
    }
    false
}

fn precedes<K: Ord + Copy + Drop>(keys: &[Option<K>], end: usize, at: usize, key: K) -> bool
    requires end { AreBelow end keys.now }
    requires within { at < length keys.now }
    ensures { result ≡ true → AreRising K.cmp keys.now → Precedes K.cmp keys.now at key }
{
    for step in 0..FAR {
        if step >= keys.len() - at {
            return true;
        }
        let place = at + step;
        if place >= end {
            return true;
        }
        if let Some(other) = keys[place] {
            return key.cmp(&other).is_lt();
        }
    }
    false
}

/// Takes in a key at a position that has none: while keys rise there is nothing to do.
fn know<K: Ord + Copy + Drop>(
    alloc: Global,
    keys: &[Option<K>],
    end: usize,
    least: &mut Option<BTreeMap<K, usize>>,
    at: usize,
    key: K,
) -> Result<(), AllocError>
    requires end { AreBelow end keys.now }
    requires absent { slice_get keys.now at ≡ Some None }
    requires known { KnowsFirst K.cmp least.old keys.now }
    ensures ok { OnOk result (KnowsFirst K.cmp least.new (slice_set keys.now at (Some key))) }
    ensures err { OnErr result (KnowsFirst K.cmp least.new keys.now) }
{
    match least {
        Some(least) => note(least, key, at),
        None if fits(keys, end, at, key) => Ok(()),
        None => {
            let mut first = in_order(alloc, keys)?;
            note(&mut first, key, at)?;
            *least = Some(first);
            Ok(())
        }
    }
}

/// The first position of each key.
fn in_order<K: Ord + Copy + Drop>(
    alloc: Global,
    keys: &[Option<K>],
) -> Result<BTreeMap<K, usize>, AllocError>
    ensures { IfOk result (λ least. (q : _) → get K.cmp least q ≡ first_of K.cmp keys.now q) }
{
    let mut least = BTreeMap::new(alloc);
    for position in 0..keys.len() {
        note_any(&mut least, keys[position], position)?;
    }
    Ok(least)
}

/// Keeps the lesser of a key's position and this one, where there is a key.
fn note_any<K: Ord + Copy + Drop>(
    least: &mut BTreeMap<K, usize>,
    key: Option<K>,
    position: usize,
) -> Result<(), AllocError>
    ensures { OnOk result ((keys : List (Option _)) → length keys ≡ position → ((q : _) → get K.cmp least.old q ≡ first_of K.cmp keys q)
        → (q : _) → get K.cmp least.new q ≡ first_of K.cmp (keys ++ key ∷ []) q) }
{
    match key {
        Some(key) => note(least, key, position),
        None => Ok(()),
    }
}
