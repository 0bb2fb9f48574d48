ghost use Rattle.std.specs.Prelude.{◌≡◌, ◌≤◌, ◌++◌, List, ℕ, IfOk, OnOk, length, drop};
ghost use Rattle.std.specs.List.Sorted.{IsSorted};
ghost use Rattle.std.specs.Cmp.Lexicographic.{slice_cmp};
ghost use Rattle.std.specs.Ordering.{nat_cmp};
ghost use Rattle.number_register.specs.SeenNumbers.{interchange_keys, is_among, keys_in};

use crate::interchange_key::{KEY_LEN, number_key};
use env_index::{Index, Interchange};
use hub_kinds::NoMemory;
use std::alloc::Global;

/// The numbers of the interchanges of the batches so far: ISA05 to ISA08 and ISA13 of each (X12.5, interchange sender, receiver and
/// control number). They lend from no text, so that they last while batch after batch is read.
///
/// They are kept in runs, each in order. A batch is one more run, joined with the last ones that are no longer than it. So there are
/// few runs, and the cost follows the numbers whatever numbers somebody chooses.
#[derive(Drop)]
pub struct Seen {
    alloc: Global,
    runs: Vec<Vec<[u8; KEY_LEN]>>,
}

impl Seen {
    ghost use Rattle.std.specs.Prelude.{◌≡◌, ◌++◌, [], List, ℕ, OnOk, OnErr};
    ghost use Rattle.number_register.specs.SeenNumbers.{HaveSeen, interchange_keys, is_among, number_key};

    /// None yet.
    pub fn new(alloc: Global) -> Seen
        ensures { HaveSeen result [] }
    {
        Seen {
            alloc,
            runs: Vec::new(alloc),
        }
    }

    /// Adds the numbers of the interchange places of an index that is settled with the faults 1 to 8. The only error is to be out of
    /// memory, which leaves the numbers as they were.
    pub fn add(&mut self, index: &Index<'_>) -> Result<(), NoMemory>
        ensures added { OnOk result ((numbers : List (List ℕ)) → HaveSeen self.old numbers
            → HaveSeen self.new (numbers ++ interchange_keys index.now.entries)) }
        ensures kept { OnErr result ((numbers : List (List ℕ)) → HaveSeen self.old numbers → HaveSeen self.new numbers) }
    {
        let mut run = keys_of(self.alloc, index)?;
        let kept = runs_kept(self.runs.as_slice(), run.len());
        append_runs(&mut run, &self.runs.as_slice()[kept..])?;
        run.sort_unstable();
        if kept == self.runs.len() {
            self.runs.push(run)?;
        } else {
            self.runs.truncate(kept + 1);
            self.runs[kept] = run;
        }
        Ok(())
    }

    /// Whether one of them is the number of an interchange. It takes no memory.
    pub fn holds(&self, interchange: &Interchange<'_>) -> bool
        ensures { (numbers : List (List ℕ)) → HaveSeen self.now numbers
            → result ≡ is_among (number_key interchange.now.header) numbers }
    {
        let key = number_key(interchange.header());
        for run in self.runs.as_slice() {
            if has(run.as_slice(), &key) {
                return true;
            }
        }
        false
    }
}

/// The numbers of the interchange places.
fn keys_of(alloc: Global, index: &Index<'_>) -> Result<Vec<[u8; KEY_LEN]>, NoMemory>
    ensures { IfOk result (λ keys. keys.items ≡ interchange_keys index.now.entries) }
{
    let mut keys = Vec::new(alloc);
    for entry in index.interchanges() {
        if entry.fault().is_none() {
            keys.push(number_key(entry.interchange().header()))?;
        }
    }
    Ok(keys)
}

/// How many runs stay as they are beside one of a length: the last ones that are no longer than it and those after them don't.
fn runs_kept(runs: &[Vec<[u8; KEY_LEN]>], len: usize) -> usize
    ensures { result ≤ length runs.now }
{
    let mut kept = runs.len();
    let mut joined = len;
    while kept > 0 && runs[kept - 1].len() <= joined {
        joined = joined.saturating_add(runs[kept - 1].len());
        kept -= 1;
    }
    kept
}

fn append_runs(run: &mut Vec<[u8; KEY_LEN]>, others: &[Vec<[u8; KEY_LEN]>]) -> Result<(), NoMemory>
    ensures { OnOk result (run.new.items ≡ run.old.items ++ keys_in others.now) }
{
    for other in others {
        run.extend_from_slice(other.as_slice())?;
    }
    Ok(())
}

/// Whether a number is in a run.
fn has(run: &[[u8; KEY_LEN]], key: &[u8; KEY_LEN]) -> bool
    ensures { IsSorted (slice_cmp nat_cmp) run.now → result ≡ is_among key.now run.now }
{
    run.binary_search(key).is_ok()
}
