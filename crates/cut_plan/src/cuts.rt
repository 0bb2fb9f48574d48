use crate::cut_fault::CutFault;
use crate::places::{is_inside, is_rising, multiples, piece_in};
use hub_kinds::NoMemory;
use std::alloc::Global;
use std::marker::Model;
use x12_bytes::Piece;

/// Where a text of a known length is cut, by offsets in bytes.
#[derive(Drop)]
pub struct Cuts {
    text_len: usize,
    places: Vec<usize>,
}

impl Model for Cuts {
    ghost use Rattle.cut_plan.specs.Plan.{Plan, IsPlan};

    ghost Value = { Plan };

    ghost view = { λ c. record { text_len = c.text_len; places = c.places.items } };

    ghost invariant = { λ c. IsPlan (record { text_len = c.text_len; places = c.places.items }) };
}

impl Cuts {
    ghost use Rattle.std.specs.Prelude.{◌≡◌, ◌+◌, ◌<◌, ◌≤◌, length, IfOk, IsErrOf, slice_get, Some, true, false, ◌&&◌, not};
    ghost use Rattle.cut_plan.specs.Plan.{IsPlan, rises_from, all_up_to, pieces, multiples_below};

    /// Cuts of a text of that many bytes at these places, which rise, and of which none lies after the text's end. Errors: they
    /// don't rise; else one lies after the end; else memory is refused.
    pub fn new(alloc: Global, text_len: usize, places: &[usize]) -> Result<Cuts, CutFault>
        ensures cuts { IfOk result (λ c. (c.text_len ≡ text_len) × (c.places ≡ places.now)) }
        ensures sorted { IfOk result (λ _. rises_from 0 places.now ≡ true) }
        ensures inside { IfOk result (λ _. all_up_to text_len places.now ≡ true) }
        ensures unsorted { IsErrOf result CutFault.Unsorted → rises_from 0 places.now ≡ false }
        ensures past_end { IsErrOf result CutFault.PastEnd → rises_from 0 places.now && not (all_up_to text_len places.now) ≡ true }
        ensures no_memory { IsErrOf result CutFault.NoMemory → rises_from 0 places.now && all_up_to text_len places.now ≡ true }
    {
        if !is_rising(places) {
            return Err(CutFault::Unsorted);
        }
        if !is_inside(places, text_len) {
            return Err(CutFault::PastEnd);
        }
        match Vec::from_slice(alloc, places) {
            Ok(places) => Ok(Cuts { text_len, places }),
            Err(_) => Err(CutFault::NoMemory),
        }
    }

    /// Cuts of a text of that many bytes at the multiples of `n` that lie strictly between 0 and its end. The only error is out
    /// of memory.
    pub fn every(alloc: Global, text_len: usize, n: usize) -> Result<Cuts, NoMemory>
        requires { 0 < n }
        ensures { IfOk result (λ c. (c.text_len ≡ text_len) × (c.places ≡ multiples_below text_len n)) }
    {
        let places = multiples(alloc, text_len, n)?;
        Ok(Cuts { text_len, places })
    }

    /// How many pieces there are: one more than cuts.
    pub fn count(&self) -> usize
        ensures value { result ≡ length self.now.places + 1 }
        ensures plan { IsPlan self.now }
    {
        self.places.len() + 1
    }

    /// One of the pieces, counted from 0.
    pub fn piece(&self, index: usize) -> Piece
        requires { index ≤ length self.now.places }
        ensures value { slice_get (pieces self.now) index ≡ Some result }
        ensures order { result.from ≤ result.to }
        ensures within { result.to ≤ self.now.text_len }
    {
        piece_in(self.places.as_slice(), self.text_len, index)
    }
}
