ghost use Rattle.std.specs.Prelude.{◌≡◌, ◌<◌, ◌≤◌, length, IfOk, slice_get, Some, true};
ghost use Rattle.cut_plan.specs.Plan.{rises_from, all_up_to, pieces_from, multiples_below};

use hub_kinds::NoMemory;
use std::alloc::Global;
use x12_bytes::Piece;

/// Whether no place lies before the one before it.
pub(crate) fn is_rising(places: &[usize]) -> bool
    ensures { result ≡ rises_from 0 places.now }
{
    let mut last = 0;
    for place in places {
        if *place < last {
            return false;
        }
        last = *place;
    }
    true
}

/// Whether no place lies after the text's end.
pub(crate) fn is_inside(places: &[usize], text_len: usize) -> bool
    ensures { result ≡ all_up_to text_len places.now }
{
    places.iter().all(|place| *place <= text_len)
}

/// A piece between places, counted from 0.
pub(crate) fn piece_in(places: &[usize], text_len: usize, index: usize) -> Piece
    requires { index ≤ length places.now }
    ensures { slice_get (pieces_from 0 places.now text_len) index ≡ Some result }
{
    let from = if index == 0 { 0 } else { places[index - 1] };
    let to = if index < places.len() {
        places[index]
    } else {
        text_len
    };
    Piece { from, to }
}

/// The multiples of a number that lie strictly between 0 and the text's end.
pub(crate) fn multiples(alloc: Global, text_len: usize, n: usize) -> Result<Vec<usize>, NoMemory>
    requires { 0 < n }
    ensures multiples { IfOk result (λ v. v.items ≡ multiples_below text_len n) }
    ensures rising { IfOk result (λ v. rises_from 0 v.items ≡ true) }
    ensures inside { IfOk result (λ v. all_up_to text_len v.items ≡ true) }
{
    let count = text_len.saturating_sub(1) / n;
    let mut places = Vec::new(alloc);
    for k in 0..count {
        places.push(n * (k + 1))?;
    }
    Ok(places)
}
