ghost use Rattle.std.specs.Prelude.{◌≡◌, ◌≤◌, ℕ, List, length};
ghost use Rattle.isa_scan.specs.Heads.{heads_in};
ghost use Rattle.env_marks.specs.Guess.{AreDivided, guess_in, pair_before};

use isa_scan::{HeadAt, PieceHeads};
use x12_bytes::{Pair, Piece};

/// How many of some rising headers begin at or before an offset.
fn count_up_to(list: &[HeadAt], at: usize) -> usize
    ensures within { result ≤ length list.now }
    ensures value { (k : ℕ) → AreDivided k at list.now → result ≡ k }
{
    let mut low = 0;
    let mut high = list.len();
    while low < high {
        let middle = low + (high - low) / 2;
        if list[middle].start <= at {
            low = middle + 1;
        } else {
            high = middle;
        }
    }
    low
}

/// The pair under which a piece is likely to be divided: that of the last header that begins at or before the piece's start, else
/// that of the first header in the piece; none where there is none (X12.5, ISA; the choice is own).
pub fn guess(heads: &PieceHeads, piece: Piece) -> Option<Pair>
    requires { piece.from ≤ piece.to }
    ensures { (text : List ℕ) → heads.now ≡ heads_in text 0 (length text) → piece.to ≤ length text → result ≡ guess_in text piece }
{
    let list = heads.list();
    let before = count_up_to(list, piece.from);
    if before > 0 {
        return Some(list[before - 1].pair);
    }
    pair_before(list, piece.to)
}

/// The pair of the first header, if that begins before an offset.
fn pair_before(list: &[HeadAt], to: usize) -> Option<Pair>
    ensures { result ≡ pair_before list.now to }
{
    match list.first() {
        Some(head) => {
            if head.start < to {
                Some(head.pair)
            } else {
                None
            }
        }
        None => None,
    }
}
