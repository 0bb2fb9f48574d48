ghost use Rattle.std.specs.Prelude.{◌≡◌, ◌-◌, ◌<◌, ◌≤◌, ℕ, List, drop, get_or, length};
ghost use Rattle.env_marks.specs.declared.frag.Mark.{Mark};
ghost use Rattle.env_index.specs.Known.{AreMarks, AreNext, IsDivided};

use env_marks::{Mark, Marks};

/// How many of some rising marks begin before an offset.
fn count_before(list: &[Mark], at: usize) -> usize
    ensures within { result ≤ length list.now }
    ensures value { (k : ℕ) → IsDivided k at list.now → result ≡ k }
{
    let mut low = 0;
    let mut high = list.len();
    while low < high {
        let middle = low + (high - low) / 2;
        if list[middle].start < at {
            low = middle + 1;
        } else {
            high = middle;
        }
    }
    low
}

/// The segments that are known to follow an offset after a terminator, one after another; none where the marks were taken
/// under another terminator or of another piece.
pub(crate) fn known_behind(marks: &Marks, terminator: u8, at: usize) -> &[Mark]
    ensures { (text : List ℕ) → AreMarks text marks.now → get_or text (at - 1) 0 ≡ terminator → AreNext text terminator at result.now }
{
    if marks.pair().terminator != terminator || at <= marks.first().to || marks.end() < at {
        return &[];
    }
    let list = marks.list();
    &list[count_before(list, at)..]
}
