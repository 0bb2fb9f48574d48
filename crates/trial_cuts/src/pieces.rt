ghost use Rattle.std.specs.Prelude.{◌≡◌, ◌≤◌, length, IfOk};
ghost use Rattle.std.specs.List.{All};
ghost use Rattle.hub_kinds.specs.declared.limits.TheConstants.{LONGEST_TEXT};
ghost use Rattle.cut_plan.specs.Plan.{IsPlan, pieces};
ghost use Rattle.isa_scan.specs.Heads.{heads_in};
ghost use Rattle.env_marks.specs.Laws.{values};
ghost use Rattle.env_marks.specs.HeadLaws.{heads_under};
ghost use Rattle.env_marks.specs.Marking.{marks_of};
ghost use Rattle.env_index.specs.Words.{AreMarks};

use cut_plan::Cuts;
use env_index::{Index, index_of, judge};
use env_marks::{Marks, gather, guess, marks_of};
use hub_kinds::NoMemory;
use isa_scan::{PieceHeads, scan_piece};
use std::alloc::Global;
use x12_bytes::{Pair, Piece};

/// Under which pair marks are taken.
#[derive(Clone, Copy, Debug, PartialEq, Eq)]
pub enum Hint {
    /// The guessed one.
    Guessed,
    /// That of another header than the one that is guessed.
    Another,
    /// The second pair, for all of them.
    Second,
    /// None: there are no marks.
    Nothing,
}

/// Each of them.
pub const HINTS: &[Hint] = &[Hint::Guessed, Hint::Another, Hint::Second, Hint::Nothing];

/// The headers of each piece.
fn scan_pieces(alloc: Global, text: &[u8], cuts: &Cuts) -> Result<Vec<PieceHeads>, NoMemory>
    requires { cuts.now.text_len ≡ length text.now }
    ensures list { IfOk result (λ list. list.items ≡ values heads_under tt text.now (pieces cuts.now)) }
    ensures plan { IfOk result (λ _. IsPlan cuts.now) }
{
    let mut list = Vec::new(alloc);
    for i in 0..cuts.count() {
        list.push(scan_piece(alloc, text, cuts.piece(i))?)?;
    }
    Ok(list)
}

/// The headers of a text, found piece by piece.
pub fn heads_of_pieces(alloc: Global, text: &[u8], cuts: &Cuts) -> Result<PieceHeads, NoMemory>
    requires { cuts.now.text_len ≡ length text.now }
    ensures { IfOk result (λ heads. heads ≡ heads_in text.now 0 (length text.now)) }
{
    let list = scan_pieces(alloc, text, cuts)?;
    gather(alloc, list)
}

/// The pair of the first header, and the first that is another; where there is none, the bytes of the first exchanged.
fn two_pairs(heads: &PieceHeads) -> Option<(Pair, Pair)> {
    let first = heads.list().first()?.pair;
    for head in heads.list() {
        if head.pair != first {
            return Some((first, head.pair));
        }
    }
    let exchanged = Pair {
        element: first.terminator,
        terminator: first.element,
    };
    Some((first, exchanged))
}

/// The pair under which marks are taken of a piece, where there is one.
fn pair_for(
    heads: &PieceHeads,
    pairs: Option<(Pair, Pair)>,
    piece: Piece,
    hint: Hint,
) -> Option<Pair>
    requires { piece.from ≤ piece.to }
{
    let (first, second) = pairs?;
    match hint {
        Hint::Guessed => guess(heads, piece),
        Hint::Another => {
            if guess(heads, piece)? == first {
                Some(second)
            } else {
                Some(first)
            }
        }
        Hint::Second => Some(second),
        Hint::Nothing => None,
    }
}

/// The marks of the pieces, under a pair of each.
pub fn marks_of_pieces(
    alloc: Global,
    text: &[u8],
    cuts: &Cuts,
    heads: &PieceHeads,
    hint: Hint,
) -> Result<Vec<Marks>, NoMemory>
    requires { cuts.now.text_len ≡ length text.now }
    ensures { IfOk result (λ list. All (AreMarks text.now) list.items) }
{
    let mut list = Vec::new(alloc);
    let pairs = two_pairs(heads);
    for i in 0..cuts.count() {
        let piece = cuts.piece(i);
        if let Some(pair) = pair_for(heads, pairs, piece, hint) {
            list.push(marks_of(alloc, text, piece, pair)?)?;
        }
    }
    Ok(list)
}

/// The marks of each piece, under one pair.
fn mark_pieces(alloc: Global, text: &[u8], cuts: &Cuts, pair: Pair) -> Result<Vec<Marks>, NoMemory>
    requires { cuts.now.text_len ≡ length text.now }
    ensures list { IfOk result (λ list. list.items ≡ values marks_of pair text.now (pieces cuts.now)) }
    ensures plan { IfOk result (λ _. IsPlan cuts.now) }
{
    let mut list = Vec::new(alloc);
    for i in 0..cuts.count() {
        list.push(marks_of(alloc, text, cuts.piece(i), pair)?)?;
    }
    Ok(list)
}

/// The marks of a text under a pair, taken piece by piece.
pub fn gathered_marks(
    alloc: Global,
    text: &[u8],
    cuts: &Cuts,
    pair: Pair,
) -> Result<Marks, NoMemory>
    requires { cuts.now.text_len ≡ length text.now }
    ensures { IfOk result (λ marks. marks ≡ marks_of pair text.now 0 (length text.now)) }
{
    let list = mark_pieces(alloc, text, cuts, pair)?;
    gather(alloc, list)
}

/// Gives the index of a text its faults.
fn settle(alloc: Global, text: &[u8], index: &mut Index<'_>) -> Result<(), NoMemory>
    requires { index.old.text ≡ text.now }
{
    let mut faults = Vec::new(alloc);
    for k in 0..index.interchanges().len() {
        faults.push(judge(text, index, k + 1))?;
    }
    index.settle(faults.as_slice());
    Ok(())
}

/// The index of a text by its headers and marks, settled.
pub fn index_of_pieces<'a>(
    alloc: Global,
    text: &'a [u8],
    heads: &PieceHeads,
    marks: &[Marks],
) -> Result<Index<'a>, NoMemory>
    requires few { length text.now ≤ LONGEST_TEXT }
    requires heads { heads.now ≡ heads_in text.now 0 (length text.now) }
    requires marked { All (AreMarks text.now) marks.now }
{
    let mut index = index_of(alloc, text, heads, marks)?;
    settle(alloc, text, &mut index)?;
    Ok(index)
}
