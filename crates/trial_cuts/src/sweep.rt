ghost use Rattle.std.specs.Prelude.{◌≡◌, ◌<◌, ◌≤◌, length};
ghost use Rattle.hub_kinds.specs.declared.limits.TheConstants.{LONGEST_TEXT};

use crate::pieces::{HINTS, gathered_marks, heads_of_pieces, index_of_pieces, marks_of_pieces};
use crate::same::is_same_index;
use cut_plan::Cuts;
use env_index::{Index, index_plain};
use std::alloc::Global;
use std::test::Fail;

/// Whether the index of a text by its pieces is this one, whatever marks there are, and so by the marks of all pieces in one.
fn is_same_by(alloc: Global, text: &[u8], plain: &Index<'_>, cuts: &Cuts) -> Result<bool, Fail>
    requires few { length text.now ≤ LONGEST_TEXT }
    requires len { cuts.now.text_len ≡ length text.now }
{
    let heads = heads_of_pieces(alloc, text, cuts)?;
    for hint in HINTS {
        let marks = marks_of_pieces(alloc, text, cuts, &heads, *hint)?;
        let index = index_of_pieces(alloc, text, &heads, marks.as_slice())?;
        if !is_same_index(&index, plain) {
            return Ok(false);
        }
    }
    let Some(head) = heads.list().first() else {
        return Ok(true);
    };
    let marks = gathered_marks(alloc, text, cuts, head.pair)?;
    let index = index_of_pieces(alloc, text, &heads, &[marks])?;
    Ok(is_same_index(&index, plain))
}

/// Every how many offsets a text of this length is cut at one alone.
fn step_of(len: usize) -> usize
    ensures { 0 < result }
{
    let tens = len / 10_000;
    tens.saturating_mul(tens).max(1)
}

/// Cut at an offset alone, twice.
fn is_same_at_each(alloc: Global, text: &[u8], plain: &Index<'_>) -> Result<bool, Fail>
    requires { length text.now ≤ LONGEST_TEXT }
{
    let step = step_of(text.len());
    for k in 0..=text.len() / step {
        let at = k.saturating_mul(step);
        let cuts = Cuts::new(alloc, text.len(), &[at, at])?;
        if !is_same_by(alloc, text, plain, &cuts)? {
            return Ok(false);
        }
    }
    Ok(true)
}

/// Cut at all offsets at once, twice at each.
fn is_same_at_all(alloc: Global, text: &[u8], plain: &Index<'_>) -> Result<bool, Fail>
    requires { length text.now ≤ LONGEST_TEXT }
{
    let mut places = Vec::new(alloc);
    for at in 0..=text.len() {
        places.push(at)?;
        places.push(at)?;
    }
    let cuts = Cuts::new(alloc, text.len(), places.as_slice())?;
    is_same_by(alloc, text, plain, &cuts)
}

/// Whether a text has one index, in pieces of this many bytes.
pub fn is_same_every(alloc: Global, text: &[u8], len: usize) -> Result<bool, Fail>
    requires few { length text.now ≤ LONGEST_TEXT }
    requires some { 0 < len }
{
    let plain = index_plain(alloc, text)?;
    let cuts = Cuts::every(alloc, text.len(), len)?;
    is_same_by(alloc, text, &plain, &cuts)
}

/// Whether a text has one index, in each of the ways in which it is cut.
pub fn is_same_however_cut(alloc: Global, text: &[u8]) -> Result<bool, Fail>
    requires { length text.now ≤ LONGEST_TEXT }
{
    let plain = index_plain(alloc, text)?;
    Ok(
        is_same_at_each(alloc, text, &plain)?
            && is_same_at_all(alloc, text, &plain)?
            && is_same_every(alloc, text, 1)?
            && is_same_every(alloc, text, 53)?
            && is_same_every(alloc, text, 106)?,
    )
}
