//! The texts that faults share, by two and two.
ghost use Rattle.std.specs.Prelude.{◌≡◌, ◌<◌, ◌≤◌, ◌+◌, [], length, IfOk, IfSome};
ghost use Rattle.hub_kinds.specs.Rows.{Extends, IsPairAt, pair_at};

use crate::lent::Lent;
use crate::memory::NoMemory;
use std::alloc::Global;

/// How many places of pairs are remembered.
pub(crate) const HINTS: usize = 16;

/// Two texts: a segment's id and its loop's, or what is copied of an element and its reference.
#[derive(Debug, Drop)]
pub(crate) struct Pair<'a> {
    /// The id of a segment, or a copy.
    pub(crate) first: Lent<'a>,
    /// The id of a loop, or a reference.
    pub(crate) second: Lent<'a>,
}

/// Pairs of texts, each added as one that is remembered, if that has the same bytes.
#[derive(Debug, Drop)]
pub(crate) struct Texts<'a> {
    /// The pairs.
    pub(crate) pairs: Vec<Pair<'a>>,
    /// Which pairs are remembered. A hint: the bytes decide.
    hints: [u32; 16],
}

/// No texts.
pub(crate) fn no_texts<'a>(alloc: Global) -> Texts<'a>
    ensures { result.pairs.items ≡ [] }
{
    Texts {
        pairs: Vec::new(alloc),
        hints: [0; HINTS],
    }
}

/// The pair at an index; two empty texts where none is.
pub(crate) fn pair_at<'p, 'a>(pairs: &'p [Pair<'a>], index: u32) -> (&'a [u8], &'a [u8])
    ensures first { result.0.now ≡ (pair_at pairs.now index).first }
    ensures second { result.1.now ≡ (pair_at pairs.now index).second }
{
    match pairs.get(index as usize) {
        None => (b"", b""),
        Some(pair) => (pair.first.bytes(), pair.second.bytes()),
    }
}

/// The index that is remembered at `hint`, if it is that of these texts.
fn remembered(texts: &Texts, hint: usize, first: &[u8], second: &[u8]) -> Option<u32>
    requires { hint < 16 }
    ensures { IfSome result (λ index. IsPairAt texts.now.pairs.items index first.now second.now) }
{
    let index = texts.hints[hint];
    match texts.pairs.get(index as usize) {
        None => None,
        Some(pair) => {
            if pair.first.bytes() == first && pair.second.bytes() == second {
                Some(index)
            } else {
                None
            }
        }
    }
}

/// The index of these texts, which are added unless they are remembered at `hint`.
pub(crate) fn index_of<'a>(
    texts: &mut Texts<'a>,
    hint: usize,
    first: &'a [u8],
    second: &'a [u8],
) -> Result<u32, NoMemory>
    requires hint { hint < 16 }
    requires few { length texts.old.pairs.items < 4294967296 }
    ensures grown { Extends texts.old.pairs.items texts.new.pairs.items }
    ensures few { length texts.new.pairs.items ≤ length texts.old.pairs.items + 1 }
    ensures there { IfOk result (λ index. IsPairAt texts.new.pairs.items index first.entry.now second.entry.now) }
{
    if let Some(index) = remembered(texts, hint, first, second) {
        return Ok(index);
    }
    let index = texts.pairs.len() as u32;
    texts.pairs.push(Pair {
        first: Lent::new(first),
        second: Lent::new(second),
    })?;
    texts.hints[hint] = index;
    Ok(index)
}
