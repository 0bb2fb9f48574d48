//! What is passed over while the end of an interchange is looked for: no segment ends it that doesn't begin with the letters of its
//! trailer, or of the next header.
ghost use Rattle.std.specs.Prelude.{◌≡◌, ◌≤◌, ℕ, List, length};
ghost use Rattle.whole_interchanges.specs.Open.{GoesOn};
ghost use Rattle.whole_interchanges.specs.Passing.{AreSearched, IsFree};

use memchr::memmem::find;
use memchr::memrchr;
use x12_bytes::Delims;

/// From one offset up to another some letters begin nowhere.
#[derive(Clone, Copy, Debug)]
pub(crate) struct Stretch {
    pub(crate) from: usize,
    pub(crate) to: usize,
}

/// Where those of a header don't begin, and those of a trailer. Both are kept from interchange to interchange, so that no byte is
/// searched twice for the letters of either.
#[derive(Clone, Copy, Debug)]
pub(crate) struct Searched {
    pub(crate) header: Stretch,
    pub(crate) trailer: Stretch,
}

/// Nothing is searched.
pub(crate) fn not_searched() -> Searched
    ensures { (read : List ℕ) → AreSearched read result }
{
    let nowhere = Stretch { from: 0, to: 0 };
    Searched {
        header: nowhere,
        trailer: nowhere,
    }
}

/// A stretch from an offset on, or from before it and up to it at least, which is taken where it is known. It is searched for up to
/// the offset `to`.
fn free_from(read: &[u8], letters: &[u8], known: Stretch, at: usize, to: usize) -> Stretch
    requires free { IsFree read.now letters.now known }
    requires letters { length letters.now ≡ 3 }
    requires order { at ≤ to }
    requires within { to ≤ length read.now }
    ensures from { result.from ≤ at }
    ensures free { IsFree read.now letters.now result }
{
    if known.from <= at && at <= known.to {
        return known;
    }
    let more = (read.len() - to).min(2);
    match find(&read[at..to + more], letters) {
        Some(ahead) => Stretch {
            from: at,
            to: at + ahead,
        },
        None => Stretch { from: at, to },
    }
}

/// Both from an offset on, searched for up to the offset `to`.
pub(crate) fn search_to(read: &[u8], searched: Searched, at: usize, to: usize) -> Searched
    requires searched { AreSearched read.now searched }
    requires order { at ≤ to }
    requires within { to ≤ length read.now }
    ensures searched { AreSearched read.now result }
    ensures header { result.header.from ≤ at }
    ensures trailer { result.trailer.from ≤ at }
{
    Searched {
        header: free_from(read, b"ISA", searched.header, at, to),
        trailer: free_from(read, b"IEA", searched.trailer, at, to),
    }
}

/// Where a part begins, at or after one that begins at an offset, before which no part can end the interchange. The last two bytes that
/// are read are too few to tell whether a header begins there.
pub(crate) fn pass_over(read: &[u8], delims: Delims, searched: Searched, from: usize) -> usize
    requires searched { AreSearched read.now searched }
    requires header { searched.header.from ≤ from }
    requires trailer { searched.trailer.from ≤ from }
    requires within { from ≤ length read.now }
    ensures behind { from ≤ result }
    ensures bound { result ≤ length read.now }
    ensures goes_on { GoesOn read.now delims from result }
{
    let free = searched.header.to.min(searched.trailer.to);
    let to = free.min(read.len().saturating_sub(2));
    if to <= from {
        return from;
    }
    match memrchr(delims.terminator, &read[from..to]) {
        Some(ahead) => from + ahead + 1,
        None => from,
    }
}
