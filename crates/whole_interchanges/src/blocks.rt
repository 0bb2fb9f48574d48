//! What threads search for the letters of headers and trailers, in blocks of the bytes that are read.
ghost use Rattle.std.specs.Prelude.{◌≡◌, ◌≤◌, ◌<◌, ◌+◌, ◌*◌, ◌⊎◌, [], IfOk, length};
ghost use Rattle.std.specs.List.{All};
ghost use Rattle.std.specs.Thread.{IsSync};
ghost use Rattle.whole_interchanges.specs.Passing.{AreSearched};

use crate::passing::{Searched, Stretch, not_searched, search_to};
use hub_kinds::NoMemory;
use std::alloc::Global;
use std::thread::{Threads, join};

/// How many bytes a block has.
const BLOCK: usize = 4096;

/// How many blocks are worth a second thread.
const FEWEST: usize = 256;

/// What was searched of each block of some bytes, which begin at an offset; bytes after the last of them are in no block.
#[derive(Clone, Copy)]
pub(crate) struct Blocks<'b> {
    pub(crate) from: usize,
    pub(crate) list: &'b [Searched],
}

/// No block.
pub(crate) fn no_blocks() -> Blocks<'static>
    ensures { result.list.now ≡ [] }
{
    Blocks { from: 0, list: &[] }
}

/// Of two stretches the first, where it begins at or before an offset and ends at or after it.
fn nearer(known: Stretch, block: Stretch, at: usize) -> Stretch
    ensures { result ≡ known ⊎ result ≡ block }
{
    if known.from <= at && at <= known.to {
        known
    } else {
        block
    }
}

/// Where the letters of a header and of a trailer don't begin from an offset on, by what was searched before, alone or in blocks.
pub(crate) fn search(read: &[u8], searched: Searched, blocks: Blocks<'_>, at: usize) -> Searched
    requires searched { AreSearched read.now searched }
    requires blocks { All (AreSearched read.now) blocks.list.now }
    requires within { at ≤ length read.now }
    ensures searched { AreSearched read.now result }
    ensures header { result.header.from ≤ at }
    ensures trailer { result.trailer.from ≤ at }
{
    match blocks.list.get(at.saturating_sub(blocks.from) / BLOCK) {
        None => search_to(read, searched, at, read.len()),
        Some(block) => {
            let header = nearer(searched.header, block.header, at);
            let trailer = nearer(searched.trailer, block.trailer, at);
            let known = Searched { header, trailer };
            let ahead = (read.len() - at).min(BLOCK);
            search_to(read, known, at, at + ahead)
        }
    }
}

/// Searches this many blocks from an offset on.
fn list_of(alloc: Global, read: &[u8], from: usize, count: usize) -> Result<Vec<Searched>, NoMemory>
    requires { from + count * BLOCK ≤ length read.now }
    ensures { IfOk result (λ v. All (AreSearched read.now) v.items) }
{
    let mut list = Vec::new(alloc);
    for k in 0..count {
        let at = from + k * BLOCK;
        list.push(search_to(read, not_searched(), at, at + BLOCK))?;
    }
    Ok(list)
}

/// Searches this many blocks from an offset on by this many threads at the most: each half of the blocks by half of them.
#[cycle(halves)]
fn search_by<R: Threads + Sync>(
    rt: &R,
    alloc: Global,
    read: &[u8],
    from: usize,
    count: usize,
    threads: u64,
) -> Result<Vec<Searched>, NoMemory>
    requires { from + count * BLOCK ≤ length read.now }
    ensures { IfOk result (λ v. All (AreSearched read.entry.now) v.items) }
{
    if threads < 2 || count < FEWEST {
        return list_of(alloc, read, from, count);
    }
    let half = count / 2;
    let rest = count - half;
    let behind = from + half * BLOCK;
    let front = move || -> Result<Vec<Searched>, NoMemory>
        requires { IsSync R.row × (2 ≤ threads) × (from + half * BLOCK ≤ length read.now) }
        ensures { IfOk result (λ v. All (AreSearched read.entry.now) v.items) }
    { search_by(rt, alloc, read, from, half, threads / 2) };
    let back = move || -> Result<Vec<Searched>, NoMemory>
        requires { IsSync R.row × (2 ≤ threads) × (behind + rest * BLOCK ≤ length read.now) }
        ensures { IfOk result (λ v. All (AreSearched read.entry.now) v.items) }
    { search_by(rt, alloc, read, behind, rest, threads - threads / 2) };
    let (first, second) = join(rt, front, back);
    let mut list = first?;
    let mut more = second?;
    list.append(&mut more)?;
    Ok(list)
}

/// What is searched of the blocks from an offset on, by this many threads at the most. Where a second thread isn't worth it, nothing is
/// searched.
pub(crate) fn list_by<R: Threads + Sync>(
    rt: &R,
    alloc: Global,
    read: &[u8],
    from: usize,
    threads: u64,
) -> Result<Vec<Searched>, NoMemory>
    ensures { IfOk result (λ v. All (AreSearched read.now) v.items) }
{
    let count = read.len().saturating_sub(from) / BLOCK;
    if threads < 2 || count < FEWEST {
        return Ok(Vec::new(alloc));
    }
    search_by(rt, alloc, read, from, count, threads)
}
