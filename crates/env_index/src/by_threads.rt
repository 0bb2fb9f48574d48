ghost use Rattle.std.specs.Prelude.{◌≡◌, ◌≤◌, ◌<◌, ◌+◌, ◌++◌, ℕ, List, false, IfOk, length};
ghost use Rattle.std.specs.List.{All};
ghost use Rattle.std.specs.Thread.{IsSync};
ghost use Rattle.hub_kinds.specs.declared.limits.TheConstants.{LONGEST_TEXT};
ghost use Rattle.x12_bytes.specs.HeaderTest.{is_head};
ghost use Rattle.isa_scan.specs.Heads.{heads_in};
ghost use Rattle.isa_scan.specs.declared.heads.HeadAt.{HeadAt};
ghost use Rattle.env_marks.specs.Marking.{MarksValue};
ghost use Rattle.env_index.specs.Known.{AreMarks};
ghost use Rattle.env_index.specs.Shares.{AreHeadsFrom, IsReadAt, IsShare, ShareValue, joined};
ghost use Rattle.env_index.specs.Unjudged.{IsUnjudged};

use crate::by_marks::read_share;
use crate::index::Index;
use crate::plain::count_others;
use crate::share::Share;
use env_marks::Marks;
use hub_kinds::NoMemory;
use isa_scan::{HeadAt, PieceHeads};
use std::alloc::Global;
use std::thread::{Threads, join};

/// How many headers are worth a second thread.
const FEWEST: usize = 32;

/// The halves of some headers, and where the second begins.
#[derive(Drop)]
struct Halves<'h> {
    low: &'h [HeadAt],
    high: &'h [HeadAt],
    cut: usize,
}

/// Cuts headers in the middle.
fn halve(heads: &[HeadAt]) -> Halves<'_>
    requires { 2 ≤ length heads.now }
    ensures all { result.low.now ++ result.high.now ≡ heads.entry.now }
    ensures low { (text : List ℕ) (from : ℕ) (marks : List MarksValue) → IsShare text from heads.entry.now marks
        → IsShare text from result.low.now marks }
    ensures high { (text : List ℕ) (from : ℕ) (marks : List MarksValue) → IsShare text from heads.entry.now marks
        → IsShare text result.cut result.high.now marks }
    ensures none { (text : List ℕ) (from : ℕ) (share : ShareValue) → AreHeadsFrom text from heads.entry.now
        → IsReadAt text from result.low.now share
        → (q : ℕ) → share.end ≤ q → q < result.cut → is_head text q ≡ false }
{
    let (low, high) = heads.split_at(heads.len() / 2);
    let cut = high[0].start;
    Halves { low, high, cut }
}

/// What is read at two shares of headers, the second of them from `cut` on.
fn both_shares<'a>(
    text: &[u8],
    front: Share<'a>,
    cut: usize,
    back: Share<'a>,
) -> Result<Share<'a>, NoMemory>
    requires few { length text.now ≤ LONGEST_TEXT }
    requires order { front.end ≤ cut }
    requires within { cut ≤ length text.now }
    requires front { front.outside ≤ LONGEST_TEXT }
    requires back { back.outside ≤ LONGEST_TEXT }
    ensures { IfOk result (λ share. share ≡ joined text.entry.now front.entry cut back.entry) }
{
    let between = count_others(&text[front.end..cut]);
    let outside = front.outside + between + back.outside;
    let end = back.end;
    let mut interchanges = front.interchanges;
    let mut more = back.interchanges;
    interchanges.append(&mut more)?;
    Ok(Share {
        interchanges,
        outside,
        end,
    })
}

/// What is read at the headers of `front` and at `high`, the headers from `cut` on, which `back` has read. Where an interchange of
/// `front` ends after `cut`, `back` is dropped, and `high` is read again from that end.
fn join_shares<'a>(
    alloc: Global,
    text: &'a [u8],
    marks: &[Marks],
    front: Share<'a>,
    high: &[HeadAt],
    cut: usize,
    back: Share<'a>,
) -> Result<Share<'a>, NoMemory>
    requires high { IsShare text.now cut high.now marks.now }
    requires front { front.end ≤ length text.now }
    requires few { front.outside ≤ front.end }
    requires back { IsReadAt text.now cut high.now back }
    ensures { (from : ℕ) (low : List HeadAt) → IsReadAt text.entry.now from low front.entry
        → ((q : ℕ) → front.entry.end ≤ q → q < cut → is_head text.entry.now q ≡ false)
        → IfOk result (λ share. IsReadAt text.entry.now from (low ++ high.entry.now) share) }
{
    let reach = front.end();
    if reach <= cut {
        return both_shares(text, front, cut, back);
    }
    let again = read_share(alloc, text, high, marks, reach)?;
    both_shares(text, front, reach, again)
}

/// What is read at some headers of a text from an offset on, by this many threads at the most: each half of the headers by half of
/// the threads. Where interchanges reach over the cuts, a header is read at most once more for each halving.
#[cycle(halves)]
fn read_share_by<'a, R: Threads + Sync>(
    rt: &R,
    alloc: Global,
    text: &'a [u8],
    heads: &[HeadAt],
    marks: &[Marks],
    from: usize,
    threads: u64,
) -> Result<Share<'a>, NoMemory>
    requires share { IsShare text.now from heads.now marks.now }
    ensures { IfOk result (λ share. IsReadAt text.entry.now from heads.entry.now share) }
{
    if threads < 2 || heads.len() < FEWEST {
        return read_share(alloc, text, heads, marks, from);
    }
    let Halves { low, high, cut } = halve(heads);
    let front = move || -> Result<Share<'_>, NoMemory>
        requires { IsSync R.row × (2 ≤ threads) × IsShare text.now from low.now marks.now }
        ensures { IfOk result (λ share. IsReadAt text.entry.now from low.entry.now share) }
    { read_share_by(rt, alloc, text, low, marks, from, threads / 2) };
    let back = move || -> Result<Share<'_>, NoMemory>
        requires { IsSync R.row × (2 ≤ threads) × IsShare text.now cut high.now marks.now }
        ensures { IfOk result (λ share. IsReadAt text.entry.now cut high.entry.now share) }
    { read_share_by(rt, alloc, text, high, marks, cut, threads - threads / 2) };
    let (first, second) = join(rt, front, back);
    join_shares(alloc, text, marks, first?, high, cut, second?)
}

/// The same index as that of `index_of`, by this many threads at the most (X12.5, interchange; X12.6, functional group and transaction
/// set). Its requirements and its only error are those of `index_of`.
pub fn index_by_threads<'a, R: Threads + Sync>(
    rt: &R,
    alloc: Global,
    text: &'a [u8],
    heads: &PieceHeads,
    marks: &[Marks],
    threads: u64,
) -> Result<Index<'a>, NoMemory>
    requires few { length text.now ≤ LONGEST_TEXT }
    requires heads { heads.now ≡ heads_in text.now 0 (length text.now) }
    requires marked { All (AreMarks text.now) marks.now }
    ensures { IfOk result (λ index. IsUnjudged text.entry.now index) }
{
    let share = read_share_by(rt, alloc, text, heads.list(), marks, 0, threads)?;
    Ok(share.into_index(text))
}
