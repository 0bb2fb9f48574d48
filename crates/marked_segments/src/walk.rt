ghost use Rattle.std.specs.Prelude.{◌≡◌, ◌+◌, ◌-◌, ◌≤◌, length, take, drop, IfSome, IsTrue, slice_range};
ghost use Rattle.memchr.specs.Find.{IsFirst, Nowhere, Passes, is_byte, places_from};
ghost use Rattle.marked_segments.specs.Marks.{is_odd};
ghost use Rattle.marked_segments.specs.Blocks.{IsMask, IsStretch};
ghost use Rattle.marked_segments.specs.Walk.{StandsAt, IsRead};

use crate::block::{Block, Front, behind, block_at, front_of};
use x12_bytes::Delims;

/// A walk over a stretch of a text by its marks: where it is, and what it has found of the part that it read last.
#[derive(Drop)]
pub(crate) struct MarkWalk {
    /// What wasn't read of the bytes that were looked at together. The walk is where it begins.
    pub(crate) block: Block,
    /// Room for the offsets of the part's element separators from its front.
    pub(crate) separators: Vec<usize>,
    /// How many of them were found.
    pub(crate) count: usize,
    /// Whether surely no byte of the part is odd.
    pub(crate) is_plain: bool,
}

/// Notes the element separators from an offset up to another, by their mask; where there isn't room for them, or a byte is odd by the
/// other mask, the part isn't plain.
#[inline(always)]
fn note_front(
    walk: &mut MarkWalk,
    stretch: &[u8],
    from: usize,
    first: usize,
    front: Front,
    delims: Delims,
)
    requires mask { IsMask (is_byte delims.element) stretch.now first front.end front.seps }
    requires odd { IsMask (is_odd delims) stretch.now first front.end front.odds }
    requires low { from ≤ first }
    requires room { walk.old.count ≤ length walk.old.separators.items }
    requires read { IsTrue walk.old.is_plain → take walk.old.count walk.old.separators.items
        ≡ places_from (is_byte delims.element) (drop from stretch.now) 0 (first - from) }
    ensures room { walk.new.count ≤ length walk.new.separators.items }
    ensures block { walk.new.block ≡ walk.old.block }
    ensures plain { IsTrue walk.new.is_plain → IsTrue walk.old.is_plain }
    ensures read { IsTrue walk.new.is_plain → take walk.new.count walk.new.separators.items
        ≡ places_from (is_byte delims.element) (drop from stretch.now) 0 (front.end - from) }
    ensures even { IsTrue walk.new.is_plain → Nowhere (Passes (is_odd delims) stretch.now) first front.end }
{
    if front.odds != 0 {
        walk.is_plain = false;
        return;
    }
    let base = first - from;
    let mut seps = front.seps;
    while seps != 0 {
        if walk.count >= walk.separators.len() {
            walk.is_plain = false;
            return;
        }
        walk.separators[walk.count] = base + seps.trailing_zeros() as usize;
        walk.count += 1;
        seps &= seps - 1;
    }
}

/// Reads the part from where the walk stands up to the next terminator, and gives the terminator's offset, if there is one. A part with
/// more separators than there is room for isn't plain.
#[inline(always)]
pub(crate) fn find_end(
    walk: &mut MarkWalk,
    text: &[u8],
    base: usize,
    stretch: &[u8],
    delims: Delims,
) -> Option<usize>
    requires stands { StandsAt delims stretch.now walk.old }
    requires stretch { IsStretch text.now base stretch.now }
    ensures stands { StandsAt delims stretch.now walk.new }
    ensures further { walk.old.block.at ≤ walk.new.block.at }
    ensures end { IsFirst (Passes (is_byte delims.terminator) stretch.now) walk.old.block.at (length stretch.now) result }
    ensures part { IfSome result (λ end.
        (walk.new.block.at ≡ end + 1) × IsRead delims (slice_range stretch.now walk.old.block.at end) walk.new) }
{
    let from = walk.block.at;
    walk.count = 0;
    walk.is_plain = true;
    'blocks: loop {
        let block = walk.block;
        let front = front_of(stretch, block, delims);
        note_front(walk, stretch, from, block.at, front, delims);
        if block.ends != 0 {
            walk.block = behind(stretch, block, front.end, delims);
            return Some(front.end);
        }
        if block.end >= stretch.len() {
            walk.block = Block {
                at: block.end,
                end: block.end,
                ends: 0,
                seps: 0,
                odds: 0,
            };
            return None;
        }
        walk.block = block_at(text, base, stretch, block.end, delims);
    }
}
