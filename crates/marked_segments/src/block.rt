ghost use Rattle.std.specs.Prelude.{◌≡◌, ◌≢◌, ℕ, ◌+◌, ◌<◌, ◌≤◌, length, slice_index};
ghost use Rattle.memchr.specs.Find.{Nowhere, Passes, is_byte};
ghost use Rattle.marked_segments.specs.Marks.{is_odd};
ghost use Rattle.marked_segments.specs.Blocks.{IsBlock, IsMask, IsStretch};

use crate::lanes::{equal_to, odd_among};
use std::simd::prelude::*;
use x12_bytes::Delims;

/// How many bytes are looked at together.
const WIDTH: usize = 64;

/// The bytes of a stretch from `at` up to `end`: bit k of a mask says whether the byte at `at + k` is the terminator, the element
/// separator, or odd.
#[derive(Clone, Copy, Drop)]
pub(crate) struct Block {
    pub(crate) at: usize,
    pub(crate) end: usize,
    pub(crate) ends: u64,
    pub(crate) seps: u64,
    pub(crate) odds: u64,
}

/// What of a block is before its first terminator, or all of it.
#[derive(Clone, Copy, Drop)]
pub(crate) struct Front {
    pub(crate) end: usize,
    pub(crate) seps: u64,
    pub(crate) odds: u64,
}

/// The last bytes of a text, filled up: nothing is read past its end.
#[inline(never)]
fn last_bytes(text: &[u8], at: usize) -> u8x64
    requires within { at ≤ length text.now }
    requires short { length text.now < at + 64 }
    ensures long { length result ≡ 64 }
    ensures bytes { (k : ℕ) → at + k < length text.now → slice_index result k ≡ slice_index text.now (at + k) }
{
    let mut last = [0; WIDTH];
    let mut k = 0;
    while k < text.len() - at {
        last[k] = text[at + k];
        k += 1;
    }
    u8x64::from_array(last)
}

/// The 64 bytes of a text from an offset on, as far as there are.
#[inline(always)]
fn bytes_at(text: &[u8], at: usize) -> u8x64
    requires { at ≤ length text.now }
    ensures long { length result ≡ 64 }
    ensures bytes { (k : ℕ) → k < 64 → at + k < length text.now → slice_index result k ≡ slice_index text.now (at + k) }
{
    if text.len() - at < WIDTH {
        return last_bytes(text, at);
    }
    u8x64::from_slice(&text[at..])
}

/// The block that begins at an offset of a stretch, which begins at `base` in its text.
#[inline(always)]
pub(crate) fn block_at(text: &[u8], base: usize, stretch: &[u8], at: usize, delims: Delims) -> Block
    requires stretch { IsStretch text.now base stretch.now }
    requires at { at ≤ length stretch.now }
    ensures block { IsBlock delims stretch.now result }
    ensures at { result.at ≡ at }
    ensures wide { at < length stretch.now → at < result.end }
{
    let bytes = bytes_at(text, base + at);
    let ends = equal_to(bytes, delims.terminator);
    let seps = equal_to(bytes, delims.element);
    let odds = odd_among(bytes, delims);
    let left = stretch.len() - at;
    if left < WIDTH {
        let inside = (1u64 << left) - 1;
        return Block {
            at,
            end: at + left,
            ends: ends & inside,
            seps: seps & inside,
            odds: odds & inside,
        };
    }
    Block {
        at,
        end: at + WIDTH,
        ends,
        seps,
        odds,
    }
}

/// What is before a block's first terminator. Stretch and delimiters are for the contract alone.
#[inline(always)]
pub(crate) fn front_of(stretch: &[u8], block: Block, delims: Delims) -> Front
    requires { IsBlock delims stretch.now block }
    ensures separators { IsMask (is_byte delims.element) stretch.now block.at result.end result.seps }
    ensures odd { IsMask (is_odd delims) stretch.now block.at result.end result.odds }
    ensures unended { Nowhere (Passes (is_byte delims.terminator) stretch.now) block.at result.end }
    ensures whole { block.ends ≡ 0 → result.end ≡ block.end }
    ensures inside { block.ends ≢ 0 → result.end < block.end }
    ensures ended { block.ends ≢ 0 → Passes (is_byte delims.terminator) stretch.now result.end }
{
    if block.ends == 0 {
        return Front {
            end: block.end,
            seps: block.seps,
            odds: block.odds,
        };
    }
    let before = block.ends.trailing_zeros() as usize;
    let inside = (1u64 << before) - 1;
    Front {
        end: block.at + before,
        seps: block.seps & inside,
        odds: block.odds & inside,
    }
}

/// What of a block lies after one of its bytes.
#[inline(always)]
pub(crate) fn behind(stretch: &[u8], block: Block, place: usize, delims: Delims) -> Block
    requires block { IsBlock delims stretch.now block }
    requires low { block.at ≤ place }
    requires high { place < block.end }
    ensures block { IsBlock delims stretch.now result }
    ensures at { result.at ≡ place + 1 }
{
    let before = place - block.at;
    Block {
        at: place + 1,
        end: block.end,
        ends: block.ends >> before >> 1,
        seps: block.seps >> before >> 1,
        odds: block.odds >> before >> 1,
    }
}
