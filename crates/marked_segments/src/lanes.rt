ghost use Rattle.std.specs.Prelude.{◌≡◌, map};
ghost use Rattle.std.specs.Simd.Lanes.{mask_l};
ghost use Rattle.memchr.specs.Find.{is_byte};
ghost use Rattle.marked_segments.specs.Marks.{is_odd};

use std::simd::prelude::*;
use x12_bytes::Delims;

/// Which of 64 bytes are this one, the first as the lowest bit.
#[inline(always)]
pub(crate) fn equal_to(bytes: u8x64, byte: u8) -> u64
    ensures { result ≡ mask_l (map (is_byte byte) bytes) }
{
    bytes.simd_eq(u8x64::splat(byte)).to_bitmask()
}

/// Which of them are odd: the component or the repetition separator, a control byte, or DEL or above it.
#[inline(always)]
pub(crate) fn odd_among(bytes: u8x64, delims: Delims) -> u64
    ensures { result ≡ mask_l (map (is_odd delims) bytes) }
{
    let repetition = delims.repetition.unwrap_or(delims.component);
    let beyond = bytes.simd_lt(u8x64::splat(0x20)) | bytes.simd_ge(u8x64::splat(0x7F));
    let odd = bytes.simd_eq(u8x64::splat(delims.component))
        | bytes.simd_eq(u8x64::splat(repetition))
        | beyond;
    odd.to_bitmask()
}
