ghost use Rattle.memchr.specs.Find.{IsFirstByte, is_byte};

use memchr::{memchr, memchr_iter};

/// The offset of the first byte of this value in a text, where it is likely to be near: most segments are short. It is in
/// the walk over a text, so that what it prepares is prepared once.
#[inline(always)]
pub fn find_near(byte: u8, text: &[u8]) -> Option<usize>
    ensures { IsFirstByte (is_byte byte) text.now result }
{
    memchr_iter(byte, text).next()
}

/// How many bytes are looked at one by one: most elements are shorter.
const NEAR: usize = 16;

/// The offset of the first byte of this value in a text of any length: near its front by itself, else by a search.
#[inline(always)]
pub fn find_byte(byte: u8, text: &[u8]) -> Option<usize>
    ensures { IsFirstByte (is_byte byte) text.now result }
{
    for at in 0..text.len().min(NEAR) {
        if text[at] == byte {
            return Some(at);
        }
    }
    if text.len() <= NEAR {
        return None;
    }
    find_far(byte, text)
}

/// The same by a search alone. A call costs less than its body would in each walk over elements.
#[inline(never)]
fn find_far(byte: u8, text: &[u8]) -> Option<usize>
    ensures { IsFirstByte (is_byte byte) text.now result }
{
    memchr(byte, text)
}
