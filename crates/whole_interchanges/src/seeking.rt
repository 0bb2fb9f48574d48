ghost use Rattle.std.specs.Prelude.{◌≤◌, length};
ghost use Rattle.whole_interchanges.specs.Seeking.{Seeks};

use crate::begin::may_begin;
use memchr::memchr;
use x12_bytes::read_header;

/// What is found outside of interchanges.
pub(crate) enum Sought {
    /// A header begins at this offset.
    Header(usize),
    /// None begins before this offset, and none that is read at or after it.
    Wait(usize),
}

/// The next header at or after an offset of what is read of a text.
pub(crate) fn seek(read: &[u8], from: usize) -> Sought
    requires { from ≤ length read.now }
    ensures { Seeks read.now from result }
{
    let mut at = from;
    while let Some(ahead) = memchr(b'I', &read[at..]) {
        let next = at + ahead;
        if read_header(read, next).is_some() {
            return Sought::Header(next);
        }
        if may_begin(read, next) {
            return Sought::Wait(next);
        }
        at = next + 1;
    }
    Sought::Wait(read.len())
}
