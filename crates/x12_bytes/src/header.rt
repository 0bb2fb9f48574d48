ghost use Rattle.std.specs.Prelude.{◌≡◌, ◌≤◌, ℕ, List, length};
ghost use Rattle.x12_bytes.specs.Header.{IsHeader, header_delims, field_of, width_of};

use crate::bytes;
use crate::delims::Delims;
use crate::layout::{self, COMPONENT, ELEMENT, REPETITION, TERMINATOR};
use std::marker::Model;

/// A header, lent from the text that it is in (X12.5, ISA). Contracts see its 106 bytes.
#[derive(Drop)]
pub struct Header<'a> {
    bytes: &'a [u8],
}

impl<'a> Model for Header<'a> {
    ghost Value = { List ℕ };

    ghost view = { λ h. h.bytes.now };

    ghost invariant = { λ h. IsHeader h.bytes.now };
}

impl<'a> Header<'a> {
    pub(crate) fn new(bytes: &'a [u8]) -> Self
        requires { IsHeader bytes.now }
        ensures { result ≡ bytes.entry.now }
    {
        Header { bytes }
    }

    /// Field `k` as it is, spaces and all: `field(6)` is ISA06, 15 bytes.
    pub fn field(&self, k: usize) -> &'a [u8]
        requires from { 1 ≤ k }
        requires to { k ≤ 16 }
        ensures header { IsHeader self.now }
        ensures value { result.now ≡ field_of self.now k }
        ensures len { length result.now ≡ width_of k }
    {
        layout::field(self.bytes, k)
    }

    /// The delimiters that the header names.
    pub fn delims(&self) -> Delims
        ensures header { IsHeader self.now }
        ensures value { result ≡ header_delims self.now }
    {
        let element = self.bytes[ELEMENT];
        let component = self.bytes[COMPONENT];
        let terminator = self.bytes[TERMINATOR];
        let byte = self.bytes[REPETITION];
        let taken = byte == element || byte == component || byte == terminator;
        let repetition = if bytes::may_separate(byte) && !taken {
            Some(byte)
        } else {
            None
        };
        Delims {
            element,
            component,
            repetition,
            terminator,
        }
    }
}
