ghost use Rattle.std.specs.Prelude.{◌≡◌, ◌+◌, ◌≤◌, drop, length};
ghost use Rattle.x12_segs.specs.View.{SegValue, elements_of, id_of, element_of, occurrences, occurrence_of, components, component_of};

use crate::divide;
use crate::parts::{self, Parts};
use std::marker::Model;
use x12_bytes::Delims;

/// A segment, lent from the text that it is in (X12.6, data segment). Elements, occurrences
/// and components are counted from 1; one that isn't there is the empty text. A read by number
/// walks the segment from its front; to read them all, walk the iterators.
#[derive(Drop)]
pub struct SegView<'a> {
    start: usize,
    bytes: &'a [u8],
    delims: Delims,
}

impl<'a> Model for SegView<'a> {
    ghost Value = { SegValue };

    ghost view = { λ s. record { start = s.start; bytes = s.bytes.now; delims = s.delims } };
}

impl<'a> SegView<'a> {
    /// The segment of these bytes, which begin at the offset `start`.
    pub fn new(start: usize, bytes: &'a [u8], delims: Delims) -> Self
        ensures { result ≡ record { start = start; bytes = bytes.entry.now; delims = delims } }
    {
        SegView {
            start,
            bytes,
            delims,
        }
    }

    /// The offset of the segment's first byte in the text.
    pub fn start(&self) -> usize
        ensures { result ≡ self.now.start }
    {
        self.start
    }

    /// The segment's bytes, without its terminator.
    pub fn bytes(&self) -> &'a [u8]
        ensures { result.now ≡ self.now.bytes }
    {
        self.bytes
    }

    /// The delimiters that the segment is read by.
    pub fn delims(&self) -> Delims
        ensures { result ≡ self.now.delims }
    {
        self.delims
    }

    /// The segment's id: what is before the first element separator.
    pub fn id(&self) -> &'a [u8]
        ensures value { result.now ≡ id_of self.now }
        ensures len { length result.now ≤ length self.now.bytes }
    {
        parts::part_or_empty(self.bytes, Some(self.delims.element), 0)
    }

    /// Element `k` as it is.
    pub fn element(&self, k: usize) -> &'a [u8]
        requires { 1 ≤ k }
        ensures value { result.now ≡ element_of self.now k }
        ensures len { length result.now ≤ length self.now.bytes }
    {
        parts::part_or_empty(self.bytes, Some(self.delims.element), k)
    }

    /// Elements 1, 2 and 3 as they are, found in one walk over the segment.
    pub fn first_elements(&self) -> (&'a [u8], &'a [u8], &'a [u8])
        ensures first { result.0.now ≡ element_of self.now 1 }
        ensures second { result.1.now ≡ element_of self.now 2 }
        ensures third { result.2.now ≡ element_of self.now 3 }
    {
        let mut elements = self.elements();
        let first = elements.next_or_empty();
        let second = elements.next_or_empty();
        let third = elements.next_or_empty();
        (first, second, third)
    }

    /// Occurrence `n` of element `k`.
    pub fn occurrence(&self, k: usize, n: usize) -> &'a [u8]
        requires element { 1 ≤ k }
        requires occurrence { 1 ≤ n }
        ensures value { result.now ≡ occurrence_of self.now k n }
        ensures len { length result.now ≤ length self.now.bytes }
    {
        parts::part_or_empty(self.element(k), self.delims.repetition, n - 1)
    }

    /// Component `m` of occurrence `n` of element `k`.
    pub fn component(&self, k: usize, n: usize, m: usize) -> &'a [u8]
        requires element { 1 ≤ k }
        requires occurrence { 1 ≤ n }
        requires component { 1 ≤ m }
        ensures value { result.now ≡ component_of self.now k n m }
        ensures len { length result.now ≤ length self.now.bytes }
    {
        parts::part_or_empty(self.occurrence(k, n), Some(self.delims.component), m - 1)
    }

    /// The elements after the id, first to last.
    pub fn elements(&self) -> Parts<'a>
        ensures value { result ≡ drop 1 (elements_of self.now) }
        ensures len { length result ≤ length self.now.bytes }
    {
        let mut elements = Parts::new(self.bytes, Some(self.delims.element));
        let _ = elements.next();
        elements
    }

    /// The occurrences of element `k`.
    pub fn occurrences(&self, k: usize) -> Parts<'a>
        requires { 1 ≤ k }
        ensures value { result ≡ occurrences self.now.delims (element_of self.now k) }
        ensures len { length result ≤ length self.now.bytes + 1 }
    {
        divide::occurrences(self.element(k), self.delims)
    }

    /// The components of occurrence `n` of element `k`.
    pub fn components(&self, k: usize, n: usize) -> Parts<'a>
        requires element { 1 ≤ k }
        requires occurrence { 1 ≤ n }
        ensures value { result ≡ components self.now.delims (occurrence_of self.now k n) }
        ensures len { length result ≤ length self.now.bytes + 1 }
    {
        divide::components(self.occurrence(k, n), self.delims)
    }
}
