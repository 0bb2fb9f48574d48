ghost use Rattle.std.specs.Prelude.{◌≡◌, ◌+◌, ◌<◌, ◌≤◌, ℕ, List, [], ◌∷◌, length, take, drop, MatchOption, option_map, slice_index_or};
ghost use Rattle.std.specs.Iterator.{YieldsFirstRef, item_count};
ghost use Rattle.x12_segs.specs.Parts.{parts_by, parts_left};

use crate::find::find_byte;
use std::marker::Model;

/// The parts of a text round a separator that are still to come, each lent from the text. Without
/// a separator the text is its one part. Contracts see the list of the parts that are left.
#[derive(Drop)]
pub struct Parts<'a> {
    left: Option<&'a [u8]>,
    separator: Option<u8>,
}

impl<'a> Model for Parts<'a> {
    ghost Value = { List (List ℕ) };

    ghost view = { λ p. parts_left p.separator (option_map (λ b. b.now) p.left) };
}

impl<'a> Parts<'a> {
    pub(crate) fn new(text: &'a [u8], separator: Option<u8>) -> Self
        ensures value { result ≡ parts_by separator text.entry.now }
        ensures len { length result ≤ length text.entry.now + 1 }
    {
        Parts {
            left: Some(text),
            separator,
        }
    }

    /// The next part; where none is left, the empty text.
    pub fn next_or_empty(&mut self) -> &'a [u8]
        ensures value { result.now ≡ slice_index_or self.old 0 [] }
        ensures left { self.new ≡ drop 1 self.old }
    {
        self.next().unwrap_or(b"")
    }
}

impl<'a> Iterator for Parts<'a> {
    type Item = &'a [u8];

    ghost next_gives = { YieldsFirstRef (λ rest. rest) };

    ghost remaining = { item_count (λ rest. rest) };

    fn next(&mut self) -> Option<&'a [u8]> {
        let text = self.left?;
        match first_end(text, self.separator) {
            Some(end) => {
                self.left = Some(&text[end + 1..]);
                Some(&text[..end])
            }
            None => {
                self.left = None;
                Some(text)
            }
        }
    }
}

/// Where the first part ends, if a separator is after it.
pub(crate) fn first_end(text: &[u8], separator: Option<u8>) -> Option<usize>
    ensures { MatchOption result (parts_by separator text.now ≡ text.now ∷ [])
        (λ end. (end < length text.now) × (parts_by separator text.now
        ≡ take end text.now ∷ parts_by separator (drop (end + 1) text.now))) }
{
    find_byte(separator?, text)
}

/// Part `n` of a text, counted from 0; one that isn't there is the empty text.
pub(crate) fn part_or_empty(text: &[u8], separator: Option<u8>, n: usize) -> &[u8]
    ensures value { result.now ≡ slice_index_or (parts_by separator text.now) n [] }
    ensures len { length result.now ≤ length text.now }
{
    Parts::new(text, separator).nth(n).unwrap_or(b"")
}
