use crate::index::{Index, IndexedInterchange};
use crate::plain::count_others;
use std::marker::Model;

/// What is read at a share of the headers of a text.
#[derive(Drop)]
pub(crate) struct Share<'a> {
    pub(crate) interchanges: Vec<IndexedInterchange<'a>>,
    /// How many bytes before them and between them are in no interchange, but for CR, LF and space.
    pub(crate) outside: u64,
    /// The offset after the last of them; where there is none, the one that the share is read from.
    pub(crate) end: usize,
}

impl<'a> Model for Share<'a> {
    ghost use Rattle.env_index.specs.Shares.{ShareValue};

    ghost Value = { ShareValue };

    ghost view = { λ s. record { entries = s.interchanges.items; outside = s.outside; end = s.end } };
}

impl<'a> Share<'a> {
    ghost use Rattle.std.specs.Prelude.{◌≡◌, ◌≤◌, length};
    ghost use Rattle.hub_kinds.specs.declared.limits.TheConstants.{LONGEST_TEXT};
    ghost use Rattle.isa_scan.specs.Heads.{heads_in};
    ghost use Rattle.env_index.specs.Shares.{IsReadAt};
    ghost use Rattle.env_index.specs.Unjudged.{IsUnjudged};

    /// Where the last of its interchanges ends.
    pub(crate) fn end(&self) -> usize
        ensures { result ≡ self.now.end }
    {
        self.end
    }

    /// The index of a text, by what was read at all of its headers.
    pub(crate) fn into_index(self, text: &'a [u8]) -> Index<'a>
        requires few { length text.now ≤ LONGEST_TEXT }
        requires all { IsReadAt text.now 0 (heads_in text.now 0 (length text.now)) self }
        ensures { IsUnjudged text.entry.now result }
    {
        let outside = self.outside + count_others(&text[self.end..]);
        Index {
            text,
            interchanges: self.interchanges,
            outside,
        }
    }
}
