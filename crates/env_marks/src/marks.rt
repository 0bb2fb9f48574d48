ghost use Rattle.std.specs.Prelude.{◌≡◌, ℕ, List, IfOk};

use crate::frag::{Frag, Mark, both_frags, push_marks};
use crate::piecewise::Piecewise;
use hub_kinds::NoMemory;
use std::alloc::Global;
use std::marker::Model;
use x12_bytes::Pair;

/// What a piece of a text says of the text's segments under a pair: the stretches at its ends, and the segments between
/// (X12.6, segment and segment terminator).
#[derive(Drop)]
pub struct Marks {
    pair: Pair,
    first: Frag,
    list: Vec<Mark>,
    last: Option<Frag>,
}

impl Model for Marks {
    ghost use Rattle.env_marks.specs.Marking.{MarksValue, marking_from};

    ghost Value = { MarksValue };

    ghost view = { λ m. record { pair = m.pair; marking = marking_from m.first m.list.items m.last } };
}

impl Marks {
    ghost use Rattle.env_marks.specs.Marking.{MarksValue, Uncut, Cut};
    ghost use Rattle.env_marks.specs.Shown.{first_shown, end_shown, list_shown};

    /// The marks of a piece in which no terminator is.
    pub(crate) fn uncut(alloc: Global, pair: Pair, first: Frag) -> Marks
        ensures { result ≡ record { pair = pair; marking = Uncut first } }
    {
        Marks {
            pair,
            first,
            list: Vec::new(alloc),
            last: None,
        }
    }

    /// The marks of a piece in which a terminator is.
    pub(crate) fn cut(pair: Pair, first: Frag, list: Vec<Mark>, last: Frag) -> Marks
        ensures { result ≡ record { pair = pair; marking = Cut first list.items last } }
    {
        Marks {
            pair,
            first,
            list,
            last: Some(last),
        }
    }

    /// What the marks were taken under.
    pub fn pair(&self) -> Pair
        ensures { result ≡ self.now.pair }
    {
        self.pair
    }

    /// The first stretch.
    pub fn first(&self) -> Frag
        ensures { result ≡ first_shown self.now.marking }
    {
        self.first
    }

    /// The offset at which the piece ends.
    pub fn end(&self) -> usize
        ensures { result ≡ end_shown self.now.marking }
    {
        match self.last {
            Some(last) => last.to,
            None => self.first.to,
        }
    }

    /// The segments between the first terminator and the last, in order.
    pub fn list(&self) -> &[Mark]
        ensures { result.now ≡ list_shown self.now.marking }
    {
        if self.last.is_some() {
            self.list.as_slice()
        } else {
            &[]
        }
    }
}

impl Piecewise for Marks {
    ghost use Rattle.env_marks.specs.MarkLaws.{marks_laws};
    ghost use Rattle.env_marks.specs.Marking.{marks_of, joined_marks};

    type Item = u8;

    type Under = Pair;

    ghost value = { marks_of };

    ghost joined = { joined_marks };

    ghost laws = { marks_laws };

    fn join(self, _alloc: Global, other: Marks) -> Result<Marks, NoMemory> {
        let Marks {
            pair,
            first,
            list,
            last,
        } = self;
        match last {
            None => Ok(Marks {
                pair,
                first: both_frags(first, other.first),
                list: other.list,
                last: other.last,
            }),
            Some(last) => match other.last {
                None => Ok(Marks {
                    pair,
                    first,
                    list,
                    last: Some(both_frags(last, other.first)),
                }),
                Some(end) => {
                    let mut list = list;
                    push_marks(&mut list, both_frags(last, other.first))?;
                    list.extend_from_slice(other.list.as_slice())?;
                    Ok(Marks {
                        pair,
                        first,
                        list,
                        last: Some(end),
                    })
                }
            },
        }
    }
}
