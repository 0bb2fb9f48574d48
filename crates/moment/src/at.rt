ghost use Rattle.std.specs.Prelude.{◌≡◌, ◌↔◌, ℕ, List, IsSome, is_some, IfSome};
ghost use Rattle.moment.specs.Moment.{IsMoment};
ghost use Rattle.moment.specs.Calendar.{is_moment};

use crate::calendar::{is_date, is_time};
use std::marker::Model;

/// The length of a moment in digits.
const MOMENT_LEN: usize = 12;

/// A moment: a day of the years 0001 to 9999 and a time of day in hours and minutes. Contracts
/// see its twelve ASCII digits CCYYMMDDHHMM (X12.6, date and time data element types).
#[derive(Clone, Copy, Debug, PartialEq, Eq)]
pub struct At {
    digits: [u8; MOMENT_LEN],
}

impl Model for At {
    ghost Value = { List ℕ };

    ghost view = { λ a. a.digits };

    ghost invariant = { λ a. IsMoment a.digits };

    ghost inverse = { λ text. record { digits = text } };
}

impl At {
    /// The moment that the text spells, as CCYYMMDDHHMM; `None` where it isn't twelve digits of a
    /// day and a time that exist.
    pub fn read(text: &[u8]) -> Option<At>
        ensures found { IsSome result ↔ IsMoment text.now }
        ensures read_as_date_and_time { is_some result ≡ is_moment text.now }
        ensures same { IfSome result (λ at. at ≡ text.now) }
    {
        if !is_moment(text) {
            return None;
        }
        let mut digits = [0; MOMENT_LEN];
        digits.copy_from_slice(text);
        Some(At { digits })
    }

    /// The twelve digits CCYYMMDDHHMM.
    pub fn digits(&self) -> &[u8]
        ensures value { result.now ≡ self.now }
        ensures moment { IsMoment result.now }
    {
        self.digits.as_slice()
    }
}

/// Whether a text is twelve digits, of which the first eight are a date and the last four a time.
fn is_moment(text: &[u8]) -> bool
    ensures { result ≡ is_moment text.now }
{
    if text.len() != MOMENT_LEN {
        return false;
    }
    is_date(&text[..8]) && is_time(&text[8..])
}
