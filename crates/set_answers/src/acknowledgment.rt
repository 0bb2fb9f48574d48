ghost use Rattle.std.specs.Prelude.{◌≡◌};
ghost use Rattle.set_answers.specs.Acknowledgments.{has_any, present};

use crate::answered::AnsweredGroup;
use std::marker::Model;
use x12_bytes::Header;

/// What an interchange is acknowledged with, lent: a TA1 where it has a note (X12.5, TA105), and a 999 for each group that something
/// is answered to.
#[derive(Drop)]
pub(crate) struct Acknowledgment<'x, 'a> {
    header: &'x Header<'a>,
    note: Option<&'static str>,
    groups: &'x [Option<AnsweredGroup<'a>>],
}

impl<'x, 'a> Model for Acknowledgment<'x, 'a> {
    ghost use Rattle.std.specs.Prelude.{option_map};
    ghost use Rattle.set_answers.specs.Acknowledgments.{Acknowledgment};

    ghost Value = { Acknowledgment };

    ghost view = { λ a. record { header = a.header.now; note = option_map (λ n. n.now) a.note; groups = a.groups.now } };
}

impl<'x, 'a> Acknowledgment<'x, 'a> {
    ghost use Rattle.std.specs.Prelude.{option_map};
    ghost use Rattle.set_answers.specs.Acknowledgments.{has_reports, is_there};

    /// An acknowledgment of an interchange with this header, this note of a TA1 and these answers to its groups.
    pub(crate) fn new(
        header: &'x Header<'a>,
        note: Option<&'static str>,
        groups: &'x [Option<AnsweredGroup<'a>>],
    ) -> Self
        ensures { result
            ≡ record { header = header.entry.now; note = option_map (λ n. n.now) note.entry; groups = groups.entry.now } }
    {
        Acknowledgment {
            header,
            note,
            groups,
        }
    }

    /// The header that the TA1 repeats.
    pub(crate) fn header(&self) -> &'x Header<'a>
        ensures { result.now ≡ self.now.header }
    {
        self.header
    }

    /// The note of the TA1.
    pub(crate) fn note(&self) -> Option<&'static str>
        ensures { option_map (λ n. n.now) result ≡ self.now.note }
    {
        self.note
    }

    /// The answers to the groups.
    pub(crate) fn groups(&self) -> &'x [Option<AnsweredGroup<'a>>]
        ensures { result.now ≡ self.now.groups }
    {
        self.groups
    }

    /// Whether there is a 999.
    pub(crate) fn has_reports(&self) -> bool
        ensures { result ≡ has_reports self.now }
    {
        has_any(self.groups)
    }

    /// Whether there is a TA1, or a 999.
    pub(crate) fn is_there(&self) -> bool
        ensures { result ≡ is_there self.now }
    {
        self.note.is_some() || self.has_reports()
    }
}

/// Whether something is answered to any of these groups.
pub(crate) fn has_any(groups: &[Option<AnsweredGroup<'_>>]) -> bool
    ensures { result ≡ has_any (present groups.now) }
{
    for group in groups {
        if group.is_some() {
            return true;
        }
    }
    false
}
