ghost use Rattle.std.specs.Prelude.{◌≡◌, ◌==◌};
ghost use Rattle.std.specs.List.{list_all, list_any};
ghost use Rattle.gather_command.specs.Members.{is_cut};
ghost use Rattle.day_files.specs.Members as day;

use gather_command::{Outcome, taken_of};
use gather_files::End;
use hub_kinds::{Text, Texts};

/// A set that an older night delivered.
#[derive(Debug, Drop)]
pub struct OldSet {
    /// The set's key.
    pub key: Text,
    /// The name of the newest night that delivered it.
    pub night: Text,
}

/// A file of the day that was judged by itself.
#[derive(Debug, Drop)]
pub struct Member {
    /// Its path, as the arguments name it.
    pub path: Text,
    /// What became of it as it was gathered.
    pub outcome: Outcome,
    /// What of it would go in; nothing of a file that isn't taken.
    pub closed: Text,
    /// The first set of it that an older night delivered, for which it is set aside.
    pub old: Option<OldSet>,
    /// The keys of the sets that it delivers, if it is asked for again.
    pub again: Option<Texts>,
}

/// What of a file goes into the night's input.
pub(crate) fn part_of(member: &Member) -> &[u8]
    ensures { result.now ≡ day.part_of member.now }
{
    match &member.old {
        None => member.closed.as_slice(),
        Some(_) => b"",
    }
}

fn ends_whole(end: End) -> bool
    ensures { result ≡ (is_cut end == 0) }
{
    match end {
        End::Whole | End::Mended => true,
        End::CutOff | End::OtherSeparator(_) | End::CutInHeader => false,
    }
}

fn goes_in(member: &Member) -> bool
    ensures { result ≡ day.goes_in member.now }
{
    match &member.old {
        None => taken_of(member.outcome).is_some(),
        Some(_) => false,
    }
}

fn is_whole(member: &Member) -> bool
    ensures { result ≡ day.is_whole member.now }
{
    match (&member.old, taken_of(member.outcome)) {
        (None, Some(taken)) => ends_whole(taken.end),
        _ => false,
    }
}

/// Whether some file goes in.
pub fn some_goes_in(members: &[Member]) -> bool
    ensures { result ≡ list_any day.goes_in members.now }
{
    members.iter().any(goes_in)
}

/// Whether each file goes in, and is whole.
pub fn are_whole(members: &[Member]) -> bool
    ensures { result ≡ list_all day.is_whole members.now }
{
    members.iter().all(is_whole)
}
