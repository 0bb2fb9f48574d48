ghost use Rattle.std.specs.Prelude.{◌≡◌, option_map};
ghost use Rattle.env_index.specs.Words.{GroupEntry};
ghost use Rattle.set_answers.specs.Answers.{listed_by, trailer_of};
ghost use Rattle.set_answers.specs.Ends.{ends_of};

use ack_999::GroupTrailer;
use env_index::{GroupElements, GroupEnvelope, group_elements};
use hub_kinds::Lent;
use x12_segs::SegView;

/// What is asked of a group's GS and GE, each of which is walked once for it.
#[derive(Drop)]
pub(crate) struct GroupEnds<'a> {
    pub(crate) header: GroupElements<'a>,
    pub(crate) trailer: Option<GroupTrailer<'a>>,
}

pub(crate) fn ends_of<'a>(group: &GroupEnvelope<'_, 'a>) -> GroupEnds<'a>
    ensures { result ≡ ends_of group.now }
{
    GroupEnds {
        header: group_elements(&group.header()),
        trailer: group_trailer(group),
    }
}

/// GE01 and GE02, where the group has a GE.
fn group_trailer<'a>(group: &GroupEnvelope<'_, 'a>) -> Option<GroupTrailer<'a>>
    ensures { result ≡ option_map trailer_of group.now.trailer }
{
    match group.trailer() {
        Some(trailer) => Some(trailer_of(&trailer)),
        None => None,
    }
}

fn trailer_of<'a>(trailer: &SegView<'a>) -> GroupTrailer<'a>
    ensures { result ≡ trailer_of trailer.now }
{
    let (listed, control, _) = trailer.first_elements();
    GroupTrailer {
        listed: Lent::new(listed),
        control: Lent::new(control),
    }
}

/// GE01, or nothing without a GE.
pub(crate) fn listed(trailer: Option<GroupTrailer<'_>>) -> Lent<'_>
    ensures { (group : GroupEntry) → trailer.entry ≡ option_map trailer_of group.trailer → result ≡ listed_by group.trailer }
{
    match trailer {
        Some(GroupTrailer { listed, .. }) => listed,
        None => Lent::new(b""),
    }
}
