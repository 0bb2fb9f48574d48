ghost use Rattle.std.specs.Prelude.{◌≡◌};
ghost use Rattle.x12_segs.specs.Words.{SegValue};
ghost use Rattle.env_index.specs.Words.{group_elements};
ghost use Rattle.set_answers.specs.Answers.{support_of};

use crate::sent::Sent;
use ack_999::GroupSupport;
use env_index::GroupElements;

/// Whether the sender has guides for a group with a GS of these elements.
pub(crate) fn support_of(sent: &Sent<'_>, header: &GroupElements<'_>) -> GroupSupport
    ensures { (gs : SegValue) → header.now ≡ group_elements gs → result ≡ support_of sent.now.setup sent.now.sender gs }
{
    let group = header.functional_id.bytes();
    if sent.has_version(group, header.version.bytes()) {
        GroupSupport::Served
    } else if sent.has_group(group) {
        GroupSupport::VersionNotServed
    } else {
        GroupSupport::NotServed
    }
}
