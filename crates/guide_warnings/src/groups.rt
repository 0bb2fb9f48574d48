ghost use Rattle.std.specs.Prelude.{◌≡◌};
ghost use Rattle.guide_warnings.specs.Groups as groups;

use guide_tree::GuideHead;

/// The GS01 of the groups in which sets of this ST01 usually come; empty if none is known.
pub fn usual_group(set: &[u8]) -> &'static [u8]
    ensures { result.now ≡ groups.usual_group set.now }
{
    if set == b"850".as_slice() {
        b"PO"
    } else if set == b"856".as_slice() {
        b"SH"
    } else if set == b"855".as_slice() {
        b"PR"
    } else if set == b"860".as_slice() {
        b"PC"
    } else if set == b"810".as_slice() {
        b"IN"
    } else if set == b"846".as_slice() {
        b"IB"
    } else {
        b""
    }
}

/// Whether a guide is for sets in another group than they usually come in.
pub(crate) fn has_unusual_group(head: &GuideHead) -> bool
    ensures { result ≡ groups.has_unusual_group head.now }
{
    let usual = usual_group(head.set.as_slice());
    !(usual == b"".as_slice()) && !(usual == head.group.as_slice())
}
