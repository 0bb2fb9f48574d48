ghost use Rattle.std.specs.Prelude.{◌≡◌};
ghost use Rattle.env_index.specs.GroupElements.{group_elements};

use hub_kinds::Lent;
use x12_segs::SegView;

/// What a functional group's header names the group by, each element as it is (X12.6, GS).
#[derive(Debug, Drop)]
pub struct GroupElements<'a> {
    /// The functional identifier code (GS01).
    pub functional_id: Lent<'a>,
    /// The group's control number (GS06).
    pub control: Lent<'a>,
    /// The version, release and industry identifier code (GS08).
    pub version: Lent<'a>,
}

/// GS01, GS06 and GS08 of a group's header, found in one walk over it.
pub fn group_elements<'a>(header: &SegView<'a>) -> GroupElements<'a>
    ensures { result ≡ group_elements header.now }
{
    let mut elements = header.elements();
    let functional_id = elements.next_or_empty();
    let _sender = elements.next_or_empty();
    let _receiver = elements.next_or_empty();
    let _date = elements.next_or_empty();
    let _time = elements.next_or_empty();
    let control = elements.next_or_empty();
    let _agency = elements.next_or_empty();
    let version = elements.next_or_empty();
    GroupElements {
        functional_id: Lent::new(functional_id),
        control: Lent::new(control),
        version: Lent::new(version),
    }
}
