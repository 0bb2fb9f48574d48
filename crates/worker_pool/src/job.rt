use guide_fast::FastGuide;
use hub_kinds::Place;
use x12_segs::SetSpan;

/// How a set is checked (X12.6, transaction set): where it is in its text, and by which compiled guide, if it has one.
#[derive(Drop)]
pub struct SetJob<'f, 'g, 'a> {
    pub text: &'a [u8],
    pub span: SetSpan,
    pub guide: Option<&'f FastGuide<'g>>,
}

/// A place of an index, and for a set how it is checked. Nothing but its record is done at the place of an interchange or a group.
#[derive(Drop)]
pub struct CheckJob<'f, 'g, 'a> {
    pub place: Place,
    pub set: Option<SetJob<'f, 'g, 'a>>,
}
