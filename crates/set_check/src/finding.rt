use crate::checked::CheckedSet;
use hub_kinds::Place;

/// What is found out at a place of an index (X12.5, interchange; X12.6, functional group and transaction set): of a set how it is
/// checked, and whether an earlier place has the place's number.
#[derive(Drop)]
pub struct Finding<'a> {
    /// The number of the job that found it, from 0 on.
    pub number: u64,
    /// The place.
    pub place: Place,
    /// The set, once it was checked; none of an interchange or a group.
    pub checked: Option<CheckedSet<'a>>,
    /// Whether an earlier place has the number of this one.
    pub earlier: bool,
}
