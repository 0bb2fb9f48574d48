use hub_kinds::Lent;

/// What a functional group trailer (GE) says, as it was received.
#[derive(Debug, Drop)]
pub struct GroupTrailer<'a> {
    /// GE01, the number of transaction sets.
    pub listed: Lent<'a>,
    /// GE02, the group's control number.
    pub control: Lent<'a>,
}
