/// The outcome of a set that may be delivered (own). Partners are named by their places in the setup.
#[derive(Clone, Copy, Debug, PartialEq, Eq)]
pub enum Outcome {
    /// It is delivered to this partner.
    DeliveredTo(usize),
    /// It is held, since it has a byte that is a delimiter of this partner and no delimiter of its own.
    HeldForDelimiter(usize),
    /// It is held, since it has no route.
    HeldForRoute,
}
