use hub_night::Made;

/// What is next for an old night.
#[derive(Drop)]
pub(crate) enum Next {
    /// It is a night of the hub already.
    There,
    /// It was made again, and isn't kept yet.
    Made(Made),
}
