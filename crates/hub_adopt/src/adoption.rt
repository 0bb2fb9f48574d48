use night_command::Sharing;

/// Which old nights become nights of which hub.
#[derive(Clone, Copy)]
pub struct Adoption<'a> {
    /// The path of the hub's folder.
    pub hub: &'a str,
    /// The path of the folder of the old nights.
    pub nights: &'a str,
    /// How the work of a night is shared.
    pub sharing: Sharing,
    /// The moment after which no night's may be.
    pub limit: &'a [u8],
    /// What the clock says.
    pub clock: &'a [u8],
    /// The sum of the program that makes the nights.
    pub program: &'a [u8],
}
