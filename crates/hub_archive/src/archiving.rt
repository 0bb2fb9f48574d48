/// Which nights of which hub are archived.
#[derive(Clone, Copy)]
pub struct Archiving<'a> {
    /// The path of the hub's folder.
    pub hub: &'a str,
    /// How many of the last nights are not archived.
    pub keep: u32,
    /// The moment after which no night's may be.
    pub limit: &'a [u8],
}
