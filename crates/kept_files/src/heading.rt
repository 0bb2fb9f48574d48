/// What a night's record says beside its files.
#[derive(Drop)]
pub struct Heading<'a> {
    /// The number of the night, counted from 1.
    pub number: u32,
    /// What the night is called.
    pub name: &'a [u8],
    /// The date and time that everything of the night bears, as CCYYMMDDHHMM.
    pub moment: &'a [u8],
    /// The name of the folder of the night before; empty in the first night of a hub.
    pub before: &'a [u8],
    /// The SHA-256 of the record of the night before, as 64 hexadecimal digits; none in the first night.
    pub before_sum: Option<&'a [u8]>,
    /// The release of the program.
    pub release: &'a [u8],
    /// What the clock of the host said, as CCYYMMDDHHMM.
    pub clock: &'a [u8],
    /// The exit status of the run.
    pub status: u8,
}
