use moment::At;
use night_command::Sharing;

/// Which night of which hub is run.
#[derive(Clone, Copy)]
pub struct Setting<'a> {
    /// The path of the hub's folder.
    pub hub: &'a str,
    /// The paths of the files that came in.
    pub files: &'a [&'a str],
    /// The paths of those that are asked for again.
    pub again: &'a [&'a str],
    /// The date and time that everything of the night bears.
    pub at: At,
    /// What the night is called.
    pub name: &'a [u8],
    /// How the work is shared.
    pub sharing: Sharing,
    /// The moment after which no night's may be.
    pub limit: &'a [u8],
    /// What the clock says.
    pub clock: &'a [u8],
    /// The sum of the program that makes the night.
    pub program: &'a [u8],
}
