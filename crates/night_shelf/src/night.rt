use hub_kinds::{Items, Text};

/// A file of a night.
#[derive(Debug, Drop)]
pub struct NightFile {
    /// Its name in the night's folder.
    pub name: Text,
    pub bytes: Text,
}

/// A night that has its name.
#[derive(Debug, Drop)]
pub struct KeptNight {
    /// The name of its folder.
    pub name: Text,
    /// Its files, in the order in which they were put there.
    pub files: Items<NightFile>,
}
