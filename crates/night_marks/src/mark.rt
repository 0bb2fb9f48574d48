use hub_kinds::Text;

/// A night that is done.
#[derive(Debug, Drop)]
pub struct NightMark {
    /// The name of its folder.
    pub name: Text,
    /// Its date and time, as its file from/at says.
    pub moment: Text,
    /// The name of the night before it, as its file from/before says; empty if it was the first.
    pub before: Text,
    /// Whether it is the entry of archived nights: its folder is then the folder of the last archived night.
    pub is_archived: bool,
}
