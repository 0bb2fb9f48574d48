use hub_kinds::Text;

/// What was read of a file.
#[derive(Debug, Drop)]
pub enum Content {
    /// Its bytes.
    Read(Text),
    /// It changed while it was read.
    Changed,
    /// Its name isn't UTF-8, so it can't be opened.
    NameNotUtf8,
}

/// A file of the day.
#[derive(Debug, Drop)]
pub struct DayFile {
    /// Its path, as the arguments name it.
    pub path: Text,
    pub content: Content,
    /// Whether it is asked for again: older nights may have delivered its sets.
    pub is_again: bool,
}
