/// Where a segment's bytes are in the text, without its terminator.
#[derive(Clone, Copy, Debug)]
pub(crate) struct Stretch {
    pub(crate) start: u32,
    pub(crate) end: u32,
}

/// Where a set's ST and its last segment are, whether that is its SE, and how many segments it has
/// with them.
#[derive(Clone, Copy, Debug)]
pub(crate) struct SetPlace {
    pub(crate) header: Stretch,
    pub(crate) segments: u32,
    pub(crate) last: Stretch,
    pub(crate) closed: bool,
}

/// Where a group's GS and GE are, and its sets.
#[derive(Drop)]
pub(crate) struct GroupPlace {
    pub(crate) header: Stretch,
    pub(crate) sets: Vec<SetPlace>,
    pub(crate) trailer: Option<Stretch>,
}

/// Where all is that an interchange has after its header.
#[derive(Drop)]
pub(crate) struct BodyPlace {
    pub(crate) groups: Vec<GroupPlace>,
    pub(crate) ta1s: u32,
    pub(crate) misplaced: bool,
    pub(crate) trailer: Option<Stretch>,
    /// Where the interchange ends.
    pub(crate) end: usize,
}
