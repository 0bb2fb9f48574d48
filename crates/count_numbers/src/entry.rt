use crate::run::RunKey;

/// What happens for a partner, in the order of the text.
#[derive(Debug, Drop)]
pub enum Entry<'a> {
    /// An acknowledgment.
    Acknowledged {
        /// Whether it has a group, i.e. holds a 999.
        has_group: bool,
    },
    /// A set that is delivered to it.
    Delivered(RunKey<'a>),
}

/// What happens for one of the partners of a setup.
#[derive(Debug, Drop)]
pub struct PartnerEntry<'a> {
    /// The partner, by its place in the setup.
    pub partner: usize,
    /// What happens for it.
    pub entry: Entry<'a>,
}
