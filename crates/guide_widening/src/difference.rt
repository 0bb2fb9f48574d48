use guide_tree::ElementType;
use hub_kinds::Text;

/// What a difference of two guides does to the sets that meet them.
#[derive(Clone, Copy, Debug, PartialEq, Eq)]
pub enum Change {
    /// The new guide may refuse a set that the old one takes.
    Narrower,
    /// The new guide takes whatever the old one takes here.
    Wider,
    /// The two can't be compared.
    Other,
}

/// What two guides say otherwise.
#[derive(Clone, Copy, Debug, PartialEq, Eq)]
pub enum Key {
    /// The functional identifier code, GS01.
    Group,
    /// The transaction set identifier code, ST01.
    Set,
    /// The version, release and industry identifier code, GS08.
    Version,
    /// The implementation convention reference, ST03.
    Convention,
    /// A segment fault that doesn't reject a set.
    TolerateSegment,
    /// An element fault that doesn't reject a set.
    TolerateElement,
    /// Whether the HL segments are judged.
    Hierarchy,
    /// Whether HL01 must count from 1.
    Sequential,
    /// A pair of levels of HL segments.
    Pair,
    /// A dependency.
    Dependency,
    /// A segment or a loop.
    Node,
    /// A segment's label.
    Label,
    /// The least use of a segment or a loop.
    LeastUse,
    /// The greatest use of a segment or a loop.
    GreatestUse,
    /// What a segment's picks ask of the element at a position.
    Pick,
    /// A relational condition.
    Condition,
    /// Whether an element or a component is mandatory, optional or not used.
    Presence,
    /// The components of an element; a simple element has none.
    Components,
    /// How often an element may occur.
    Repeat,
    /// The type of a value.
    Type,
    /// The least length of a value.
    LeastLength,
    /// The greatest length of a value.
    GreatestLength,
    /// Whether bytes from 0x80 on are allowed.
    Wide,
    /// Whether a value must be one of a list of codes.
    Codes,
    /// A code.
    Code,
}

/// Whether an element or a component is mandatory, optional or not used.
#[derive(Clone, Copy, Debug, PartialEq, Eq)]
pub enum Presence {
    Mandatory,
    Optional,
    NotUsed,
}

/// What one of the two guides says.
#[derive(Debug, Drop)]
pub enum Value {
    Nothing,
    Number(u64),
    /// A text; a pick, a condition, a pair of levels or a dependency as guide files write it.
    Text(Text),
    Flag(bool),
    Presence(Presence),
    Type(ElementType),
    /// A segment or a loop, by its least and its greatest use.
    Uses(u32, u32),
}

/// Where two guides differ: a segment or a loop by its number, and an element of it and a component of that by their positions from 1 on.
/// The number is that of the new guide, but of a node that is gone that of the old one. What isn't named is 0.
#[derive(Clone, Copy, Debug, PartialEq, Eq)]
pub struct At {
    pub node: u32,
    pub element: u64,
    pub component: u64,
}

/// A difference of two guides, with what each of them says.
#[derive(Debug, Drop)]
pub struct Difference {
    pub at: At,
    pub key: Key,
    pub change: Change,
    pub old: Value,
    pub new: Value,
}
