use hub_kinds::Text;

/// An element of a segment, by its position from 1 on; in a composite the component too, else 0.
#[derive(Clone, Copy, Debug, PartialEq, Eq)]
pub struct At {
    pub element: u64,
    pub component: u64,
}

/// Why a code can't be meant.
#[derive(Clone, Copy, Debug, PartialEq, Eq)]
pub enum CodeDoubt {
    /// It has a comma or a stroke, as if it were several.
    Joined,
    /// No value of its form is allowed: the bytes that its type has, and for a date or a time a day or a time that exists.
    OtherForm,
    /// No value of its length is allowed.
    OtherLength,
    /// It is listed as used and as not used.
    AlsoUnused,
    /// A segment is picked by it, and its element may never be it.
    NotListed,
}

/// A code of a segment position, and the first of its list that such a doubt is of.
#[derive(Debug, Drop)]
pub struct CodeWarning {
    /// The number of the segment position.
    pub slot: u32,
    /// The segment id.
    pub id: Text,
    pub at: At,
    pub doubt: CodeDoubt,
    pub code: Text,
}

/// An id of the dictionary that a segment position has too, by the first such position.
#[derive(Debug, Drop)]
pub struct DictionaryWarning {
    /// The number of the segment position.
    pub slot: u32,
    /// The segment id.
    pub id: Text,
}

/// A label of a segment position that no dependency names.
#[derive(Debug, Drop)]
pub struct LabelWarning {
    /// The number of the segment position.
    pub slot: u32,
    /// The segment id.
    pub id: Text,
    pub label: Text,
}

/// A code of a dependency, the first that the element can't have of which it speaks.
#[derive(Debug, Drop)]
pub struct DependencyWarning {
    /// The dependency, from 1 on.
    pub dependency: u64,
    /// The number of the segment position.
    pub slot: u32,
    /// The segment id.
    pub id: Text,
    /// The element's position, from 1 on.
    pub element: u32,
    pub code: Text,
}

/// An element of a segment position that each set needs: it is mandatory, and its type or its lengths allow none of its codes. So no set
/// can meet the guide.
#[derive(Debug, Drop)]
pub struct UnmetWarning {
    /// The number of the segment position.
    pub slot: u32,
    /// The segment id.
    pub id: Text,
    /// The element's position, from 1 on.
    pub element: u64,
}

/// The group and the set of a guide whose sets usually come in another group.
#[derive(Debug, Drop)]
pub struct GroupWarning {
    /// Its GS01.
    pub group: Text,
    /// Its ST01.
    pub set: Text,
}

/// What a guide that is accepted holds, and can't be meant or is dangerous.
#[derive(Debug, Drop)]
pub enum Warning {
    /// Its sets usually come in another group.
    UnusualGroup(GroupWarning),
    /// A set is accepted although it has a segment that the guide doesn't know, also one that begins with ISA.
    HeaderLetThrough,
    /// The dictionary is never asked for it.
    IdInDictionary(DictionaryWarning),
    Code(CodeWarning),
    UnnamedLabel(LabelWarning),
    CodeOfDependency(DependencyWarning),
    /// No set can meet the guide.
    Unmet(UnmetWarning),
}
