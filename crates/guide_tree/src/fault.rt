/// Why a guide is refused, with the numbers of the slots that show it. The numbers of the kinds are those that
/// `number` gives; they are judged in the order TooDeep, TooMany, BadBounds, BadTrigger, BadCondition, Ambiguous.
#[derive(Clone, Copy, Debug, PartialEq, Eq)]
pub enum GuideFault {
    /// Loops are nested over 8.
    TooDeep,
    /// There are over 2,000 nodes.
    TooMany,
    /// A node has bounds that can't be met or are too large, or an id that is none.
    BadBounds(u32),
    /// A loop doesn't begin with a segment that is there exactly once.
    BadTrigger(u32),
    /// A condition, a pick, a label; or, at slot 0, a dependency or the hierarchy's rule.
    BadCondition(u32),
    /// From some place two of the slots may come that a segment can fit both.
    Ambiguous(u32, u32),
    /// Memory was asked for and refused.
    NoMemory,
}

impl GuideFault {
    ghost use Rattle.std.specs.Prelude.{◌≡◌};
    ghost use Rattle.guide_tree.specs.Faults.{refusal_number};

    /// The number of the refusal.
    pub fn number(self) -> u32
        ensures { result ≡ refusal_number self }
    {
        match self {
            GuideFault::TooDeep => 1,
            GuideFault::TooMany => 2,
            GuideFault::BadBounds(_) => 3,
            GuideFault::BadTrigger(_) => 4,
            GuideFault::Ambiguous(_, _) => 5,
            GuideFault::BadCondition(_) => 6,
            GuideFault::NoMemory => 7,
        }
    }
}
