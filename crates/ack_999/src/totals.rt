use crate::faults::fault_segment_count;
use hub_kinds::{SetAnswer, Verdict};

/// How many of a group's transaction sets have each verdict (999 guide, IK501), and in how many segments their
/// faults are reported (IK3 and IK4).
#[derive(Clone, Copy, Debug, PartialEq, Eq)]
pub struct Totals {
    /// A.
    pub accepted: u64,
    /// E.
    pub accepted_with_errors: u64,
    /// R.
    pub rejected: u64,
    /// IK3 and IK4 of all sets.
    pub fault_segments: u128,
}

impl Totals {
    ghost use Rattle.std.specs.Prelude.{◌≡◌, ◌+◌, ◌<◌, ◌^◌, [], ◌∷◌, ◌++◌, List};
    ghost use Rattle.hub_kinds.specs.declared.answers.SetAnswer.{SetAnswer};
    ghost use Rattle.ack_999.specs.Group.{totals_of, received_sets, IsCountable};

    /// The totals of no set.
    pub fn new() -> Totals
        ensures value { result ≡ totals_of [] }
        ensures countable { IsCountable result }
    {
        Totals {
            accepted: 0,
            accepted_with_errors: 0,
            rejected: 0,
            fault_segments: 0,
        }
    }

    /// Counts one set more.
    pub fn add(&mut self, set: &SetAnswer)
        requires room { received_sets self.old + 1 < 2 ^ 64 }
        requires countable { IsCountable self.old }
        ensures counted { (sets : List SetAnswer) → self.old ≡ totals_of sets
            → self.new ≡ totals_of (sets ++ set.now ∷ []) }
        ensures sets { received_sets self.new ≡ received_sets self.old + 1 }
        ensures countable { IsCountable self.new }
    {
        self.fault_segments += u128::from(fault_segment_count(&set.faults));
        match set.verdict {
            Verdict::Accepted => self.accepted += 1,
            Verdict::AcceptedWithErrors => self.accepted_with_errors += 1,
            Verdict::Rejected => self.rejected += 1,
        }
    }

    /// How many sets there are.
    pub fn sets(&self) -> u128
        ensures value { result ≡ received_sets self.now }
        ensures bound { result < 2 ^ 66 }
    {
        u128::from(self.accepted)
            + u128::from(self.accepted_with_errors)
            + u128::from(self.rejected)
    }
}
