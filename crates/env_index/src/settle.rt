ghost use Rattle.std.specs.Prelude.{◌≡◌, length};
ghost use Rattle.env_index.specs.Settled.{with_fault, with_faults, settled};

use crate::index::{Index, IndexedInterchange};
use hub_kinds::InterchangeFault;

impl<'a> IndexedInterchange<'a> {
    fn settle(&mut self, fault: Option<InterchangeFault>)
        ensures { self.new ≡ with_fault self.old fault }
    {
        self.fault = fault;
    }
}

/// Gives each of some interchanges its fault.
fn settle_each(entries: &mut [IndexedInterchange<'_>], faults: &[Option<InterchangeFault>])
    requires { length faults.now ≡ length entries.old }
    ensures { entries.new ≡ with_faults entries.old faults.now }
{
    for i in 0..faults.len() {
        entries[i].settle(faults[i]);
    }
}

impl<'a> Index<'a> {
    /// Gives each interchange its fault, once senders and first uses of numbers are known: one for each interchange, in their
    /// order. What is beside the faults stays (X12.5, interchange; the faults' numbers are own).
    pub fn settle(&mut self, faults: &[Option<InterchangeFault>])
        requires { length faults.now ≡ length self.old.entries }
        ensures { self.new ≡ settled self.old faults.now }
    {
        settle_each(self.interchanges.as_mut_slice(), faults);
    }
}
