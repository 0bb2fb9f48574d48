ghost use Rattle.std.specs.Prelude.{◌≡◌};

/// Why a place isn't recorded.
#[derive(Clone, Copy, Debug, PartialEq, Eq)]
pub enum RecordFault {
    /// Memory was asked for and refused.
    NoMemory,
    /// It was recorded before.
    Already,
}

impl RecordFault {
    ghost use Rattle.number_register.specs.Refusals.{record_fault_number};

    /// The number of the refusal.
    pub fn number(&self) -> u32
        ensures { result ≡ record_fault_number self.now }
    {
        match self {
            RecordFault::NoMemory => 1,
            RecordFault::Already => 2,
        }
    }
}
