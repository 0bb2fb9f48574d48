use guide_toml::GuideFileFault;
use hub_kinds::NoMemory;
use hub_run::RunFault;
use partner_setup::{FileFault, SetupFault};
use std::alloc::{AllocError, AllocFailed};

/// Why no night is made.
#[derive(Debug, Drop)]
pub enum Stopped {
    /// The guide at this place, counted from 0, isn't taken.
    Guide(usize, GuideFileFault),
    /// The setup file isn't taken.
    SetupFile(FileFault),
    /// The first counters file isn't taken.
    FirstCounters(FileFault),
    /// The files make no setup.
    Setup(SetupFault),
    /// The input has over 4,294,967,295 bytes.
    InputTooLong,
    /// The system refused a thread.
    Thread,
    /// The system refused memory.
    Memory,
}

impl From<NoMemory> for Stopped {
    ghost use Rattle.std.specs.Prelude.{◌≡◌};
    ghost use Rattle.hub_tonight.specs.declared.stopped.Stopped.TheVariants.{Memory};

    ghost from_gives = { λ _ stopped. stopped ≡ Memory };

    fn from(_error: NoMemory) -> Stopped {
        Stopped::Memory
    }
}

impl From<AllocError> for Stopped {
    ghost use Rattle.std.specs.Prelude.{◌≡◌};
    ghost use Rattle.hub_tonight.specs.declared.stopped.Stopped.TheVariants.{Memory};

    ghost from_gives = { λ _ stopped. stopped ≡ Memory };

    fn from(_error: AllocError) -> Stopped {
        Stopped::Memory
    }
}

impl<T: Drop> From<AllocFailed<T>> for Stopped {
    ghost use Rattle.std.specs.Prelude.{◌≡◌};
    ghost use Rattle.hub_tonight.specs.declared.stopped.Stopped.TheVariants.{Memory};

    ghost from_gives = { λ _ stopped. stopped ≡ Memory };

    fn from(_error: AllocFailed<T>) -> Stopped {
        Stopped::Memory
    }
}

impl From<RunFault> for Stopped {
    ghost use Rattle.std.specs.Prelude.{◌≡◌};
    ghost use Rattle.hub_tonight.specs.Faults.{run_stopped};

    ghost from_gives = { λ fault stopped. stopped ≡ run_stopped fault };

    fn from(fault: RunFault) -> Stopped {
        match fault {
            RunFault::InputTooLong => Stopped::InputTooLong,
            RunFault::NoThread => Stopped::Thread,
            // a text in memory is read without the system, so no reader fails
            RunFault::NoMemory | RunFault::Read => Stopped::Memory,
        }
    }
}
