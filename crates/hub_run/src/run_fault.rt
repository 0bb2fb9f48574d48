use hub_kinds::NoMemory;
use job_pool::PoolFault;
use night_stream::Stopped;
use stream_read::StreamFault;
use thiserror::Error;

/// Why a run gives nothing; out of memory may come before the others.
#[derive(Clone, Copy, Debug, PartialEq, Eq, Error)]
pub enum RunFault {
    /// The text has more than 4,294,967,295 bytes.
    #[error("input too long")]
    InputTooLong,
    /// Memory was asked for and refused.
    #[error("out of memory")]
    NoMemory,
    /// A thread was asked for and refused.
    #[error("no thread")]
    NoThread,
    /// The reader of a stream failed, or was interrupted too often in a row.
    #[error("input can't be read")]
    Read,
}

impl RunFault {
    ghost use Rattle.std.specs.Prelude.{◌≡◌};
    ghost use Rattle.hub_run.specs.Refusals.{run_fault_number};

    /// The number of the fault.
    pub fn number(&self) -> u32
        ensures { result ≡ run_fault_number self.now }
    {
        match self {
            RunFault::InputTooLong => 1,
            RunFault::NoMemory => 2,
            RunFault::NoThread => 3,
            RunFault::Read => 4,
        }
    }
}

impl From<NoMemory> for RunFault {
    ghost use Rattle.std.specs.Prelude.{◌≡◌};
    ghost use Rattle.hub_run.specs.declared.run_fault.RunFault.TheVariants.{NoMemory};

    ghost from_gives = { λ _ fault. fault ≡ NoMemory };

    fn from(_error: NoMemory) -> RunFault {
        RunFault::NoMemory
    }
}

impl From<PoolFault> for RunFault {
    ghost use Rattle.std.specs.Prelude.{◌≡◌};
    ghost use Rattle.hub_run.specs.Refusals.{pool_refused};

    ghost from_gives = { λ error fault. fault ≡ pool_refused error };

    fn from(error: PoolFault) -> RunFault {
        match error {
            PoolFault::NoMemory => RunFault::NoMemory,
            PoolFault::NoThread => RunFault::NoThread,
        }
    }
}

impl From<Stopped> for RunFault {
    ghost use Rattle.std.specs.Prelude.{◌≡◌};
    ghost use Rattle.hub_run.specs.Refusals.{stopped_by};

    ghost from_gives = { λ error fault. fault ≡ stopped_by error };

    fn from(error: Stopped) -> RunFault {
        match error {
            Stopped::Stream(StreamFault::InputTooLong) => RunFault::InputTooLong,
            Stopped::Stream(StreamFault::NoMemory) => RunFault::NoMemory,
            Stopped::Stream(StreamFault::Read) => RunFault::Read,
            Stopped::Pool(PoolFault::NoMemory) => RunFault::NoMemory,
            Stopped::Pool(PoolFault::NoThread) => RunFault::NoThread,
        }
    }
}
