use hub_kinds::NoMemory;
use job_pool::PoolFault;
use stream_read::StreamFault;

/// Why a stream gives no night.
#[derive(Debug, Drop)]
pub enum Stopped {
    /// It is too long, it can't be read, or there isn't memory to hold it.
    Stream(StreamFault),
    /// It isn't worked on: memory is refused, or a thread.
    Pool(PoolFault),
}

impl From<StreamFault> for Stopped {
    ghost use Rattle.std.specs.Prelude.{◌≡◌};
    ghost use Rattle.night_stream.specs.declared.stopped.Stopped.TheVariants.{Stream};

    ghost from_gives = { λ error stopped. stopped ≡ Stream error };

    fn from(error: StreamFault) -> Stopped {
        Stopped::Stream(error)
    }
}

impl From<PoolFault> for Stopped {
    ghost use Rattle.std.specs.Prelude.{◌≡◌};
    ghost use Rattle.night_stream.specs.declared.stopped.Stopped.TheVariants.{Pool};

    ghost from_gives = { λ error stopped. stopped ≡ Pool error };

    fn from(error: PoolFault) -> Stopped {
        Stopped::Pool(error)
    }
}

impl From<NoMemory> for Stopped {
    ghost use Rattle.std.specs.Prelude.{◌≡◌};
    ghost use Rattle.job_pool.specs.declared.task.PoolFault.TheVariants as pool;
    ghost use Rattle.night_stream.specs.declared.stopped.Stopped.TheVariants.{Pool};

    ghost from_gives = { λ _ stopped. stopped ≡ Pool pool.NoMemory };

    fn from(_error: NoMemory) -> Stopped {
        Stopped::Pool(PoolFault::NoMemory)
    }
}
