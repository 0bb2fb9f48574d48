ghost use Rattle.std.specs.Prelude.{IfErr};
ghost use Rattle.hub_folder.specs.Failure.{IsBefore};

use crate::failure::Failure;
use crate::papers::path_in;
use hub_kinds::copy_text;
use night_folder::read_paper;
use std::fs::{File, OpenOptions, TryLockError};
use std::rt::Files;
use std::str;

/// A file that one run at a time can hold.
pub trait Lockable {
    /// Takes the lock of the file, if no other run has it. It is free once the file is closed, or the program ends.
    fn take(&self) -> Lock;
}

/// What the system answered to a run that asked for a lock.
#[derive(Clone, Copy, Debug, PartialEq, Eq)]
pub enum Lock {
    Taken,
    /// Another run has it.
    Busy,
    /// The system refused the call, or the file.
    Failed,
}

impl Lockable for File {
    fn take(&self) -> Lock {
        match self.try_lock() {
            Ok(()) => Lock::Taken,
            Err(TryLockError::WouldBlock) => Lock::Busy,
            Err(TryLockError::Error(_)) => Lock::Failed,
        }
    }
}

/// Takes the lock of the hub `hub`, which is held as long as the file is open.
fn locked<R: Files + AllocGlobal>(rt: &R, hub: &str) -> Result<R::File, Failure>
where
    R::File: Lockable,
    ensures before { IfErr result IsBefore }
{
    let named = copy_text(rt.alloc(), hub.as_bytes())?;
    let path = path_in(rt.alloc(), hub.as_bytes(), b"lock")?;
    let Ok(path) = str::from_utf8(path.as_slice()) else {
        return Err(Failure::Lock(named));
    };
    let mut how = OpenOptions::new();
    how.write(true);
    how.create(true);
    let Ok(file) = how.open(rt, path) else {
        return Err(Failure::Lock(named));
    };
    match file.take() {
        Lock::Taken => Ok(file),
        Lock::Busy => Err(Failure::Busy(named)),
        Lock::Failed => Err(Failure::Lock(named)),
    }
}

/// Sees to it that the folder `hub` is a hub, and takes its lock, which is held as long as the file is open.
pub fn lock_hub<R: Files + AllocGlobal>(rt: &R, hub: &str) -> Result<R::File, Failure>
where
    R::File: Lockable,
    ensures before { IfErr result IsBefore }
{
    if read_paper(rt, hub.as_bytes(), b"hub.toml")?
        .bytes()
        .is_none()
    {
        return Err(Failure::NoHub(copy_text(rt.alloc(), hub.as_bytes())?));
    }
    locked(rt, hub)
}
