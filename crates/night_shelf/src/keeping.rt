ghost use Rattle.std.specs.Prelude.{◌≡◌, ◌++◌, ◌∷◌, [], OnOk};
ghost use Rattle.night_shelf.specs.Shelf as states;

use crate::night::NightFile;
use crate::shelf::{Shelf, ShelfFault};

fn put_all<S: Shelf>(shelf: &mut S, files: &[NightFile]) -> Result<(), ShelfFault>
    ensures all { OnOk result (states.Changes (states.ArePut files.now) (S.place shelf.old) (S.place shelf.new)) }
    ensures nights { states.Changes states.KeepsNights (S.place shelf.old) (S.place shelf.new) }
{
    for i in 0..files.len() {
        shelf.put(&files[i])?;
    }
    Ok(())
}

/// Lays `files` into the folder of tonight, until all of it is on the disk.
fn lay<S: Shelf>(shelf: &mut S, files: &[NightFile]) -> Result<(), ShelfFault>
    ensures laid { OnOk result (states.Changes (states.IsLaid files.now) (S.place shelf.old) (S.place shelf.new)) }
    ensures nights { states.Changes states.KeepsNights (S.place shelf.old) (S.place shelf.new) }
{
    shelf.clear()?;
    shelf.make()?;
    put_all(shelf, files)?;
    shelf.sync_tonight()
}

/// Gives the folder of tonight the name `name`, until the name is on the disk.
fn give_name<S: Shelf>(shelf: &mut S, name: &[u8]) -> Result<(), ShelfFault>
    ensures kept { OnOk result (states.Changes (states.IsNamedOnDisk name.now) (S.place shelf.old) (S.place shelf.new)) }
    ensures stopped { states.Changes (states.MayName name.now) (S.place shelf.old) (S.place shelf.new) }
{
    shelf.rename(name)?;
    shelf.sync_nights()
}

/// Keeps a night of `files` under `name`. At `Ok` its files may be sent: whatever stops from then on, the night is there, whole. A stop at
/// any moment of the call leaves the nights as they were, or with this one.
pub fn keep<S: Shelf>(shelf: &mut S, name: &[u8], files: &[NightFile]) -> Result<(), ShelfFault>
    ensures kept { OnOk result (states.Changes (states.IsKept (record { name = name.now; files = files.now }))
        (S.place shelf.old) (S.place shelf.new)) }
    ensures stopped { states.Changes (states.MayLeave (record { name = name.now; files = files.now }))
        (S.place shelf.old) (S.place shelf.new) }
{
    lay(shelf, files)?;
    give_name(shelf, name)
}
