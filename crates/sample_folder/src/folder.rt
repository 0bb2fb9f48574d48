ghost use Rattle.std.specs.Prelude.{◌≡◌, ◌<◌, [], ◌∷◌, IfErr, OnOk};
ghost use Rattle.system_io.specs.Outbox.{AddsFiles};
ghost use Rattle.sample_folder.specs.Names.{IsNotPut};

use hub_kinds::{Lent, NoMemory, Text, copy_text};
use std::alloc::{AllocError, Global};
use std::io;
use std::io::ErrorKind;
use system_io::Outbox;

/// Why a file isn't in a folder.
#[derive(Debug, Drop)]
pub enum NotPut {
    /// The file with this name can't be written.
    File(Text),
    /// Memory was refused.
    Memory,
}

/// Puts a file with a `name` and these `bytes` into `folder`.
pub fn put<B: Outbox>(
    alloc: Global,
    folder: &mut B,
    name: &[u8],
    bytes: &[u8],
) -> Result<(), NotPut>
    requires { B.faults folder.old < 18446744073709551615 }
    ensures failure { IfErr result (IsNotPut name.now) }
    ensures file { OnOk result (AddsFiles (B.contents folder.old) (B.contents folder.new) ((name.now, bytes.now) ∷ [])) }
    ensures faults { OnOk result (B.faults folder.new ≡ B.faults folder.old) }
{
    let own = copy_text(alloc, name)?;
    match folder.put(name, &[Lent::new(bytes)]) {
        Ok(_) => Ok(()),
        Err(error) => Err(not_put(&error, own)),
    }
}

/// Why a file with a `name` isn't put: out of memory is never a fault of the file.
fn not_put(error: &io::Error, name: Text) -> NotPut
    ensures { IsNotPut name result }
{
    match error.kind() {
        ErrorKind::OutOfMemory => NotPut::Memory,
        _ => NotPut::File(name),
    }
}

impl From<AllocError> for NotPut {
    ghost use Rattle.std.specs.Prelude.{◌≡◌};
    ghost use Rattle.sample_folder.specs.declared.folder.NotPut.TheVariants.{Memory};

    ghost from_gives = { λ _ failure. failure ≡ Memory };

    fn from(_error: AllocError) -> NotPut {
        NotPut::Memory
    }
}

impl From<NoMemory> for NotPut {
    ghost use Rattle.std.specs.Prelude.{◌≡◌};
    ghost use Rattle.sample_folder.specs.declared.folder.NotPut.TheVariants.{Memory};

    ghost from_gives = { λ _ failure. failure ≡ Memory };

    fn from(_error: NoMemory) -> NotPut {
        NotPut::Memory
    }
}
