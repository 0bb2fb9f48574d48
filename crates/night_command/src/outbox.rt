ghost use Rattle.std.specs.Prelude.{◌≡◌, ◌<◌, IfErr, OnOk, map};
ghost use Rattle.night_command.specs.Outbox.{AddsFiles, AddsSome, IsPutFault, file_of};

use crate::put_fault::PutFault;
use hub_kinds::{Lent, Text};
use system_io::Outbox;

/// A file that is to be put somewhere.
#[derive(Drop)]
pub struct NamedText<'a> {
    /// The name of the file.
    pub name: Text,
    /// What it holds, in parts, one after the other.
    pub parts: Vec<Lent<'a>>,
}

/// Puts files into an outbox, one after another, up to the first that can't be put.
pub(crate) fn put_all<B: Outbox>(outbox: &mut B, files: Vec<NamedText>) -> Result<(), PutFault>
    requires { B.faults outbox.old < 18446744073709551615 }
    ensures all { OnOk result (AddsFiles (B.contents outbox.old) (B.contents outbox.new)
        (map file_of files.entry.items)) }
    ensures some { IfErr result (AddsSome (B.contents outbox.old) (B.contents outbox.new)
        (map file_of files.entry.items)) }
    ensures none_failed { OnOk result (B.faults outbox.new ≡ B.faults outbox.old) }
    ensures failed { IfErr result (IsPutFault (B.faults outbox.old) (B.faults outbox.new)) }
{
    for file in files {
        match outbox.put(file.name.as_slice(), file.parts.as_slice()) {
            Ok(_) => {}
            Err(error) => return Err(PutFault::of_error(error, file.name)),
        }
    }
    Ok(())
}
