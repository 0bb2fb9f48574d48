ghost use Rattle.std.specs.Prelude.{◌≡◌, ◌<◌, ℕ, List, Option, None, IfOk, IfSome};
ghost use Rattle.std.specs.List.{flat_map};
ghost use Rattle.system_io.specs.Outbox.{CountsPut, File, PutsFile};

use crate::written::Written;
use hub_kinds::Lent;
use std::io;
use std::io::ErrorKind;

/// A place for the files of a night.
pub trait Outbox {
    /// The files that were put there, in their order, where they are known.
    ghost contents: { Self → Option (List File) } = { λ _. None };

    /// How often a put failed, out of memory aside.
    ghost faults: { Self → ℕ };

    /// The path at which a file of this name is put, where it is known.
    ghost path: { Self → List ℕ → Option (List ℕ) } = { λ _ _. None };

    /// Puts a file of this name there, which holds these parts, one after the other. It is there once that was written.
    fn put<'a>(&mut self, name: &'a [u8], parts: &'a [Lent<'a>]) -> io::Result<Written<'a>>
        requires { faults self.old < 18446744073709551615 }
        ensures written { IfOk result (λ written. written.file ≡ (name.now, flat_map (λ part. part) parts.now)) }
        ensures at { IfOk result (λ written. IfSome (path self.old name.now) (λ path. written.path ≡ path)) }
        ensures places { path self.new ≡ path self.old }
        ensures files { PutsFile (contents self.old) (contents self.new) result (name.now, flat_map (λ part. part) parts.now) }
        ensures faults { CountsPut result (faults self.old) (faults self.new) };
}

/// How often a put has failed, with this answer of one more.
pub fn faults_behind(answer: &io::Result<Written<'_>>, faults: u64) -> u64
    requires { faults < 18446744073709551615 }
    ensures { CountsPut answer.now faults result }
{
    match answer {
        Ok(_) => faults,
        Err(error) => {
            if error.kind() == ErrorKind::OutOfMemory {
                faults
            } else {
                faults + 1
            }
        }
    }
}
