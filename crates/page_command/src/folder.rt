ghost use Rattle.std.specs.Prelude.{◌≡◌, ◌<◌, ◌+◌, [], ◌∷◌, IfErr, IfOk, OnOk, length};
ghost use Rattle.system_io.specs.Outbox.{AddsFiles};
ghost use Rattle.guide_tree.specs.Words.{guide_of};
ghost use Rattle.guide_samples.specs.Samples.{IsSample};
ghost use Rattle.page_command.specs.Failure.{CantWrite};
ghost use Rattle.page_command.specs.Folder.{AddsBroken, AddsSamples};

use crate::failure::Failure;
use crate::index::{append_row, titles};
use guide_samples::{Rules, smallest};
use guide_tree::Guide;
use hub_kinds::{NoMemory, Text, copy_text};
use sample_folder::{NotPut, file_name};
use std::alloc::Global;
use system_io::Outbox;

/// Puts samples of `guide` into `folder`: `complete`, which meets it, as `complete.x12`; a smaller one as `smallest.x12`; a file for each
/// rule that a text is known to break alone; and `index.csv`, which lists what the 999 says of each of these.
pub fn put_samples<B: Outbox>(
    alloc: Global,
    guide: &Guide,
    complete: &[u8],
    folder: &mut B,
) -> Result<(), Failure>
    requires complete { IsSample (guide_of guide.now) complete.now }
    requires faults { B.faults folder.old < 18446744073709551615 }
    ensures failure { IfErr result CantWrite }
    ensures samples { OnOk result (AddsSamples (guide_of guide.now) complete.now (B.contents folder.old) (B.contents folder.new)) }
{
    let small = smaller(alloc, guide, complete)?;
    put(alloc, folder, b"complete.x12", complete)?;
    put(alloc, folder, b"smallest.x12", small.as_slice())?;
    let rules = Rules::new(alloc, guide)?;
    let mut list = titles(alloc)?;
    put_rules(alloc, &rules, folder, &mut list)?;
    put(alloc, folder, b"index.csv", list.as_slice())
}

/// The smallest sample of `guide` that is known; `complete` if no other is.
fn smaller(alloc: Global, guide: &Guide, complete: &[u8]) -> Result<Text, NoMemory>
    requires { IsSample (guide_of guide.now) complete.now }
    ensures { IfOk result (λ text. IsSample (guide_of guide.now) text) }
{
    match smallest(alloc, guide)? {
        Some(text) => Ok(text),
        None => copy_text(alloc, complete),
    }
}

/// Puts a file for each rule, and adds its row to the list.
fn put_rules<B: Outbox>(
    alloc: Global,
    rules: &Rules,
    folder: &mut B,
    list: &mut Vec<u8>,
) -> Result<(), Failure>
    requires { B.faults folder.old < 18446744073709551615 }
    ensures failure { IfErr result CantWrite }
    ensures samples { OnOk result (AddsBroken (guide_of rules.now.guide) rules.now.rules 0 (length rules.now.rules)
        (B.contents folder.old) (B.contents folder.new) list.old.items list.new.items) }
    ensures faults { OnOk result (B.faults folder.new ≡ B.faults folder.old) }
{
    for number in 0..rules.count() {
        put_rule(alloc, rules, number, folder, list)?;
    }
    Ok(())
}

/// Puts the file of the rule with a `number`, from 0, and adds its row, if a text is known to break it alone.
fn put_rule<B: Outbox>(
    alloc: Global,
    rules: &Rules,
    number: usize,
    folder: &mut B,
    list: &mut Vec<u8>,
) -> Result<(), Failure>
    requires number { number < 18446744073709551615 }
    requires faults { B.faults folder.old < 18446744073709551615 }
    ensures failure { IfErr result CantWrite }
    ensures samples { OnOk result (AddsBroken (guide_of rules.now.guide) rules.now.rules number (number + 1)
        (B.contents folder.old) (B.contents folder.new) list.old.items list.new.items) }
    ensures faults { OnOk result (B.faults folder.new ≡ B.faults folder.old) }
{
    match rules.broken(alloc, number)? {
        None => Ok(()),
        Some(broken) => {
            let name = file_name(alloc, number as u64)?;
            append_row(list, name.as_slice(), broken.lines.as_slice())?;
            put(alloc, folder, name.as_slice(), broken.text.as_slice())
        }
    }
}

/// Puts a file into a folder.
fn put<B: Outbox>(alloc: Global, folder: &mut B, name: &[u8], bytes: &[u8]) -> Result<(), Failure>
    requires { B.faults folder.old < 18446744073709551615 }
    ensures failure { IfErr result CantWrite }
    ensures file { OnOk result (AddsFiles (B.contents folder.old) (B.contents folder.new) ((name.now, bytes.now) ∷ [])) }
    ensures faults { OnOk result (B.faults folder.new ≡ B.faults folder.old) }
{
    match sample_folder::put(alloc, folder, name, bytes) {
        Ok(()) => Ok(()),
        Err(failure) => Err(not_put(alloc, &failure)?),
    }
}

fn not_put(alloc: Global, failure: &NotPut) -> Result<Failure, NoMemory>
    ensures { IfOk result CantWrite }
{
    match failure {
        NotPut::File(name) => Failure::of_output(alloc, name.as_slice()),
        NotPut::Memory => Ok(Failure::Memory),
    }
}
