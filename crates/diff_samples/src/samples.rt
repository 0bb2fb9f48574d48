ghost use Rattle.std.specs.Prelude.{◌≡◌, ◌<◌, ◌∷◌, [], OnOk, length};
ghost use Rattle.system_io.specs.Outbox.{AddsFiles};
ghost use Rattle.guide_tree.specs.Words.{guide_of};
ghost use Rattle.guide_widening.specs.Changes.{is_widening};
ghost use Rattle.guide_widening.specs.Differences.{differences};
ghost use Rattle.diff_lines.specs.Paths.{paths_of};
ghost use Rattle.diff_samples.specs.Samples.{AddsFirst, AddsOne, AddsSamples};

use crate::index::{append_row, titles};
use diff_lines::{line_of, paths_of};
use guide_samples::{Broken, sample_between};
use guide_tree::Guide;
use guide_widening::{Change, Difference, differences};
use hub_kinds::{NoMemory, Text};
use sample_folder::{NotPut, file_name, put};
use std::alloc::Global;
use system_io::Outbox;

/// Two guides, their differences, and the paths of the nodes of each.
#[derive(Clone, Copy)]
struct Compared<'a> {
    old: &'a Guide,
    new: &'a Guide,
    found: &'a [Difference],
    before: &'a [Text],
    after: &'a [Text],
}

/// Puts into `folder`, for each difference of the guides `old` and `new` that isn't wider, a file with a set that shows it, if one is
/// known, and `index.csv`, which lists these differences with what the 999 says of each set.
pub fn put_samples<B: Outbox>(
    alloc: Global,
    old: &Guide,
    new: &Guide,
    folder: &mut B,
) -> Result<(), NotPut>
    requires { B.faults folder.old < 18446744073709551615 }
    ensures { OnOk result (AddsSamples (guide_of old.now) (guide_of new.now) (B.contents folder.old) (B.contents folder.new)) }
{
    let found = differences(alloc, old, new)?;
    let before = paths_of(alloc, &old.rows().nodes)?;
    let after = paths_of(alloc, &new.rows().nodes)?;
    let compared = Compared {
        old,
        new,
        found: found.as_slice(),
        before: before.as_slice(),
        after: after.as_slice(),
    };
    let mut list = titles(alloc)?;
    put_all(alloc, &compared, folder, &mut list)?;
    put(alloc, folder, b"index.csv", list.as_slice())
}

/// Puts a file for each difference that a set is known to show, and adds the rows to the list.
fn put_all<B: Outbox>(
    alloc: Global,
    compared: &Compared<'_>,
    folder: &mut B,
    list: &mut Vec<u8>,
) -> Result<(), NotPut>
    requires { B.faults folder.old < 18446744073709551615 }
    ensures samples { OnOk result (AddsFirst compared.now (length compared.now.found.now) (B.contents folder.old) (B.contents folder.new)
        list.old.items list.new.items) }
    ensures faults { OnOk result (B.faults folder.new ≡ B.faults folder.old) }
{
    for number in 0..compared.found.len() {
        put_one(alloc, compared, number, folder, list)?;
    }
    Ok(())
}

/// Puts the file of the difference with a `number`, from 0, if a set is known to show it, and adds the row if it isn't wider.
fn put_one<B: Outbox>(
    alloc: Global,
    compared: &Compared<'_>,
    number: usize,
    folder: &mut B,
    list: &mut Vec<u8>,
) -> Result<(), NotPut>
    requires number { number < length compared.now.found.now }
    requires faults { B.faults folder.old < 18446744073709551615 }
    ensures samples { OnOk result (AddsOne compared.now number (B.contents folder.old) (B.contents folder.new)
        list.old.items list.new.items) }
    ensures faults { OnOk result (B.faults folder.new ≡ B.faults folder.old) }
{
    let difference = &compared.found[number];
    if is_widening(difference) {
        return Ok(());
    }
    let line = line_of(alloc, compared.before, compared.after, difference)?;
    let shown = sample_between(
        alloc,
        compared.old,
        compared.new,
        difference,
        compared.found,
    )?;
    match shown {
        None => Ok(append_row(list, line.as_slice(), b"", b"")?),
        Some(broken) => {
            let name = file_name(alloc, number as u64)?;
            append_row(
                list,
                line.as_slice(),
                name.as_slice(),
                broken.lines.as_slice(),
            )?;
            put(alloc, folder, name.as_slice(), broken.text.as_slice())
        }
    }
}

fn is_widening(difference: &Difference) -> bool
    ensures { result ≡ is_widening difference.now }
{
    match difference.change {
        Change::Wider => true,
        Change::Narrower | Change::Other => false,
    }
}
