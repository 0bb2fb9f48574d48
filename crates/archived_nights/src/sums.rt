ghost use Rattle.std.specs.Prelude.{◌≡◌, ◌++◌, IfOk, OnOk};
ghost use Rattle.archived_nights.specs.Files as files;

use hub_kinds::{Items, NoMemory, Text};
use night_entries::sum_of;
use std::alloc::Global;

fn append_line(alloc: Global, out: &mut Vec<u8>, name: &[u8], bytes: &[u8]) -> Result<(), NoMemory>
    ensures { OnOk result (out.new.items ≡ out.old.items ++ files.summed_line name.now bytes.now) }
{
    let sum = sum_of(alloc, bytes)?;
    out.extend_from_slice(sum.as_slice())?;
    out.extend_from_slice(b"  ")?;
    out.extend_from_slice(name)?;
    out.push(b'\n')?;
    Ok(())
}

/// The sums of the tables of an archive, as sha256sum prints them.
pub(crate) fn sums_text(alloc: Global, delivered: &[u8], addresses: &[u8]) -> Result<Text, NoMemory>
    ensures { IfOk result (λ text. text ≡ files.sums_text delivered.now addresses.now) }
{
    let mut text = Vec::new(alloc);
    append_line(alloc, &mut text, b"delivered.csv", delivered)?;
    append_line(alloc, &mut text, b"addresses.csv", addresses)?;
    Ok(Items::from_vec(text))
}
