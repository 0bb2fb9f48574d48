ghost use Rattle.std.specs.Prelude.{◌≡◌, ◌++◌, IfOk, OnOk};
ghost use Rattle.day_files.specs.Listing.{between, line_of, listing_of, sum_in};

use crate::file::{Content, DayFile};
use file_names::append_shown;
use hub_kinds::{NoMemory, Text, copy_text};
use night_entries::sum_of;
use std::alloc::Global;

/// The sum of a file, if its bytes were read.
fn sum_in(alloc: Global, content: &Content) -> Result<Text, NoMemory>
    ensures { IfOk result (λ sum. sum ≡ sum_in content.now) }
{
    match content {
        Content::Read(bytes) => sum_of(alloc, bytes.as_slice()),
        Content::Changed | Content::NameNotUtf8 => copy_text(alloc, b"-"),
    }
}

/// What is between a sum and a path.
fn between(is_again: bool) -> &'static [u8]
    ensures { result.now ≡ between is_again }
{
    if is_again { b" *" } else { b"  " }
}

fn append_file(alloc: Global, out: &mut Vec<u8>, file: &DayFile) -> Result<(), NoMemory>
    ensures { OnOk result (out.new.items ≡ out.old.items ++ line_of file.now) }
{
    let sum = sum_in(alloc, &file.content)?;
    out.extend_from_slice(sum.as_slice())?;
    out.extend_from_slice(between(file.is_again))?;
    append_shown(out, file.path.as_slice())?;
    out.push(b'\n')?;
    Ok(())
}

/// The list of the files of a day: each by its SHA-256 and its path, as `sha256sum` prints it, with an
/// asterisk before the path of one that is asked for again. The only error is out of memory.
pub fn listing_of(alloc: Global, files: &[DayFile]) -> Result<Vec<u8>, NoMemory>
    ensures { IfOk result (λ listing. listing.items ≡ listing_of files.now) }
{
    let mut listing = Vec::new(alloc);
    for i in 0..files.len() {
        append_file(alloc, &mut listing, &files[i])?;
    }
    Ok(listing)
}
