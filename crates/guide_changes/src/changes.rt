//! All guides of a hub, against those of a night.
ghost use Rattle.std.specs.Prelude.{◌≡◌, IfOk};
ghost use Rattle.guide_changes.specs.Changes as changes;

use crate::changed::{append, change_at};
use crate::gone::gone_of;
use hub_kinds::NoMemory;
use night_folder::{Listing, list_at};
use night_shelf::NightFile;
use std::rt::Files;
use std::str;

fn changes_of<R: Files + AllocGlobal>(
    rt: &R,
    before: &[u8],
    files: &[NightFile],
) -> Result<Vec<u8>, NoMemory>
    ensures { IfOk result (λ text. changes.AreChangesOf before.now files.now text.items) }
{
    let mut out = Vec::new(rt.alloc());
    for i in 0..files.len() {
        let text = change_at(rt, before, &files[i])?;
        append(&mut out, text.as_slice())?;
    }
    Ok(out)
}

/// What is said of the guides that the night had, as its folder of guides was listed.
fn gone_in<R: Files + AllocGlobal>(
    rt: &R,
    guides: &[u8],
    listing: &Listing,
) -> Result<Vec<u8>, NoMemory>
    ensures { IfOk result (λ text. changes.AreGoneOf guides.now (changes.names_or_none listing.now.names) text.items) }
{
    match listing.names() {
        None => Ok(Vec::new(rt.alloc())),
        Some(names) => gone_of(rt, guides, names),
    }
}

/// What is said of `files`, the guides of a hub in its folder at the path `guides`, against those of a night, whose folder of guides is at
/// the path `before`: a line for each guide that is new or gone, and of each that has changed the lines of `nighthub_diff`. The only error
/// is out of memory.
pub fn guide_changes<R: Files + AllocGlobal + Clone + Drop>(
    rt: &R,
    before: &str,
    guides: &[u8],
    files: &[NightFile],
) -> Result<Vec<u8>, NoMemory>
    ensures { IfOk result (λ text. changes.AreChanges before.now guides.now files.now text.items) }
{
    let mut text = changes_of(rt, before.as_bytes(), files)?;
    let listing = list_at(rt, before)?;
    let gone = gone_in(rt, guides, &listing)?;
    append(&mut text, gone.as_slice())?;
    Ok(text)
}
