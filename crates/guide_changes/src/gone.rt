//! Guides of a night that the hub has no more.
ghost use Rattle.std.specs.Prelude.{◌≡◌, IfOk, OnOk, option_map};
ghost use Rattle.guide_changes.specs.Changes as changes;

use crate::changed::{append, guide_said};
use hub_kinds::{NoMemory, Text};
use night_folder::read_paper;
use std::alloc::Global;
use std::rt::Files;

fn gone_text(alloc: Global, name: &[u8], bytes: Option<&[u8]>) -> Result<Vec<u8>, NoMemory>
    ensures { IfOk result (λ text. text.items ≡ changes.gone_text name.now (option_map (λ b. b.now) bytes.entry)) }
{
    match bytes {
        None => guide_said(alloc, name, b" is gone\n"),
        Some(_) => Ok(Vec::new(alloc)),
    }
}

/// What is said of the guide `name` of the night, if the hub's folder at the path `guides` has no file of this name that can be read.
fn gone_at<R: Files + AllocGlobal>(rt: &R, guides: &[u8], name: &[u8]) -> Result<Vec<u8>, NoMemory>
    ensures { IfOk result (λ text. changes.IsGoneAt guides.now name.now text.items) }
{
    let file = read_paper(rt, guides, name)?;
    gone_text(rt.alloc(), name, file.bytes())
}

/// What is said of the guides of a night with these `names`, against the hub's folder at the path `guides`.
pub(crate) fn gone_of<R: Files + AllocGlobal>(
    rt: &R,
    guides: &[u8],
    names: &[Text],
) -> Result<Vec<u8>, NoMemory>
    ensures { IfOk result (λ text. changes.AreGoneOf guides.now names.now text.items) }
{
    let mut out = Vec::new(rt.alloc());
    for i in 0..names.len() {
        let text = gone_at(rt, guides, names[i].as_slice())?;
        append(&mut out, text.as_slice())?;
    }
    Ok(out)
}
