ghost use Rattle.std.specs.Prelude.{◌≡◌, ◌++◌, OnOk};
ghost use Rattle.std.specs.List.{flat_map};
ghost use Rattle.night_page.specs.Page as page;

use crate::tags::{append_fixed, append_tagged};
use html_text::append_lines;
use hub_kinds::{NoMemory, Text};
use std::alloc::Global;

/// What a partner is told.
#[derive(Debug, Drop)]
pub struct PartnerTold {
    /// The partner's name.
    pub partner: Text,
    /// The lines on its acknowledgments; empty if it has none.
    pub lines: Text,
}

fn append_one(alloc: Global, out: &mut Vec<u8>, told: &PartnerTold) -> Result<(), NoMemory>
    ensures { OnOk result (out.new.items ≡ out.old.items ++ page.told_one told.now) }
{
    let lines = told.lines.as_slice();
    match lines {
        [] => Ok(()),
        [..] => append_lines_of(alloc, out, told.partner.as_slice(), lines),
    }
}

fn append_lines_of(
    alloc: Global,
    out: &mut Vec<u8>,
    partner: &[u8],
    lines: &[u8],
) -> Result<(), NoMemory>
    ensures { OnOk result (out.new.items ≡ out.old.items ++ page.lines_part partner.now lines.now) }
{
    append_tagged(
        alloc,
        out,
        b"<details><summary>",
        partner,
        b"</summary>\n<pre>",
    )?;
    append_lines(out, lines)?;
    append_fixed(out, b"</pre></details>\n")
}

/// Appends what partners are told.
pub(crate) fn append_told(
    alloc: Global,
    out: &mut Vec<u8>,
    partners: &[PartnerTold],
) -> Result<(), NoMemory>
    ensures { OnOk result (out.new.items ≡ out.old.items ++ page.told_part partners.now) }
{
    append_fixed(out, b"<h2>Told to senders</h2>\n")?;
    append_all(alloc, out, partners)
}

fn append_all(alloc: Global, out: &mut Vec<u8>, partners: &[PartnerTold]) -> Result<(), NoMemory>
    ensures { OnOk result (out.new.items ≡ out.old.items ++ flat_map page.told_one partners.now) }
{
    for i in 0..partners.len() {
        append_one(alloc, out, &partners[i])?;
    }
    Ok(())
}
