ghost use Rattle.std.specs.Prelude.{◌≡◌, ◌++◌, OnOk, decimal, length};
ghost use Rattle.std.specs.List.{flat_map};
ghost use Rattle.night_page.specs.Inner as inner;
ghost use Rattle.night_page.specs.Tags.{item};

use crate::tags::{append_fixed, append_item, append_number};
use hub_kinds::{NoMemory, Text};
use std::alloc::Global;

fn append_items(alloc: Global, out: &mut Vec<u8>, lines: &[Text]) -> Result<(), NoMemory>
    ensures { OnOk result (out.new.items ≡ out.old.items ++ flat_map item lines.now) }
{
    for i in 0..lines.len() {
        append_item(alloc, out, lines[i].as_slice())?;
    }
    Ok(())
}

fn append_list(alloc: Global, out: &mut Vec<u8>, lines: &[Text]) -> Result<(), NoMemory>
    ensures { OnOk result (out.new.items ≡ out.old.items ++ inner.inner_list lines.now) }
{
    append_fixed(
        out,
        b"<details class=\"todo\"><summary>Refused interchanges that took the headers after them: ask for what these began (",
    )?;
    append_number(out, lines.len() as u64)?;
    append_fixed(out, b")</summary>\n<ul>\n")?;
    append_items(alloc, out, lines)?;
    append_fixed(out, b"</ul></details>\n")
}

/// Appends what there is to do because of refused interchanges with further headers, by the `lines` on them.
pub(crate) fn append_inner(alloc: Global, out: &mut Vec<u8>, lines: &[Text]) -> Result<(), NoMemory>
    ensures { OnOk result (out.new.items ≡ out.old.items ++ inner.inner_part lines.now) }
{
    match lines {
        [] => Ok(()),
        [..] => append_list(alloc, out, lines),
    }
}
