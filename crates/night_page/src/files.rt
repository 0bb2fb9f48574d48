ghost use Rattle.std.specs.Prelude.{◌≡◌, ◌++◌, OnOk, decimal, length, option_map};
ghost use Rattle.std.specs.List.{count_by, flat_map};
ghost use Rattle.night_search.specs.Lines.{read};
ghost use Rattle.night_page.specs.Files as files;
ghost use Rattle.night_page.specs.Tags.{item};

use crate::lines::{are_whole, is_short};
use crate::tags::{append_fixed, append_item, append_number};
use hub_kinds::NoMemory;
use std::alloc::Global;

fn short_count(lines: &[&[u8]]) -> usize
    ensures { result ≡ count_by (λ line. files.is_short line.now) lines.now }
{
    let mut count = 0;
    for line in lines {
        if is_short(line) {
            count += 1;
        }
    }
    count
}

fn append_short_count(out: &mut Vec<u8>, lines: &[&[u8]]) -> Result<(), NoMemory>
    ensures { OnOk result (out.new.items ≡ out.old.items ++ decimal (count_by files.is_short (read lines.now))) }
{
    append_number(out, short_count(lines) as u64)
}

fn append_short_item(alloc: Global, out: &mut Vec<u8>, line: &[u8]) -> Result<(), NoMemory>
    ensures { OnOk result (out.new.items ≡ out.old.items ++ files.short_item line.now) }
{
    if is_short(line) {
        append_item(alloc, out, line)
    } else {
        Ok(())
    }
}

fn append_short_items(alloc: Global, out: &mut Vec<u8>, lines: &[&[u8]]) -> Result<(), NoMemory>
    ensures { OnOk result (out.new.items ≡ out.old.items ++ flat_map files.short_item (read lines.now)) }
{
    for line in lines {
        append_short_item(alloc, out, line)?;
    }
    Ok(())
}

fn append_short(alloc: Global, out: &mut Vec<u8>, lines: &[&[u8]]) -> Result<(), NoMemory>
    ensures { OnOk result (out.new.items ≡ out.old.items ++ files.short_part (read lines.now)) }
{
    append_fixed(
        out,
        b"<details class=\"todo\"><summary>Files that are set aside, or that aren't whole: see each line (",
    )?;
    append_short_count(out, lines)?;
    append_fixed(out, b")</summary>\n<ul>\n")?;
    append_short_items(alloc, out, lines)?;
    append_fixed(out, b"</ul></details>\n")
}

/// Appends what there is to do because of files of the day.
pub(crate) fn append_aside(
    alloc: Global,
    out: &mut Vec<u8>,
    lines: &[&[u8]],
) -> Result<(), NoMemory>
    ensures { OnOk result (out.new.items ≡ out.old.items ++ files.aside_part (read lines.now)) }
{
    if are_whole(lines) {
        Ok(())
    } else {
        append_short(alloc, out, lines)
    }
}

fn append_items(alloc: Global, out: &mut Vec<u8>, lines: &[&[u8]]) -> Result<(), NoMemory>
    ensures { OnOk result (out.new.items ≡ out.old.items ++ flat_map item (read lines.now)) }
{
    for line in lines {
        append_item(alloc, out, line)?;
    }
    Ok(())
}

fn append_line_count(out: &mut Vec<u8>, lines: &[&[u8]]) -> Result<(), NoMemory>
    ensures { OnOk result (out.new.items ≡ out.old.items ++ decimal (length (read lines.now))) }
{
    append_number(out, lines.len() as u64)
}

fn append_lines(alloc: Global, out: &mut Vec<u8>, lines: &[&[u8]]) -> Result<(), NoMemory>
    ensures { OnOk result (out.new.items ≡ out.old.items ++ files.all_part (read lines.now)) }
{
    append_fixed(out, b"<h2>Files of the day</h2>\n<details><summary>All (")?;
    append_line_count(out, lines)?;
    append_fixed(out, b")</summary>\n<ul>\n")?;
    append_items(alloc, out, lines)?;
    append_fixed(out, b"</ul></details>\n")
}

/// Appends the section on the files of the day, if the night has a text with `lines` on them.
pub(crate) fn append_files(
    alloc: Global,
    out: &mut Vec<u8>,
    text: Option<&[u8]>,
    lines: &[&[u8]],
) -> Result<(), NoMemory>
    requires { read lines.now ≡ files.lines_of (option_map (λ t. t.now) text) }
    ensures { OnOk result (out.new.items ≡ out.old.items ++ files.files_part (option_map (λ t. t.now) text.entry)) }
{
    match text {
        None => Ok(()),
        Some(_) => append_lines(alloc, out, lines),
    }
}
