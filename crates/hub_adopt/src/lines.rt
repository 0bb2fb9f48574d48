ghost use Rattle.std.specs.Prelude.{◌≡◌, ◌++◌, IfOk, OnOk};
ghost use Rattle.hub_folder.specs.Older.{map_now};
ghost use Rattle.hub_adopt.specs.Lines as lines;

use hub_kinds::NoMemory;
use itoa::Buffer;
use night_marks::NightMark;
use std::alloc::Global;

/// Appends the line of the night `mark`.
fn append_line(out: &mut Vec<u8>, number: u64, mark: &NightMark) -> Result<(), NoMemory>
    ensures { OnOk result (out.new.items ≡ out.old.items ++ lines.line_of number mark.now) }
{
    let mut digits = Buffer::new();
    out.extend_from_slice(b"night ")?;
    out.extend_from_slice(digits.format(number).as_bytes())?;
    out.extend_from_slice(b" (")?;
    out.extend_from_slice(mark.name.as_slice())?;
    out.extend_from_slice(b")\n")?;
    Ok(())
}

/// The lines of the nights `order`, which are numbered from 1.
pub(crate) fn lines_of(alloc: Global, order: &[&NightMark]) -> Result<Vec<u8>, NoMemory>
    ensures { IfOk result (λ text. text.items ≡ lines.lines_of 1 (map_now order.now)) }
{
    let mut text = Vec::new(alloc);
    for i in 0..order.len() {
        append_line(&mut text, i as u64 + 1, order[i])?;
    }
    Ok(text)
}
