ghost use Rattle.std.specs.Prelude.{◌≡◌, ◌++◌, IfOk, OnOk};
ghost use Rattle.hub_archive.specs.Lines as lines;

use file_names::append_shown;
use hub_kinds::NoMemory;
use itoa::Buffer;
use std::alloc::Global;

fn append_none(out: &mut Vec<u8>, hub: &[u8], keep: u32) -> Result<(), NoMemory>
    ensures { OnOk result (out.new.items ≡ out.old.items ++ lines.none_text hub.now keep) }
{
    let mut digits = Buffer::new();
    append_shown(out, hub)?;
    out.extend_from_slice(b": no night is archived, since it has no more than --keep ")?;
    out.extend_from_slice(digits.format(keep).as_bytes())?;
    out.extend_from_slice(b"\n")?;
    Ok(())
}

/// What is printed of a hub that has no more than `keep` nights.
pub(crate) fn none_text(alloc: Global, hub: &[u8], keep: u32) -> Result<Vec<u8>, NoMemory>
    ensures { IfOk result (λ text. text.items ≡ lines.none_text hub.now keep) }
{
    let mut text = Vec::new(alloc);
    append_none(&mut text, hub, keep)?;
    Ok(text)
}

fn append_archived(out: &mut Vec<u8>, hub: &[u8], count: u64) -> Result<(), NoMemory>
    ensures { OnOk result (out.new.items ≡ out.old.items ++ lines.archived_text hub.now count) }
{
    let mut digits = Buffer::new();
    out.extend_from_slice(b"nights 1 to ")?;
    out.extend_from_slice(digits.format(count).as_bytes())?;
    out.extend_from_slice(b" are archived: ")?;
    append_shown(out, hub)?;
    out.extend_from_slice(b"/archive\n")?;
    Ok(())
}

/// What is printed of nights of the hub `hub` that are archived, of which the last has the number `count`.
pub(crate) fn archived_text(alloc: Global, hub: &[u8], count: u64) -> Result<Vec<u8>, NoMemory>
    ensures { IfOk result (λ text. text.items ≡ lines.archived_text hub.now count) }
{
    let mut text = Vec::new(alloc);
    append_archived(&mut text, hub, count)?;
    Ok(text)
}
