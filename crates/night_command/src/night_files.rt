ghost use Rattle.std.specs.Prelude.{◌≡◌, ◌<◌, ◌++◌, ◌∷◌, [], List, IfOk, IfErr, OnOk, map, length};
ghost use Rattle.std.specs.List.{flat_map};
ghost use Rattle.partner_setup.specs.declared.partner.Partner.{Partner};
ghost use Rattle.night_command.specs.Outbox.{AddsFiles, AddsSome, IsPutFault, file_of};
ghost use Rattle.night_command.specs.NightFiles.{IsForPartners, files_of, last_files, night_files, partner_files};

use crate::outbox::{NamedText, put_all};
use crate::put_fault::PutFault;
use hub_kinds::{Items, Lent, NoMemory, Text};
use hub_run::Night;
use mailbox::Woven;
use partner_setup::{Partner, Setup};
use std::alloc::Global;
use system_io::Outbox;

/// Puts the files of a night into an outbox: each partner's acknowledgments and mailbox in the order of the setup, then
/// the report and the next counters; none is left out where it is empty. It stops at the first fault; the files before it are there.
/// Errors: a file can't be put, exactly where that failed in this call; out of memory.
pub fn put_night<B: Outbox>(
    alloc: Global,
    night: &Night,
    setup: &Setup,
    outbox: &mut B,
) -> Result<(), PutFault>
    requires partners { IsForPartners setup.now night.now }
    requires count { B.faults outbox.old < 18446744073709551615 }
    ensures all { OnOk result (AddsFiles (B.contents outbox.old) (B.contents outbox.new) (night_files setup.now night.now)) }
    ensures some { IfErr result (AddsSome (B.contents outbox.old) (B.contents outbox.new) (night_files setup.now night.now)) }
    ensures none_failed { OnOk result (B.faults outbox.new ≡ B.faults outbox.old) }
    ensures failed { IfErr result (IsPutFault (B.faults outbox.old) (B.faults outbox.new)) }
{
    let counters = setup.counters_text(alloc, night.next.as_slice())?;
    let files = night_files(alloc, setup, night, counters.as_slice())?;
    put_all(outbox, files)
}

fn night_files<'a>(
    alloc: Global,
    setup: &Setup,
    night: &'a Night,
    counters: &'a [u8],
) -> Result<Vec<NamedText<'a>>, NoMemory>
    requires { IsForPartners setup.now night.now }
    ensures { IfOk result (λ files. map file_of files.items
        ≡ partner_files setup.now.partners night.entry.now.acks night.entry.now.boxes
        ++ last_files night.entry.now.report counters.entry.now) }
{
    let mut files = Vec::new(alloc);
    append_partners(
        alloc,
        &mut files,
        setup.partners(),
        night.acks.as_slice(),
        night.boxes.as_slice(),
    )?;
    append_file(
        alloc,
        &mut files,
        b"report",
        b".txt",
        night.report.as_slice(),
    )?;
    append_file(alloc, &mut files, b"counters", b".toml", counters)?;
    Ok(files)
}

fn append_partners<'a>(
    alloc: Global,
    files: &mut Vec<NamedText<'a>>,
    partners: &[Partner],
    acks: &'a [Text],
    boxes: &'a [Woven],
) -> Result<(), NoMemory>
    requires acks { length acks.now ≡ length partners.now }
    requires boxes { length boxes.now ≡ length partners.now }
    ensures { OnOk result (map file_of files.new.items
        ≡ map file_of files.old.items ++ partner_files partners.now acks.now boxes.now) }
{
    for i in 0..partners.len() {
        append_partner(alloc, files, &partners[i], &acks[i], &boxes[i])?;
    }
    Ok(())
}

fn append_partner<'a>(
    alloc: Global,
    files: &mut Vec<NamedText<'a>>,
    partner: &Partner,
    acks: &'a Text,
    sets: &'a Woven,
) -> Result<(), NoMemory>
    ensures { OnOk result (map file_of files.new.items
        ≡ map file_of files.old.items ++ files_of partner.now acks.now sets.now) }
{
    let name = partner.name.as_slice();
    append_file(alloc, files, name, b".ack", acks.as_slice())?;
    let parts = sets.parts(alloc)?;
    append_parts(alloc, files, name, b".box", parts)
}

/// Adds a file of these bytes, whose name is of two parts.
fn append_file<'a>(
    alloc: Global,
    files: &mut Vec<NamedText<'a>>,
    name: &[u8],
    kind: &[u8],
    bytes: &'a [u8],
) -> Result<(), NoMemory>
    ensures { OnOk result (map file_of files.new.items
        ≡ map file_of files.old.items ++ (name.now ++ kind.now, bytes.now) ∷ []) }
{
    let mut parts = Vec::new(alloc);
    parts.push(Lent::new(bytes))?;
    append_parts(alloc, files, name, kind, parts)
}

/// Adds a file that is held in parts, whose name is of two parts.
fn append_parts<'a>(
    alloc: Global,
    files: &mut Vec<NamedText<'a>>,
    name: &[u8],
    kind: &[u8],
    parts: Vec<Lent<'a>>,
) -> Result<(), NoMemory>
    ensures { OnOk result (map file_of files.new.items
        ≡ map file_of files.old.items ++ (name.now ++ kind.now, flat_map (λ part. part) parts.entry.items) ∷ []) }
{
    let mut whole = Vec::new(alloc);
    whole.extend_from_slice(name)?;
    whole.extend_from_slice(kind)?;
    files.push(NamedText {
        name: Text::from_vec(whole),
        parts,
    })?;
    Ok(())
}
