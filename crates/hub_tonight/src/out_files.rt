ghost use Rattle.std.specs.Prelude.{◌≡◌, ◌++◌, ◌∷◌, [], IfOk, OnOk, codes, length, map};
ghost use Rattle.std.specs.List.{flat_map};
ghost use Rattle.hub_tonight.specs.Files.{out_file};
ghost use Rattle.hub_tonight.specs.Made.{AreForPartners};
ghost use Rattle.night_definition.specs.SetupFile as defined;
ghost use Rattle.night_equal_read.specs.Read.{seen_night};
ghost use Rattle.night_equal_text.specs.LookedUp.{seen_setup};

use hub_kinds::{Items, Lent, NoMemory, Text, copy_text};
use mailbox::Woven;
use night_batches::Night;
use night_equal_setup::counters_texts_are_one;
use night_shelf::NightFile;
use partner_setup::{Partner, Setup};
use std::alloc::Global;

/// The name of a file that a night gives: a name and a kind, in the folder of such files.
fn out_name(alloc: Global, name: &[u8], kind: &[u8]) -> Result<Text, NoMemory>
    ensures { IfOk result (λ text. text ≡ codes "out/" ++ (name.now ++ kind.now)) }
{
    let mut text = Vec::from_slice(alloc, b"out/")?;
    text.extend_from_slice(name)?;
    text.extend_from_slice(kind)?;
    Ok(Items::from_vec(text))
}

/// The bytes of `parts`, one after the other.
fn joined(alloc: Global, parts: &[Lent<'_>]) -> Result<Text, NoMemory>
    ensures { IfOk result (λ text. text ≡ flat_map (λ part. part) parts.now) }
{
    let mut text = Vec::new(alloc);
    for i in 0..parts.len() {
        text.extend_from_slice(parts[i].bytes())?;
    }
    Ok(Items::from_vec(text))
}

fn append_file(
    alloc: Global,
    files: &mut Vec<NightFile>,
    name: &[u8],
    kind: &[u8],
    bytes: Text,
) -> Result<(), NoMemory>
    ensures { OnOk result (files.new.items ≡ files.old.items ++ out_file (name.now ++ kind.now, bytes) ∷ []) }
{
    files.push(NightFile {
        name: out_name(alloc, name, kind)?,
        bytes,
    })?;
    Ok(())
}

/// Adds the acknowledgments and the mailbox of a partner.
fn append_partner(
    alloc: Global,
    files: &mut Vec<NightFile>,
    partner: &Partner,
    ack: &Text,
    sets: &Woven,
) -> Result<(), NoMemory>
    ensures { OnOk result (files.new.items ≡ files.old.items ++ out_file (partner.now.name ++ codes ".ack", ack.now)
        ∷ out_file (partner.now.name ++ codes ".box", sets.now) ∷ []) }
{
    let name = partner.name.as_slice();
    append_file(
        alloc,
        files,
        name,
        b".ack",
        copy_text(alloc, ack.as_slice())?,
    )?;
    let parts = sets.parts(alloc)?;
    append_file(
        alloc,
        files,
        name,
        b".box",
        joined(alloc, parts.as_slice())?,
    )
}

fn append_partners(
    alloc: Global,
    files: &mut Vec<NightFile>,
    partners: &[Partner],
    acks: &[Text],
    boxes: &[Woven],
) -> Result<(), NoMemory>
    requires acks { length acks.now ≡ length partners.now }
    requires boxes { length boxes.now ≡ length partners.now }
    ensures { OnOk result (files.new.items
        ≡ files.old.items ++ map out_file (defined.partner_files partners.now acks.now boxes.now)) }
{
    for i in 0..partners.len() {
        append_partner(alloc, files, &partners[i], &acks[i], &boxes[i])?;
    }
    Ok(())
}

/// Adds the report and the next counters.
fn append_last(
    alloc: Global,
    files: &mut Vec<NightFile>,
    report: &Text,
    counters: Text,
) -> Result<(), NoMemory>
    ensures { OnOk result (files.new.items ≡ files.old.items ++ out_file (codes "report.txt", report.now)
        ∷ out_file (codes "counters.toml", counters) ∷ []) }
{
    append_file(
        alloc,
        files,
        b"report",
        b".txt",
        copy_text(alloc, report.as_slice())?,
    )?;
    append_file(alloc, files, b"counters", b".toml", counters)?;
    Ok(())
}

/// The files that a night gives: those of each partner in the order of the setup, then the report and the next counters.
pub(crate) fn out_files(
    alloc: Global,
    setup: &Setup,
    night: &Night,
) -> Result<Vec<NightFile>, NoMemory>
    requires { AreForPartners setup.now.partners night.now }
    ensures { IfOk result (λ files. files.items ≡ map out_file (defined.night_files (seen_setup setup.now) (seen_night night.now))) }
{
    counters_texts_are_one();
    let counters = setup.counters_text(alloc, night.next.as_slice())?;
    let mut files = Vec::new(alloc);
    append_partners(
        alloc,
        &mut files,
        setup.partners(),
        night.acks.as_slice(),
        night.boxes.as_slice(),
    )?;
    append_last(alloc, &mut files, &night.report, counters)?;
    Ok(files)
}
