ghost use Rattle.std.specs.Prelude.{◌≡◌, IfOk, IfErr, OnOk, option_map};
ghost use Rattle.std.specs.List.{AllZip};
ghost use Rattle.day_command.specs.Failure.{IsBefore};
ghost use Rattle.day_command.specs.Page as page;

use crate::failure::Failure;
use ack_lines::explanation;
use ack_read::{ReadFault, read_acknowledgments};
use hub_kinds::{NoMemory, Text, copy_text};
use night_folder::{list_at, read_paper};
use night_page::PartnerTold;
use std::alloc::Global;
use std::rt::Files;
use std::str;

/// The partner whose acknowledgments the file `name` has.
fn partner_of(name: &[u8]) -> Option<&[u8]>
    ensures { option_map (λ partner. partner.now) result ≡ page.partner_of name.entry.now }
{
    if name.ends_with(b".ack") {
        Some(&name[..name.len() - 4])
    } else {
        None
    }
}

fn unread_lines(alloc: Global) -> Result<Text, NoMemory>
    ensures { IfOk result (λ lines. lines ≡ page.unread_lines) }
{
    copy_text(alloc, b"these acknowledgments can't be read\n")
}

/// The lines on acknowledgments that have some bytes.
fn lines_of(alloc: Global, text: &[u8]) -> Result<Text, NoMemory>
    ensures { IfOk result (page.AreLinesOf text.now) }
{
    match read_acknowledgments(alloc, text) {
        Ok(found) => Ok(Text::from_vec(explanation(alloc, found)?)),
        Err(ReadFault::NoMemory) => Err(NoMemory),
        Err(ReadFault::NoHeader) => unread_lines(alloc),
        Err(ReadFault::TellsNothing) => unread_lines(alloc),
    }
}

/// The lines on the bytes of a file of acknowledgments.
fn lines_read(alloc: Global, text: &[u8]) -> Result<Text, NoMemory>
    ensures { IfOk result (page.AreLinesRead text.now) }
{
    match text {
        [] => copy_text(alloc, b""),
        [..] => lines_of(alloc, text),
    }
}

/// The lines on the acknowledgments in a file, which are none if it can't be read.
fn lines_in(alloc: Global, bytes: Option<&[u8]>) -> Result<Text, NoMemory>
    ensures { IfOk result (page.AreLinesIn (option_map (λ b. b.now) bytes.entry)) }
{
    match bytes {
        None => unread_lines(alloc),
        Some(text) => lines_read(alloc, text),
    }
}

fn file_name(alloc: Global, partner: &[u8]) -> Result<Text, NoMemory>
    ensures { IfOk result (λ name. name ≡ page.ack_name partner.now) }
{
    let mut name = Vec::from_slice(alloc, b"out/")?;
    name.extend_from_slice(partner)?;
    name.extend_from_slice(b".ack")?;
    Ok(Text::from_vec(name))
}

/// What the night in the folder at the path `night` reports to `partner`.
fn told_at<R: Files + AllocGlobal>(
    rt: &R,
    night: &[u8],
    partner: &[u8],
) -> Result<PartnerTold, NoMemory>
    ensures { IfOk result (page.IsToldAt night.now partner.now) }
{
    let name = file_name(rt.alloc(), partner)?;
    let file = read_paper(rt, night, name.as_slice())?;
    Ok(PartnerTold {
        partner: copy_text(rt.alloc(), partner)?,
        lines: lines_in(rt.alloc(), file.bytes())?,
    })
}

/// Adds what the acknowledgments in the file `name` report to their partner.
fn push_told<R: Files + AllocGlobal>(
    rt: &R,
    told: &mut Vec<PartnerTold>,
    night: &[u8],
    name: &[u8],
) -> Result<(), NoMemory>
    ensures { OnOk result (page.IsOneMore night.now (page.partner_of name.now) told.old.items told.new.items) }
{
    if let Some(partner) = partner_of(name) {
        told.push(told_at(rt, night, partner)?)?;
    }
    Ok(())
}

/// What partners are told whose acknowledgments are the files `names`.
fn all_told<R: Files + AllocGlobal>(
    rt: &R,
    night: &[u8],
    names: &[Text],
) -> Result<Vec<PartnerTold>, NoMemory>
    ensures { IfOk result (λ told. AllZip (page.IsToldAt night.now) (page.partners_in names.now) told.items) }
{
    let mut told = Vec::new(rt.alloc());
    for i in 0..names.len() {
        push_told(rt, &mut told, night, names[i].as_slice())?;
    }
    Ok(told)
}

/// What the partners of the night in the folder at the path `night` are told.
pub(crate) fn partners_at<R: Files + AllocGlobal + Clone + Drop>(
    rt: &R,
    night: &[u8],
) -> Result<Vec<PartnerTold>, Failure>
    ensures told { IfOk result (λ told. page.ArePartnersAt night.now told.items) }
    ensures before { IfErr result IsBefore }
{
    let mut path = Vec::from_slice(rt.alloc(), night)?;
    path.extend_from_slice(b"/out")?;
    let Ok(path) = str::from_utf8(path.as_slice()) else {
        return Err(Failure::Night);
    };
    let out = list_at(rt, path)?;
    let Some(names) = out.names() else {
        return Err(Failure::Night);
    };
    Ok(all_told(rt, night, names)?)
}
