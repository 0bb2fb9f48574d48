ghost use Rattle.std.specs.Prelude.{◌≡◌, ◌++◌, ◌∷◌, [], not, ◌&&◌, is_some, IfOk, OnOk, codes, map, option_map};
ghost use Rattle.std.specs.List.{flat_map};
ghost use Rattle.night_entries.specs.Files as files;
ghost use Rattle.night_entries.specs.Named.{found_in};

use crate::named::{by_name, find};
use hub_kinds::{Items, NoMemory, Text, copy_text};
use hub_ledger::{AddressNumbers, FileSum};
use std::alloc::Global;
use std::collections::BTreeMap;

/// The sum of a file, by its name in the night's folder.
#[derive(Debug, Drop)]
pub struct NamedSum {
    pub name: Text,
    pub sum: Text,
}

/// What is known of files by their names.
#[derive(Drop)]
struct Names<'a> {
    given: BTreeMap<&'a [u8], &'a Text>,
    listed: BTreeMap<&'a [u8], &'a NamedSum>,
    found: BTreeMap<&'a [u8], &'a NamedSum>,
}

/// The name of a partner's file.
fn partner_file(alloc: Global, partner: &[u8], ending: &str) -> Result<Text, NoMemory>
    ensures { IfOk result (λ name. name ≡ codes "out/" ++ (partner.now ++ ending.now)) }
{
    let mut name = Vec::from_slice(alloc, b"out/")?;
    name.extend_from_slice(partner)?;
    name.extend_from_slice(ending.as_bytes())?;
    Ok(Items::from_vec(name))
}

fn push_partner_files(alloc: Global, names: &mut Vec<Text>, partner: &[u8]) -> Result<(), NoMemory>
    ensures { OnOk result (names.new.items ≡ names.old.items ++ files.partner_files partner.now) }
{
    names.push(partner_file(alloc, partner, ".ack")?)?;
    names.push(partner_file(alloc, partner, ".box")?)?;
    Ok(())
}

fn push_name(alloc: Global, names: &mut Vec<Text>, name: &str) -> Result<(), NoMemory>
    ensures { OnOk result (names.new.items ≡ names.old.items ++ name.now ∷ []) }
{
    names.push(copy_text(alloc, name.as_bytes())?)?;
    Ok(())
}

#[tactic(auto, using(crate::proofs::Same::three))]
fn push_night_files(alloc: Global, names: &mut Vec<Text>) -> Result<(), NoMemory>
    ensures { OnOk result (names.new.items
        ≡ names.old.items ++ (codes "out/report.txt" ∷ codes "out/counters.toml" ∷ codes "total" ∷ [])) }
{
    push_name(alloc, names, "out/report.txt")?;
    push_name(alloc, names, "out/counters.toml")?;
    push_name(alloc, names, "total")?;
    Ok(())
}

/// The names of the files that a night gives.
fn given_names(alloc: Global, rows: &[AddressNumbers]) -> Result<Vec<Text>, NoMemory>
    ensures { IfOk result (λ names. names.items ≡ files.given_names rows.now) }
{
    let mut names = Vec::new(alloc);
    for i in 0..rows.len() {
        push_partner_files(alloc, &mut names, rows[i].partner.as_slice())?;
    }
    push_night_files(alloc, &mut names)?;
    Ok(names)
}

/// The sum, or an empty text.
fn sum_or_none(alloc: Global, sum: Option<&NamedSum>) -> Result<Text, NoMemory>
    ensures { IfOk result (λ text. text ≡ files.sum_or_none (option_map (λ s. s.now) sum.entry)) }
{
    match sum {
        None => copy_text(alloc, b""),
        Some(sum) => copy_text(alloc, sum.sum.as_slice()),
    }
}

fn file_by(alloc: Global, names: &Names<'_>, name: &[u8]) -> Result<FileSum, NoMemory>
    ensures { IfOk result (λ file. file
        ≡ files.file_by (found_in names.now.given) (found_in names.now.listed) (found_in names.now.found) name.now) }
{
    Ok(FileSum {
        name: copy_text(alloc, name)?,
        is_given: find(&names.given, name).is_some(),
        listed: sum_or_none(alloc, find(&names.listed, name))?,
        sum: sum_or_none(alloc, find(&names.found, name))?,
    })
}

/// Adds the files that the night gives.
fn push_given(
    alloc: Global,
    list: &mut Vec<FileSum>,
    names: &Names<'_>,
    given: &[Text],
) -> Result<(), NoMemory>
    ensures { OnOk result (list.new.items ≡ list.old.items
        ++ map (files.file_by (found_in names.now.given) (found_in names.now.listed) (found_in names.now.found)) given.now) }
{
    for i in 0..given.len() {
        list.push(file_by(alloc, names, given[i].as_slice())?)?;
    }
    Ok(())
}

/// Adds the files that are listed, and that the night doesn't give.
fn push_listed(
    alloc: Global,
    list: &mut Vec<FileSum>,
    names: &Names<'_>,
    listed: &[NamedSum],
) -> Result<(), NoMemory>
    ensures { OnOk result (list.new.items ≡ list.old.items
        ++ map (files.file_by (found_in names.now.given) (found_in names.now.listed) (found_in names.now.found))
        (files.only_listed (found_in names.now.given) listed.now)) }
{
    for i in 0..listed.len() {
        let name = listed[i].name.as_slice();
        if !find(&names.given, name).is_some() {
            list.push(file_by(alloc, names, name)?)?;
        }
    }
    Ok(())
}

/// Adds the files that were found, and that are neither given nor listed.
fn push_found(
    alloc: Global,
    list: &mut Vec<FileSum>,
    names: &Names<'_>,
    found: &[NamedSum],
) -> Result<(), NoMemory>
    ensures { OnOk result (list.new.items ≡ list.old.items
        ++ map (files.file_by (found_in names.now.given) (found_in names.now.listed) (found_in names.now.found))
        (files.only_found (found_in names.now.given) (found_in names.now.listed) found.now)) }
{
    for i in 0..found.len() {
        let name = found[i].name.as_slice();
        if !find(&names.given, name).is_some() && !find(&names.listed, name).is_some() {
            list.push(file_by(alloc, names, name)?)?;
        }
    }
    Ok(())
}

/// The files of these names.
fn files_by(
    alloc: Global,
    names: &Names<'_>,
    given: &[Text],
    listed: &[NamedSum],
    found: &[NamedSum],
) -> Result<Vec<FileSum>, NoMemory>
    ensures { IfOk result (λ list. list.items
        ≡ map (files.file_by (found_in names.now.given) (found_in names.now.listed) (found_in names.now.found)) given.now
        ++ (map (files.file_by (found_in names.now.given) (found_in names.now.listed) (found_in names.now.found))
        (files.only_listed (found_in names.now.given) listed.now)
        ++ map (files.file_by (found_in names.now.given) (found_in names.now.listed) (found_in names.now.found))
        (files.only_found (found_in names.now.given) (found_in names.now.listed) found.now))) }
{
    let mut list = Vec::new(alloc);
    push_given(alloc, &mut list, names, given)?;
    push_listed(alloc, &mut list, names, listed)?;
    push_found(alloc, &mut list, names, found)?;
    Ok(list)
}

/// The files of a night: those that it gives by the rows of its partners, those that its sums list, and those that were found.
pub(crate) fn files_of(
    alloc: Global,
    rows: &[AddressNumbers],
    listed: &[NamedSum],
    found: &[NamedSum],
) -> Result<Vec<FileSum>, NoMemory>
    ensures { IfOk result (λ list. list.items ≡ files.files_of (files.given_names rows.now) listed.now found.now) }
{
    let given = given_names(alloc, rows)?;
    let names = Names {
        given: by_name(alloc, given.as_slice())?,
        listed: by_name(alloc, listed)?,
        found: by_name(alloc, found)?,
    };
    files_by(alloc, &names, given.as_slice(), listed, found)
}
