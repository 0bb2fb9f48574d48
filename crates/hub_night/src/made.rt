ghost use Rattle.std.specs.Prelude.{◌≡◌, ◌++◌, IfOk, OnOk, map};
ghost use Rattle.kept_files.specs.Files.{file};
ghost use Rattle.hub_night.specs.Made as made;

use hub_kinds::{Items, NoMemory, Text, copy_text};
use night_shelf::NightFile;
use std::alloc::Global;

/// The file of these bytes.
pub(crate) fn file_of(alloc: Global, name: &[u8], bytes: Text) -> Result<NightFile, NoMemory>
    ensures { IfOk result (λ made. made ≡ file name.now bytes) }
{
    Ok(NightFile {
        name: copy_text(alloc, name)?,
        bytes,
    })
}

/// The file of a copy of these bytes.
fn copied_file(alloc: Global, name: &[u8], bytes: &[u8]) -> Result<NightFile, NoMemory>
    ensures { IfOk result (λ made. made ≡ file name.now bytes.now) }
{
    file_of(alloc, name, copy_text(alloc, bytes)?)
}

/// The name of a guide's file in the folder of a night.
fn guide_name(alloc: Global, name: &[u8]) -> Result<Text, NoMemory>
    ensures { IfOk result (λ whole. whole ≡ made.guide_name name.now) }
{
    let mut whole = Vec::from_slice(alloc, b"from/guides/")?;
    whole.extend_from_slice(name)?;
    Ok(Items::from_vec(whole))
}

fn guide_file(alloc: Global, guide: &NightFile) -> Result<NightFile, NoMemory>
    ensures { IfOk result (λ file. file ≡ made.guide_file guide.now) }
{
    let name = guide_name(alloc, guide.name.as_slice())?;
    copied_file(alloc, name.as_slice(), guide.bytes.as_slice())
}

fn push_guides(
    alloc: Global,
    files: &mut Vec<NightFile>,
    guides: &[NightFile],
) -> Result<(), NoMemory>
    ensures { OnOk result (files.new.items ≡ files.old.items ++ map made.guide_file guides.now) }
{
    for i in 0..guides.len() {
        files.push(guide_file(alloc, &guides[i])?)?;
    }
    Ok(())
}

/// The sum of the program, `program`, and the files of what came in: `listing`, the list of the files of the day; `again`, the table of the
/// sets that are asked for again; and the input, which is the last file.
pub(crate) fn came_files(
    alloc: Global,
    listing: Text,
    again: Text,
    input: Text,
    program: &[u8],
) -> Result<Vec<NightFile>, NoMemory>
    ensures { IfOk result (λ files. files.items ≡ made.came_files listing again input program.now) }
{
    let mut files = Vec::new(alloc);
    files.push(copied_file(alloc, b"from/program.sum", program)?)?;
    files.push(file_of(alloc, b"from/files.sum", listing)?)?;
    files.push(file_of(alloc, b"from/again.csv", again)?)?;
    files.push(file_of(alloc, b"from/in.x12", input)?)?;
    Ok(files)
}

/// The files that a night is made of: those of the hub, the counters, and what came in.
pub(crate) fn made_files(
    alloc: Global,
    setup: &[u8],
    guides: &[NightFile],
    counters: Text,
    came: Items<NightFile>,
) -> Result<Vec<NightFile>, NoMemory>
    ensures { IfOk result (λ files. files.items ≡ made.made_files setup.now guides.now counters came) }
{
    let mut files = Vec::new(alloc);
    files.push(copied_file(alloc, b"from/setup.toml", setup)?)?;
    push_guides(alloc, &mut files, guides)?;
    files.push(file_of(alloc, b"from/counters.toml", counters)?)?;
    let mut came = came.into_vec();
    files.append(&mut came)?;
    Ok(files)
}

/// The files of the tables of a night.
pub(crate) fn table_files(
    alloc: Global,
    track: Text,
    taken: Text,
    addresses: Text,
) -> Result<Vec<NightFile>, NoMemory>
    ensures { IfOk result (λ files. files.items ≡ made.table_files track taken addresses) }
{
    let mut files = Vec::new(alloc);
    files.push(file_of(alloc, b"track.csv", track)?)?;
    files.push(file_of(alloc, b"taken.csv", taken)?)?;
    files.push(file_of(alloc, b"addresses.csv", addresses)?)?;
    Ok(files)
}
