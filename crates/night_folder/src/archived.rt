ghost use Rattle.std.specs.Prelude.{◌≡◌, IfErr, IfOk};
ghost use Rattle.archived_nights.specs.Files.{IsFaultOf};
ghost use Rattle.archived_nights.specs.declared.read.ArchivePapers.{ArchivePapers};
ghost use Rattle.night_folder.specs.Archived as spec;
ghost use Rattle.night_folder.specs.declared.archived.ArchiveFiles.{ArchiveFiles};
ghost use Rattle.night_marks.specs.declared.mark.NightMark.{NightMark};

use crate::home::archive_path;
use crate::night::{NightFault, NightRead, or, unread};
use crate::paper::{PaperAt, path_in, read_paper};
use archived_nights::{ArchiveFault, ArchiveFile, ArchivePapers, read_archive};
use hub_kinds::{NoMemory, copy_text};
use hub_ledger::NightEntry;
use night_marks::{BadFile, FileState, NightFile, NightMark};
use std::alloc::Global;
use std::rt::Files;

/// The files of nights that are archived as one.
#[derive(Drop)]
pub struct ArchiveFiles {
    /// The sums of the two tables.
    pub sums: PaperAt,
    /// The table of the sets that they delivered.
    pub delivered: PaperAt,
    /// The table of what comes next for each address.
    pub addresses: PaperAt,
}

fn read_files<R: Files + AllocGlobal>(rt: &R, folder: &[u8]) -> Result<ArchiveFiles, NoMemory>
    ensures { IfOk result (spec.AreArchiveFilesAt folder.now) }
{
    Ok(ArchiveFiles {
        sums: read_paper(rt, folder, b"sums")?,
        delivered: read_paper(rt, folder, b"delivered.csv")?,
        addresses: read_paper(rt, folder, b"addresses.csv")?,
    })
}

/// The first of `files` that can't be read.
fn unread_archive(files: &ArchiveFiles) -> Option<NightFile>
    ensures { result ≡ spec.unread_archive files.now }
{
    let tables = or(
        unread(&files.delivered, NightFile::Delivered),
        unread(&files.addresses, NightFile::Addresses),
    );
    or(unread(&files.sums, NightFile::Sums), tables)
}

/// The bytes of `files`.
fn papers_of<'a>(mark: &'a NightMark, files: &'a ArchiveFiles) -> ArchivePapers<'a>
    ensures { spec.AreArchivePapers mark.entry.now files.entry.now result }
{
    ArchivePapers {
        name: mark.name.as_slice(),
        moment: mark.moment.as_slice(),
        delivered: files.delivered.bytes_or_none(),
        addresses: files.addresses.bytes_or_none(),
        sums: files.sums.bytes_or_none(),
    }
}

fn file_of(file: ArchiveFile) -> NightFile
    ensures { result ≡ spec.file_of file }
{
    match file {
        ArchiveFile::Moment => NightFile::Moment,
        ArchiveFile::Sums => NightFile::Sums,
        ArchiveFile::Delivered => NightFile::Delivered,
        ArchiveFile::Addresses => NightFile::Addresses,
    }
}

/// The fault of a file of which no entry is made.
fn fault_of(fault: ArchiveFault) -> NightFault
    ensures { (mark : NightMark) → (files : ArchiveFiles) → (papers : ArchivePapers) → spec.AreArchivePapers mark files papers
        → IsFaultOf papers fault → spec.IsArchiveFault mark files result }
{
    match fault {
        ArchiveFault::Memory => NightFault::Memory,
        ArchiveFault::Wrong(file) => NightFault::File(file_of(file), FileState::Wrong),
    }
}

/// The entry of archived nights that `mark` names, made from `files`.
fn entry_by(alloc: Global, mark: &NightMark, files: &ArchiveFiles) -> Result<NightEntry, NightFault>
    ensures entry { IfOk result (spec.IsArchiveEntry mark.now files.now) }
    ensures fault { IfErr result (spec.IsArchiveFault mark.now files.now) }
{
    if let Some(file) = unread_archive(files) {
        return Err(NightFault::File(file, FileState::Unread));
    }
    let papers = papers_of(mark, files);
    match read_archive(alloc, &papers) {
        Ok(entry) => Ok(entry),
        Err(fault) => Err(fault_of(fault)),
    }
}

/// What `files` of the archived nights at `mark` give: their entry, or the bad file. The only error is out of memory.
fn read_of(alloc: Global, mark: &NightMark, files: &ArchiveFiles) -> Result<NightRead, NoMemory>
    ensures { IfOk result (spec.IsArchiveReadOf mark.now files.now) }
{
    match entry_by(alloc, mark, files) {
        Ok(entry) => Ok(NightRead::Entry(entry)),
        Err(NightFault::Memory) => Err(NoMemory),
        Err(NightFault::File(file, state)) => Ok(NightRead::Bad(BadFile {
            night: copy_text(alloc, mark.name.as_slice())?,
            file,
            state,
        })),
    }
}

/// Reads the archived nights that `mark` names, in the folder at the path `nights`. The only error is out of memory.
pub(crate) fn read_archived<R: Files + AllocGlobal>(
    rt: &R,
    nights: &[u8],
    mark: &NightMark,
) -> Result<NightRead, NoMemory>
    ensures { IfOk result (spec.IsArchiveRead nights.now mark.now) }
{
    let home = archive_path(rt.alloc(), nights)?;
    let folder = path_in(rt.alloc(), home.as_slice(), mark.name.as_slice())?;
    let files = read_files(rt, folder.as_slice())?;
    read_of(rt.alloc(), mark, &files)
}
