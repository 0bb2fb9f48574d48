ghost use Rattle.std.specs.Prelude.{◌≡◌, IfErr, IfOk, map};
ghost use Rattle.partner_setup.specs.CountersFile.{counters_of_table};
ghost use Rattle.partner_setup.specs.Setup.{SetupValue};
ghost use Rattle.partner_setup.specs.SetupFile.{setup_of_table};
ghost use Rattle.night_command.specs.Failure.{counters_failure, guide_failure, setup_failure, setup_file_failure};
ghost use Rattle.guide_toml.specs.FileBytes.{IsFileOf, IsGuideOf};
ghost use Rattle.night_command.specs.SetupFiles.{AreGuidesOf, IsFirstRefusal, IsMemoryOrIs, IsOfCounters, IsOfGuide};
ghost use Rattle.night_command.specs.SetupFiles.{IsOfGuides, IsOfSetupFile, IsRefusedAt, IsSetupAt, IsSetupOf};

use crate::failure::Failure;
use crate::setup_files::{FileAt, SetupFiles, read_files};
use guide_toml::{GuideFileFault, read_guide};
use guide_tree::{Guide, GuideFault};
use partner_setup::{
    CounterRows, FileFault, Setup, SetupFault, SetupRows, read_counters, read_setup,
};
use std::alloc::Global;
use std::rt::Files;

/// The setup that the files at these paths make, those of the guides, of the setup and of the counters, or the first refusal of them.
pub fn setup_at<'a, R: Files + AllocGlobal>(
    rt: &R,
    guides: &[&'a str],
    setup: &'a str,
    counters: &'a str,
) -> Result<Setup, Failure<'a>>
    ensures made { IfOk result (IsSetupAt (map (λ g. g.now) guides.now) setup.now counters.now) }
    ensures refused { IfErr result (IsMemoryOrIs (IsRefusedAt (map (λ g. g.now) guides.now) setup.now counters.now)) }
{
    let files = read_files(rt, guides, setup, counters)?;
    setup_of(rt.alloc(), &files)
}

/// The setup that these files make, or their first refusal: of the guides in their order, of the setup file, of the
/// counters file, of what they make together. Out of memory may come before any.
pub fn setup_of<'a>(alloc: Global, files: &SetupFiles<'a>) -> Result<Setup, Failure<'a>>
    ensures made { IfOk result (IsSetupOf files.now) }
    ensures refused { IfErr result (IsMemoryOrIs (IsFirstRefusal files.now)) }
    ensures never_both { (setup : SetupValue) (failure : Failure) → IsSetupOf files.now setup → IsFirstRefusal files.now failure → ⊥ }
{
    let guides = match guides_of(alloc, files.guides.as_slice()) {
        Ok(guides) => guides,
        Err(failure) => return Err(failure),
    };
    let rows = match setup_rows_of(alloc, &files.setup) {
        Ok(rows) => rows,
        Err(failure) => return Err(failure),
    };
    setup_from(alloc, files, guides, rows)
}

/// The setup of the guides and the rows that were read of these files.
fn setup_from<'a>(
    alloc: Global,
    files: &SetupFiles<'a>,
    guides: Vec<Guide>,
    rows: SetupRows,
) -> Result<Setup, Failure<'a>>
    requires guides { AreGuidesOf files.now.guides guides.items }
    requires rows { IsFileOf setup_of_table files.now.setup.bytes rows }
    ensures made { IfOk result (IsSetupOf files.now) }
    ensures refused { IfErr result (IsMemoryOrIs (IsFirstRefusal files.now)) }
{
    let counters = match counter_rows_of(alloc, &files.counters) {
        Ok(counters) => counters,
        Err(failure) => return Err(failure),
    };
    match Setup::build(alloc, rows, counters, guides) {
        Ok(setup) => Ok(setup),
        Err(fault) => Err(of_setup(fault)),
    }
}

/// The guides of these files, in their order.
fn guides_of<'a>(alloc: Global, files: &[FileAt<'a>]) -> Result<Vec<Guide>, Failure<'a>>
    ensures guides { IfOk result (λ guides. AreGuidesOf files.now guides.items) }
    ensures refused { IfErr result (IsMemoryOrIs (IsOfGuides files.now)) }
{
    let mut guides = Vec::new(alloc);
    for file in files {
        match guide_of(alloc, file) {
            Ok(guide) => guides.push(guide)?,
            Err(failure) => return Err(failure),
        }
    }
    Ok(guides)
}

fn guide_of<'a>(alloc: Global, file: &FileAt<'a>) -> Result<Guide, Failure<'a>>
    ensures guide { IfOk result (IsGuideOf file.now.bytes) }
    ensures refused { IfErr result (IsMemoryOrIs (IsOfGuide file.now)) }
{
    let Some(bytes) = file.bytes() else {
        return Err(Failure::Guide(file.path(), None));
    };
    match read_guide(alloc, bytes.as_slice()) {
        Ok(guide) => Ok(guide),
        Err(fault) => Err(of_guide(file.path(), fault)),
    }
}

fn setup_rows_of<'a>(alloc: Global, file: &FileAt<'_>) -> Result<SetupRows, Failure<'a>>
    ensures rows { IfOk result (IsFileOf setup_of_table file.now.bytes) }
    ensures refused { IfErr result (IsMemoryOrIs (IsOfSetupFile file.now.bytes)) }
{
    let Some(bytes) = file.bytes() else {
        return Err(Failure::SetupFile(None));
    };
    match read_setup(alloc, bytes.as_slice()) {
        Ok(rows) => Ok(rows),
        Err(fault) => Err(of_setup_file(fault)),
    }
}

fn counter_rows_of<'a>(alloc: Global, file: &FileAt<'_>) -> Result<CounterRows, Failure<'a>>
    ensures rows { IfOk result (IsFileOf counters_of_table file.now.bytes) }
    ensures refused { IfErr result (IsMemoryOrIs (IsOfCounters file.now.bytes)) }
{
    let Some(bytes) = file.bytes() else {
        return Err(Failure::CountersFile(None));
    };
    match read_counters(alloc, bytes.as_slice()) {
        Ok(rows) => Ok(rows),
        Err(fault) => Err(of_counters(fault)),
    }
}

/// Out of memory is never a refusal of the file.
fn of_guide<'a>(path: &'a str, fault: GuideFileFault) -> Failure<'a>
    ensures { result ≡ guide_failure path.entry fault }
{
    match fault {
        GuideFileFault::NoMemory | GuideFileFault::Guide(GuideFault::NoMemory) => Failure::Memory,
        _ => Failure::Guide(path, Some(fault)),
    }
}

fn of_setup_file<'a>(fault: FileFault) -> Failure<'a>
    ensures { result ≡ setup_file_failure fault }
{
    match fault {
        FileFault::NoMemory => Failure::Memory,
        _ => Failure::SetupFile(Some(fault)),
    }
}

fn of_counters<'a>(fault: FileFault) -> Failure<'a>
    ensures { result ≡ counters_failure fault }
{
    match fault {
        FileFault::NoMemory => Failure::Memory,
        _ => Failure::CountersFile(Some(fault)),
    }
}

fn of_setup<'a>(fault: SetupFault) -> Failure<'a>
    ensures { result ≡ setup_failure fault }
{
    match fault {
        SetupFault::NoMemory => Failure::Memory,
        _ => Failure::Setup(fault),
    }
}
