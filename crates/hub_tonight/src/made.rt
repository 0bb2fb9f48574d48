ghost use Rattle.std.specs.Prelude.{◌≡◌, Some, IfErr, IfOk, map, reverse};
ghost use Rattle.guide_toml.specs.FileBytes.{IsGuideOf};
ghost use Rattle.hub_tonight.specs.Files.{AreFirst, AreGuides};
ghost use Rattle.hub_tonight.specs.Made.{AreOfPartners, IsBuilt, IsMade, IsOfAll, IsOfFirst, IsOfGuide, IsOfGuides, IsOfSetup, IsSetupBy};
ghost use Rattle.hub_tonight.specs.Faults.{first_stopped, guide_stopped, setup_stopped};
ghost use Rattle.hub_tonight.specs.Stopped.{IsStopped};
ghost use Rattle.night_entries.specs.Entry.{IsSetup};
ghost use Rattle.partner_setup.specs.declared.rows.CounterRow.{CounterRow};

use crate::begun::begun_counters;
use crate::call::Call;
use crate::stopped::Stopped;
use counters_law::counters_go_on;
use guide_toml::{GuideFileFault, read_guide};
use guide_tree::{Guide, GuideFault};
use hub_kinds::{Counters, Items, NoMemory, Text};
use night_shelf::NightFile;
use partner_setup::{
    CounterRow, FileFault, Setup, SetupFault, SetupRows, read_counters, read_setup,
};
use std::alloc::Global;

/// The setup of a night, and the counters file by which it is made.
#[derive(Drop)]
pub(crate) struct Made {
    pub(crate) counters: Text,
    pub(crate) setup: Setup,
}

fn of_guide(place: usize, fault: GuideFileFault) -> Stopped
    ensures { result ≡ guide_stopped place fault }
{
    match fault {
        GuideFileFault::NoMemory | GuideFileFault::Guide(GuideFault::NoMemory) => Stopped::Memory,
        _ => Stopped::Guide(place, fault),
    }
}

fn of_setup_file(fault: FileFault) -> Stopped
    ensures { result ≡ setup_stopped fault }
{
    match fault {
        FileFault::NoMemory => Stopped::Memory,
        _ => Stopped::SetupFile(fault),
    }
}

fn of_first(fault: FileFault) -> Stopped
    ensures { result ≡ first_stopped fault }
{
    match fault {
        FileFault::NoMemory => Stopped::Memory,
        _ => Stopped::FirstCounters(fault),
    }
}

/// The guide of the file at `place`.
fn guide_of(alloc: Global, place: usize, bytes: &[u8]) -> Result<Guide, Stopped>
    ensures guide { IfOk result (IsGuideOf (Some bytes.now)) }
    ensures refused { IfErr result (IsOfGuide place bytes.now) }
{
    match read_guide(alloc, bytes) {
        Ok(guide) => Ok(guide),
        Err(fault) => Err(of_guide(place, fault)),
    }
}

/// The guides of `files`, in their order.
fn guides_of(alloc: Global, files: &[NightFile]) -> Result<Vec<Guide>, Stopped>
    ensures guides { IfOk result (λ guides. AreGuides files.now guides.items) }
    ensures refused { IfErr result (IsOfGuides files.now) }
{
    let mut guides = Vec::new(alloc);
    for i in 0..files.len() {
        match guide_of(alloc, i, files[i].bytes.as_slice()) {
            Ok(guide) => guides.push(guide)?,
            Err(stopped) => return Err(stopped),
        }
    }
    Ok(guides)
}

fn setup_rows(alloc: Global, bytes: &[u8]) -> Result<SetupRows, Stopped>
    ensures rows { IfOk result (IsSetup bytes.now) }
    ensures refused { IfErr result (IsOfSetup bytes.now) }
{
    match read_setup(alloc, bytes) {
        Ok(rows) => Ok(rows),
        Err(fault) => Err(of_setup_file(fault)),
    }
}

/// The rows of a first counters file; none if it has no bytes.
fn first_rows(alloc: Global, bytes: &[u8]) -> Result<Vec<CounterRow>, Stopped>
    ensures rows { IfOk result (λ rows. AreFirst bytes.now rows.items) }
    ensures refused { IfErr result (IsOfFirst bytes.now) }
{
    if bytes.is_empty() {
        return Ok(Vec::new(alloc));
    }
    match read_counters(alloc, bytes) {
        Ok(rows) => Ok(rows.into_vec()),
        Err(fault) => Err(of_first(fault)),
    }
}

/// The numbers of `rows`, in their order.
fn numbers_in(alloc: Global, rows: &[CounterRow]) -> Result<Vec<Counters>, NoMemory>
    ensures { IfOk result (λ list. list.items ≡ map (λ (row : CounterRow). row.counters) rows.now) }
{
    let mut list = Vec::new(alloc);
    for i in 0..rows.len() {
        list.push(rows[i].counters)?;
    }
    Ok(list)
}

fn setup_by(
    alloc: Global,
    rows: SetupRows,
    begun: Vec<CounterRow>,
    guides: Vec<Guide>,
) -> Result<Setup, Stopped>
    ensures setup { IfOk result (IsSetupBy rows begun.items guides.items) }
    ensures refused { IfErr result (IsOfAll rows begun.items guides.items) }
{
    match Setup::build(alloc, rows, Items::from_vec(begun), guides) {
        Ok(setup) => Ok(setup),
        Err(SetupFault::NoMemory) => Err(Stopped::Memory),
        Err(fault) => Err(Stopped::Setup(fault)),
    }
}

/// The setup of the rows of a setup file and of guides, whose partners begin with the numbers of `begun`, and the text of `begun`, of
/// which the same setup is made.
fn built(
    alloc: Global,
    rows: SetupRows,
    begun: Vec<CounterRow>,
    guides: Vec<Guide>,
) -> Result<Made, Stopped>
    requires { AreOfPartners begun.items rows.partners }
    ensures made { IfOk result (IsBuilt rows begun.items guides.items) }
    ensures refused { IfErr result (IsOfAll rows begun.items guides.items) }
{
    counters_go_on();
    let numbers = numbers_in(alloc, begun.as_slice())?;
    let setup = setup_by(alloc, rows, begun, guides)?;
    let counters = setup.counters_text(alloc, numbers.as_slice())?;
    Ok(Made { counters, setup })
}

/// The setup of the files of `call`, whose partners begin where their addresses were left.
pub(crate) fn made_of(alloc: Global, call: &Call<'_>) -> Result<Made, Stopped>
    ensures made { IfOk result (IsMade call.now.files (reverse call.now.nights.now) call.now.first.now) }
    ensures refused { IfErr result (IsStopped call.now.files (reverse call.now.nights.now) call.now.first.now call.now.input.now) }
{
    let guides = guides_of(alloc, call.files.guides)?;
    let rows = setup_rows(alloc, call.files.setup)?;
    let first = first_rows(alloc, call.first)?;
    let begun = begun_counters(
        alloc,
        rows.partners.as_slice(),
        call.nights,
        first.as_slice(),
    )?;
    built(alloc, rows, begun, guides)
}
