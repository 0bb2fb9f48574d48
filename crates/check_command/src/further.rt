//! What is wrong with each table, row and node of a file by itself.
ghost use Rattle.std.specs.Prelude.{◌≡◌, ◌≢◌, ◌++◌, [], IfOk, IfSome, OnOk, is_some};
ghost use Rattle.key_errors.specs.KeysSaid.{counters_keys_said, guide_keys_said, setup_keys_said};
ghost use Rattle.check_command.specs.Files.{listed};
ghost use Rattle.check_command.specs.Further as further;
ghost use Rattle.guide_toml.specs.FileBytes.{HasTable};
ghost use Rattle.setup_errors.specs.RowsSaid.{counters_said, setup_said};
ghost use Rattle.toml.specs.View.{table_view};

use crate::files::{Given, GivenFiles};
use crate::judged::table_of;
use guide_toml::{GuideFileFault, read_guide, read_rows};
use guide_tree::{Guide, GuideFault};
use hub_kinds::{Items, NoMemory, Text, Texts};
use key_errors::{push_counters_keys_said, push_guide_keys_said, push_setup_keys_said};
use partner_setup::{CounterRows, FileFault, SetupRows, read_counters, read_setup};
use setup_errors::{node_texts, push_counters_said, push_setup_said};
use std::alloc::Global;
use toml::Table;

fn nothing(alloc: Global) -> Texts
    ensures { result ≡ [] }
{
    Items::from_vec(Vec::new(alloc))
}

/// Nothing: no texts are printed about a guide that is taken.
fn nothing_of(alloc: Global, _guide: &Guide) -> Texts
    ensures { result ≡ [] }
{
    nothing(alloc)
}

/// The texts about the nodes of a guide that `bytes` write, which are known to write one.
fn nodes_of(alloc: Global, bytes: &[u8]) -> Result<Texts, NoMemory>
    ensures { IfOk result (further.AreNodesSaid bytes.now) }
{
    match read_rows(alloc, bytes) {
        Ok(rows) => node_texts(alloc, &rows.nodes),
        Err(_) => Err(NoMemory),
    }
}

fn guide_keys_in(alloc: Global, top: &Table) -> Result<Texts, NoMemory>
    ensures { IfOk result (λ said. said ≡ guide_keys_said (table_view top.now)) }
{
    let mut found = Vec::new(alloc);
    push_guide_keys_said(alloc, &mut found, top)?;
    Ok(Items::from_vec(found))
}

fn guide_keys(alloc: Global, bytes: &[u8]) -> Result<Texts, NoMemory>
    ensures { IfOk result (λ said. HasTable bytes.now (λ t. said ≡ guide_keys_said t)) }
{
    let top = table_of(alloc, bytes)?;
    guide_keys_in(alloc, &top)
}

/// After this refusal of a guide file.
fn behind_guide(alloc: Global, bytes: &[u8], fault: &GuideFileFault) -> Result<Texts, NoMemory>
    ensures said { IfOk result (further.IsGuideFurther bytes.now fault.now) }
    ensures told { IfOk result (λ said. fault.now ≢ GuideFileFault.NoMemory) }
{
    match fault {
        GuideFileFault::NoMemory | GuideFileFault::Guide(GuideFault::NoMemory) => Err(NoMemory),
        GuideFileFault::NotToml => Ok(nothing(alloc)),
        GuideFileFault::Guide(_) => nodes_of(alloc, bytes),
        _ => guide_keys(alloc, bytes),
    }
}

fn of_guide(alloc: Global, bytes: &Option<Text>) -> Result<Texts, NoMemory>
    ensures { IfOk result (further.IsSaidOfGuide bytes.now) }
{
    let Some(bytes) = bytes else {
        return Ok(nothing(alloc));
    };
    match read_guide(alloc, bytes.as_slice()) {
        Ok(guide) => Ok(nothing_of(alloc, &guide)),
        Err(fault) => Ok(behind_guide(alloc, bytes.as_slice(), &fault)?),
    }
}

fn setup_keys_in(alloc: Global, top: &Table) -> Result<Texts, NoMemory>
    ensures { IfOk result (λ said. said ≡ setup_keys_said (table_view top.now)) }
{
    let mut found = Vec::new(alloc);
    push_setup_keys_said(alloc, &mut found, top)?;
    Ok(Items::from_vec(found))
}

fn setup_keys(alloc: Global, bytes: &[u8]) -> Result<Texts, NoMemory>
    ensures { IfOk result (λ said. HasTable bytes.now (λ t. said ≡ setup_keys_said t)) }
{
    let top = table_of(alloc, bytes)?;
    setup_keys_in(alloc, &top)
}

/// After this refusal of a setup file.
fn behind_setup(alloc: Global, bytes: &[u8], fault: &FileFault) -> Result<Texts, NoMemory>
    ensures said { IfOk result (further.IsFileFurther setup_keys_said bytes.now fault.now) }
    ensures told { IfOk result (λ said. fault.now ≢ FileFault.NoMemory) }
{
    match fault {
        FileFault::NoMemory => Err(NoMemory),
        FileFault::NotToml => Ok(nothing(alloc)),
        _ => setup_keys(alloc, bytes),
    }
}

fn setup_rows(alloc: Global, rows: &SetupRows) -> Result<Texts, NoMemory>
    ensures { IfOk result (λ said. said ≡ setup_said rows.now) }
{
    let mut found = Vec::new(alloc);
    push_setup_said(alloc, &mut found, rows)?;
    Ok(Items::from_vec(found))
}

fn of_setup(alloc: Global, bytes: &Option<Text>) -> Result<Texts, NoMemory>
    ensures { IfOk result (further.IsSaidOfSetup bytes.now) }
{
    let Some(bytes) = bytes else {
        return Ok(nothing(alloc));
    };
    match read_setup(alloc, bytes.as_slice()) {
        Ok(rows) => Ok(setup_rows(alloc, &rows)?),
        Err(fault) => Ok(behind_setup(alloc, bytes.as_slice(), &fault)?),
    }
}

fn counters_keys_in(alloc: Global, top: &Table) -> Result<Texts, NoMemory>
    ensures { IfOk result (λ said. said ≡ counters_keys_said (table_view top.now)) }
{
    let mut found = Vec::new(alloc);
    push_counters_keys_said(alloc, &mut found, top)?;
    Ok(Items::from_vec(found))
}

fn counters_keys(alloc: Global, bytes: &[u8]) -> Result<Texts, NoMemory>
    ensures { IfOk result (λ said. HasTable bytes.now (λ t. said ≡ counters_keys_said t)) }
{
    let top = table_of(alloc, bytes)?;
    counters_keys_in(alloc, &top)
}

/// After this refusal of a counters file.
fn behind_counters(alloc: Global, bytes: &[u8], fault: &FileFault) -> Result<Texts, NoMemory>
    ensures said { IfOk result (further.IsFileFurther counters_keys_said bytes.now fault.now) }
    ensures told { IfOk result (λ said. fault.now ≢ FileFault.NoMemory) }
{
    match fault {
        FileFault::NoMemory => Err(NoMemory),
        FileFault::NotToml => Ok(nothing(alloc)),
        _ => counters_keys(alloc, bytes),
    }
}

fn counter_rows(alloc: Global, rows: &CounterRows) -> Result<Texts, NoMemory>
    ensures { IfOk result (λ said. said ≡ counters_said 1 rows.now) }
{
    let mut found = Vec::new(alloc);
    push_counters_said(alloc, &mut found, rows.as_slice())?;
    Ok(Items::from_vec(found))
}

fn of_counters(alloc: Global, bytes: &Option<Text>) -> Result<Texts, NoMemory>
    ensures { IfOk result (further.IsSaidOfCounters bytes.now) }
{
    let Some(bytes) = bytes else {
        return Ok(nothing(alloc));
    };
    match read_counters(alloc, bytes.as_slice()) {
        Ok(rows) => Ok(counter_rows(alloc, &rows)?),
        Err(fault) => Ok(behind_counters(alloc, bytes.as_slice(), &fault)?),
    }
}

fn of_guides(alloc: Global, given: &[Given<'_>]) -> Result<Vec<Texts>, NoMemory>
    ensures { IfOk result (λ said. further.AreSaidOfGuides given.now said.items) }
{
    let mut said = Vec::new(alloc);
    for file in given {
        said.push(of_guide(alloc, &file.bytes)?)?;
    }
    Ok(said)
}

fn of_some_setup(alloc: Global, given: &Option<Given<'_>>) -> Result<Option<Texts>, NoMemory>
    ensures { IfOk result (further.IsSomeSaid further.IsSaidOfSetup given.now) }
{
    match given {
        None => Ok(None),
        Some(file) => Ok(Some(of_setup(alloc, &file.bytes)?)),
    }
}

fn of_some_counters(alloc: Global, given: &Option<Given<'_>>) -> Result<Option<Texts>, NoMemory>
    ensures { IfOk result (further.IsSomeSaid further.IsSaidOfCounters given.now) }
{
    match given {
        None => Ok(None),
        Some(file) => Ok(Some(of_counters(alloc, &file.bytes)?)),
    }
}

fn push_some(all: &mut Vec<Texts>, said: Option<Texts>) -> Result<(), NoMemory>
    ensures { OnOk result (all.new.items ≡ all.old.items ++ listed said) }
{
    if let Some(said) = said {
        all.push(said)?;
    }
    Ok(())
}

/// What is said of each file that is given. The only error is out of memory.
pub fn said_of_files(alloc: Global, given: &GivenFiles<'_>) -> Result<Items<Texts>, NoMemory>
    ensures { IfOk result (λ all. further.AreSaid given.now all) }
{
    let mut all = of_guides(alloc, given.guides.as_slice())?;
    let setup = of_some_setup(alloc, &given.setup)?;
    let counters = of_some_counters(alloc, &given.counters)?;
    push_some(&mut all, setup)?;
    push_some(&mut all, counters)?;
    Ok(Items::from_vec(all))
}

/// What is printed, if all is asked for.
pub(crate) fn said_if(
    alloc: Global,
    all: bool,
    given: &GivenFiles<'_>,
) -> Result<Option<Items<Texts>>, NoMemory>
    ensures asked { IfOk result (λ said. is_some said ≡ all) }
    ensures said { IfOk result (λ said. IfSome said (λ ss. further.AreSaid given.now ss)) }
{
    if !all {
        return Ok(None);
    }
    Ok(Some(said_of_files(alloc, given)?))
}
