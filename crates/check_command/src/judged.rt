ghost use Rattle.std.specs.Prelude.{◌≡◌, ◌≢◌, IfOk, Some};
ghost use Rattle.toml.specs.View.{table_view};
ghost use Rattle.partner_setup.specs.CountersFile.{counters_of_table};
ghost use Rattle.partner_setup.specs.SetupFile.{setup_of_table};
ghost use Rattle.key_errors.specs.KeyWords.{counters_key_words, guide_key_words, setup_key_words};
ghost use Rattle.check_command.specs.Judgements.{IsFileJudged, IsGuideJudged};
ghost use Rattle.check_command.specs.SetupFiles as files;
ghost use Rattle.guide_toml.specs.FileBytes.{HasTable, table_of};
ghost use Rattle.guide_tree.specs.Words.{nodes_view, numbered};
ghost use Rattle.setup_errors.specs.GuideWords.{IsGuideSaid};

use guide_toml::{GuideFileFault, read_guide, read_rows};
use guide_tree::{Guide, GuideFault, Node};
use hub_kinds::{Items, NoMemory, Text};
use key_errors::{
    append_counters_key_words, append_guide_key_words, append_setup_key_words, no_table_text,
};
use partner_setup::{CounterRows, FileFault, SetupRows, read_counters, read_setup};
use setup_errors::append_guide_words;
use std::alloc::Global;
use toml::Table;

/// What a file is judged as.
#[derive(Debug, Drop)]
pub enum Judged<T> {
    /// What it says.
    Taken(T),
    /// Why it is refused, in words.
    Refused(Text),
}

/// What is said of a file that can't be read.
fn unread(alloc: Global) -> Result<Text, NoMemory>
    ensures { IfOk result (λ text. text ≡ files.unreadable) }
{
    Ok(Items::from_vec(Vec::from_slice(alloc, b"it can't be read")?))
}

/// What is wrong with a guide of these nodes.
fn own_words(alloc: Global, fault: &GuideFault, nodes: &[Node]) -> Result<Text, NoMemory>
    ensures { IfOk result (λ text. IsGuideSaid (numbered 1 (nodes_view nodes.now)) fault.now text) }
{
    let mut text = Vec::new(alloc);
    append_guide_words(alloc, &mut text, fault, nodes)?;
    Ok(Items::from_vec(text))
}

/// What is wrong with a guide that these bytes write.
fn guide_words(alloc: Global, bytes: &[u8], fault: &GuideFault) -> Result<Text, NoMemory>
    ensures { IfOk result (files.IsOwnSaid bytes.now fault.now) }
{
    match read_rows(alloc, bytes) {
        Ok(rows) => own_words(alloc, fault, &rows.nodes),
        Err(_) => Err(NoMemory),
    }
}

/// The table that bytes write, which are known to write one: the only error is out of memory.
pub(crate) fn table_of(alloc: Global, bytes: &[u8]) -> Result<Table, NoMemory>
    ensures { IfOk result (λ table. table_of bytes.now ≡ Some (table_view table)) }
{
    match std::str::from_utf8(bytes) {
        Err(_) => Err(NoMemory),
        Ok(text) => match toml::table_from_str(alloc, text) {
            Ok(table) => Ok(table),
            Err(_) => Err(NoMemory),
        },
    }
}

fn guide_key_text(alloc: Global, top: &Table, fault: &GuideFileFault) -> Result<Text, NoMemory>
    ensures { IfOk result (λ text. text ≡ guide_key_words (table_view top.now) fault.now) }
{
    let mut text = Vec::new(alloc);
    append_guide_key_words(alloc, &mut text, top, fault)?;
    Ok(Items::from_vec(text))
}

/// What is wrong with a key of a guide file.
fn key_errors(alloc: Global, bytes: &[u8], fault: &GuideFileFault) -> Result<Text, NoMemory>
    ensures { IfOk result (λ text. HasTable bytes.now (λ t. text ≡ guide_key_words t fault.now)) }
{
    let top = table_of(alloc, bytes)?;
    guide_key_text(alloc, &top, fault)
}

/// Why bytes write no guide. Out of memory says nothing of them.
fn refusal_of(alloc: Global, bytes: &[u8], fault: &GuideFileFault) -> Result<Text, NoMemory>
    ensures said { IfOk result (files.IsSaidOf bytes.now fault.now) }
    ensures told { IfOk result (λ text. fault.now ≢ GuideFileFault.NoMemory) }
{
    match fault {
        GuideFileFault::NoMemory | GuideFileFault::Guide(GuideFault::NoMemory) => Err(NoMemory),
        GuideFileFault::NotToml => no_table_text(alloc, bytes),
        GuideFileFault::Guide(own) => guide_words(alloc, bytes, own),
        _ => key_errors(alloc, bytes, fault),
    }
}

/// What a guide file is judged as.
pub fn judge_guide(alloc: Global, bytes: &Option<Text>) -> Result<Judged<Guide>, NoMemory>
    ensures { IfOk result (IsGuideJudged bytes.now) }
{
    let Some(bytes) = bytes else {
        return Ok(Judged::Refused(unread(alloc)?));
    };
    match read_guide(alloc, bytes.as_slice()) {
        Ok(guide) => Ok(Judged::Taken(guide)),
        Err(fault) => Ok(Judged::Refused(refusal_of(alloc, bytes.as_slice(), &fault)?)),
    }
}

fn setup_key_text(alloc: Global, top: &Table, fault: &FileFault) -> Result<Text, NoMemory>
    ensures { IfOk result (λ text. text ≡ setup_key_words (table_view top.now) fault.now) }
{
    let mut text = Vec::new(alloc);
    append_setup_key_words(alloc, &mut text, top, fault)?;
    Ok(Items::from_vec(text))
}

/// What is wrong with a key of a setup file.
fn setup_text(alloc: Global, bytes: &[u8], fault: &FileFault) -> Result<Text, NoMemory>
    ensures { IfOk result (λ text. HasTable bytes.now (λ t. text ≡ setup_key_words t fault.now)) }
{
    let top = table_of(alloc, bytes)?;
    setup_key_text(alloc, &top, fault)
}

/// Why a setup file writes no rows. Out of memory says nothing of it.
fn setup_refusal(alloc: Global, bytes: &[u8], fault: &FileFault) -> Result<Text, NoMemory>
    ensures said { IfOk result (files.IsFileSaid setup_key_words bytes.now fault.now) }
    ensures told { IfOk result (λ text. fault.now ≢ FileFault.NoMemory) }
{
    match fault {
        FileFault::NoMemory => Err(NoMemory),
        FileFault::NotToml => no_table_text(alloc, bytes),
        _ => setup_text(alloc, bytes, fault),
    }
}

fn counters_key_text(alloc: Global, top: &Table, fault: &FileFault) -> Result<Text, NoMemory>
    ensures { IfOk result (λ text. text ≡ counters_key_words (table_view top.now) fault.now) }
{
    let mut text = Vec::new(alloc);
    append_counters_key_words(alloc, &mut text, top, fault)?;
    Ok(Items::from_vec(text))
}

/// What is wrong with a key of a counters file.
fn counters_text(alloc: Global, bytes: &[u8], fault: &FileFault) -> Result<Text, NoMemory>
    ensures { IfOk result (λ text. HasTable bytes.now (λ t. text ≡ counters_key_words t fault.now)) }
{
    let top = table_of(alloc, bytes)?;
    counters_key_text(alloc, &top, fault)
}

/// Why a counters file writes no rows. Out of memory says nothing of it.
fn counters_refusal(alloc: Global, bytes: &[u8], fault: &FileFault) -> Result<Text, NoMemory>
    ensures said { IfOk result (files.IsFileSaid counters_key_words bytes.now fault.now) }
    ensures told { IfOk result (λ text. fault.now ≢ FileFault.NoMemory) }
{
    match fault {
        FileFault::NoMemory => Err(NoMemory),
        FileFault::NotToml => no_table_text(alloc, bytes),
        _ => counters_text(alloc, bytes, fault),
    }
}

/// What a setup file is judged as.
pub(crate) fn judge_rows(alloc: Global, bytes: &Option<Text>) -> Result<Judged<SetupRows>, NoMemory>
    ensures { IfOk result (IsFileJudged setup_of_table setup_key_words bytes.now) }
{
    let Some(bytes) = bytes else {
        return Ok(Judged::Refused(unread(alloc)?));
    };
    match read_setup(alloc, bytes.as_slice()) {
        Ok(rows) => Ok(Judged::Taken(rows)),
        Err(fault) => Ok(Judged::Refused(setup_refusal(alloc, bytes.as_slice(), &fault)?)),
    }
}

/// What a counters file is judged as.
pub(crate) fn judge_counters(
    alloc: Global,
    bytes: &Option<Text>,
) -> Result<Judged<CounterRows>, NoMemory>
    ensures { IfOk result (IsFileJudged counters_of_table counters_key_words bytes.now) }
{
    let Some(bytes) = bytes else {
        return Ok(Judged::Refused(unread(alloc)?));
    };
    match read_counters(alloc, bytes.as_slice()) {
        Ok(rows) => Ok(Judged::Taken(rows)),
        Err(fault) => Ok(Judged::Refused(counters_refusal(alloc, bytes.as_slice(), &fault)?)),
    }
}
