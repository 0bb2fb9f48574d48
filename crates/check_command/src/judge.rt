ghost use Rattle.std.specs.Prelude.{◌≡◌, ◌<◌, ◌^◌, ◌++◌, if◌then◌else◌, IfOk, OnOk, Some, option_map};
ghost use Rattle.guide_tree.specs.Words.{node_count, nodes_view};
ghost use Rattle.check_command.specs.Files as files;
ghost use Rattle.check_command.specs.Judged as judged;
ghost use Rattle.check_command.specs.Judgements.{AreCountedAlone, AreCountedBeside, AreCountersFound, AreGuidesFound, IsCountedBeside};
ghost use Rattle.check_command.specs.Judgements.{IsGuideFound, IsToldBeside, with_guide, with_told};
ghost use Rattle.check_command.specs.Tellings as tellings;
ghost use Rattle.check_command.specs.declared.told.Told.TheVariants as variants;
ghost use Rattle.setup_errors.specs.SetupWords.{setup_words};

use crate::files::{Given, GivenFiles};
use crate::judged::{Judged, judge_counters, judge_guide, judge_rows};
use crate::told::{FileTold, Listed, Told};
use crate::warned::{no_warnings, warning_texts};
use guide_tree::{Guide, Node};
use hub_kinds::{Items, NoMemory, Text};
use partner_setup::{CounterRows, Setup, SetupFault, SetupRows};
use setup_errors::{KeptRows, append_setup_words, setup_warning_texts};
use std::alloc::Global;

/// What is reported of a setup, and of the counters that it is judged by.
#[derive(Debug, Drop)]
pub struct SetupTold {
    pub setup: Told,
    pub counters: Told,
}

/// What is reported of a setup that is made of these, and of the counters: they are taken, or the first refusal is reported with the one
/// that is at fault. The only error is out of memory.
pub fn judge_setup(
    alloc: Global,
    rows: SetupRows,
    counters: CounterRows,
    guides: Vec<Guide>,
) -> Result<SetupTold, NoMemory>
    ensures setup { IfOk result (λ t. t.setup ≡ judged.setup_told rows counters guides.items) }
    ensures counters { IfOk result (λ t. t.counters ≡ judged.counters_told rows counters guides.items) }
{
    let kept = KeptRows::of(alloc, &rows, counters.as_slice(), guides.as_slice())?;
    let partners = rows.partners.as_slice().len() as u64;
    let count = counters.as_slice().len() as u64;
    let taken = Told::Taken(count, Listed::Counters, no_warnings(alloc));
    match Setup::build(alloc, rows, counters, guides) {
        Ok(_) => {
            let warnings = setup_warning_texts(alloc, &kept)?;
            Ok(SetupTold {
                setup: Told::Taken(partners, Listed::Partners, warnings),
                counters: taken,
            })
        }
        Err(SetupFault::NoMemory) => Err(NoMemory),
        Err(fault) => {
            let text = refusal_text(alloc, &kept, &fault)?;
            Ok(refused_by(&fault, text, taken))
        }
    }
}

/// What is wrong with a setup of which these rows are kept.
fn refusal_text(alloc: Global, kept: &KeptRows, fault: &SetupFault) -> Result<Text, NoMemory>
    ensures { IfOk result (λ text. text ≡ setup_words kept.now fault.now) }
{
    let mut text = Vec::new(alloc);
    append_setup_words(alloc, &mut text, kept, fault)?;
    Ok(Items::from_vec(text))
}

/// Whether a counter is at fault, and not the setup.
fn is_of_counters(fault: &SetupFault) -> bool
    ensures { result ≡ judged.is_of_counters fault.now }
{
    match fault {
        SetupFault::BadCounter(_) => true,
        SetupFault::SamePartner(_)
        | SetupFault::BadDelimiters(_)
        | SetupFault::BadId(_)
        | SetupFault::BadGuides(_)
        | SetupFault::BadRoute(_)
        | SetupFault::BadCap(_)
        | SetupFault::NoMemory => false,
    }
}

/// Where a refusal in these words is reported: with the counters where one of them is at fault, and else with the setup.
fn refused_by(fault: &SetupFault, text: Text, counters: Told) -> SetupTold
    ensures setup { result.setup ≡ (if judged.is_of_counters fault.now then variants.Open else variants.Refused text) }
    ensures counters { result.counters ≡ (if judged.is_of_counters fault.now then variants.Refused text else counters) }
{
    if is_of_counters(fault) {
        return SetupTold {
            setup: Told::Open,
            counters: Told::Refused(text),
        };
    }
    let setup = Told::Refused(text);
    SetupTold { setup, counters }
}

/// How many nodes there are, loops and what is in them.
fn node_count(nodes: &[Node]) -> u64
    requires { node_count (nodes_view nodes.now) < 2 ^ 32 }
    ensures { result ≡ node_count (nodes_view nodes.now) }
{
    let mut count = 0u64;
    for node in nodes {
        count += 1;
        if let Node::Loop(_, inner) = node {
            count += node_count(inner);
        }
    }
    count
}

/// How many nodes a guide has.
fn size_of(guide: &Guide) -> u64
    ensures { result ≡ node_count (nodes_view guide.now.nodes.items) }
{
    node_count(&guide.rows().nodes)
}

/// What is reported of a guide file, and its guide, where it is taken.
struct ToldGuide<'a> {
    line: FileTold<'a>,
    guide: Option<Guide>,
}

fn tell_guide<'a>(alloc: Global, given: &Given<'a>) -> Result<ToldGuide<'a>, NoMemory>
    ensures line { IfOk result (λ t. tellings.IsFileTold tellings.IsGuideTold given.now t.line) }
    ensures guide { IfOk result (λ t. IsGuideFound given.now.bytes t.guide) }
{
    let path = given.path;
    match judge_guide(alloc, &given.bytes)? {
        Judged::Taken(guide) => {
            let warnings = warning_texts(alloc, &guide)?;
            let told = Told::Taken(size_of(&guide), Listed::Slots, warnings);
            Ok(ToldGuide {
                line: FileTold { path, told },
                guide: Some(guide),
            })
        }
        Judged::Refused(text) => {
            let told = Told::Refused(text);
            Ok(ToldGuide {
                line: FileTold { path, told },
                guide: None,
            })
        }
    }
}

/// What is reported of guide files, and their guides, where none is refused.
struct ToldGuides<'a> {
    lines: Vec<FileTold<'a>>,
    guides: Option<Vec<Guide>>,
}

/// The guides with one more, where none is refused.
fn with_guide(
    guides: Option<Vec<Guide>>,
    guide: Option<Guide>,
) -> Result<Option<Vec<Guide>>, NoMemory>
    ensures { IfOk result (λ more. option_map (λ v. v.items) more ≡ with_guide (option_map (λ v. v.items) guides) guide) }
{
    match (guides, guide) {
        (Some(mut guides), Some(guide)) => {
            guides.push(guide)?;
            Ok(Some(guides))
        }
        _ => Ok(None),
    }
}

fn tell_guides<'a>(alloc: Global, given: &[Given<'a>]) -> Result<ToldGuides<'a>, NoMemory>
    ensures lines { IfOk result (λ t. tellings.AreGuidesTold given.now t.lines.items) }
    ensures guides { IfOk result (λ t. AreGuidesFound given.now (option_map (λ v. v.items) t.guides)) }
{
    let mut lines = Vec::new(alloc);
    let mut guides = Some(Vec::new(alloc));
    for file in given {
        let ToldGuide { line, guide } = tell_guide(alloc, file)?;
        lines.push(line)?;
        guides = with_guide(guides, guide)?;
    }
    Ok(ToldGuides { lines, guides })
}

/// What is reported of a counters file, and its rows, where it is taken.
struct ToldCounters<'a> {
    line: Option<FileTold<'a>>,
    rows: Option<CounterRows>,
}

fn tell_counters_in<'a>(alloc: Global, given: &Given<'a>) -> Result<ToldCounters<'a>, NoMemory>
    ensures line { IfOk result (λ t. AreCountedAlone (Some given.now) t.rows t.line) }
    ensures rows { IfOk result (λ t. AreCountersFound (Some given.now) t.rows) }
{
    let path = given.path;
    match judge_counters(alloc, &given.bytes)? {
        Judged::Taken(rows) => {
            let count = rows.as_slice().len() as u64;
            let told = Told::Taken(count, Listed::Counters, no_warnings(alloc));
            Ok(ToldCounters {
                line: Some(FileTold { path, told }),
                rows: Some(rows),
            })
        }
        Judged::Refused(text) => {
            let told = Told::Refused(text);
            Ok(ToldCounters {
                line: Some(FileTold { path, told }),
                rows: None,
            })
        }
    }
}

/// What is printed of a counters file, if there is one: without one there are no counters.
fn tell_counters<'a>(alloc: Global, given: &Option<Given<'a>>) -> Result<ToldCounters<'a>, NoMemory>
    ensures line { IfOk result (λ t. AreCountedAlone given.now t.rows t.line) }
    ensures rows { IfOk result (λ t. AreCountersFound given.now t.rows) }
{
    match given {
        Some(file) => tell_counters_in(alloc, file),
        None => Ok(ToldCounters {
            line: None,
            rows: Some(Items::from_vec(Vec::new(alloc))),
        }),
    }
}

/// What is reported of a setup file, and of the counters, where they are judged by it.
struct Beside {
    setup: Told,
    counters: Option<Told>,
}

/// What is reported of a setup file, by the guides and the counters, where none of these is refused.
fn told_of_setup(
    alloc: Global,
    bytes: &Option<Text>,
    guides: Option<Vec<Guide>>,
    counters: Option<CounterRows>,
) -> Result<Beside, NoMemory>
    ensures setup { IfOk result (λ t. IsToldBeside (option_map (λ v. v.items) guides) counters bytes.now t.setup) }
    ensures counters { IfOk result (λ t. IsCountedBeside (option_map (λ v. v.items) guides) counters bytes.now t.counters) }
{
    match judge_rows(alloc, bytes)? {
        Judged::Refused(text) => Ok(Beside {
            setup: Told::Refused(text),
            counters: None,
        }),
        Judged::Taken(rows) => match (guides, counters) {
            (Some(guides), Some(counters)) => {
                let SetupTold { setup, counters } = judge_setup(alloc, rows, counters, guides)?;
                Ok(Beside {
                    setup,
                    counters: Some(counters),
                })
            }
            _ => Ok(Beside {
                setup: Told::Open,
                counters: None,
            }),
        },
    }
}

/// The line of a setup file, where there is one, and what is reported of the counters, where they are judged by it.
struct ToldSetup<'a> {
    line: Option<FileTold<'a>>,
    counters: Option<Told>,
}

fn tell_setup<'a>(
    alloc: Global,
    given: &Option<Given<'a>>,
    guides: Option<Vec<Guide>>,
    counters: Option<CounterRows>,
) -> Result<ToldSetup<'a>, NoMemory>
    ensures line { IfOk result (λ t. tellings.IsSomeTold (IsToldBeside (option_map (λ v. v.items) guides) counters) given.now t.line) }
    ensures counters { IfOk result (λ t. AreCountedBeside (option_map (λ v. v.items) guides) counters given.now t.counters) }
{
    match given {
        None => Ok(ToldSetup {
            line: None,
            counters: None,
        }),
        Some(file) => {
            let path = file.path;
            let Beside {
                setup: told,
                counters,
            } = told_of_setup(alloc, &file.bytes, guides, counters)?;
            Ok(ToldSetup {
                line: Some(FileTold { path, told }),
                counters,
            })
        }
    }
}

/// The line of a file of which something else is reported, where there is one.
fn with_told<'a>(line: Option<FileTold<'a>>, told: Option<Told>) -> Option<FileTold<'a>>
    ensures { result ≡ with_told line.entry told }
{
    match (line, told) {
        (Some(line), Some(told)) => Some(FileTold {
            path: line.path,
            told,
        }),
        (line, _) => line,
    }
}

fn push_some<'a>(lines: &mut Vec<FileTold<'a>>, line: Option<FileTold<'a>>) -> Result<(), NoMemory>
    ensures { OnOk result (lines.new.items ≡ lines.old.items ++ files.listed line.entry) }
{
    if let Some(line) = line {
        lines.push(line)?;
    }
    Ok(())
}

/// What is reported of each file that is given: the guides in their order, the setup, the counters. The only error is out of memory.
pub fn tell_files<'a>(alloc: Global, given: &GivenFiles<'a>) -> Result<Vec<FileTold<'a>>, NoMemory>
    ensures told { IfOk result (λ told. tellings.AreTold given.now told.items) }
    ensures paths { IfOk result (λ told. files.paths_told told.items ≡ files.paths_of given.now) }
{
    let ToldGuides { lines, guides } = tell_guides(alloc, given.guides.as_slice())?;
    let ToldCounters { line, rows } = tell_counters(alloc, &given.counters)?;
    let ToldSetup {
        line: of_setup,
        counters,
    } = tell_setup(alloc, &given.setup, guides, rows)?;
    let mut told = lines;
    push_some(&mut told, of_setup)?;
    push_some(&mut told, with_told(line, counters))?;
    Ok(told)
}
