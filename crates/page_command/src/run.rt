ghost use Rattle.std.specs.Prelude.{◌≡◌, ◌≢◌, ◌≤◌, ◌++◌, [], None, Some, IfErr, IfOk, OnOk, map};
ghost use Rattle.guide_tree.specs.Words.{guide_of};
ghost use Rattle.guide_samples.specs.Samples.{IsSample};
ghost use Rattle.guide_names.specs.Names.{no_words};
ghost use Rattle.names_file.specs.Warnings.{warnings};
ghost use Rattle.page_command.specs.CommandLine.{IsCommandLine, names_given, names_of};
ghost use Rattle.page_command.specs.Failure.{CantWrite, IsStatus};
ghost use Rattle.page_command.specs.Outcome.{IsBefore, IsJudged, IsNamedPage, IsPage, IsPageAt, IsPageOf, IsRefusal};
ghost use Rattle.page_command.specs.Outcome.{IsRefusedFile, IsRun, IsUnmade, IsUnnamed, refused_line};
ghost use Rattle.page_command.specs.declared.failure.Failure.TheVariants as kind;

use crate::command::{Asked, PROGRAM, Paths, read_words};
use crate::failure::Failure;
use crate::folder::put_samples;
use crate::page::page_of;
use check_command::{Judged, judge_guide, read_file};
use file_names::append_shown;
use guide_names::Names;
use guide_samples::complete;
use guide_tree::Guide;
use hub_kinds::{Items, NoMemory, Text};
use names_file::{JudgedNames, warning_lines};
use names_given::names_at;
use program_frame::print_out;
use std::alloc::Global;
use std::convert::AsStr;
use std::io::Write;
use std::rt::Files;
use system_io::{Directory, print_text};

/// A page, and the lines that warn of its names file.
#[derive(Drop)]
struct Made {
    text: Vec<u8>,
    warnings: Vec<u8>,
}

/// Runs the program on its arguments, without its name, and gives its exit status: 0 if it has printed the page of the guide, or a text
/// that was asked for; otherwise that of the failure whose line it has printed on `err`.
pub fn page_main<R, S, O, E>(rt: &R, words: &[S], out: &mut O, err: &mut E) -> u8
where
    R: Files + AllocGlobal,
    S: AsStr,
    O: Write,
    E: Write,
    ensures status { IsStatus result }
    ensures silent { 1 ≤ result → result ≢ 5 → out.new ≡ out.old }
    ensures quiet { result ≡ 0 → names_given (map S.text words.now) ≡ None → err.new ≡ err.old }
    ensures usage { result ≡ 2 → IsCommandLine (map S.text words.now) → ⊥ }
    ensures refused { result ≡ 3 → IsRefusal (map S.text words.now) }
    ensures printed { result ≡ 0 → IsRun (map S.text words.now) (O.contents out.old) (O.contents out.new) }
{
    match read_words(rt.alloc(), words) {
        Ok(Asked::Page(paths)) => print_page(rt, &paths, out, err),
        Ok(Asked::Show(text)) => print_out(PROGRAM, text.as_bytes(), 0, out, err),
        Err(mistake) => mistake.report(PROGRAM, err).status,
    }
}

/// Prints the page of a guide, after samples are put into a folder, if one is given, and after the warnings of its names file. A fault of
/// standard error changes no status.
fn print_page<R, O, E>(rt: &R, paths: &Paths<'_>, out: &mut O, err: &mut E) -> u8
where
    R: Files + AllocGlobal,
    O: Write,
    E: Write,
    ensures status { IsStatus result }
    ensures words { result ≢ 2 }
    ensures silent { 1 ≤ result → result ≢ 5 → out.new ≡ out.old }
    ensures quiet { result ≡ 0 → names_of paths.now ≡ None → err.new ≡ err.old }
    ensures refused { result ≡ 3 → IsRefusedFile paths.now.guide.now (names_of paths.now) }
    ensures printed { result ≡ 0 → IsPage paths.now.guide.now (names_of paths.now) (O.contents out.old) (O.contents out.new) }
{
    match page_at(rt, paths) {
        Ok(made) => {
            warn(made.warnings.as_slice(), err);
            print_out(PROGRAM, made.text.as_slice(), 0, out, err)
        }
        Err(failure) => failure.report(err).status,
    }
}

/// Prints warnings on standard error, if there are any.
fn warn<E: Write>(warnings: &[u8], err: &mut E)
    ensures { warnings.now ≡ [] → err.new ≡ err.old }
{
    if !warnings.is_empty() {
        let _ = print_text(warnings, err);
    }
}

/// The page of the guide in the file at a path, after samples are put into a folder, if one is given.
fn page_at<R: Files + AllocGlobal>(rt: &R, paths: &Paths<'_>) -> Result<Made, Failure>
    ensures page { IfOk result (λ made. IsPageAt paths.now.guide.now (names_of paths.now) made.text.items) }
    ensures quiet { IfOk result (λ made. names_of paths.now ≡ None → made.warnings.items ≡ []) }
    ensures before { IfErr result (IsBefore paths.now.guide.now (names_of paths.now)) }
{
    match guide_at(rt, paths.guide)? {
        Judged::Refused(text) => Err(refusal(rt.alloc(), paths.guide, text.as_slice())?),
        Judged::Taken(guide) => page_with_names(rt, &guide, paths),
    }
}

/// The page of a guide with the words of a names file, if one is given.
fn page_with_names<R: Files + AllocGlobal>(
    rt: &R,
    guide: &Guide,
    paths: &Paths<'_>,
) -> Result<Made, Failure>
    ensures page { IfOk result (λ made. IsNamedPage (names_of paths.now) (guide_of guide.now) made.text.items) }
    ensures quiet { IfOk result (λ made. names_of paths.now ≡ None → made.warnings.items ≡ []) }
    ensures before { IfErr result (IsUnnamed (names_of paths.now)) }
{
    match paths.names {
        None => page_without_names(rt, guide, paths.samples),
        Some(path) => page_with_file(rt, guide, path, paths.samples),
    }
}

fn page_without_names<R: Files + AllocGlobal>(
    rt: &R,
    guide: &Guide,
    folder: Option<&str>,
) -> Result<Made, Failure>
    ensures page { IfOk result (λ made. IsPageOf no_words (guide_of guide.now) made.text.items) }
    ensures quiet { IfOk result (λ made. made.warnings.items ≡ []) }
    ensures before { IfErr result IsUnmade }
{
    let names = Names::none(rt.alloc());
    let text = page_with_samples(rt, guide, &names, folder)?;
    Ok(Made {
        text,
        warnings: Vec::new(rt.alloc()),
    })
}

/// The page of a guide with the words of the names file at `path`, and the file's warnings.
fn page_with_file<R: Files + AllocGlobal>(
    rt: &R,
    guide: &Guide,
    path: &str,
    folder: Option<&str>,
) -> Result<Made, Failure>
    ensures page { IfOk result (λ made. IsNamedPage (Some path.now) (guide_of guide.now) made.text.items) }
    ensures before { IfErr result (IsUnnamed (Some path.now)) }
{
    match names_at(rt, path)? {
        JudgedNames::Refused(text) => Err(names_refusal(rt.alloc(), path, text.as_slice())?),
        JudgedNames::Taken(names) => page_with_words(rt, guide, &names, path, folder),
    }
}

/// The page of a guide with the words of `names`, which are those of the file at `path`, and the file's warnings.
fn page_with_words<R: Files + AllocGlobal>(
    rt: &R,
    guide: &Guide,
    names: &Names,
    path: &str,
    folder: Option<&str>,
) -> Result<Made, Failure>
    ensures page { IfOk result (λ made. IsPageOf names.now (guide_of guide.now) made.text.items) }
    ensures warned { IfOk result (λ made. made.warnings.items ≡ warnings (guide_of guide.now) names.now path.now) }
    ensures before { IfErr result IsUnmade }
{
    let warnings = warning_lines(rt.alloc(), guide.rows(), names, path.as_bytes())?;
    let text = page_with_samples(rt, guide, names, folder)?;
    Ok(Made { text, warnings })
}

/// The page of a guide, after samples are put into a folder, if one is given.
fn page_with_samples<R: Files + AllocGlobal>(
    rt: &R,
    guide: &Guide,
    names: &Names,
    folder: Option<&str>,
) -> Result<Vec<u8>, Failure>
    ensures page { IfOk result (λ text. IsPageOf names.now (guide_of guide.now) text.items) }
    ensures before { IfErr result IsUnmade }
{
    let Some(sample) = complete(rt.alloc(), guide)? else {
        return Err(Failure::NoSample);
    };
    write_samples(rt, guide, sample.as_slice(), folder)?;
    Ok(page_of(rt.alloc(), guide, names, sample.as_slice())?)
}

/// Makes a folder at a path, if one is given, and puts samples of a guide there.
fn write_samples<R: Files + AllocGlobal>(
    rt: &R,
    guide: &Guide,
    sample: &[u8],
    folder: Option<&str>,
) -> Result<(), Failure>
    requires { IsSample (guide_of guide.now) sample.now }
    ensures { IfErr result CantWrite }
{
    let Some(path) = folder else {
        return Ok(());
    };
    if rt.create_dir(path).is_err() {
        return Err(Failure::of_output(rt.alloc(), path.as_bytes())?);
    }
    put_samples(rt.alloc(), guide, sample, &mut Directory::at(rt, path))
}

/// The guide that the file at `path` writes, or why it is refused.
fn guide_at<R: Files + AllocGlobal>(rt: &R, path: &str) -> Result<Judged<Guide>, NoMemory>
    ensures { IfOk result (IsJudged path.now) }
{
    let file = read_file(rt, path)?;
    judge_guide(rt.alloc(), &file.bytes)
}

fn append(out: &mut Vec<u8>, text: &[u8]) -> Result<(), NoMemory>
    ensures { OnOk result (out.new.items ≡ out.old.items ++ text.now) }
{
    out.extend_from_slice(text)?;
    Ok(())
}

/// The failure of a guide at a path that is refused in these words.
fn refusal(alloc: Global, path: &str, text: &[u8]) -> Result<Failure, NoMemory>
    ensures { IfOk result (λ failure. failure ≡ kind.Guide (refused_line path.now text.now)) }
{
    Ok(Failure::Guide(refused_line(alloc, path, text)?))
}

/// The failure of a names file at a path that is refused in these words.
fn names_refusal(alloc: Global, path: &str, text: &[u8]) -> Result<Failure, NoMemory>
    ensures { IfOk result (λ failure. failure ≡ kind.Names (refused_line path.now text.now)) }
{
    Ok(Failure::Names(refused_line(alloc, path, text)?))
}

/// The line of a file at a path that is refused in these words.
fn refused_line(alloc: Global, path: &str, text: &[u8]) -> Result<Text, NoMemory>
    ensures { IfOk result (λ line. line ≡ refused_line path.now text.now) }
{
    let mut line = Vec::new(alloc);
    append(&mut line, b"nighthub_page: ")?;
    append_shown(&mut line, path.as_bytes())?;
    append(&mut line, b": ")?;
    append_shown(&mut line, text)?;
    append(&mut line, b"\n")?;
    Ok(Items::from_vec(line))
}
