ghost use Rattle.std.specs.Prelude.{◌≡◌, ◌≢◌, ◌≤◌, IfErr, IfOk, map, option_map};
ghost use Rattle.learn_command.specs.CommandLine.{IsCommandLine};
ghost use Rattle.learn_command.specs.Failure.{IsStatus};
ghost use Rattle.learn_command.specs.Outcome.{IsBefore, IsLearned, IsPrinted, IsRefusal, IsRun, IsSomeRefused};

use crate::command::{Asked, Options, PROGRAM, read_words};
use crate::failure::Failure;
use crate::files::{known_guides, read_files};
use crate::judged::{asks_for_some, judged};
use crate::proposed::proposed;
use hub_kinds::Text;
use program_frame::print_out;
use std::convert::AsStr;
use std::io::Write;
use std::rt::Files;

/// Runs the program on its arguments, without its name, and gives its exit status: 0 if it has printed a guide that takes each sample file,
/// or a text that was asked for; otherwise that of the failure whose line it has printed on `err`.
pub fn learn_main<R, S, O, E>(rt: &R, words: &[S], out: &mut O, err: &mut E) -> u8
where
    R: Files + AllocGlobal,
    S: AsStr,
    O: Write,
    E: Write,
    ensures status { IsStatus result }
    ensures silent { 1 ≤ result → result ≢ 5 → out.new ≡ out.old }
    ensures quiet { result ≡ 0 → err.new ≡ err.old }
    ensures usage { result ≡ 2 → IsCommandLine (map S.text words.now) → ⊥ }
    ensures refused { result ≡ 3 → IsRefusal (map S.text words.now) }
    ensures printed { result ≡ 0 → IsRun (map S.text words.now) (O.contents out.old) (O.contents out.new) }
{
    match read_words(rt.alloc(), words) {
        Ok(Asked::Learn(options)) => print_guide(rt, &options, out, err),
        Ok(Asked::Show(text)) => print_out(PROGRAM, text.as_bytes(), 0, out, err),
        Err(mistake) => mistake.report(PROGRAM, err).status,
    }
}

/// Prints a guide for the files that `options` name.
#[tactic(auto, using(crate::proofs::Learning::of_known))]
fn print_guide<R, O, E>(rt: &R, options: &Options, out: &mut O, err: &mut E) -> u8
where
    R: Files + AllocGlobal,
    O: Write,
    E: Write,
    ensures status { IsStatus result }
    ensures words { result ≢ 2 }
    ensures silent { 1 ≤ result → result ≢ 5 → out.new ≡ out.old }
    ensures quiet { result ≡ 0 → err.new ≡ err.old }
    ensures refused { result ≡ 3 → IsSomeRefused (map (λ p. p.now) options.now.known.items) }
    ensures printed { result ≡ 0 → IsPrinted options.now (O.contents out.old) (O.contents out.new) }
{
    match learned(rt, options) {
        Ok(text) => print_out(PROGRAM, text.as_slice(), 0, out, err),
        Err(failure) => failure.report(err).status,
    }
}

/// The text of a guide that takes each of the files that `options` name.
#[tactic(auto, using(crate::proofs::Learning::before))]
fn learned<R: Files + AllocGlobal>(rt: &R, options: &Options) -> Result<Text, Failure>
    ensures learned { IfOk result (λ text.
        IsLearned (map (λ p. p.now) options.now.files.items) (option_map (λ s. s.now) options.now.st01) text) }
    ensures before { IfErr result (IsBefore (map (λ p. p.now) options.now.known.items)) }
{
    let known = known_guides(rt, options.known.as_slice())?;
    let files = read_files(rt, options.files.as_slice())?;
    let st01 = bytes_of(options.st01);
    let text = proposed(rt.alloc(), files.as_slice(), st01, known.as_slice())?;
    asks_for_some(rt.alloc(), files.as_slice(), st01)?;
    judged(rt.alloc(), text, files.as_slice(), st01)
}

/// The bytes of `text`, if there is one.
fn bytes_of(text: Option<&str>) -> Option<&[u8]>
    ensures { option_map (λ t. t.now) result ≡ option_map (λ t. t.now) text.entry }
{
    match text {
        None => None,
        Some(text) => Some(text.as_bytes()),
    }
}
