ghost use Rattle.std.specs.Prelude.{◌≡◌, ◌≢◌, ◌≤◌, ◌⊎◌, IfErr, IfOk, IsErrOf, IsOk, Ok, false, map, true};
ghost use Rattle.system_io.specs.Paths.{AsksForNew};
ghost use Rattle.gather_command.specs.CommandLine.{IsCommandLine};
ghost use Rattle.gather_command.specs.Failure.{IsStatus};
ghost use Rattle.gather_command.specs.Outcome.{IsMade, IsOutcome, IsPrinted, NamesOut, paths_of, status_by};

use crate::all::{Gathering, gather_all};
use crate::command::{Asked, Job, PROGRAM, read_words};
use crate::failure::Failure;
use crate::part::PartFile;
use crate::total::{Total, append_total};
use program_frame::print_out;
use std::convert::AsStr;
use std::fs::OpenFile;
use std::io::{ErrorKind, Seek, Write};
use std::rt::Files;
use std::{fs, io};
use system_io::{Absent, Created, Looked, Presence, create_new_at, look_at};

/// Runs the program on these arguments, without its name, and gives its exit status: 0 or 1 where it has made the file and printed a line
/// for each file, or 0 where it printed a text that was asked for; otherwise the status of the failure whose line it has printed on `err`.
pub fn gather_main<R, S, O, E>(rt: &R, words: &[S], out: &mut O, err: &mut E) -> u8
where
    R: Files + AllocGlobal,
    S: AsStr,
    O: Write,
    E: Write,
    ensures status { IsStatus result }
    ensures silent { 2 ≤ result → result ≢ 5 → out.new ≡ out.old }
    ensures quiet { result ≤ 1 → err.new ≡ err.old }
    ensures usage { result ≡ 2 → IsCommandLine (map S.text words.now) → ⊥ }
    ensures input { result ≡ 4 → NamesOut (map S.text words.now) }
    ensures printed { result ≤ 1 → IsOutcome (map S.text words.now) result (O.contents out.old) (O.contents out.new) }
{
    match read_words(rt.alloc(), words) {
        Ok(Asked::Gather(job)) => gather(rt, &job, out, err),
        Ok(Asked::Show(text)) => print_out(PROGRAM, text.as_bytes(), 0, out, err),
        Err(mistake) => mistake.report(PROGRAM, err).status,
    }
}

/// Gathers files, and prints what is said of them.
fn gather<R, O, E>(rt: &R, job: &Job, out: &mut O, err: &mut E) -> u8
where
    R: Files + AllocGlobal,
    O: Write,
    E: Write,
    ensures status { IsStatus result }
    ensures words { result ≢ 2 }
    ensures silent { 2 ≤ result → result ≢ 5 → out.new ≡ out.old }
    ensures quiet { result ≤ 1 → err.new ≡ err.old }
    ensures printed { result ≤ 1 → IsPrinted (paths_of job.now) result (O.contents out.old) (O.contents out.new) }
{
    match made(rt, job) {
        Ok(gathering) => print_out(
            PROGRAM,
            gathering.lines.as_slice(),
            status_by(&gathering.total),
            out,
            err,
        ),
        Err(failure) => failure.report(rt.alloc(), err).status,
    }
}

/// The status of a run that made the file.
fn status_by(total: &Total) -> u8
    ensures value { result ≡ status_by total.now }
    ensures bound { result ≤ 1 }
{
    if total.is_clean() { 0 } else { 1 }
}

/// Makes the file: beside its place first, and there by one rename once all of it is kept.
fn made<'a, R: Files + AllocGlobal>(rt: &R, job: &Job<'a>) -> Result<Gathering, Failure<'a>>
    ensures made { IfOk result (IsMade job.now) }
{
    let absent = absent_by(look_at(rt, job.out), job.out)?;
    let beside = format!(in rt.alloc(); "{}.part", job.out)?;
    let gathering = written(rt, job, absent, beside.as_str())?;
    match put_in_place(rt, beside.as_str(), job.out) {
        Ok(()) => Ok(gathering),
        Err(error) => {
            let _ = rt.remove_file(beside.as_str());
            let _ = rt.remove_file(job.out);
            Err(Failure::of_fault(error, Failure::Output(job.out)))
        }
    }
}

/// The failure where what is written beside the file can't be opened. Nothing that is there is written over.
fn unopened<'a>(kind: ErrorKind, out: &'a str) -> Failure<'a> {
    match kind {
        ErrorKind::AlreadyExists => Failure::PartThere(out),
        _ => Failure::Output(out),
    }
}

/// That nothing is at `path`, if the system says so.
fn absent_by<'a>(looked: Looked<'a>, path: &'a str) -> Result<Absent<'a>, Failure<'a>>
    requires { looked.path ≡ path.now }
    ensures place { IfOk result (λ absent. absent ≡ path.now) }
    ensures free { IfOk result (λ _. looked.entry.answer ≡ Ok false) }
    ensures absent { looked.entry.answer ≡ Ok false → IsOk result }
    ensures there { looked.entry.answer ≡ Ok true → IsErrOf result (Failure.There path.entry) }
{
    match looked.presence() {
        Presence::Nothing(absent) => Ok(absent),
        Presence::Something => Err(Failure::There(path)),
        Presence::Unknown(error) => Err(Failure::of_fault(error, Failure::Output(path))),
    }
}

/// Writes the files to a new one, which goes to the place where nothing is, and asks the system to keep what was written; takes it away
/// where that fails.
fn written<'a, R: Files + AllocGlobal>(
    rt: &R,
    job: &Job<'a>,
    _absent: Absent<'a>,
    beside: &str,
) -> Result<Gathering, Failure<'a>>
    requires { _absent ≡ job.now.out.now }
    ensures made { IfOk result (IsMade job.now) }
{
    let created = match create_new_at(rt, String::from_str(rt.alloc(), beside)?) {
        Ok(created) => created,
        Err(error) => return Err(Failure::of_fault(error, unopened(error.kind(), job.out))),
    };
    match written_to(rt, job, created) {
        Ok(gathering) => Ok(gathering),
        Err(failure) => {
            let _ = rt.remove_file(beside);
            Err(failure)
        }
    }
}

/// Writes the files to a new one.
fn written_to<'a, R: Files + AllocGlobal, F: Write + OpenFile + Seek + Drop>(
    rt: &R,
    job: &Job<'a>,
    created: Created<F>,
) -> Result<Gathering, Failure<'a>>
    requires { AsksForNew created.how }
    ensures made { IfOk result (IsMade job.now) }
{
    let mut file = PartFile::of(created.into_file());
    let mut gathering = gather_all(rt, job.out, job.files.as_slice(), &mut file)?;
    append_total(&mut gathering.lines, &gathering.total)?;
    match file.keep() {
        Ok(()) => Ok(gathering),
        Err(error) => Err(Failure::of_fault(error, Failure::Output(job.out))),
    }
}

/// Renames a file, and asks the system to keep its name in the folder.
fn put_in_place<R: Files>(rt: &R, beside: &str, path: &str) -> io::Result<()> {
    fs::rename(rt, beside, path)?;
    fs::open(rt, folder_of(path))?.sync_all()
}

/// The folder of a path.
fn folder_of(path: &str) -> &str {
    match path.rfind('/') {
        None => ".",
        Some(0) => "/",
        Some(at) => &path[..at],
    }
}
