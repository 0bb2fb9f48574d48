ghost use Rattle.std.specs.Prelude.{◌≡◌, ◌++◌, ◌∷◌, [], OnOk, IfOk, IsPermutation, decimal, map};
ghost use Rattle.std.specs.List.{count_by, flat_map};
ghost use Rattle.ack_lines.specs.Lines as lines;
ghost use Rattle.ack_lines.specs.Reported.{reported_of, told_of};
ghost use Rattle.ack_lines.specs.Shown.{filled};

use crate::lines::{append_reported, is_accepted};
use crate::notes::append_note_lines;
use crate::reported::{Reported, reported_of};
use crate::sentences::{TOTAL_SETS, TOTALS};
use crate::shown::append_two;
use ack_read::Told;
use guide_names::Names;
use hub_kinds::{Lent, NoMemory};
use itoa::Buffer;
use std::alloc::Global;

/// The lines that say in words what is reported: one for each TA1, for each group and set that isn't accepted one a fault, and a last one
/// of totals. A group that is rejected comes before its sets, none of which is accepted. The lines are printable ASCII, each ends with LF,
/// and no text of the acknowledgment is shown longer than 99 bytes, so that their length follows that of what is reported.
pub fn explanation<'a>(alloc: Global, found: Vec<Told<'a>>) -> Result<Vec<u8>, NoMemory>
    ensures lines { IfOk result (λ text. text.items ≡ lines.explanation found.entry.items) }
    ensures once { IsPermutation found.entry.items (map told_of (reported_of found.entry.items)) }
{
    let names = Names::none(alloc);
    named_explanation(alloc, &names, found)
}

/// The lines that `explanation` gives, with the name of each segment and element that has one in `names`. A name is shown as a text of the
/// acknowledgment is.
#[tactic(auto, using(crate::proofs::Once::once))]
pub fn named_explanation<'a>(
    alloc: Global,
    names: &Names,
    found: Vec<Told<'a>>,
) -> Result<Vec<u8>, NoMemory>
    ensures lines { IfOk result (λ text. text.items ≡ lines.named_explanation names.now found.entry.items) }
    ensures once { IsPermutation found.entry.items (map told_of (reported_of found.entry.items)) }
{
    let all = reported_of(alloc, found)?;
    let mut out = Vec::new(alloc);
    append_each(alloc, &mut out, names, all.as_slice())?;
    append_totals(&mut out, all.as_slice())?;
    Ok(out)
}

fn append_each(
    alloc: Global,
    out: &mut Vec<u8>,
    names: &Names,
    all: &[Reported<'_>],
) -> Result<(), NoMemory>
    ensures { OnOk result (out.new.items ≡ out.old.items ++ lines.lines_behind names.now lines.none_asked all.now) }
{
    let mut left = all;
    let mut asked = (0, Lent::new(b""));
    while let [one, behind @ ..] = left {
        let sender: &[u8] = if asked.0 == interchange_of(one) {
            asked.1.bytes()
        } else {
            b""
        };
        append_reported(alloc, out, names, sender, one)?;
        if let Reported::OfInterchange(ta1) = one {
            asked = (ta1.interchange, Lent::new(ta1.control.bytes()));
        }
        left = behind;
    }
    Ok(())
}

fn interchange_of(one: &Reported<'_>) -> u64
    ensures { result ≡ lines.interchange_of one.now }
{
    match one {
        Reported::OfInterchange(ta1) => ta1.interchange,
        Reported::OfGroup(group) => group.interchange,
        Reported::OfSet(set, _) => set.interchange,
    }
}

/// Whether a set is accepted, with or without errors, and its group isn't rejected.
fn is_accepted_set(one: &Reported<'_>) -> bool
    ensures { result ≡ lines.is_accepted_set one.now }
{
    match one {
        Reported::OfSet(set, falls) => !*falls
            && (is_accepted(set.code.bytes()) || set.code.bytes() == b"E".as_slice()),
        _ => false,
    }
}

fn ta1_count(all: &[Reported<'_>]) -> usize
    ensures { result ≡ count_by lines.is_ta1 all.now }
{
    all.iter()
        .filter(|one| matches!(one, Reported::OfInterchange(_)))
        .count()
}

fn group_count(all: &[Reported<'_>]) -> usize
    ensures { result ≡ count_by lines.is_group all.now }
{
    all.iter()
        .filter(|one| matches!(one, Reported::OfGroup(_)))
        .count()
}

fn set_count(all: &[Reported<'_>]) -> usize
    ensures { result ≡ count_by lines.is_set all.now }
{
    all.iter()
        .filter(|one| matches!(one, Reported::OfSet(_, _)))
        .count()
}

fn accepted_count(all: &[Reported<'_>]) -> usize
    ensures { result ≡ count_by lines.is_accepted_set all.now }
{
    all.iter().filter(|one| is_accepted_set(one)).count()
}

/// Appends `sentence` to `out` with two numbers for its two `_`.
fn append_numbers(
    out: &mut Vec<u8>,
    sentence: &str,
    first: usize,
    second: usize,
) -> Result<(), NoMemory>
    ensures { OnOk result (out.new.items ≡ out.old.items ++ filled sentence.now (decimal first ∷ decimal second ∷ [])) }
{
    let mut digits = (Buffer::new(), Buffer::new());
    let first = digits.0.format(first as u64).as_bytes();
    append_two(
        out,
        sentence,
        first,
        digits.1.format(second as u64).as_bytes(),
    )
}

/// Appends the line of totals of `all` to `out`.
fn append_totals(out: &mut Vec<u8>, all: &[Reported<'_>]) -> Result<(), NoMemory>
    ensures { OnOk result (out.new.items ≡ out.old.items ++ lines.total_line all.now) }
{
    append_numbers(out, TOTALS, ta1_count(all), group_count(all))?;
    append_numbers(out, TOTAL_SETS, set_count(all), accepted_count(all))
}

/// Writes what the notes on a set say.
fn append_faults(out: &mut Vec<u8>, names: &Names, one: &Told<'_>) -> Result<(), NoMemory>
    ensures { OnOk result (out.new.items ≡ out.old.items ++ lines.faults_said names.now one.now) }
{
    match one {
        Told::OfSet(set) => append_note_lines(out, names, b"", set.notes.as_slice()),
        Told::OfInterchange(_) | Told::OfGroup(_) => Ok(()),
    }
}

fn append_fault_lines(out: &mut Vec<u8>, names: &Names, found: &[Told<'_>]) -> Result<(), NoMemory>
    ensures { OnOk result (out.new.items ≡ out.old.items ++ flat_map (lines.faults_said names.now) found.now) }
{
    for one in found {
        append_faults(out, names, one)?;
    }
    Ok(())
}

/// The lines on the segments and elements of sets among what `found` reports, in its order: one for each IK4, and one for each IK3 that no
/// IK4 follows, with the names that `names` has. Each ends with LF. The only error is out of memory.
pub fn fault_lines(alloc: Global, names: &Names, found: &[Told<'_>]) -> Result<Vec<u8>, NoMemory>
    ensures { IfOk result (λ text. text.items ≡ lines.fault_lines names.now found.now) }
{
    let mut out = Vec::new(alloc);
    append_fault_lines(&mut out, names, found)?;
    Ok(out)
}
