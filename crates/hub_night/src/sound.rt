ghost use Rattle.std.specs.Prelude.{◌≡◌, ◌++◌, ◌∷◌, [], IfErr, IfOk, OnOk};
ghost use Rattle.night_review.specs.GoingOn.{GoOn};
ghost use Rattle.hub_folder.specs.Failure.{IsBefore};
ghost use Rattle.hub_folder.specs.Older.{map_now};

use hub_folder::Failure;
use hub_kinds::{Items, NoMemory};
use hub_ledger::NightEntry;
use night_marks::{BadFile, NightMark};
use night_review::judged;
use std::alloc::Global;

/// The nights `order`, and the night `mark` after them.
fn with_mark<'a>(
    alloc: Global,
    order: &[&'a NightMark],
    mark: &'a NightMark,
) -> Result<Vec<&'a NightMark>, NoMemory>
    ensures { IfOk result (λ all. map_now all.items ≡ map_now order.entry.now ++ mark.entry.now ∷ []) }
{
    let mut all = Vec::from_slice(alloc, order)?;
    all.push(mark)?;
    Ok(all)
}

fn with_entry(entries: Items<NightEntry>, entry: NightEntry) -> Result<Vec<NightEntry>, NoMemory>
    ensures { IfOk result (λ all. all.items ≡ entries ++ entry ∷ []) }
{
    let mut all = entries.into_vec();
    all.push(entry)?;
    Ok(all)
}

/// Sees to it that all nights continue: those of `order`, of which `entries` and `bad` were read, and after them the night `mark`, of which
/// `entry` is kept. No moment may be after `limit`.
pub(crate) fn check_sound(
    alloc: Global,
    order: &[&NightMark],
    mark: &NightMark,
    entries: Items<NightEntry>,
    entry: NightEntry,
    bad: &[BadFile],
    limit: &[u8],
) -> Result<(), Failure>
    ensures sound { OnOk result (GoOn limit.now mark.now.name (map_now order.now ++ mark.now ∷ []) (entries ++ entry ∷ []) bad.now) }
    ensures before { IfErr result IsBefore }
{
    let order = with_mark(alloc, order, mark)?;
    let entries = with_entry(entries, entry)?;
    let report = judged(
        alloc,
        order.as_slice(),
        entries.as_slice(),
        bad,
        limit,
        mark.name.as_slice(),
    )?;
    if report.status == 0 {
        Ok(())
    } else {
        Err(Failure::NotSound(Items::from_vec(report.text)))
    }
}
