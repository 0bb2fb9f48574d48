ghost use Rattle.std.specs.Prelude.{◌≡◌, ◌++◌, [], ◌∷◌, IfOk, OnOk, OnErr};
ghost use Rattle.count_numbers.specs.Runs.{same_key, together, merged, single, join_runs};

use hub_kinds::{Lent, NoMemory};

/// What the sets of one group have in common.
#[derive(Debug, Drop)]
pub struct RunKey<'a> {
    /// The sender, by its place in the setup.
    pub sender: u32,
    /// GS01.
    pub functional_id: Lent<'a>,
    /// GS08.
    pub version: Lent<'a>,
}

/// Sets that follow each other and go into one group.
#[derive(Debug, Drop)]
pub struct Run<'a> {
    /// What they have in common.
    pub key: RunKey<'a>,
    /// How many they are.
    pub sets: u64,
}

fn same_key(a: &RunKey<'_>, b: &RunKey<'_>) -> bool
    ensures { result ≡ same_key a.now b.now }
{
    a.sender == b.sender
        && a.functional_id.bytes() == b.functional_id.bytes()
        && a.version.bytes() == b.version.bytes()
}

/// A sum of counts, which ends at the greatest that a count can be.
pub(crate) fn together(a: u64, b: u64) -> u64
    ensures { result ≡ together a b }
{
    a.saturating_add(b)
}

/// The run of one set.
pub(crate) fn single(key: RunKey<'_>) -> Run<'_>
    ensures { result ≡ single key.entry }
{
    Run { key, sets: 1 }
}

/// Puts a run after runs: it is one with the last of them where they have one key.
pub(crate) fn push_run<'a>(runs: &mut Vec<Run<'a>>, run: Run<'a>) -> Result<(), NoMemory>
    ensures pushed { OnOk result (runs.new.items ≡ join_runs runs.old.items (run.entry ∷ [])) }
    ensures kept { OnErr result (runs.new.items ≡ runs.old.items) }
{
    let count = runs.as_slice().len();
    if count > 0 && same_key(&runs[count - 1].key, &run.key) {
        let sets = together(runs[count - 1].sets, run.sets);
        runs[count - 1].sets = sets;
        return Ok(());
    }
    runs.push(run)?;
    Ok(())
}

/// Runs after runs.
pub(crate) fn join_runs<'a>(
    mut front: Vec<Run<'a>>,
    mut back: Vec<Run<'a>>,
) -> Result<Vec<Run<'a>>, NoMemory>
    ensures { IfOk result (λ v. v.items ≡ join_runs front.entry.items back.entry.items) }
{
    if back.as_slice().is_empty() {
        return Ok(front);
    }
    let first = back.remove(0);
    push_run(&mut front, first)?;
    front.append(&mut back)?;
    Ok(front)
}
