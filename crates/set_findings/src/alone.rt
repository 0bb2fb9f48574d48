ghost use Rattle.std.specs.Prelude.{◌≡◌, ◌++◌, ℕ, List, IfOk, OnOk};
ghost use Rattle.number_register.specs.SeenNumbers.{HaveSeen};
ghost use Rattle.set_answers.specs.Settled.{faults_with, kept_keys, senders_of};
ghost use Rattle.set_findings.specs.Alone.{index_alone};

use env_index::Index;
use hub_kinds::{InterchangeFault, NoMemory};
use number_register::Seen;
use partner_setup::Setup;
use set_answers::{FaultsAlone, faults_alone, faults_behind};
use std::alloc::Global;

/// The senders and the faults 1 to 9 of the interchanges of a text, and the numbers that are seen after it.
#[derive(Drop)]
pub struct SettledFaults {
    /// The sender of each, in their order, as its place in the setup, or none if no partner is the sender.
    pub senders: Vec<Option<usize>>,
    /// The least fault of each, in their order.
    pub faults: Vec<Option<InterchangeFault>>,
    /// The numbers that were seen before, and those of the interchanges that have none of the faults 1 to 8.
    pub numbers: Seen,
}

/// Settles an `index` whose faults 1 to 7 are known with the faults 1 to 8, by the partners of the `setup`. Gives the senders, each looked
/// up once, and the faults 1 to 9, by the numbers that were `seen` before. X12.5, interchange sender, receiver and control number; the
/// faults' numbers are own. The only error is to be out of memory, which leaves no numbers.
pub fn settle_after(
    alloc: Global,
    setup: &Setup,
    seen: Seen,
    index: &mut Index<'_>,
) -> Result<SettledFaults, NoMemory>
    ensures index { OnOk result (index.new ≡ index_alone setup.now index.old) }
    ensures senders { IfOk result (λ settled. settled.senders.items ≡ senders_of setup.now index.old.entries) }
    ensures faults { IfOk result (λ settled. (before : List (List ℕ)) → HaveSeen seen before
        → settled.faults.items ≡ faults_with setup.now before index.old.entries) }
    ensures numbers { IfOk result (λ settled. (before : List (List ℕ)) → HaveSeen seen before
        → HaveSeen settled.numbers (before ++ kept_keys setup.now index.old.entries)) }
{
    let mut numbers = seen;
    let FaultsAlone {
        senders,
        faults: alone,
    } = faults_alone(alloc, setup, index)?;
    let faults = faults_behind(alloc, alone.as_slice(), &numbers, index)?;
    index.settle(alone.as_slice());
    numbers.add(index)?;
    Ok(SettledFaults {
        senders,
        faults,
        numbers,
    })
}
