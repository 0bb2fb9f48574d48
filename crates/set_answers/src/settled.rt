ghost use Rattle.std.specs.Prelude.{◌≡◌, ◌++◌, List, ℕ, None, length, IfOk, OnOk};
ghost use Rattle.std.specs.Cmp.Lexicographic.{slice_cmp};
ghost use Rattle.std.specs.Ordering.{nat_cmp};
ghost use Rattle.partner_setup.specs.Setup.{SetupValue};
ghost use Rattle.set_answers.specs.Seen.{is_among};
ghost use Rattle.number_register.specs.SeenNumbers.{HaveSeen, number_key};
ghost use Rattle.set_answers.specs.Known.{Knows};
ghost use Rattle.set_answers.specs.Settled.{fault_if_earlier, fault_with_sender, faults_alone, faults_with, keys_with, senders_of};
ghost use Rattle.set_answers.specs.Settled.{settled_faults};

use crate::seen::Seen as OwnNumbers;
use env_index::{Index, Interchange};
use hub_kinds::{InterchangeFault, NoMemory};
use number_register::{KEY_LEN, Seen, number_key};
use partner_setup::Setup;
use std::alloc::Global;

/// What is known of the interchanges of an index, each by itself: who sent it, and whether it has a fault that no other one makes.
#[derive(Drop)]
pub struct FaultsAlone {
    /// The sender of each, as its place in the setup, or none if no partner is the sender.
    pub senders: Vec<Option<usize>>,
    /// The least of the faults 1 to 8 of each.
    pub faults: Vec<Option<InterchangeFault>>,
}

/// The sender of each interchange of an `index` whose faults 1 to 7 are known, and the least of its faults 1 to 8: 8 if no partner of the
/// `setup` is the sender. X12.5, interchange sender; the faults' numbers are own. The only error is out of memory.
pub fn faults_alone(
    alloc: Global,
    setup: &Setup,
    index: &Index<'_>,
) -> Result<FaultsAlone, NoMemory>
    ensures senders { IfOk result (λ alone. alone.senders.items ≡ senders_of setup.now index.now.entries) }
    ensures faults { IfOk result (λ alone. alone.faults.items ≡ faults_alone setup.now index.now.entries) }
{
    let mut senders = Vec::new(alloc);
    let mut faults = Vec::new(alloc);
    for entry in index.interchanges() {
        let sender = setup.sender_of(entry.interchange().header());
        senders.push(sender)?;
        faults.push(fault_with_sender(entry.fault(), sender))?;
    }
    Ok(FaultsAlone { senders, faults })
}

/// The least of the faults 1 to 8, by the least of the faults 1 to 7 and the sender.
fn fault_with_sender(
    fault: Option<InterchangeFault>,
    sender: Option<usize>,
) -> Option<InterchangeFault>
    ensures { result ≡ fault_with_sender fault sender }
{
    match (fault, sender) {
        (Some(fault), _) => Some(fault),
        (None, None) => Some(InterchangeFault::SenderUnknown),
        (None, Some(_)) => None,
    }
}

/// The faults of the interchanges of an index whose faults 1 to 7 are known, by the setup's partners: 8 where no partner is
/// the sender, 9 where an earlier interchange without faults 1 to 8 has the same number. X12.5, interchange sender, receiver
/// and control number; the faults' numbers are own. The only error is out of memory.
pub fn settled_faults(
    alloc: Global,
    setup: &Setup,
    index: &Index<'_>,
) -> Result<Vec<Option<InterchangeFault>>, NoMemory>
    ensures { IfOk result (λ v. v.items ≡ settled_faults setup.now index.now.entries) }
{
    let alone = faults_alone(alloc, setup, index)?;
    let faults = faults_behind(alloc, alone.faults.as_slice(), &Seen::new(alloc), index)?;
    Ok(faults)
}

/// The faults 1 to 9 of the interchanges of an `index`, each with its fault `alone`, after earlier interchanges: 9 if it has none of the
/// faults 1 to 8 and its number is among those `seen`, or that of an interchange before it without them. X12.5, interchange control
/// number; the faults' numbers are own. The only error is out of memory.
pub fn faults_behind(
    alloc: Global,
    alone: &[Option<InterchangeFault>],
    seen: &Seen,
    index: &Index<'_>,
) -> Result<Vec<Option<InterchangeFault>>, NoMemory>
    requires { length alone.now ≡ length index.now.entries }
    ensures { IfOk result (λ v. (setup : SetupValue) (before : List (List ℕ)) → alone.now ≡ faults_alone setup index.now.entries
        → HaveSeen seen.now before → v.items ≡ faults_with setup before index.now.entries) }
{
    let entries = index.interchanges();
    let mut own = OwnNumbers::new(alloc);
    let mut faults = Vec::new(alloc);
    for i in 0..entries.len() {
        let fault = alone[i];
        let interchange = entries[i].interchange();
        faults.push(fault_behind(seen, &mut own, fault, interchange)?)?;
    }
    Ok(faults)
}

/// The fault of an interchange after those whose numbers are seen, and those of its text; its number is one of these then, where
/// it has none of faults 1 to 8.
fn fault_behind(
    seen: &Seen,
    own: &mut OwnNumbers<[u8; KEY_LEN]>,
    alone: Option<InterchangeFault>,
    interchange: &Interchange<'_>,
) -> Result<Option<InterchangeFault>, NoMemory>
    ensures fault { IfOk result (λ fault. (before keys : List (List ℕ)) → HaveSeen seen.now before → Knows (slice_cmp nat_cmp) own.old keys
        → fault ≡ fault_if_earlier alone (is_among (number_key interchange.now.header) (before ++ keys))) }
    ensures known { OnOk result ((keys : List (List ℕ)) → Knows (slice_cmp nat_cmp) own.old keys
        → Knows (slice_cmp nat_cmp) own.new (keys_with keys alone (number_key interchange.now.header))) }
{
    if let Some(fault) = alone {
        return Ok(Some(fault));
    }
    let here = own.add(number_key(interchange.header()))?;
    Ok(fault_if_earlier(seen.holds(interchange) | here))
}

/// Fault 9.
fn fault_if_earlier(earlier: bool) -> Option<InterchangeFault>
    ensures { result ≡ fault_if_earlier None earlier }
{
    if earlier {
        Some(InterchangeFault::Duplicate)
    } else {
        None
    }
}
