ghost use Rattle.std.specs.Prelude.{◌≡◌, ◌≤◌, IfErr, IfOk, if◌then◌else◌, length};
ghost use Rattle.hub_kinds.specs.declared.limits.TheConstants.{LONGEST_TEXT};
ghost use Rattle.hub_tonight.specs.Files.{next_rows};
ghost use Rattle.hub_tonight.specs.Made.{IsOfRun};
ghost use Rattle.night_command.specs.CommandLine.{CanShare};
ghost use Rattle.night_command.specs.Outcome.{last_line};
ghost use Rattle.night_definition.specs.ReadBack as defined;
ghost use Rattle.night_equal_read.specs.Read.{seen_night};
ghost use Rattle.night_equal_text.specs.LookedUp.{seen_setup};
ghost use Rattle.night_report.specs.Clean.{is_clean};
ghost use Rattle.set_documents.specs.Given.{usual};
ghost use Rattle.track_definition.specs.Rows.{table_of};

use crate::call::Call;
use crate::stopped::Stopped;
use cut_plan::Cuts;
use hub_kinds::{Counters, Items, NoMemory, Text, copy_text};
use hub_run::{Night, OpenGate, run_night};
use night_command::{Outcome, finish};
use night_record::AddressNext;
use partner_setup::{Partner, Setup};
use set_documents::{Document, documents_given};
use std::alloc::Global;
use std::sync::Wait;
use std::thread::Threads;
use std::time::Clock;
use track_equal::tracks_are_one;
use track_table::track_plain;

/// The night of the input of `call` by `setup`.
pub(crate) fn night_by<R>(
    rt: &R,
    alloc: Global,
    call: &Call<'_>,
    setup: &Setup,
) -> Result<Night, Stopped>
where
    R: Threads + Wait + Clock + Sync,
    requires few { length call.now.input.now ≤ LONGEST_TEXT }
    requires sharing { CanShare call.now.sharing }
    ensures night { IfOk result (λ night. defined.IsNight call.now.input.now (seen_setup setup.now) call.now.at.now (seen_night night)) }
    ensures stopped { IfErr result IsOfRun }
{
    let input = call.input;
    let sharing = call.sharing;
    let cuts = Cuts::every(alloc, input.len(), sharing.piece as usize)?;
    let night = run_night(
        rt,
        alloc,
        input,
        setup,
        call.at,
        sharing.workers,
        &cuts,
        &OpenGate,
    )?;
    Ok(night)
}

/// The elements that are shown as numbers of documents if none are named.
fn usual_documents(alloc: Global) -> Result<Vec<Document<'static>>, NoMemory>
    ensures { IfOk result (λ documents. documents.items ≡ usual) }
{
    match documents_given(alloc, None)? {
        Some(documents) => Ok(documents),
        // only texts can be mistaken
        None => Err(NoMemory),
    }
}

/// The table of where each set of the night of `input` is.
pub(crate) fn track_of(alloc: Global, input: &[u8], setup: &Setup) -> Result<Text, NoMemory>
    requires { length input.now ≤ LONGEST_TEXT }
    ensures { IfOk result (λ table. table ≡ table_of input.now (seen_setup setup.now) usual) }
{
    tracks_are_one();
    let documents = usual_documents(alloc)?;
    let track = track_plain(alloc, input, setup, documents.as_slice())?;
    Ok(track.table)
}

/// What comes next for the address of each partner.
pub(crate) fn next_rows(
    alloc: Global,
    partners: &[Partner],
    next: &[Counters],
) -> Result<Vec<AddressNext>, NoMemory>
    requires { length next.now ≡ length partners.now }
    ensures { IfOk result (λ list. list.items ≡ next_rows partners.now next.now) }
{
    let mut list = Vec::new(alloc);
    for i in 0..partners.len() {
        let partner = &partners[i];
        list.push(AddressNext {
            qualifier: copy_text(alloc, partner.qualifier.as_slice())?,
            id: copy_text(alloc, partner.id.as_slice())?,
            next: next[i],
        })?;
    }
    Ok(list)
}

/// What `nighthub` prints of a night, and its status.
#[derive(Drop)]
pub(crate) struct Total {
    pub(crate) line: Text,
    pub(crate) status: u8,
}

/// The last line of the report of a night, and the night's status.
pub(crate) fn total_of(alloc: Global, night: Night) -> Result<Total, NoMemory>
    ensures line { IfOk result (λ total. total.line ≡ last_line night.report) }
    ensures status { IfOk result (λ total. total.status ≡ (if is_clean night.report then 0 else 1)) }
{
    let mut line = Vec::new(alloc);
    let mut failure = Vec::new(alloc);
    let status = finish(&Outcome::Ran(night), &mut line, &mut failure);
    // a list takes each byte, unless memory is refused
    if status == 5 {
        return Err(NoMemory);
    }
    Ok(Total {
        line: Items::from_vec(line),
        status,
    })
}
