ghost use Rattle.std.specs.Prelude.{◌≡◌, IfOk, length};
ghost use Rattle.std.specs.List.{All};
ghost use Rattle.env_index.specs.Words.{HasSpans};
ghost use Rattle.set_answers.specs.FoundRows.{AreFoundRows};
ghost use Rattle.night_batches.specs.Night.{IsNightIn};
ghost use Rattle.night_batches.specs.Writing.{HasRoomFor, IsBatchWritten, nothing_written};

use env_index::Index;
use hub_kinds::NoMemory;
use mailbox::Writers;
use moment::At;
use night_batches::{Night, Writing};
use night_report::LineWriters;
use partner_setup::Setup;
use set_answers::{FoundRows, ReportWriters};
use std::alloc::Global;

/// Nothing yet, with room for the one batch of this index.
fn nothing_before<'a>(
    alloc: Global,
    setup: &'a Setup,
    _at: &At,
    index: &Index<'a>,
) -> Result<Writing, NoMemory>
    ensures nothing { IfOk result (λ w. w ≡ nothing_written setup.now) }
    ensures room { IfOk result (HasRoomFor setup.now _at.now (length index.now.entries) index.now.outside) }
{
    // as many as can be counted: there is room for them
    let _interchanges = index.interchanges();
    let _outside = index.outside();
    Writing::new(alloc, setup)
}

/// The night of the one batch that is written.
fn close_one(
    alloc: Global,
    setup: &Setup,
    at: &At,
    _index: &Index<'_>,
    written: Writing,
) -> Result<Night, NoMemory>
    requires { IsBatchWritten _index.now.text setup.now at.now 0 _index.now.entries _index.now.outside (nothing_written setup.now) written }
    ensures { IfOk result (IsNightIn _index.now setup.now at.now) }
{
    let night = written.close(alloc, setup, at)?;
    Ok(night)
}

/// The night of a text by its settled index: one batch, and a close.
pub(crate) fn write_night<'a>(
    alloc: Global,
    setup: &'a Setup,
    at: &At,
    index: &Index<'a>,
) -> Result<Night, NoMemory>
    requires { All (λ e. HasSpans index.now.text e.interchange) index.now.entries }
    ensures { IfOk result (IsNightIn index.now setup.now at.now) }
{
    let nothing = nothing_before(alloc, setup, at, index)?;
    let written = nothing.add_batch(alloc, setup, at, 0, index)?;
    close_one(alloc, setup, at, index, written)
}

/// Writes by what was `found` out about the interchanges of the `index` and about their places.
pub(crate) fn write_found<'a, W: Writers + ReportWriters + LineWriters>(
    alloc: Global,
    writers: &W,
    setup: &'a Setup,
    at: &At,
    index: &Index<'a>,
    found: FoundRows<'a>,
) -> Result<Night, NoMemory>
    requires ready { W.is_ready writers.now }
    requires reports { W.can_report writers.now }
    requires lines { W.can_tell writers.now }
    requires spans { All (λ e. HasSpans index.now.text e.interchange) index.now.entries }
    requires found { AreFoundRows index.now.text setup.now index.now.entries found }
    ensures { IfOk result (IsNightIn index.now setup.now at.now) }
{
    let nothing = nothing_before(alloc, setup, at, index)?;
    let written = nothing.add_found(alloc, writers, setup, at, 0, index, found)?;
    close_one(alloc, setup, at, index, written)
}
