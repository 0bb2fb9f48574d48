ghost use Rattle.std.specs.Prelude.{◌≤◌, IfOk, length};
ghost use Rattle.std.specs.List.{All};
ghost use Rattle.env_index.specs.Words.{HasSpans};
ghost use Rattle.hub_kinds.specs.declared.limits.TheConstants.{LONGEST_TEXT};
ghost use Rattle.track_table.specs.Track.{IsTrack, IsTrackIn};

use crate::noted::note_text;
use crate::table::track_text;
use env_index::{Index, index_plain};
use hub_kinds::{NoMemory, Text};
use night_report::{is_clean, report_text};
use partner_setup::Setup;
use set_answers::settled_faults;
use set_documents::Document;
use std::alloc::Global;

/// Where each set of a night is.
#[derive(Debug, Drop)]
pub struct Track {
    /// The table: the names of the fields, and a row for each set and receiver, as comma-separated values (RFC 4180).
    pub table: Text,
    /// Whether the night is clean, by its report.
    pub clean: bool,
}

/// Where each set of a text is, by its settled index.
fn track_index(
    alloc: Global,
    setup: &Setup,
    documents: &[Document<'_>],
    index: &Index<'_>,
) -> Result<Track, NoMemory>
    requires { All (λ e. HasSpans index.now.text e.interchange) index.now.entries }
    ensures { IfOk result (IsTrackIn index.now setup.now documents.now) }
{
    let noted = note_text(alloc, setup, index)?;
    let interchanges = noted.interchanges.as_slice();
    let table = track_text(
        alloc,
        setup,
        documents,
        interchanges,
        noted.notes.as_slice(),
    )?;
    let report = report_text(alloc, setup, interchanges, index.outside())?;
    Ok(Track {
        table,
        clean: is_clean(report.as_slice()),
    })
}

/// Where each set of the night of a text is, by a setup: as comma-separated values (RFC 4180), a row for each set and receiver. X12.5,
/// interchange; X12.6, functional group and transaction set. The only error is out of memory.
pub fn track_plain(
    alloc: Global,
    text: &[u8],
    setup: &Setup,
    documents: &[Document<'_>],
) -> Result<Track, NoMemory>
    requires { length text.now ≤ LONGEST_TEXT }
    ensures { IfOk result (IsTrack text.now setup.now documents.now) }
{
    let mut index = index_plain(alloc, text)?;
    let faults = settled_faults(alloc, setup, &index)?;
    index.settle(faults.as_slice());
    track_index(alloc, setup, documents, &index)
}
