ghost use Rattle.archived_nights.specs.Archived.{ArchiveGoesOn};
ghost use Rattle.archived_nights.specs.Files.{ArchiveReadsBack};
ghost use Rattle.night_record.specs.Laws.{AddressesReadBack, AgainReadsBack};

use night_record::{addresses_read_back, again_reads_back};

/// What is read of the two tables of an archive is what was written.
fn tables_read_back()
    ensures delivered { AgainReadsBack }
    ensures addresses { AddressesReadBack }
{
    again_reads_back();
    addresses_read_back();
}

/// What is read of the files of an archive is its entry.
pub fn archive_reads_back()
    ensures { ArchiveReadsBack }
{
    tables_read_back();
}

/// Nights continue after nights that are archived exactly if they continue after the one entry of these.
pub fn archive_goes_on()
    ensures { ArchiveGoesOn }
{}
