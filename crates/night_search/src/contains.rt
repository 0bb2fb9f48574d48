ghost use Rattle.std.specs.Prelude.{◌≡◌, is_some};
ghost use Rattle.memchr.specs.Find.{first_of, matches};
ghost use Rattle.csv.specs.Records.{fields_of};
ghost use Rattle.night_search.specs.Search as search;

use csv::ByteRecord;
use csv_fields::columns::DOCUMENT;
use memchr::memmem::find;
use track_read::field;

fn contains(document: &[u8], text: &[u8]) -> bool
    ensures { result ≡ is_some (first_of (matches document.now text.now 0)) }
{
    find(document, text).is_some()
}

/// Whether the document of `row` has `text`.
pub(crate) fn has_text(row: &ByteRecord, text: &[u8]) -> bool
    ensures { result ≡ search.has_text text.now (fields_of row.now) }
{
    contains(field(row, DOCUMENT), text)
}
