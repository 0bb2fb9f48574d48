ghost use Rattle.std.specs.Prelude.{◌≡◌, ◌++◌, [], IfOk, OnOk, codes};
ghost use Rattle.night_page.specs.Page as page;
ghost use Rattle.night_page.specs.Record as shown;
ghost use Rattle.night_page.specs.Tags.{tagged};

use crate::page::NightPage;
use crate::rows::words_of;
use crate::tags::append_tagged;
use hub_kinds::NoMemory;
use std::alloc::Global;

/// Date and time of day, of CCYYMMDDHHMM.
pub(crate) fn moment_words(alloc: Global, moment: &[u8]) -> Result<Vec<u8>, NoMemory>
    ensures { IfOk result (λ words. words.items ≡ shown.moment_words moment.now) }
{
    if moment.len() == 12 {
        words_of(
            alloc,
            &[
                &moment[0..4],
                b"-",
                &moment[4..6],
                b"-",
                &moment[6..8],
                b" ",
                &moment[8..10],
                b":",
                &moment[10..12],
            ],
        )
    } else {
        Ok(Vec::from_slice(alloc, moment)?)
    }
}

fn append_moment(alloc: Global, out: &mut Vec<u8>, moment: &[u8]) -> Result<(), NoMemory>
    ensures { OnOk result (out.new.items ≡ out.old.items ++ tagged [] (shown.moment_words moment.now) (codes "; ")) }
{
    let words = moment_words(alloc, moment)?;
    append_tagged(alloc, out, b"", words.as_slice(), b"; ")
}

/// Appends the night's name, its moment and the last line of its report.
pub(crate) fn append_title(
    alloc: Global,
    out: &mut Vec<u8>,
    night: &NightPage<'_>,
) -> Result<(), NoMemory>
    ensures { OnOk result (out.new.items ≡ out.old.items ++ page.title_part (page.value_of night.now)) }
{
    append_tagged(
        alloc,
        out,
        b"<title>Night ",
        night.night,
        b"</title>\n</head>\n<body>\n<h1>Night ",
    )?;
    append_tagged(alloc, out, b"", night.night, b"</h1>\n<p>")?;
    append_moment(alloc, out, night.moment)?;
    append_tagged(alloc, out, b"", night.total, b"</p>\n")
}
