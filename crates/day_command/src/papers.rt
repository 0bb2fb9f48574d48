ghost use Rattle.std.specs.Prelude.{IfOk};
ghost use Rattle.day_command.specs.Page as page;

use crate::inner::inner_at;
use crate::record::record_at;
use hub_kinds::{NoMemory, Text};
use night_folder::{PaperAt, read_paper};
use night_page::RecordShown;
use std::rt::Files;

/// What the page of a night is made of, beside its table and its acknowledgments.
#[derive(Drop)]
pub(crate) struct PagePapers {
    /// The file of its moment.
    pub(crate) at: PaperAt,
    /// The file of the last line of its report.
    pub(crate) total: PaperAt,
    /// The file on the files of the day.
    pub(crate) files: PaperAt,
    /// The lines on its input.
    pub(crate) inner: Vec<Text>,
    /// What is shown of its record.
    pub(crate) record: Option<RecordShown>,
}

/// Reads what the page of the night in the folder at the path `night` is made of. The only error is out of memory.
pub(crate) fn papers_at<R: Files + AllocGlobal>(
    rt: &R,
    night: &[u8],
) -> Result<PagePapers, NoMemory>
    ensures { IfOk result (page.ArePapersAt night.now) }
{
    Ok(PagePapers {
        at: read_paper(rt, night, b"from/at")?,
        total: read_paper(rt, night, b"total")?,
        files: read_paper(rt, night, b"files.txt")?,
        inner: inner_at(rt, night)?,
        record: record_at(rt, night)?,
    })
}
