ghost use Rattle.std.specs.Prelude.{◌≡◌, ◌++◌, ◌||◌, not, IfOk, OnOk, List, ℕ};
ghost use Rattle.night_page.specs.Names as names;
ghost use Rattle.night_page.specs.Page as page;

use crate::causes::causes_of;
use crate::files::append_files;
use crate::lines::lines_of;
use crate::name::Name;
use crate::partners::append_partners;
use crate::record::{RecordShown, append_record};
use crate::sets::{append_counts, append_sets};
use crate::tags::append_fixed;
use crate::title::append_title;
use crate::todo::{append_todo, is_all_inside, is_calm};
use crate::told::{PartnerTold, append_told};
use csv::ByteRecord;
use hub_kinds::{NoMemory, Text};
use std::alloc::Global;

/// What the page of a night is made of.
#[derive(Drop)]
pub struct NightPage<'a> {
    /// The night's name.
    pub night: &'a [u8],
    /// Its moment, CCYYMMDDHHMM.
    pub moment: &'a [u8],
    /// The last line of its report.
    pub total: &'a [u8],
    /// The text on the files of the day; none if the night has no such file.
    pub files: Option<&'a [u8]>,
    /// A line for each refused interchange of its input in which further headers begin.
    pub inner: &'a [Text],
    /// The rows of its table.
    pub rows: &'a [ByteRecord],
    /// Its partners.
    pub partners: &'a [PartnerTold],
    /// What is shown of its record, if it has one.
    pub record: Option<&'a RecordShown>,
}

fn is_filled(causes: &[Name]) -> bool
    ensures { result ≡ names.is_filled causes.now }
{
    match causes {
        [] => false,
        [..] => true,
    }
}

fn has_todo(calm: bool, causes: &[Name]) -> bool
    ensures { result ≡ (not calm || names.is_filled causes.now) }
{
    !calm || is_filled(causes)
}

/// The page of `night` between `head` and `foot`, which are the same for all nights, and whether there is something to do at the hub. The
/// only error is out of memory.
pub fn append_page(
    alloc: Global,
    out: &mut Vec<u8>,
    head: &[u8],
    foot: &[u8],
    night: &NightPage<'_>,
) -> Result<bool, NoMemory>
    ensures page { OnOk result ((text : List ℕ) × (out.new.items ≡ out.old.items ++ text)
        × page.IsPage head.now foot.now (page.value_of night.now) text) }
    ensures todo { IfOk result (λ todo. todo ≡ page.has_todo (page.value_of night.now)) }
{
    let causes = causes_of(alloc, night.rows)?;
    let inside = is_all_inside(night.total);
    let lines = lines_of(alloc, night.files)?;
    append_fixed(out, head)?;
    append_title(alloc, out, night)?;
    append_counts(out, night.rows)?;
    append_todo(
        alloc,
        out,
        inside,
        lines.as_slice(),
        night.inner,
        night.rows,
        causes.as_slice(),
    )?;
    append_files(alloc, out, night.files, lines.as_slice())?;
    append_told(alloc, out, night.partners)?;
    append_partners(alloc, out, night.rows, night.partners)?;
    append_sets(alloc, out, night.rows)?;
    append_record(alloc, out, night.record)?;
    append_fixed(out, foot)?;
    let calm = is_calm(inside, lines.as_slice(), night.inner);
    Ok(has_todo(calm, causes.as_slice()))
}
