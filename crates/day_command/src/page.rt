ghost use Rattle.std.specs.Prelude.{◌≡◌, ◌↔◌, ◌⊎◌, IfErr, IfOk, map, true};
ghost use Rattle.csv.specs.Records.{fields_of};
ghost use Rattle.system_io.specs.Outbox.{path_in};
ghost use Rattle.day_command.specs.Failure.{IsBefore};
ghost use Rattle.day_command.specs.Page.{ArePapersAt, IsPageOf, IsPageReport, total_of};
ghost use Rattle.night_page.specs.Totals.{gives_totals};

use crate::failure::Failure;
use crate::papers::{PagePapers, papers_at};
use crate::tables::state_at;
use crate::told::partners_at;
use csv::ByteRecord;
use hub_kinds::NoMemory;
use night_folder::first_line;
use night_page::{FOOT, HEAD, NightPage, PartnerTold, append_page, gives_totals};
use night_review::Report;
use std::alloc::Global;
use std::rt::Files;
use track_read::TableState;

/// The path of the night `name` in the folder at the path `nights`.
pub(crate) fn night_path(alloc: Global, nights: &[u8], name: &[u8]) -> Result<Vec<u8>, NoMemory>
    ensures { IfOk result (λ path. path.items ≡ path_in nights.now name.now) }
{
    let mut path = Vec::from_slice(alloc, nights)?;
    path.extend_from_slice(b"/")?;
    path.extend_from_slice(name)?;
    Ok(path)
}

/// The status of a page: 1 if there is something to do at the hub.
fn status_of(todo: bool) -> u8
    ensures one { (result ≡ 1) ↔ (todo ≡ true) }
    ensures values { (result ≡ 0) ⊎ (result ≡ 1) }
{
    if todo { 1 } else { 0 }
}

/// The page of the night `name`, which is made of `papers`, the `rows` of its table and its `partners`, and the status.
fn report_of(
    alloc: Global,
    name: &[u8],
    papers: &PagePapers,
    rows: &[ByteRecord],
    partners: &[PartnerTold],
) -> Result<Report, NoMemory>
    ensures page { IfOk result (λ report.
        IsPageOf name.now papers.now (map fields_of rows.now) partners.now report.text.items report.status) }
    ensures values { IfOk result (λ report. (report.status ≡ 0) ⊎ (report.status ≡ 1)) }
{
    let files = papers.files.bytes();
    let record = papers.record.as_ref();
    let mut text = Vec::new(alloc);
    let page = NightPage {
        night: name,
        moment: first_line(papers.at.bytes_or_none()),
        total: first_line(papers.total.bytes_or_none()),
        files,
        inner: papers.inner.as_slice(),
        rows,
        partners,
        record,
    };
    let todo = append_page(alloc, &mut text, HEAD.as_bytes(), FOOT.as_bytes(), &page)?;
    Ok(Report {
        text,
        status: status_of(todo),
    })
}

/// What the page of the night in the folder at the path `night` is made of, if `rows`, those of its table, give the totals of its report.
fn papers_of<R: Files + AllocGlobal>(
    rt: &R,
    night: &[u8],
    rows: &[ByteRecord],
) -> Result<PagePapers, Failure>
    ensures papers { IfOk result (ArePapersAt night.now) }
    ensures totals { IfOk result (λ papers. gives_totals (total_of papers.total) (map fields_of rows.now) ≡ true) }
    ensures before { IfErr result IsBefore }
{
    let papers = papers_at(rt, night)?;
    let total = first_line(papers.total.bytes_or_none());
    if gives_totals(rt.alloc(), total, rows)? {
        Ok(papers)
    } else {
        Err(Failure::Totals)
    }
}

/// The page of the night `name` of the folder at the path `nights`, and the status.
pub(crate) fn page_of<R: Files + AllocGlobal + Clone + Drop>(
    rt: &R,
    nights: &str,
    name: &str,
) -> Result<Report, Failure>
    ensures report { IfOk result (λ report. IsPageReport nights.now name.now report.text.items report.status) }
    ensures values { IfOk result (λ report. (report.status ≡ 0) ⊎ (report.status ≡ 1)) }
    ensures before { IfErr result IsBefore }
{
    let alloc = rt.alloc();
    let path = night_path(alloc, nights.as_bytes(), name.as_bytes())?;
    let night = path.as_slice();
    let TableState::Rows(rows) = state_at(rt, night)? else {
        return Err(Failure::Night);
    };
    let partners = partners_at(rt, night)?;
    let papers = papers_of(rt, night, rows.as_slice())?;
    let report = report_of(
        alloc,
        name.as_bytes(),
        &papers,
        rows.as_slice(),
        partners.as_slice(),
    )?;
    Ok(report)
}
