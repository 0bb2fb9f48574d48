ghost use Rattle.std.specs.Prelude.{◌≡◌, ◌↔◌, ◌⊎◌, ◌++◌, ◌+◌, [], IfOk, length, map};
ghost use Rattle.night_breaches.specs.Breaches.{last_name};
ghost use Rattle.night_breaches.specs.Sound.{AreSound};
ghost use Rattle.night_marks.specs.Links.{broken_links};
ghost use Rattle.night_review.specs.GoingOn.{AreLinked, IsJudged, all_breaches, archived_line};

use crate::count::count_addresses;
use breach_lines::report_text;
use hub_kinds::NoMemory;
use hub_ledger::NightEntry;
use itoa::Buffer;
use night_breaches::{Breach, breaches, last_breach};
use night_marks::{BadFile, NightMark, archived_count, broken_links, unarchived};
use std::alloc::Global;

/// What is printed of nights, and the status.
#[derive(Debug, Drop)]
pub struct Report {
    pub text: Vec<u8>,
    /// 0 exactly if they continue, otherwise 1.
    pub status: u8,
}

/// What the nights that were read break.
fn all_breaches<'a>(
    alloc: Global,
    nights: &'a [NightEntry],
    limit: &[u8],
    named: &'a [u8],
) -> Result<Vec<Breach<'a>>, NoMemory>
    ensures found { IfOk result (λ found. found.items ≡ all_breaches limit.now named.entry.now nights.entry.now) }
    ensures none { IfOk result (λ found. (found.items ≡ [])
        ↔ (AreSound limit.now [] nights.entry.now × (last_name nights.entry.now ≡ named.entry.now))) }
{
    let mut found = breaches(alloc, nights, limit)?;
    last_breach(&mut found, nights, named)?;
    Ok(found)
}

fn is_clean(bad: usize, links: usize, found: usize) -> u8
    ensures zero { (result ≡ 0) ↔ ((bad ≡ 0) × (links ≡ 0) × (found ≡ 0)) }
    ensures values { (result ≡ 0) ⊎ (result ≡ 1) }
{
    if bad == 0 && links == 0 && found == 0 {
        0
    } else {
        1
    }
}

/// The line on archived nights, of which there are `count`, and after it `lines`.
fn with_archived(alloc: Global, count: u64, lines: Vec<u8>) -> Result<Vec<u8>, NoMemory>
    ensures { IfOk result (λ text. text.items ≡ archived_line count ++ lines.items) }
{
    if count == 0 {
        return Ok(lines);
    }
    let mut digits = Buffer::new();
    let mut text = Vec::from_slice(alloc, b"nights 1 to ")?;
    text.extend_from_slice(digits.format(count).as_bytes())?;
    text.extend_from_slice(b" are archived\n")?;
    text.extend_from_slice(lines.as_slice())?;
    Ok(text)
}

/// What is printed of the nights `order`, of which `entries` and `bad` were read. No moment may be after `limit`, and the last night must
/// be the one called `named`.
pub fn judged(
    alloc: Global,
    order: &[&NightMark],
    entries: &[NightEntry],
    bad: &[BadFile],
    limit: &[u8],
    named: &[u8],
) -> Result<Report, NoMemory>
    ensures judged { IfOk result (λ report.
        IsJudged limit.now named.now (map (λ n. n.now) order.now) entries.now bad.now report.text.items report.status) }
    ensures values { IfOk result (λ report. (report.status ≡ 0) ⊎ (report.status ≡ 1)) }
{
    let links = broken_links(alloc, order)?;
    let found = all_breaches(alloc, entries, limit, named)?;
    let nights = unarchived(alloc, order)?;
    let lines = report_text(
        alloc,
        nights.len() as u64,
        count_addresses(alloc, entries)?,
        bad,
        links.as_slice(),
        found.as_slice(),
    )?;
    let text = with_archived(alloc, archived_count(order), lines)?;
    Ok(Report {
        text,
        status: is_clean(bad.len(), links.len(), found.len()),
    })
}
