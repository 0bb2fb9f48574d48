ghost use Rattle.std.specs.Prelude.{◌≡◌, List, IfOk, IfSome, length, map};
ghost use Rattle.std.specs.List.{All};
ghost use Rattle.env_index.specs.Words.{HasSpans};
ghost use Rattle.answered_sets.specs.Judged.{JudgedValue};
ghost use Rattle.mailbox.specs.Deliveries.{AreDelivered};
ghost use Rattle.mailbox.specs.Rendered.{HaveRendered};
ghost use Rattle.set_answers.specs.CheckedText.{HaveRoom, IsCheckedBehind};
ghost use Rattle.set_answers.specs.FoundRows.{AreFoundRows};
ghost use Rattle.night_report.specs.Told.{told_text};

use crate::closing::{AllClosed, close_by, close_from};
use crate::night::Night;
use env_index::Index;
use hub_kinds::{Items, NoMemory, Texts};
use job_pool::{ManyThreads, OneThread};
use mailbox::{Delivered, RenderedSets, Writers, nothing_rendered, render_deliveries};
use moment::At;
use night_report::{LineWriters, ReportLines, Reported};
use partner_setup::Setup;
use set_answers::{
    Acknowledgments, CheckedText, FoundRows, ReportWriters, answer_found, check_text,
    no_acknowledgments,
};
use std::alloc::Global;
use std::marker::Model;
use std::thread::Threads;

/// The bytes of each partner's acknowledgments.
fn texts_of(alloc: Global, files: Vec<Acknowledgments>) -> Result<Texts, NoMemory>
    ensures { IfOk result (λ texts. texts ≡ map (λ f. f.text) files.items) }
{
    let mut texts = Vec::new(alloc);
    for file in files {
        texts.push(file.into_text())?;
    }
    Ok(Items::from_vec(texts))
}

/// The night of what was written, once its mailboxes are closed.
fn night_of(
    alloc: Global,
    outside: u64,
    files: Vec<Acknowledgments>,
    lines: ReportLines,
    closed: AllClosed,
) -> Result<Night, NoMemory>
    ensures acks { IfOk result (λ night. night.acks ≡ map (λ f. f.text) files.items) }
    ensures boxes { IfOk result (λ night. night.boxes ≡ closed.boxes.items) }
    ensures report { IfOk result (λ night. night.report ≡ told_text lines outside) }
    ensures next { IfOk result (λ night. night.next ≡ closed.next.items) }
{
    let AllClosed { boxes, next } = closed;
    let report = lines.close(outside)?;
    let acks = texts_of(alloc, files)?;
    Ok(Night {
        acks,
        boxes: Items::from_vec(boxes),
        report,
        next: Items::from_vec(next),
    })
}

/// The sets that were written for each partner, and after them these that are delivered to it.
fn rendered_behind<W: Writers>(
    alloc: Global,
    writers: &W,
    setup: &Setup,
    deliveries: &[Delivered<'_, '_, '_>],
    boxes: Vec<RenderedSets>,
) -> Result<Vec<RenderedSets>, NoMemory>
    requires ready { W.is_ready writers.now }
    requires deliveries { length deliveries.now ≡ length setup.now.partners }
    requires boxes { length boxes.items ≡ length setup.now.partners }
    ensures { IfOk result (λ new. (xs : List JudgedValue) → AreDelivered setup.now xs deliveries.now
        → HaveRendered setup.now xs boxes.items new.items) }
{
    let mut boxes = boxes;
    render_deliveries(alloc, writers, setup, deliveries, boxes.as_mut_slice())?;
    Ok(boxes)
}

/// The answers to a batch, after what was sent before: by what was `found` out about its interchanges and places, or else checked here.
fn answered<'i, 'a, W: ReportWriters>(
    alloc: Global,
    writers: &W,
    setup: &'a Setup,
    at: &At,
    index: &'i Index<'a>,
    found: Option<FoundRows<'a>>,
    sent: Vec<Acknowledgments>,
) -> Result<CheckedText<'i, 'a>, NoMemory>
    requires ready { W.can_report writers.now }
    requires spans { All (λ e. HasSpans index.now.text e.interchange) index.now.entries }
    requires found { IfSome found (AreFoundRows index.now.text setup.now index.now.entries) }
    requires sent { HaveRoom setup.now at.now (length index.now.entries) sent.items }
    ensures { IfOk result (λ c. IsCheckedBehind index.entry.now.text setup.entry.now at.now index.entry.now.entries
        c.interchanges.items sent.items c.acknowledgments.items) }
{
    match found {
        None => check_text(alloc, writers, setup, at, index, sent),
        Some(found) => answer_found(alloc, writers, setup, at, index, found, sent),
    }
}

/// What a night has written so far, batch by batch: the acknowledgments of each partner (X12.5, TA1; 999 guide), the sets that are
/// delivered to it (X12.6, transaction set), the lines of the report, and how many bytes stood outside interchanges. It lends from no
/// text.
#[derive(Drop)]
pub struct Writing {
    outside: u64,
    files: Vec<Acknowledgments>,
    lines: ReportLines,
    boxes: Vec<RenderedSets>,
}

impl Model for Writing {
    ghost use Rattle.night_batches.specs.Writing.{WritingValue};

    ghost Value = { WritingValue };

    ghost view = { λ w. record { outside = w.outside; files = w.files.items; told = w.lines; boxes = w.boxes.items } };
}

impl Writing {
    ghost use Rattle.std.specs.Prelude.{◌≡◌, ◌+◌, ◌<◌, ◌^◌, IfOk, IfSome, length};
    ghost use Rattle.std.specs.List.{All};
    ghost use Rattle.env_index.specs.Words.{HasSpans};
    ghost use Rattle.set_answers.specs.FoundRows.{AreFoundRows};
    ghost use Rattle.night_batches.specs.Writing.{HasRoomFor, IsBatchWritten, IsClosedBy, nothing_written, with_outside};

    /// Writing in which nothing is written yet. The only error is out of memory.
    pub fn new(alloc: Global, setup: &Setup) -> Result<Writing, NoMemory>
        ensures { IfOk result (λ w. w ≡ nothing_written setup.now) }
    {
        let files = no_acknowledgments(alloc, setup)?;
        let boxes = nothing_rendered(alloc, setup)?;
        Ok(Writing {
            outside: 0,
            files,
            lines: ReportLines::new(alloc),
            boxes,
        })
    }

    /// This writing with more bytes that are outside interchanges.
    fn with_outside(self, more: u64) -> Writing
        requires { self.outside + more < 2 ^ 64 }
        ensures { result ≡ with_outside self more }
    {
        Writing {
            outside: self.outside + more,
            files: self.files,
            lines: self.lines,
            boxes: self.boxes,
        }
    }

    /// Adds interchanges after those before, of which there may be none.
    fn add_interchanges<'a, W: Writers + ReportWriters + LineWriters>(
        self,
        alloc: Global,
        writers: &W,
        setup: &'a Setup,
        at: &At,
        base: u64,
        index: &Index<'a>,
        found: Option<FoundRows<'a>>,
    ) -> Result<Writing, NoMemory>
        requires ready { W.is_ready writers.now }
        requires reports { W.can_report writers.now }
        requires lines { W.can_tell writers.now }
        requires spans { All (λ e. HasSpans index.now.text e.interchange) index.now.entries }
        requires found { IfSome found (AreFoundRows index.now.text setup.now index.now.entries) }
        requires room { HasRoomFor setup.now at.now (length index.now.entries) index.now.outside self }
        ensures { IfOk result (IsBatchWritten index.now.text setup.now at.now base index.now.entries index.now.outside self) }
    {
        let Writing {
            outside,
            files,
            lines,
            boxes,
        } = self;
        let CheckedText {
            interchanges,
            acknowledgments,
        } = answered(alloc, writers, setup, at, index, found, files)?;
        let Reported { lines, deliveries } = writers.report(
            alloc,
            lines,
            setup,
            base,
            interchanges.as_slice(),
        )?;
        let boxes = rendered_behind(alloc, writers, setup, deliveries.as_slice(), boxes)?;
        Ok(Writing {
            outside: outside + index.outside(),
            files: acknowledgments,
            lines,
            boxes,
        })
    }

    /// Adds a batch, by what was `found` out about its interchanges and places, or else checked here. One without interchanges adds
    /// its bytes outside alone.
    fn add_answered<'a, W: Writers + ReportWriters + LineWriters>(
        self,
        alloc: Global,
        writers: &W,
        setup: &'a Setup,
        at: &At,
        base: u64,
        index: &Index<'a>,
        found: Option<FoundRows<'a>>,
    ) -> Result<Writing, NoMemory>
        requires ready { W.is_ready writers.now }
        requires reports { W.can_report writers.now }
        requires lines { W.can_tell writers.now }
        requires spans { All (λ e. HasSpans index.now.text e.interchange) index.now.entries }
        requires found { IfSome found (AreFoundRows index.now.text setup.now index.now.entries) }
        requires room { HasRoomFor setup.now at.now (length index.now.entries) index.now.outside self }
        ensures { IfOk result (IsBatchWritten index.now.text setup.now at.now base index.now.entries index.now.outside self) }
    {
        if index.interchanges().is_empty() {
            return Ok(self.with_outside(index.outside()));
        }
        self.add_interchanges(alloc, writers, setup, at, base, index, found)
    }

    /// Adds a batch of interchanges, after those before: each set is checked and answered, and written where it is delivered. They
    /// are in a text of their own, which begins at the offset `base` of the whole one, and are settled. A batch without
    /// interchanges adds its bytes outside alone, whatever the number of partners. The only error is out of memory; then what was
    /// written before is dropped.
    pub fn add_batch<'a>(
        self,
        alloc: Global,
        setup: &'a Setup,
        at: &At,
        base: u64,
        index: &Index<'a>,
    ) -> Result<Writing, NoMemory>
        requires spans { All (λ e. HasSpans index.now.text e.interchange) index.now.entries }
        requires room { HasRoomFor setup.now at.now (length index.now.entries) index.now.outside self }
        ensures { IfOk result (IsBatchWritten index.now.text setup.now at.now base index.now.entries index.now.outside self) }
    {
        self.add_answered(alloc, &OneThread, setup, at, base, index, None)
    }

    /// Writes a batch of which all was `found` out before: who sent each interchange, of each place of its index whether its number is
    /// used earlier, and of each set how it was checked. These `writers` write the delivered sets and the 999s. The only error is out of
    /// memory; then what was written before is dropped.
    pub fn add_found<'a, W: Writers + ReportWriters + LineWriters>(
        self,
        alloc: Global,
        writers: &W,
        setup: &'a Setup,
        at: &At,
        base: u64,
        index: &Index<'a>,
        found: FoundRows<'a>,
    ) -> Result<Writing, NoMemory>
        requires ready { W.is_ready writers.now }
        requires reports { W.can_report writers.now }
        requires lines { W.can_tell writers.now }
        requires spans { All (λ e. HasSpans index.now.text e.interchange) index.now.entries }
        requires found { AreFoundRows index.now.text setup.now index.now.entries found }
        requires room { HasRoomFor setup.now at.now (length index.now.entries) index.now.outside self }
        ensures { IfOk result (IsBatchWritten index.now.text setup.now at.now base index.now.entries index.now.outside self) }
    {
        self.add_answered(alloc, writers, setup, at, base, index, Some(found))
    }

    /// The night, after the last batch: each mailbox gets its envelopes, the report its total. The only error is out of memory.
    pub fn close(self, alloc: Global, setup: &Setup, at: &At) -> Result<Night, NoMemory>
        requires files { length self.files ≡ length setup.now.partners }
        requires boxes { length self.boxes ≡ length setup.now.partners }
        ensures { IfOk result (IsClosedBy setup.now at.now self) }
    {
        let Writing {
            outside,
            files,
            lines,
            boxes,
        } = self;
        let closed = close_from(alloc, setup, at, files.as_slice(), 0, boxes)?;
        let night = night_of(alloc, outside, files, lines, closed)?;
        Ok(night)
    }

    /// The same as `close`, the mailboxes side by side by as many threads as there are workers. The only error is out of memory.
    pub fn close_by<R: Threads + Sync>(
        self,
        alloc: Global,
        writers: &ManyThreads<'_, R>,
        setup: &Setup,
        at: &At,
    ) -> Result<Night, NoMemory>
        requires files { length self.files ≡ length setup.now.partners }
        requires boxes { length self.boxes ≡ length setup.now.partners }
        ensures { IfOk result (IsClosedBy setup.now at.now self) }
    {
        let Writing {
            outside,
            files,
            lines,
            boxes,
        } = self;
        let closed = close_by(
            writers.rt,
            setup,
            at,
            files.as_slice(),
            0,
            boxes,
            writers.workers,
        )?;
        let night = night_of(alloc, outside, files, lines, closed)?;
        Ok(night)
    }
}
