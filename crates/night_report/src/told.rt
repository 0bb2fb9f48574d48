use crate::lines::append_total_line;
use crate::report::append_all;
use crate::totals::Totals;
use answered_sets::JudgedInterchange;
use hub_kinds::{Items, NoMemory, Text};
use mailbox::SetOutcomes;
use partner_setup::Setup;
use std::alloc::Global;
use std::marker::Model;

/// A report that continues: the lines of the interchanges that were reported so far, and what is counted of them. The texts of a night may
/// come one after the other; offsets and numbers are those of the whole.
#[derive(Debug, Drop)]
pub struct ReportLines {
    text: Vec<u8>,
    totals: Totals,
    told: u64,
}

impl Model for ReportLines {
    ghost use Rattle.std.specs.Prelude.{length};
    ghost use Rattle.night_report.specs.Room.{HasRoom, IsOfInterchanges};
    ghost use Rattle.night_report.specs.Told.{ToldValue};

    ghost Value = { ToldValue };

    ghost view = { λ r. record { lines = r.text.items; totals = r.totals; count = r.told } };

    ghost invariant = { λ r. HasRoom r.totals 0 (length r.text.items) × IsOfInterchanges r.totals r.told };
}

impl ReportLines {
    ghost use Rattle.std.specs.Prelude.{◌≡◌, ◌+◌, ◌<◌, ◌^◌, IfOk, length};
    ghost use Rattle.answered_sets.specs.Judged.{all_sets};
    ghost use Rattle.mailbox.specs.Deliveries.{outcomes_of};
    ghost use Rattle.night_report.specs.Told.{joined, nothing_told, told_alone, told_behind, told_text};

    /// The lines of an empty report.
    pub fn new(alloc: Global) -> ReportLines
        ensures { result ≡ nothing_told }
    {
        ReportLines {
            text: Vec::new(alloc),
            totals: Totals::none(),
            told: 0,
        }
    }

    /// Reports these interchanges alone, those of a text that begins at the offset `base`, by the outcomes of all their sets; they are
    /// numbered on after `before` others.
    pub(crate) fn of(
        alloc: Global,
        setup: &Setup,
        base: u64,
        before: u64,
        interchanges: &[JudgedInterchange<'_, '_>],
        outcomes: &[SetOutcomes],
    ) -> Result<ReportLines, NoMemory>
        requires few { before + length interchanges.now < 2 ^ 64 }
        requires outcomes { outcomes.now ≡ outcomes_of setup.now (all_sets interchanges.now) }
        ensures { IfOk result (λ lines. lines ≡ told_alone setup.now base before interchanges.now) }
    {
        let mut text = Vec::new(alloc);
        let totals = append_all(&mut text, setup, base, before, interchanges, outcomes)?;
        let told = interchanges.len() as u64;
        Ok(ReportLines { text, totals, told })
    }

    /// These lines, and after them `more`, those of later interchanges.
    pub(crate) fn followed_by(self, more: ReportLines) -> Result<ReportLines, NoMemory>
        requires { self.count + more.count < 2 ^ 64 }
        ensures { IfOk result (λ all. all ≡ joined self more) }
    {
        let ReportLines { text, totals, told } = self;
        let ReportLines {
            text: mut behind,
            totals: others,
            told: count,
        } = more;
        let mut text = text;
        text.append(&mut behind)?;
        Ok(ReportLines {
            text,
            totals: totals.with(&others),
            told: told + count,
        })
    }

    /// How many interchanges were reported.
    pub fn count(&self) -> u64
        ensures { result ≡ self.now.count }
    {
        let ReportLines { told, .. } = self;
        *told
    }

    /// Reports more interchanges, those of a text that begins at the offset `base`, by the outcomes of all their sets. The only error is
    /// out of memory.
    pub fn append(
        self,
        setup: &Setup,
        base: u64,
        interchanges: &[JudgedInterchange<'_, '_>],
        outcomes: &[SetOutcomes],
    ) -> Result<ReportLines, NoMemory>
        requires few { self.count + length interchanges.now < 2 ^ 64 }
        requires outcomes { outcomes.now ≡ outcomes_of setup.now (all_sets interchanges.now) }
        ensures { IfOk result (λ lines. lines ≡ told_behind setup.now base self interchanges.now) }
    {
        let ReportLines { text, totals, told } = self;
        let mut text = text;
        let more = append_all(&mut text, setup, base, told, interchanges, outcomes)?;
        let totals = totals.with(&more);
        let told = told + interchanges.len() as u64;
        Ok(ReportLines { text, totals, told })
    }

    /// The whole report, which ends with what was counted and how many bytes are outside interchanges.
    pub fn close(self, outside: u64) -> Result<Text, NoMemory>
        ensures { IfOk result (λ text. text ≡ told_text self outside) }
    {
        let ReportLines { text, totals, .. } = self;
        let mut text = text;
        append_total_line(&mut text, &totals, outside)?;
        Ok(Items::from_vec(text))
    }
}
