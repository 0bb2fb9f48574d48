ghost use Rattle.std.specs.Prelude.{◌≡◌};
ghost use Rattle.env_marks.specs.Marking.{marks_of};

use crate::phase::Job;
use env_marks::{Marks, marks_of};
use hub_kinds::{NoMemory, Text};
use std::alloc::Global;
use std::marker::Model;
use x12_bytes::{Pair, Piece};

/// The marks of a piece of a text under a pair are asked for (X12.6, segment and segment terminator).
#[derive(Drop)]
pub struct MarksJob<'t> {
    pub text: &'t [u8],
    pub piece: Piece,
    pub pair: Pair,
}

/// What such a job asks.
#[derive(Drop)]
pub struct MarksAsked {
    pub text: Text,
    pub piece: Piece,
    pub pair: Pair,
}

/// The marks of a piece under a pair. Only a job makes them.
#[derive(Drop)]
pub struct MarksDone<'t> {
    number: u64,
    text: &'t [u8],
    piece: Piece,
    pair: Pair,
    marks: Marks,
}

impl<'t> Model for MarksDone<'t> {
    ghost use Rattle.std.specs.Prelude.{◌≡◌};
    ghost use Rattle.env_marks.specs.Marking.{marks_of};
    ghost use Rattle.worker_pool.specs.Asked.{MarksAnswer};

    ghost Value = { MarksAnswer };

    ghost view = { λ d. record { number = d.number; text = d.text.now; piece = d.piece; pair = d.pair } };

    ghost invariant = { λ d. d.marks ≡ marks_of d.pair d.text.now d.piece.from d.piece.to };
}

impl<'t> MarksDone<'t> {
    /// The marks.
    pub fn into_marks(self) -> Marks
        ensures { result ≡ marks_of self.entry.pair self.entry.text self.entry.piece.from self.entry.piece.to }
    {
        self.marks
    }
}

impl<'t> Job for MarksJob<'t> {
    ghost use Rattle.worker_pool.specs.Asked.{IsMarksJob, marks_asked, marks_by};

    type Asked = MarksAsked;

    type Done = MarksDone<'t>;

    ghost value = { marks_asked };

    ghost is_ready = { IsMarksJob };

    ghost job_of = { marks_by };

    ghost number_of = { λ d. d.number };

    fn run(&self, alloc: Global, number: u64) -> Result<MarksDone<'t>, NoMemory> {
        let marks = marks_of(alloc, self.text, self.piece, self.pair)?;
        Ok(MarksDone {
            number,
            text: self.text,
            piece: self.piece,
            pair: self.pair,
            marks,
        })
    }

    fn number(done: &MarksDone<'t>) -> u64 {
        done.number
    }
}
