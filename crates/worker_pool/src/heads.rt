ghost use Rattle.std.specs.Prelude.{◌≡◌};
ghost use Rattle.isa_scan.specs.Heads.{heads_in};

use crate::phase::Job;
use hub_kinds::{NoMemory, Text};
use isa_scan::{PieceHeads, scan_piece};
use std::alloc::Global;
use std::marker::Model;
use x12_bytes::Piece;

/// The headers that begin in a piece of a text are asked for (X12.5, ISA).
#[derive(Drop)]
pub struct HeadsJob<'t> {
    pub text: &'t [u8],
    pub piece: Piece,
}

/// What is asked: a text and a piece of it.
#[derive(Drop)]
pub struct HeadsAsked {
    pub text: Text,
    pub piece: Piece,
}

/// The headers of a piece. Only a job makes them.
#[derive(Drop)]
pub struct HeadsDone<'t> {
    number: u64,
    text: &'t [u8],
    piece: Piece,
    heads: PieceHeads,
}

impl<'t> Model for HeadsDone<'t> {
    ghost use Rattle.std.specs.Prelude.{◌≡◌};
    ghost use Rattle.isa_scan.specs.Heads.{heads_in};
    ghost use Rattle.worker_pool.specs.Asked.{HeadsAnswer};

    ghost Value = { HeadsAnswer };

    ghost view = { λ d. record { number = d.number; text = d.text.now; piece = d.piece } };

    ghost invariant = { λ d. d.heads ≡ heads_in d.text.now d.piece.from d.piece.to };
}

impl<'t> HeadsDone<'t> {
    /// The headers, rising.
    pub fn into_heads(self) -> PieceHeads
        ensures { result ≡ heads_in self.entry.text self.entry.piece.from self.entry.piece.to }
    {
        self.heads
    }
}

impl<'t> Job for HeadsJob<'t> {
    ghost use Rattle.worker_pool.specs.Asked.{IsHeadsJob, heads_asked, heads_by};

    type Asked = HeadsAsked;

    type Done = HeadsDone<'t>;

    ghost value = { heads_asked };

    ghost is_ready = { IsHeadsJob };

    ghost job_of = { heads_by };

    ghost number_of = { λ d. d.number };

    fn run(&self, alloc: Global, number: u64) -> Result<HeadsDone<'t>, NoMemory> {
        let heads = scan_piece(alloc, self.text, self.piece)?;
        Ok(HeadsDone {
            number,
            text: self.text,
            piece: self.piece,
            heads,
        })
    }

    fn number(done: &HeadsDone<'t>) -> u64 {
        done.number
    }
}
