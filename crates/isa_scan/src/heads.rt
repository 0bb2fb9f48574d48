ghost use Rattle.std.specs.Prelude.{◌≡◌, ◌++◌, IfOk, length};

use hub_kinds::NoMemory;
use std::alloc::Global;
use std::marker::Model;
use x12_bytes::Pair;

/// Where a header begins, by its offset in the text, and what its interchange is divided by (X12.5, ISA).
#[derive(Clone, Copy, Debug, PartialEq, Eq)]
pub struct HeadAt {
    pub start: usize,
    pub pair: Pair,
}

/// The headers that begin in a piece of a text, rising (X12.5, ISA). Contracts see their list.
#[derive(Drop)]
pub struct PieceHeads {
    list: Vec<HeadAt>,
}

impl Model for PieceHeads {
    ghost use Rattle.std.specs.Prelude.{List};
    ghost use Rattle.isa_scan.specs.declared.heads.HeadAt.{HeadAt};

    ghost Value = { List HeadAt };

    ghost view = { λ h. h.list.items };
}

impl PieceHeads {
    pub(crate) fn new(list: Vec<HeadAt>) -> PieceHeads
        ensures { result ≡ list.items }
    {
        PieceHeads { list }
    }

    /// The headers, in the order of the text.
    pub fn list(&self) -> &[HeadAt]
        ensures { result.now ≡ self.now }
    {
        self.list.as_slice()
    }

    /// The headers of this piece and of the one after it. The only error is out of memory.
    pub fn append(self, other: PieceHeads) -> Result<PieceHeads, NoMemory>
        ensures { IfOk result (λ both. both ≡ self ++ other) }
    {
        let mut list = self.list;
        list.extend_from_slice(other.list.as_slice())?;
        Ok(PieceHeads { list })
    }
}
