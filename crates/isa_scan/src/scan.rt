ghost use Rattle.std.specs.Prelude.{◌≡◌, ◌≤◌, ◌+◌, ◌++◌, IfOk, OnOk, length};
ghost use Rattle.memchr.specs.Find.{IsFirstByte, is_byte};
ghost use Rattle.isa_scan.specs.Heads.{heads_in};

use crate::heads::{HeadAt, PieceHeads};
use hub_kinds::NoMemory;
use memchr::memchr;
use std::alloc::Global;
use x12_bytes::{Pair, Piece, read_header};

/// The headers that begin in a piece of a text; the last may end after it (X12.5, ISA). The only error is out of memory.
pub fn scan_piece(alloc: Global, text: &[u8], piece: Piece) -> Result<PieceHeads, NoMemory>
    requires order { piece.from ≤ piece.to }
    requires within { piece.to ≤ length text.now }
    ensures { IfOk result (λ heads. heads ≡ heads_in text.now piece.from piece.to) }
{
    let mut list = Vec::new(alloc);
    let mut at = piece.from;
    while let Some(ahead) = memchr(b'I', &text[at..piece.to]) {
        add_head(&mut list, text, at + ahead)?;
        at += ahead + 1;
    }
    Ok(PieceHeads::new(list))
}

/// Adds the header that begins at an offset, if one does.
fn add_head(list: &mut Vec<HeadAt>, text: &[u8], start: usize) -> Result<(), NoMemory>
    ensures { OnOk result (list.new.items ≡ list.old.items ++ heads_in text.now start (start + 1)) }
{
    let Some(header) = read_header(text, start) else {
        return Ok(());
    };
    let delims = header.delims();
    let pair = Pair {
        element: delims.element,
        terminator: delims.terminator,
    };
    list.push(HeadAt { start, pair })?;
    Ok(())
}
