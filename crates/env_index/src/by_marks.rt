ghost use Rattle.std.specs.Prelude.{◌≡◌, ◌+◌, ◌≤◌, IfOk, true, length};
ghost use Rattle.std.specs.List.{All};
ghost use Rattle.hub_kinds.specs.declared.limits.TheConstants.{LONGEST_TEXT};
ghost use Rattle.x12_bytes.specs.declared.layout.TheConstants.{HEADER_LEN};
ghost use Rattle.x12_bytes.specs.HeaderTest.{is_head};
ghost use Rattle.isa_scan.specs.Heads.{heads_in};
ghost use Rattle.env_index.specs.Index.{IsReadIn};
ghost use Rattle.env_index.specs.Known.{AreMarks};
ghost use Rattle.env_index.specs.Shares.{IsReadAt, IsShare};
ghost use Rattle.env_index.specs.Unjudged.{IsUnjudged};

use crate::index::{Index, IndexedInterchange};
use crate::interchange::Interchange;
use crate::mark_parts::{MarkParts, piece_at};
use crate::plain::count_others;
use crate::share::Share;
use crate::walk::read_body;
use env_marks::Marks;
use hub_kinds::NoMemory;
use isa_scan::{HeadAt, PieceHeads};
use std::alloc::Global;
use x12_bytes::{HEADER_LEN, header_there};

/// The interchange whose header is known to begin at an offset, by the marks of the text's pieces.
fn read_marked<'a>(
    alloc: Global,
    text: &'a [u8],
    start: usize,
    marks: &[Marks],
    piece: usize,
) -> Result<Interchange<'a>, NoMemory>
    requires few { length text.now ≤ LONGEST_TEXT }
    requires head { is_head text.now start ≡ true }
    requires marked { All (AreMarks text.now) marks.now }
    ensures within { IfOk result (λ x. x.end ≤ length text.entry.now) }
    ensures behind { IfOk result (λ x. start + HEADER_LEN ≤ x.end) }
    ensures start { IfOk result (λ x. x.start ≡ start) }
    ensures read { IfOk result (λ x. IsReadIn text.entry.now x) }
{
    let header = header_there(text, start);
    let delims = header.delims();
    let parts = MarkParts::new(text, delims.terminator, start + HEADER_LEN, marks, piece);
    let body = read_body(alloc, text, delims, parts)?;
    Ok(Interchange::new(text, header, start, body))
}

/// The interchanges that begin at some headers of a text from an offset on; a header inside of one before it begins none.
pub(crate) fn read_share<'a>(
    alloc: Global,
    text: &'a [u8],
    heads: &[HeadAt],
    marks: &[Marks],
    from: usize,
) -> Result<Share<'a>, NoMemory>
    requires { IsShare text.now from heads.now marks.now }
    ensures { IfOk result (λ share. IsReadAt text.entry.now from heads.entry.now share) }
{
    let mut interchanges = Vec::new(alloc);
    let mut outside = 0;
    let mut at = from;
    let mut piece = piece_at(marks, 0, from);
    for index in 0..heads.len() {
        let start = heads[index].start;
        if start < at {
            continue;
        }
        let interchange = read_marked(alloc, text, start, marks, piece)?;
        outside += count_others(&text[at..start]);
        at = interchange.end();
        piece = piece_at(marks, piece, at);
        interchanges.push(IndexedInterchange {
            interchange,
            fault: None,
        })?;
    }
    Ok(Share {
        interchanges,
        outside,
        end: at,
    })
}

/// The index of a text by the headers and the marks of its pieces, before any interchange is judged. A piece may have no
/// marks, or marks under another pair: the text is read there.
///
/// The text has at most `LONGEST_TEXT` bytes, since places are kept in 32 bits. The only error is out of memory.
/// X12.5, interchange; X12.6, functional group and transaction set.
pub fn index_of<'a>(
    alloc: Global,
    text: &'a [u8],
    heads: &PieceHeads,
    marks: &[Marks],
) -> Result<Index<'a>, NoMemory>
    requires few { length text.now ≤ LONGEST_TEXT }
    requires heads { heads.now ≡ heads_in text.now 0 (length text.now) }
    requires marked { All (AreMarks text.now) marks.now }
    ensures { IfOk result (λ index. IsUnjudged text.entry.now index) }
{
    let share = read_share(alloc, text, heads.list(), marks, 0)?;
    Ok(share.into_index(text))
}
