ghost use Rattle.std.specs.Prelude.{◌≡◌, ◌≤◌, ◌++◌, [], ◌∷◌, List, not, count_by, IfOk, OnOk, length};
ghost use Rattle.hub_kinds.specs.declared.limits.TheConstants.{LONGEST_TEXT};
ghost use Rattle.env_index.specs.Extents.{is_filler};
ghost use Rattle.env_index.specs.Faults.{fault_of};
ghost use Rattle.env_index.specs.Index.{IsIndex};
ghost use Rattle.env_index.specs.Placed.{AreFew};

use crate::faults::judge_interchange;
use crate::index::{Index, IndexedInterchange};
use crate::interchange::Interchange;
use crate::next::next_interchange;
use hub_kinds::NoMemory;
use std::alloc::Global;

fn is_filler(byte: u8) -> bool
    ensures { result ≡ is_filler byte }
{
    byte == b'\r' || byte == b'\n' || byte == b' '
}

/// How many bytes of a text are neither CR nor LF nor space.
pub(crate) fn count_others(text: &[u8]) -> u64
    ensures { result ≡ count_by (λ b. not (is_filler b)) text.now }
{
    text.iter().filter(|byte| !is_filler(**byte)).count() as u64
}

/// An interchange with the least of its faults 1 to 7.
fn judged(interchange: Interchange<'_>) -> IndexedInterchange<'_>
    requires { AreFew interchange }
    ensures interchange { result.interchange ≡ interchange.entry }
    ensures fault { result.fault ≡ fault_of interchange.entry }
{
    let fault = judge_interchange(&interchange);
    IndexedInterchange { interchange, fault }
}

/// The index of a text that is read front to back, each interchange with the least of its faults 1 to 7.
///
/// The text has at most `LONGEST_TEXT` bytes, since places are kept in 32 bits. The only error is out of memory.
/// X12.5, interchange; X12.6, functional group and transaction set.
pub fn index_plain<'a>(alloc: Global, text: &'a [u8]) -> Result<Index<'a>, NoMemory>
    requires { length text.now ≤ LONGEST_TEXT }
    ensures { IfOk result (λ index. IsIndex text.entry.now index) }
{
    let mut interchanges = Vec::new(alloc);
    let mut outside = 0;
    let mut at = 0;
    while let Some(interchange) = next_interchange(alloc, text, at)? {
        outside += count_others(&text[at..interchange.start()]);
        at = interchange.end();
        interchanges.push(judged(interchange))?;
    }
    outside += count_others(&text[at..]);
    Ok(Index {
        text,
        interchanges,
        outside,
    })
}
