ghost use Rattle.std.specs.Prelude.{◌≡◌, ◌<◌, ◌≤◌, ℕ, IfOk, IfSome, IfNone, false, length};
ghost use Rattle.hub_kinds.specs.declared.limits.TheConstants.{LONGEST_TEXT};
ghost use Rattle.x12_bytes.specs.HeaderTest.{is_head};
ghost use Rattle.env_index.specs.Index.{IsNextIn};

use crate::interchange::Interchange;
use crate::read::read_interchange;
use hub_kinds::NoMemory;
use memchr::memchr;
use std::alloc::Global;

/// The interchange with the least start at or after an offset; none where no header begins there.
pub(crate) fn next_interchange<'a>(
    alloc: Global,
    text: &'a [u8],
    from: usize,
) -> Result<Option<Interchange<'a>>, NoMemory>
    requires few { length text.now ≤ LONGEST_TEXT }
    requires inside { from ≤ length text.now }
    ensures none { IfOk result (λ found. IfNone found ((q : ℕ) → from ≤ q → is_head text.entry.now q ≡ false)) }
    ensures next { IfOk result (λ found. IfSome found (λ x. IsNextIn text.entry.now from x)) }
    ensures within { IfOk result (λ found. IfSome found (λ x. x.end ≤ length text.entry.now)) }
    ensures behind { IfOk result (λ found. IfSome found (λ x. x.start < x.end)) }
{
    let mut at = from;
    while let Some(ahead) = memchr(b'I', &text[at..]) {
        if let Some(interchange) = read_interchange(alloc, text, at + ahead)? {
            return Ok(Some(interchange));
        }
        at += ahead + 1;
    }
    Ok(None)
}
