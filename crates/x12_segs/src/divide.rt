ghost use Rattle.std.specs.Prelude.{◌≡◌, ◌+◌, ◌≤◌, length};
ghost use Rattle.x12_segs.specs.View.{components as components_in, occurrences as occurrences_in};

use crate::parts::Parts;
use x12_bytes::Delims;

/// The occurrences of an element (X12.6, repetition separator): itself alone where the delimiters
/// have no repetition separator.
pub fn occurrences(element: &[u8], delims: Delims) -> Parts<'_>
    ensures value { result ≡ occurrences_in delims element.now }
    ensures len { length result ≤ length element.now + 1 }
{
    Parts::new(element, delims.repetition)
}

/// The components of an occurrence (X12.6, component element separator).
pub fn components(occurrence: &[u8], delims: Delims) -> Parts<'_>
    ensures value { result ≡ components_in delims occurrence.now }
    ensures len { length result ≤ length occurrence.now + 1 }
{
    Parts::new(occurrence, Some(delims.component))
}
