ghost use Rattle.std.specs.Prelude.{◌≡◌, take};
ghost use Rattle.std.specs.List.{list_all};
ghost use Rattle.ack_999.specs.Copy.{may_be_copied, copy_text};

use x12_bytes::Delims;
use x12_write::is_delimiter;

/// The most bytes of a copy.
const LONGEST_COPY: usize = 99;

/// What is shown of a text in error (999 guide, IK404): up to 99 bytes of it, where each of its bytes prints
/// and none is a delimiter of the acknowledgment; otherwise nothing.
pub(crate) fn copied<'a>(delims: &Delims, text: &'a [u8]) -> &'a [u8]
    ensures { result.now ≡ copy_text delims.now text.now }
{
    if may_be_shown(delims, text) {
        front(text)
    } else {
        &[]
    }
}

/// Whether each byte may be copied.
fn may_be_shown(delims: &Delims, text: &[u8]) -> bool
    ensures { result ≡ list_all (may_be_copied delims.now) text.now }
{
    text.iter().all(|byte| may_be_copied(delims, *byte))
}

/// Up to 99 bytes.
#[tactic(auto, using(std::proofs::lemmas::List::take_min))]
fn front(text: &[u8]) -> &[u8]
    ensures { result.now ≡ take 99 text.now }
{
    &text[..LONGEST_COPY.min(text.len())]
}

fn may_be_copied(delims: &Delims, byte: u8) -> bool
    ensures { result ≡ may_be_copied delims.now byte }
{
    b' ' <= byte && byte <= b'~' && !is_delimiter(delims, byte)
}
