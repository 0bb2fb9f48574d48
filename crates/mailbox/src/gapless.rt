ghost use Rattle.std.specs.Prelude.{◌≡◌, ◌≤◌, IfSome, length};
ghost use Rattle.std.specs.List.{count_by};
ghost use Rattle.memchr.specs.Find.{is_byte};
ghost use Rattle.x12_bytes.specs.Bytes.{is_line_end};
ghost use Rattle.answered_sets.specs.Judged.{delims_in};
ghost use Rattle.mailbox.specs.Deliveries.{inner_count, inner_in};
ghost use Rattle.mailbox.specs.Gapless.{AreWhole, is_gapless};

use answered_sets::PlacedSet;
use env_index::SetEnvelope;
use memchr::memchr_iter;

#[inline(always)]
fn is_line_end(byte: u8) -> bool
    ensures { result ≡ is_line_end byte }
{
    (byte == b'\r') | (byte == b'\n')
}

/// Whether in a text no terminator is at the front or right after another one, there is no CR or LF, and the last byte is a terminator.
/// All bytes are looked at, which costs less than to stop.
fn is_gapless(terminator: u8, text: &[u8]) -> bool
    ensures { result ≡ is_gapless terminator terminator text.now }
{
    let mut gap = false;
    let mut before = terminator;
    for byte in text {
        gap = gap | ((before == terminator) & (*byte == terminator)) | is_line_end(*byte);
        before = *byte;
    }
    !gap & (before == terminator)
}

/// How many terminators are in a text.
fn count_of(terminator: u8, text: &[u8]) -> usize
    ensures { result ≡ count_by (is_byte terminator) text.now }
{
    memchr_iter(terminator, text).count()
}

/// Where the segments between ST and SE end in the stretch after the ST.
fn inner_end(set: &SetEnvelope<'_>, stretch: &[u8]) -> usize
    ensures { result ≤ length stretch.now }
{
    match &set.trailer {
        None => stretch.len(),
        Some(trailer) => stretch
            .len()
            .saturating_sub(set.end.saturating_sub(trailer.start())),
    }
}

/// The bytes of the segments between ST and SE, of which there are this many, where these surely are without a gap.
pub(crate) fn inner_if_gapless<'a>(
    placed: &PlacedSet<'_, '_, 'a>,
    set: &SetEnvelope<'a>,
    terminator: u8,
    count: u64,
) -> Option<&'a [u8]>
    requires set { set.now ≡ placed.now.set }
    requires terminator { terminator ≡ (delims_in placed.now).terminator }
    requires count { count ≡ inner_count placed.now }
    ensures { IfSome result (λ bytes. AreWhole (delims_in placed.now) bytes.now count (inner_in placed.now)) }
{
    let stretch = placed.stretch_behind_header(set);
    let inner = &stretch[..inner_end(set, stretch)];
    if is_gapless(terminator, inner) && count_of(terminator, inner) as u64 == count {
        Some(inner)
    } else {
        None
    }
}
