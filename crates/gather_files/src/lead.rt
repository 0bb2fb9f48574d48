ghost use Rattle.std.specs.Prelude.{◌≡◌, ◌≤◌, length};
ghost use Rattle.std.specs.List.{prefix_len, suffix_len};
ghost use Rattle.gather_files.specs.Lead.{is_blank, is_padding, led, pads, unpadded};

use stream_read::Held;

/// Gives up the blanks at the front of what is held.
pub(crate) fn skip_blanks(held: &mut Held)
    ensures bytes { held.new.bytes ≡ led held.old.bytes }
    ensures total { held.new.total ≡ held.old.total }
{
    let count = count_blanks(held.bytes());
    held.give_up(count);
}

fn count_blanks(bytes: &[u8]) -> usize
    ensures count { result ≡ prefix_len is_blank bytes.now }
    ensures within { result ≤ length bytes.now }
{
    bytes.iter().take_while(|b| is_blank(**b)).count()
}

/// Whether a byte is left out before the first header: a space, a tab, CR, LF, a byte of the byte order mark of UTF-8, NUL, or Ctrl-Z.
fn is_blank(byte: u8) -> bool
    ensures { result ≡ is_blank byte }
{
    byte == b' '
        || byte == b'\t'
        || byte == b'\r'
        || byte == b'\n'
        || byte == 0xEF
        || byte == 0xBB
        || byte == 0xBF
        || is_padding(byte)
}

/// Whether a byte is NUL or Ctrl-Z.
pub(crate) fn is_padding(byte: u8) -> bool
    ensures { result ≡ is_padding byte }
{
    byte == 0 || byte == 0x1A
}

/// Bytes without the padding at their end, of a file that begins with a header of this terminator.
pub(crate) fn unpadded(bytes: &[u8], terminator: u8) -> &[u8]
    ensures { result.now ≡ unpadded terminator bytes.now }
{
    let count = count_padding(bytes, terminator);
    &bytes[..bytes.len() - count]
}

fn count_padding(bytes: &[u8], terminator: u8) -> usize
    ensures count { result ≡ suffix_len (pads terminator) bytes.now }
    ensures within { result ≤ length bytes.now }
{
    bytes
        .iter()
        .rev()
        .take_while(|b| pads(**b, terminator))
        .count()
}

fn pads(byte: u8, terminator: u8) -> bool
    ensures { result ≡ pads terminator byte }
{
    is_padding(byte) && byte != terminator
}
