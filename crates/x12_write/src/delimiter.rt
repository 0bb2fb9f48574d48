ghost use Rattle.std.specs.Prelude.{◌≡◌};
ghost use Rattle.x12_write.specs.Delimiters.{is_this, is_delimiter};

use x12_bytes::Delims;

/// Whether a byte is one of these delimiters (X12.6, delimiters).
pub fn is_delimiter(delims: &Delims, byte: u8) -> bool
    ensures { result ≡ is_delimiter delims.now byte }
{
    byte == delims.element
        || byte == delims.component
        || byte == delims.terminator
        || is_repetition(delims, byte)
}

fn is_repetition(delims: &Delims, byte: u8) -> bool
    ensures { result ≡ is_this delims.now.repetition byte }
{
    match delims.repetition {
        Some(separator) => separator == byte,
        None => false,
    }
}
