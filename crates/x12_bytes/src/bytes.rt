//! Which bytes may delimit.
ghost use Rattle.std.specs.Prelude.{◌≡◌};
ghost use Rattle.x12_bytes.specs.Bytes.{may_separate, may_terminate};

/// Whether a byte may end a segment: no letter, digit or space.
pub(crate) fn may_terminate(byte: u8) -> bool
    ensures { result ≡ may_terminate byte }
{
    !(byte.is_ascii_alphanumeric() || byte == b' ')
}

/// Whether a byte may separate elements or components: no CR and no LF either.
pub(crate) fn may_separate(byte: u8) -> bool
    ensures { result ≡ may_separate byte }
{
    may_terminate(byte) && byte != b'\r' && byte != b'\n'
}
