ghost use Rattle.std.specs.Prelude.{◌≡◌, option_map};
ghost use Rattle.answered_sets.specs.Answered.{asks_for_ta1, is_answered, is_repeatable, ta1_note};

use env_index::Interchange;
use hub_kinds::{InterchangeFault, note_text};
use moment::is_digits;
use x12_bytes::Header;

/// The note (X12.5, TA105) of the TA1 that an interchange from this sender is answered with; none where it isn't answered. It is
/// answered where its sender is a partner, its ISA13, ISA09 and ISA10 are digits, and it is refused, or its ISA14 is `1` and it has a
/// group.
pub fn ta1_note(
    sender: Option<usize>,
    fault: Option<InterchangeFault>,
    interchange: &Interchange<'_>,
) -> Option<&'static str>
    ensures { option_map (λ text. text.now) result ≡ ta1_note sender fault interchange.now }
{
    if is_answered(sender, fault, interchange) {
        note_text(fault)
    } else {
        None
    }
}

/// Whether an interchange from this sender is answered with a TA1.
fn is_answered(
    sender: Option<usize>,
    fault: Option<InterchangeFault>,
    interchange: &Interchange<'_>,
) -> bool
    ensures { result ≡ is_answered sender fault interchange.now }
{
    // Most ask for none, which costs less to see.
    sender.is_some()
        && (fault.is_some() || asks_for_ta1(interchange))
        && is_repeatable(interchange.header())
}

/// Whether what a TA1 repeats of a header is digits.
fn is_repeatable(header: &Header<'_>) -> bool
    ensures { result ≡ is_repeatable header.now }
{
    is_digits(header.field(13)) && is_digits(header.field(9)) && is_digits(header.field(10))
}

/// Whether an interchange with a group asks for a TA1.
fn asks_for_ta1(interchange: &Interchange<'_>) -> bool
    ensures { result ≡ asks_for_ta1 interchange.now }
{
    interchange.header().field(14) == b"1".as_slice() && interchange.group_count() >= 1
}
