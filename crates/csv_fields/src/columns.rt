//! The columns of the table of a night's sets (own): the line of their names, and the place of each in a row, from 0. Each column that
//! something reads has its name here, and each place is counted from a column before it.
ghost use Rattle.std.specs.Prelude.{◌≡◌, length};
ghost use Rattle.csv_fields.specs.Columns.{column_line, column_names};

/// The interchange's place in the input, from 1.
pub const INTERCHANGE: usize = 0;

/// Where the interchange begins, in bytes from the start of the input.
pub const OFFSET: usize = INTERCHANGE + 1;

/// The sender's name.
pub const SENDER: usize = OFFSET + 1;

/// ISA13 as it was sent.
pub const ISA13: usize = SENDER + 1;

/// The number of the interchange's fault, if it is refused.
pub const FAULT: usize = ISA13 + 1;

/// The note of the TA1 that answers the interchange.
pub const TA1: usize = FAULT + 1;

/// GS01.
pub const GS01: usize = TA1 + 1;

/// GS06.
pub const GS06: usize = GS01 + 1;

/// GS02.
pub const GS02: usize = GS06 + 1;

/// GS03.
pub const GS03: usize = GS02 + 1;

/// The verdict on the group (999 guide, AK901).
pub const GROUP_VERDICT: usize = GS03 + 1;

/// The codes of the group (999 guide, AK905).
pub const GROUP_CODES: usize = GROUP_VERDICT + 1;

/// ST01.
pub const ST01: usize = GROUP_CODES + 1;

/// ST02.
pub const ST02: usize = ST01 + 1;

/// The number of the set's document.
pub const DOCUMENT: usize = ST02 + 1;

/// The verdict on the set (999 guide, IK501).
pub const VERDICT: usize = DOCUMENT + 1;

/// The codes of the set (999 guide, IK502).
pub const CODES: usize = VERDICT + 1;

/// The number of the set's faults.
pub const FAULTS: usize = CODES + 1;

/// The outcome of the set for its receiver.
pub const OUTCOME: usize = FAULTS + 1;

/// The byte for which the set is held.
pub const BYTE: usize = OUTCOME + 1;

/// The segment with the byte for which the set is held.
pub const SEGMENT: usize = BYTE + 1;

/// The receiver's name.
pub const RECEIVER: usize = SEGMENT + 1;

/// ISA13 of the receiver's mailbox; GS06 and ST02 there come after it.
pub const RECEIVER_ISA13: usize = RECEIVER + 1;

/// How many columns the table has.
pub const COLUMNS: usize = RECEIVER_ISA13 + 3;

/// The first line of a table: the names of its columns.
pub fn column_line() -> &'static [u8]
    ensures names { result.now ≡ column_line }
    ensures width { length column_names ≡ COLUMNS }
{
    b"interchange,offset,sender,isa13,fault,ta1,gs01,gs06,gs02,gs03,group_verdict,group_codes,st01,st02,document,verdict,codes,\
faults,outcome,byte,segment,receiver,receiver_isa13,receiver_gs06,receiver_st02\r\n"
}
