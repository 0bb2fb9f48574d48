//! What a hub writes down of a night: its record, and three tables. Each is written as a text, and read back.
//!
//! The record is `night.toml`: lines of `KEY = VALUE`, then the files that the night was made of and those that it gave, each with its
//! SHA-256, by their names in the order of bytes. If the names are UTF-8, a TOML reader takes this text too. `read_record` takes no
//! other layout. A name has one byte or more; it has no control byte, no quotation mark and no backslash. A record names the SHA-256
//! of the record before it, so a night that was changed, taken out or put back is seen.
//!
//! The tables are `taken.csv` (ISA05 to ISA08 and ISA13 of each interchange), `addresses.csv` (the next number of an interchange, a group
//! and a set, for each address in the order of bytes) and `from/again.csv` (the sets that the night was asked for again; empty if there is
//! none).
//!
//! Proved:
//! - `write_record` writes exactly the text of the definition; it refuses a record only if a part of it can't be, and names such a part;
//! - `read_record` gives the record whose text the bytes are; it refuses bytes only if they are the text of no record that can be. It
//!   names the first part that is wrong: the parts before it are right, and no record that can be begins with this part too;
//! - a text is that of one record, so reading what was written gives it back (`records_read_back`);
//! - `append_taken`, `append_addresses` and `append_again` write exactly the tables of the definitions; `read_taken`, `read_addresses` and
//!   `read_again` give the list whose table the bytes are, and refuse no table; a table is that of one list (`taken_reads_back`,
//!   `addresses_read_back`, `again_reads_back`).
//!
//! Source: X12.5, ISA05 to ISA08 and ISA13; X12.6, GS06 and ST02; RFC 4180; FIPS 180-4. What a record says is own.
#![tactic(auto)]

mod addresses;
mod again;
mod fault;
mod files;
mod head;
mod laws;
mod lines;
mod parts;
mod read;
mod record;
mod rows;
mod taken;
mod values;
mod write;

pub use addresses::{AddressNext, append_addresses, read_addresses};
pub use again::{AgainSet, append_again, read_again};
pub use fault::{Part, RecordFault, TableFault};
pub use laws::{addresses_read_back, again_reads_back, records_read_back, taken_reads_back};
pub use read::read_record;
pub use record::{NightRecord, SummedFile};
pub use taken::{TakenInterchange, append_taken, read_taken};
pub use write::write_record;
