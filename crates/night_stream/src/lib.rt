//! The night of a stream that is read in windows: the interchanges that are whole by what is read are worked on as a batch, and their
//! bytes are dropped, before more is read. What is held is a window, what of an interchange is still open, and what is written. Theorems,
//! with nothing to run, say that a night that is worked on batch by batch is the night of the whole text: each batch is read as a separate
//! text, what is carried continues by each batch, and after the last one it gives the night of the whole text. Of earlier batches a batch
//! needs the numbers of their interchanges, and the acknowledgments that each partner is sent of them.
//!
//! Proved:
//! - where the reader declares its bytes, `stream_night` gives the night of all of them, read front to back, whatever the window;
//! - it refuses a stream as too long only where the reader declares more than 4,294,967,295 bytes, and gives no night of such a one;
//! - it answers that the stream can't be read exactly where the reader failed, or was interrupted too often in a row; no fault is taken
//!   for the end;
//! - what a set's check gives in a batch it gives in the whole text, with the same answer; the outcome of it for each receiver, and the
//!   bytes that are delivered of it, are the same too (`sets_are_placed_alike`);
//! - the lines of a batch's interchanges, in the whole text, are its lines at the offset of the batch;
//! - the lines and totals of interchanges and of others after them are those of both;
//! - what is counted of a batch, and which of its sets are delivered to a partner, is the same in the whole text (`reports_go_on`);
//! - the interchanges of a batch that are checked and answered are, moved by the bytes before the batch, those of the whole text,
//!   with the same standings; and those of two parts of a text join on (`batches_are_answered`);
//! - the faults 8 and 9 of a batch's interchanges follow from the numbers of the interchanges before it, whatever else is there;
//!   the numbers join on, and so does the index that is settled batch by batch (`faults_go_on`);
//! - acknowledgments don't say where an interchange is (`acknowledgments_go_on`);
//! - before any batch nothing is known, each batch moves what is known on, and after the last one it is what the definitions say of the
//!   whole text (`nights_go_on`);
//! - closed after the last batch it is the night of the whole text, byte for byte (`batches_give_the_night`).
//!
//! Source: X12.5, interchange, interchange sender and control numbers, and interchange acknowledgment (TA1); X12.6, functional group and
//! transaction set; 999 guide (005010X231). The report, and that a text comes as a stream and in batches, are own.
//!
//! Tests: `trial_nights`.
#![tactic(auto)]

mod answer_laws;
mod carried;
mod crew;
mod laws;
mod report_laws;
mod set_laws;
mod stopped;
mod stream;

pub use answer_laws::{acknowledgments_go_on, batches_are_answered, faults_go_on};
pub use crew::Crew;
pub use laws::{batches_give_the_night, nights_go_on};
pub use report_laws::reports_go_on;
pub use set_laws::sets_are_placed_alike;
pub use stopped::Stopped;
pub use stream::stream_night;
