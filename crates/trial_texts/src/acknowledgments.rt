//! The trial of x12_write and ack_999: headers, groups and acknowledgments written through their public calls, with the texts that
//! the standard and the 999 guide give for them. The expected bytes are written out by hand from the standard's tables, never taken
//! from the program.
//!
//! 999 guide (005010X231), ST, AK1, AK2, IK3, IK4, IK5, AK9 and SE; X12.5, interchange control
//! header and trailer, interchange acknowledgment (TA1); X12.6, functional group header and trailer.
mod copies;
mod faults;
mod groups;
mod interchanges;
mod reports;
mod samples;
mod texts;
