//! The trial of streams and of the program's two ends to the system: up to where interchanges are whole in what is read of a text
//! (whole_interchanges), byte by byte and window by window; the reader of a stream (stream_read) over sources that are interrupted and that
//! fail (`sources`); and (system_io) readers that fail, and a drive whose calls fail in turn, and which reports what was closed before
//! it was kept (`drive`). It has no code of the program.
//!
//! X12.5, interchange control header and trailer, and interchange; the ends are own.
#![tactic(auto)]

#[cfg(test)]
mod begins;
pub mod drive;
#[cfg(test)]
mod drive_tests;
#[cfg(test)]
mod outside;
pub mod parts;
#[cfg(test)]
mod reading;
pub mod sources;
#[cfg(test)]
mod texts;
#[cfg(test)]
mod wholes;
#[cfg(test)]
mod windows;
