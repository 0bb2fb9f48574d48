//! Names of files as others chose them: how they are read from the arguments of a program, and how they are printed.
//!
//! Proved: what is appended to a text, or written, is the name with each byte below 32, the byte 127, and each control character of 0x80
//! to 0x9F in UTF-8 as `\x1B`, and all other bytes as they are (`append_shown`, `print_shown`). Byte 0, which no name of a file has, isn't
//! shown. A delimiter is shown as it is if it is a printable character of ASCII, and otherwise by its number (`append_delimiter`).
//!
//! An argument is UTF-8, and then its text is the argument; or its text has each byte beyond ASCII by its number, and NUL at its end
//! (`text_of`, by which `arguments` makes each text). By that NUL an argument that isn't UTF-8 is known (`is_not_utf_8`).
//!
//! Only tested: that the arguments are those of the call, since no contract says what bytes the system gives (`arguments`).
//!
//! Source: own.
//!
//! Tests: `.ci/gather`, `tests/pages`.
#![tactic(auto)]

mod given;
mod shown;

pub use given::{arguments, is_not_utf_8};
pub use shown::{append_delimiter, append_shown, print_shown};
