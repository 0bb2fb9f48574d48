//! Texts that others chose, in a page of HTML.
//!
//! Proved: what is appended is the text with each byte that could begin or end markup, or a quoted value, as a character reference
//! (`append_html`), so that no byte of it is one of these (`texts_stay_texts`). A byte that controls a terminal is shown by its number;
//! lines keep all their bytes (`append_lines`).
//!
//! Source: HTML (WHATWG), character references in text and in quoted values of attributes.
//!
//! Tests: `.ci/find`.
#![tactic(auto)]

mod laws;
mod text;

pub use laws::texts_stay_texts;
pub use text::{append_html, append_lines};
