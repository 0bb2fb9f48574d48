//! The trial of cuts: `trial_cuts FILE..` reads texts from files and prints of each whether its index by pieces (`index_of`, settled with
//! `judge`) is that of the text read front to back (`index_plain`), however it is cut and whatever marks there are. `trial_cuts N FILE..`
//! tries pieces of N bytes alone. Status 0 says that all are equal.
//!
//! A text is cut at each offset alone, twice, which leaves an empty piece there; at all offsets at once, twice each; and into
//! pieces of 1, 53 and 106 bytes. Of a text of 20,000 bytes or more the offsets that are taken alone are every this many: the square
//! of its length in tens of thousands of bytes, rounded down first; so the texts that are read for these have fewer than 400,000,000
//! bytes in all. Each time there are marks under the guessed pair, under that of another header, under one pair for all pieces, and
//! none; and the marks of all pieces under the first pair, gathered to one value.
//!
//! Proved: the trial is safe and ends, and it calls what it tries as the contracts ask for it: the headers of the pieces, gathered,
//! are those of the text, and so are the marks under one pair; each value is the marks of a stretch of the text. That the indexes are
//! equal is seen here, on files; it is proved in `env_index`.
#![tactic(auto)]

mod pieces;
mod same;
mod sweep;

use crate::sweep::{is_same_every, is_same_however_cut};
use hub_kinds::LONGEST_TEXT;
use std::alloc::Global;
use std::process::ExitCode;
use std::test::Fail;
use std::{env, fs};

fn main(rt: HostRuntime) -> Result<ExitCode, Fail> {
    let words = env::args(&rt)?.skip(1).collect::<Vec<String>>(rt.alloc())?;
    let piece = match words.first() {
        Some(word) => word.parse::<usize>().ok(),
        None => return Err("FILE..".into()),
    };
    let mut are_same = true;
    for word in &words {
        if word.parse::<usize>().is_ok() {
            continue;
        }
        let text = fs::read(&rt, word.as_str())?;
        let is_same = is_same(rt.alloc(), text.as_slice(), piece)?;
        println!(rt; "{word}: {}", if is_same { "equal" } else { "differs" })?;
        are_same = are_same && is_same;
    }
    Ok(ExitCode::from(if are_same { 0 } else { 1 }))
}

/// Whether a text has one index, in pieces of this many bytes, or else however it is cut.
fn is_same(alloc: Global, text: &[u8], piece: Option<usize>) -> Result<bool, Fail> {
    if text.len() as u64 > LONGEST_TEXT {
        return Err("too long".into());
    }
    match piece {
        Some(len) if len > 0 => is_same_every(alloc, text, len),
        _ => is_same_however_cut(alloc, text),
    }
}
