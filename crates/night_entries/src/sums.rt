ghost use Rattle.std.specs.Prelude.{◌≡◌, ◌==◌, ◌++◌, ◌∷◌, [], false, length, IfErr, IfOk};
ghost use Rattle.std.specs.List.{All, flat_map, position};
ghost use Rattle.hex.specs.Hex.{encode_lower};
ghost use Rattle.sha2.specs.Sha256.{sha256};
ghost use Rattle.night_entries.specs.Files.{sum_line};
ghost use Rattle.night_entries.specs.ReadFault.{IsSumFault};
ghost use Rattle.night_entries.specs.Good.{is_sum_line};
ghost use Rattle.night_entries.specs.Refused.{HasBadSum};

use crate::fault::{EntryFault, Paper};
use crate::files::NamedSum;
use hub_kinds::{NoMemory, Text, copy_text};
use sha2::{Digest, Sha256};
use std::alloc::Global;

/// How many digits a sum has.
const DIGITS: usize = 64;

/// How many spaces are between a sum and a name.
const SPACES: usize = 2;

const SUMS: EntryFault = EntryFault::Unreadable(Paper::Sums);

/// The sum of bytes: their SHA-256 in hexadecimal digits, as sha256sum prints it.
pub fn sum_of(alloc: Global, bytes: &[u8]) -> Result<Text, NoMemory>
    ensures { IfOk result (λ sum. sum ≡ encode_lower (sha256 bytes.now)) }
{
    let digest = Sha256::digest(bytes);
    let text = hex::encode(alloc, digest.as_slice())?;
    copy_text(alloc, text.as_bytes())
}

/// The end of the first line of a text, without its line feed.
fn line_end(text: &[u8]) -> Option<usize>
    ensures { result ≡ position (λ byte. byte == 10) text.now }
{
    text.iter().position(|byte| *byte == b'\n')
}

/// A line of sums, without its line feed.
#[tactic(auto, using(crate::proofs::Summing::line_is))]
fn sum_in(alloc: Global, line: &[u8]) -> Result<NamedSum, EntryFault>
    ensures line { IfOk result (λ sum. sum_line sum ≡ line.now ++ 10 ∷ []) }
    ensures sum { IfOk result (λ sum. length sum.sum ≡ 64) }
    ensures refused { IfErr result (IsSumFault (is_sum_line line.now ≡ false)) }
{
    if line.len() < DIGITS + SPACES {
        return Err(SUMS);
    }
    let (sum, rest) = line.split_at(DIGITS);
    let (spaces, name) = rest.split_at(SPACES);
    if spaces != b"  ".as_slice() {
        return Err(SUMS);
    }
    Ok(NamedSum {
        name: copy_text(alloc, name)?,
        sum: copy_text(alloc, sum)?,
    })
}

/// Reads sums: lines of a sum, two spaces and the name of a file, as sha256sum prints them.
pub fn read_sums(alloc: Global, text: &[u8]) -> Result<Vec<NamedSum>, EntryFault>
    ensures lines { IfOk result (λ sums. flat_map sum_line sums.items ≡ text.now) }
    ensures sums { IfOk result (λ sums. All (λ line. length line.sum ≡ 64) sums.items) }
    ensures refused { IfErr result (IsSumFault (HasBadSum text.now)) }
{
    let mut sums = Vec::new(alloc);
    let mut at = 0;
    while at < text.len() {
        let Some(end) = line_end(&text[at..]) else {
            return Err(SUMS);
        };
        sums.push(sum_in(alloc, &text[at..at + end])?)?;
        at += end + 1;
    }
    Ok(sums)
}
