ghost use Rattle.std.specs.Prelude.{◌≡◌, true, IfOk, filter};
ghost use Rattle.std.specs.List.{All};
ghost use Rattle.system_io.specs.Words.{is_sign};

use clap::Error;
use hub_kinds::Text;
use std::alloc::{AllocError, Global};

/// The mistake that clap found in the arguments, in one line, as `unexpected argument '--al' found`: its text between the word in front
/// and the first empty line, without bytes that control a terminal.
pub fn mistake_found(alloc: Global, error: &Error) -> Result<Text, AllocError>
    ensures { IfOk result (λ line. All (λ byte. is_sign byte ≡ true) line) }
{
    let text = format!(in alloc; "{error}")?;
    in_one_line(alloc, mistake_in(text.as_str()).as_bytes())
}

fn mistake_in(text: &str) -> &str {
    let rest = text.strip_prefix("error: ").unwrap_or(text);
    match rest.split_once("\n\n") {
        Some((first, _)) => first,
        None => rest,
    }
}

/// A text without its line ends, and without other bytes that control a terminal.
pub fn in_one_line(alloc: Global, text: &[u8]) -> Result<Text, AllocError>
    ensures { IfOk result (λ line. line ≡ filter is_sign text.now) }
{
    let mut line = Vec::from_slice(alloc, text)?;
    line.retain(|byte| is_sign(*byte));
    Ok(Text::from_vec(line))
}

fn is_sign(byte: u8) -> bool
    ensures { result ≡ is_sign byte }
{
    32 <= byte && byte != 127
}
