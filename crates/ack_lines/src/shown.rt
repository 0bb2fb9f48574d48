ghost use Rattle.std.specs.Prelude.{◌≡◌, ◌++◌, ◌∷◌, [], OnOk, map, option_map, take};
ghost use Rattle.ack_lines.specs.Shown as shown;

use hub_kinds::NoMemory;

/// How many bytes of a text are shown.
const SHOWN_BYTES: usize = 99;

/// A byte that prints, or else a question mark.
fn shown_byte(byte: u8) -> u8
    ensures { result ≡ shown.shown_byte byte }
{
    if 32 <= byte && byte <= 126 {
        byte
    } else {
        b'?'
    }
}

/// Appends `bytes` to `out`, each as it is shown.
fn append_bytes(out: &mut Vec<u8>, bytes: &[u8]) -> Result<(), NoMemory>
    ensures { OnOk result (out.new.items ≡ out.old.items ++ map shown.shown_byte bytes.now) }
{
    for byte in bytes {
        out.push(shown_byte(*byte))?;
    }
    Ok(())
}

/// As many bytes of a text as are shown.
#[tactic(auto, using(std::proofs::lemmas::List::take_min))]
fn front_of(text: &[u8]) -> &[u8]
    ensures { result.now ≡ take 99 text.now }
{
    &text[..SHOWN_BYTES.min(text.len())]
}

/// Appends `text` to `out` as it is shown: not more of it than a copy has, and no byte that doesn't print.
fn append_shown(out: &mut Vec<u8>, text: &[u8]) -> Result<(), NoMemory>
    ensures { OnOk result (out.new.items ≡ out.old.items ++ shown.shown text.now) }
{
    append_bytes(out, front_of(text))
}

/// Appends `sentence` to `out`, with the next of `values` for each `_`, as it is shown.
#[tactic(auto, unfolding(crate::specs::Shown::filled))]
fn append_filled(out: &mut Vec<u8>, sentence: &str, values: &[&[u8]]) -> Result<(), NoMemory>
    ensures { OnOk result (out.new.items ≡ out.old.items ++ shown.filled sentence.now (map (λ v. v.now) values.now)) }
{
    let mut left = sentence.as_bytes();
    let mut more = values;
    while let [byte, rest @ ..] = left {
        match more {
            [value, others @ ..] if *byte == b'_' => {
                append_shown(out, value)?;
                more = others;
            }
            _ => out.push(*byte)?,
        }
        left = rest;
    }
    Ok(())
}

/// Appends `sentence` to `out` with `value` for its `_`.
pub(crate) fn append_one(out: &mut Vec<u8>, sentence: &str, value: &[u8]) -> Result<(), NoMemory>
    ensures { OnOk result (out.new.items ≡ out.old.items ++ shown.filled sentence.now (value.now ∷ [])) }
{
    append_filled(out, sentence, &[value])
}

/// Appends `sentence` to `out` with `first` and `second` for its two `_`.
pub(crate) fn append_two<'v>(
    out: &mut Vec<u8>,
    sentence: &str,
    first: &'v [u8],
    second: &'v [u8],
) -> Result<(), NoMemory>
    ensures { OnOk result (out.new.items ≡ out.old.items ++ shown.filled sentence.now (first.now ∷ second.now ∷ [])) }
{
    append_filled(out, sentence, &[first, second])
}

/// Appends `sentence` to `out` with `first`, `second` and `third` for its three `_`.
pub(crate) fn append_three<'v>(
    out: &mut Vec<u8>,
    sentence: &str,
    first: &'v [u8],
    second: &'v [u8],
    third: &'v [u8],
) -> Result<(), NoMemory>
    ensures { OnOk result (out.new.items ≡ out.old.items
        ++ shown.filled sentence.now (first.now ∷ second.now ∷ third.now ∷ [])) }
{
    append_filled(out, sentence, &[first, second, third])
}

/// Appends `sentence` with `value` for its `_` to `out`, if `value` isn't empty.
pub(crate) fn append_if(out: &mut Vec<u8>, sentence: &str, value: &[u8]) -> Result<(), NoMemory>
    ensures { OnOk result (out.new.items ≡ out.old.items ++ shown.filled_if sentence.now value.now) }
{
    if value.is_empty() {
        return Ok(());
    }
    append_one(out, sentence, value)
}

/// Appends `sentence` with `name` for its `_` to `out`, if there is a name.
pub(crate) fn append_name(
    out: &mut Vec<u8>,
    sentence: &str,
    name: Option<&[u8]>,
) -> Result<(), NoMemory>
    ensures { OnOk result (out.new.items ≡ out.old.items
        ++ shown.name_said sentence.now (option_map (λ t. t.now) name.entry)) }
{
    match name {
        None => Ok(()),
        Some(name) => append_if(out, sentence, name),
    }
}

/// Appends `text` to `out` as it is.
pub(crate) fn append_text(out: &mut Vec<u8>, text: &str) -> Result<(), NoMemory>
    ensures { OnOk result (out.new.items ≡ out.old.items ++ text.now) }
{
    out.extend_from_slice(text.as_bytes())?;
    Ok(())
}
