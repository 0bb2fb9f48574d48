ghost use Rattle.std.specs.Prelude.{◌≡◌, ◌≤◌, IfOk, length};
ghost use Rattle.std.specs.List.{list_all, position_or_len, prefix_len};
ghost use Rattle.guide_toml.specs.Tokens.{is_space, tokens_of, is_semicolon, is_code_byte, is_code};

use hub_kinds::{Items, Lent, NoMemory, Texts, copy_text};
use std::alloc::Global;

/// Where the first space is, or the text's length.
fn first_space(text: &[u8]) -> usize
    ensures at { result ≡ position_or_len is_space text.now }
    ensures within { result ≤ length text.now }
{
    for i in 0..text.len() {
        if text[i] == b' ' {
            return i;
        }
    }
    text.len()
}

/// The parts of a text between single spaces.
pub(crate) fn tokens_of(alloc: Global, text: &[u8]) -> Result<Vec<Lent<'_>>, NoMemory>
    ensures { IfOk result (λ v. v.items ≡ tokens_of text.now) }
{
    let mut tokens = Vec::new(alloc);
    let mut from = 0;
    loop {
        let (_, rest) = text.split_at(from);
        let end = first_space(rest);
        if end == rest.len() {
            tokens.push(Lent::new(rest))?;
            return Ok(tokens);
        }
        let (token, _) = rest.split_at(end);
        tokens.push(Lent::new(token))?;
        from += end + 1;
    }
}

fn is_semicolon(token: &Lent) -> bool
    ensures { result ≡ is_semicolon token.now }
{
    token.bytes() == b";".as_slice()
}

/// Where the first semicolon is, or the number of tokens.
pub(crate) fn first_semicolon(tokens: &[Lent]) -> usize
    ensures at { result ≡ position_or_len is_semicolon tokens.now }
    ensures within { result ≤ length tokens.now }
{
    for i in 0..tokens.len() {
        if is_semicolon(&tokens[i]) {
            return i;
        }
    }
    tokens.len()
}

fn is_code_byte(byte: u8) -> bool
    ensures { result ≡ is_code_byte byte }
{
    0x21 <= byte && byte <= 0x7e && !(byte == b'=' || byte == b'!' || byte == b';')
}

fn are_code_bytes(bytes: &[u8]) -> bool
    ensures { result ≡ list_all is_code_byte bytes.now }
{
    bytes.iter().all(|byte| is_code_byte(*byte))
}

/// Whether a token is a code.
pub(crate) fn is_code(token: &[u8]) -> bool
    ensures { result ≡ is_code token.now }
{
    1 <= token.len() && are_code_bytes(token)
}

/// Whether each token is a code.
pub(crate) fn are_codes(tokens: &[Lent]) -> bool
    ensures { result ≡ list_all is_code tokens.now }
{
    for token in tokens {
        if !is_code(token.bytes()) {
            return false;
        }
    }
    true
}

/// How many codes are in front.
pub(crate) fn code_count(tokens: &[Lent]) -> usize
    ensures count { result ≡ prefix_len is_code tokens.now }
    ensures within { result ≤ length tokens.now }
{
    for i in 0..tokens.len() {
        if !is_code(tokens[i].bytes()) {
            return i;
        }
    }
    tokens.len()
}

/// Copies of tokens.
pub(crate) fn texts_of(alloc: Global, tokens: &[Lent]) -> Result<Texts, NoMemory>
    ensures { IfOk result (λ t. t ≡ tokens.now) }
{
    let mut texts = Vec::new(alloc);
    for token in tokens {
        texts.push(copy_text(alloc, token.bytes())?)?;
    }
    Ok(Items::from_vec(texts))
}
