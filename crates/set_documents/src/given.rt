ghost use Rattle.std.specs.Prelude.{◌≡◌, ◌++◌, drop, map, option_map, take, IfOk, OnOk};
ghost use Rattle.set_documents.specs.Given as given;

use crate::document::Document;
use hub_kinds::{NoMemory, is_alphanumeric, is_segment_id, read_number};
use std::alloc::Global;

/// At most this many of the first bytes of a text.
fn front_of(text: &[u8], most: usize) -> &[u8]
    ensures { result.now ≡ take most text.entry.now }
{
    &text[..most.min(text.len())]
}

/// The bytes of a text after this many.
fn behind(text: &[u8], count: usize) -> &[u8]
    ensures { result.now ≡ drop count text.entry.now }
{
    &text[count.min(text.len())..]
}

/// The element with this number, where it has one.
fn document_by<'a>(set: &'a [u8], segment: &'a [u8], element: Option<u64>) -> Option<Document<'a>>
    ensures { result ≡ given.document_by set.entry.now segment.entry.now element }
{
    match element {
        None => None,
        Some(element) => {
            if 1 <= element {
                Some(Document::new(set, segment, element as usize))
            } else {
                None
            }
        }
    }
}

/// What a text names, as `850=BEG03`: three letters or digits, `=`, the id of a segment and two digits; nothing where it has another form.
pub fn document_of(text: &[u8]) -> Option<Document<'_>>
    ensures { result ≡ given.document_of text.entry.now }
{
    let names = text.len().saturating_sub(2);
    let set = front_of(text, 3);
    let segment = behind(front_of(text, names), 4);
    if is_alphanumeric(set, 3, 3)
        && front_of(behind(text, 3), 1) == b"=".as_slice()
        && is_segment_id(segment)
    {
        document_by(set, segment, read_number(behind(text, names), 2))
    } else {
        None
    }
}

/// Adds the usual ones.
fn add_usual(documents: &mut Vec<Document<'_>>) -> Result<(), NoMemory>
    ensures { OnOk result (documents.new.items ≡ documents.old.items ++ given.usual) }
{
    documents.push(Document::new(b"810", b"BIG", 2))?;
    documents.push(Document::new(b"846", b"BIA", 3))?;
    documents.push(Document::new(b"850", b"BEG", 3))?;
    documents.push(Document::new(b"855", b"BAK", 3))?;
    documents.push(Document::new(b"856", b"BSN", 2))?;
    documents.push(Document::new(b"860", b"BCH", 3))?;
    Ok(())
}

/// What these texts name, and after it the usual ones; none where one of them names nothing.
fn documents_of<'a>(alloc: Global, texts: &[&'a str]) -> Result<Option<Vec<Document<'a>>>, NoMemory>
    ensures { IfOk result (λ found. option_map (λ v. v.items) found ≡ given.documents_of (map (λ t. t.now) texts.now)) }
{
    let mut found = Vec::new(alloc);
    for text in texts {
        match document_of(text.as_bytes()) {
            None => return Ok(None),
            Some(document) => found.push(document)?,
        }
    }
    add_usual(&mut found)?;
    Ok(Some(found))
}

/// Which elements are shown where these texts are given, if any are: what they name, in their order, and after that the usual ones (the
/// first for an ST01 counts); none where one of them names nothing. The only error is out of memory.
pub fn documents_given<'a>(
    alloc: Global,
    texts: Option<&[&'a str]>,
) -> Result<Option<Vec<Document<'a>>>, NoMemory>
    ensures { IfOk result (λ found. option_map (λ v. v.items) found
        ≡ given.documents_given (option_map (λ ts. map (λ t. t.now) ts.now) texts.entry)) }
{
    match texts {
        None => documents_of(alloc, &[]),
        Some(texts) => documents_of(alloc, texts),
    }
}
