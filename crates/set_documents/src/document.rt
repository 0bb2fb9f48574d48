ghost use Rattle.std.specs.Prelude.{◌≡◌, option_copied};
ghost use Rattle.set_documents.specs.Documents.{document_for, document_number};

use std::marker::Model;
use x12_segs::Segments;

/// Which element is shown as the number of a set's document: of the sets with this ST01 this element of the first segment with this id
/// (own; X12.6, transaction set).
#[derive(Debug, Drop)]
pub struct Document<'d> {
    set: &'d [u8],
    segment: &'d [u8],
    element: usize,
}

impl<'d> Model for Document<'d> {
    ghost use Rattle.std.specs.Prelude.{◌≤◌};
    ghost use Rattle.set_documents.specs.Documents.{DocumentValue};

    ghost Value = { DocumentValue };

    ghost view = { λ d. record { set = d.set.now; segment = d.segment.now; element = d.element } };

    ghost invariant = { λ d. 1 ≤ d.element };
}

impl<'d> Document<'d> {
    ghost use Rattle.std.specs.Prelude.{◌≡◌, ◌≤◌};
    ghost use Rattle.std.specs.Str.{bytes_eq};
    ghost use Rattle.set_documents.specs.Documents.{number_in};

    /// The element with this number, counted from 1, of the first segment with this id, in sets with this ST01.
    pub fn new(set: &'d [u8], segment: &'d [u8], element: usize) -> Document<'d>
        requires { 1 ≤ element }
        ensures { result ≡ record { set = set.entry.now; segment = segment.entry.now; element = element } }
    {
        Document {
            set,
            segment,
            element,
        }
    }

    /// Whether it is for sets with this ST01.
    fn is_for(&self, identifier: &[u8]) -> bool
        ensures { result ≡ bytes_eq self.now.set identifier.now }
    {
        self.set == identifier
    }

    /// The number in these segments; nothing where none has the id.
    fn number_in<'a>(&self, segments: Segments<'a>) -> &'a [u8]
        ensures { result.now ≡ number_in self.now segments.entry }
    {
        for segment in segments {
            if segment.id() == self.segment {
                return segment.element(self.element);
            }
        }
        b""
    }
}

/// The first of these that is for sets with this ST01.
fn document_for<'x, 'd>(
    documents: &'x [Document<'d>],
    identifier: &[u8],
) -> Option<&'x Document<'d>>
    ensures { option_copied result ≡ document_for documents.entry.now identifier.now }
{
    for document in documents {
        if document.is_for(identifier) {
            return Some(document);
        }
    }
    None
}

/// The number of the document of a set with this ST01, as written in these segments of it; nothing where no element is named for such
/// sets, or this one has none.
pub fn document_number<'a>(
    documents: &[Document<'_>],
    identifier: &[u8],
    segments: Segments<'a>,
) -> &'a [u8]
    ensures { result.now ≡ document_number documents.now identifier.now segments.entry }
{
    match document_for(documents, identifier) {
        None => b"",
        Some(document) => document.number_in(segments),
    }
}
