ghost use Rattle.std.specs.Prelude.{◌≡◌, IfOk};
ghost use Rattle.hub_kinds.specs.Words.{contains_text};
ghost use Rattle.guide_tree.specs.Codes.{has, Knows};

use hub_kinds::{NoMemory, Text, Texts, contains_text};
use std::alloc::Global;
use std::collections::BTreeSet;
use std::marker::Model;

/// How many codes are looked at one by one: a search would cost more.
const FEW: usize = 8;

/// Code values (X12.6, code list) in their order, which contracts see as the list of them. Among many a text is searched.
#[derive(Debug, Drop)]
pub struct Codes {
    texts: Texts,
    /// These codes in order, where they are many.
    ordered: Option<BTreeSet<Vec<u8>>>,
}

impl Model for Codes {
    ghost use Rattle.std.specs.Prelude.{ℕ, List, IfSome};
    ghost use Rattle.guide_tree.specs.Codes.{Knows};

    ghost Value = { List (List ℕ) };

    ghost view = { λ c. c.texts };

    ghost invariant = { λ c. IfSome c.ordered (λ known. Knows known c.texts) };
}

impl Codes {
    ghost use Rattle.std.specs.Prelude.{◌≡◌, IfOk};
    ghost use Rattle.hub_kinds.specs.Words.{contains_text};

    /// The codes of a list. The only error is out of memory.
    pub fn new(alloc: Global, texts: Texts) -> Result<Codes, NoMemory>
        ensures { IfOk result (λ codes. codes ≡ texts) }
    {
        let ordered = if texts.as_slice().len() <= FEW {
            None
        } else {
            Some(set_of(alloc, texts.as_slice())?)
        };
        Ok(Codes { texts, ordered })
    }

    /// The codes, lent.
    pub fn as_slice(&self) -> &[Text]
        ensures { result.now ≡ self.now }
    {
        self.texts.as_slice()
    }

    /// Whether a text is one of them, byte for byte.
    pub fn contains(&self, text: &[u8]) -> bool
        ensures { result ≡ contains_text self.now text.now }
    {
        match &self.ordered {
            None => contains_text(self.texts.as_slice(), text),
            Some(known) => has(known, text),
        }
    }
}

fn has(known: &BTreeSet<Vec<u8>>, text: &[u8]) -> bool
    ensures { result ≡ has known.now text.now }
{
    known.contains(text)
}

/// Copies of texts, in order and each once.
fn set_of(alloc: Global, texts: &[Text]) -> Result<BTreeSet<Vec<u8>>, NoMemory>
    ensures { IfOk result (λ known. Knows known texts.now) }
{
    let mut known = BTreeSet::new(alloc);
    for i in 0..texts.len() {
        let copy = Vec::from_slice(alloc, texts[i].as_slice())?;
        known.insert(copy)?;
    }
    Ok(known)
}
