//! The tables of a file, and their keys.
ghost use Rattle.std.specs.Prelude.{◌≡◌, map};
ghost use Rattle.hub_kinds.specs.Words.{contains_text};

/// A table of a guide file, a setup file or a counters file, by what it writes.
#[derive(Clone, Copy, Debug, PartialEq, Eq)]
pub enum KeyTable {
    Setup,
    Hub,
    Partner,
    Route,
    Counters,
    Counter,
    Guide,
    Hierarchy,
    Dependency,
    Node,
}

/// Why a key is refused.
#[derive(Clone, Copy, Debug, PartialEq, Eq)]
pub enum KeyFault {
    Missing,
    WrongKind,
    Unknown,
}

impl KeyTable {
    ghost use Rattle.std.specs.Prelude.{◌≡◌, map};
    ghost use Rattle.key_errors.specs.KeyTables.{keys_of};

    /// The keys that such a table may have.
    pub(crate) fn keys(self) -> &'static [&'static str]
        ensures { map (λ key. key.now) result.now ≡ keys_of self }
    {
        match self {
            KeyTable::Setup => &["hub", "partner", "route"],
            KeyTable::Hub => &["qualifier", "id", "code", "usage"],
            KeyTable::Partner => &[
                "name",
                "qualifier",
                "id",
                "code",
                "element",
                "component",
                "repetition",
                "terminator",
                "cap",
                "guides",
            ],
            KeyTable::Route => &["code", "to"],
            KeyTable::Counters => &["version", "counter"],
            KeyTable::Counter => &["partner", "interchange", "group", "set"],
            KeyTable::Guide => &[
                "name",
                "group",
                "set",
                "version",
                "convention",
                "dictionary",
                "tolerate_segment",
                "tolerate_element",
                "hl",
                "depends",
                "nodes",
            ],
            KeyTable::Hierarchy => &["pairs", "sequential"],
            KeyTable::Dependency => &["kind", "slot", "at", "codes", "target", "element"],
            KeyTable::Node => &[
                "seg",
                "loop",
                "min",
                "max",
                "label",
                "pick",
                "elements",
                "conditions",
                "nodes",
            ],
        }
    }
}

pub(crate) fn is_among(keys: &[&str], key: &[u8]) -> bool
    ensures { result ≡ contains_text (map (λ own. own.now) keys.now) key.now }
{
    for own in keys {
        if own.as_bytes() == key {
            return true;
        }
    }
    false
}
