use guide_tree::GuideFault;
use thiserror::Error;
use toml_keys::FileFault;

/// Why a guide file isn't read. A key is in a node, which is named by the slot number that it would have in the guide: from 1, a
/// loop before what is in it, up to 4,294,967,295; 0 means the top table, `hl` and `depends`.
#[derive(Debug, Drop, Error)]
pub enum GuideFileFault {
    /// The bytes are no TOML table.
    #[error("no TOML table")]
    NotToml,
    /// A key that must be there isn't, in the node of a number.
    #[error("{0} is missing")]
    Missing(&'static str, u32),
    /// What is at a key has another type or form, in the node of a number.
    #[error("{0} has another type or form")]
    WrongKind(&'static str, u32),
    /// A key isn't listed, in the node of a number.
    #[error("{0} is no key of its table")]
    Unknown(String, u32),
    /// The guide is refused.
    #[error("{0:?}")]
    Guide(GuideFault),
    /// Memory was asked for and refused.
    #[error("no memory")]
    NoMemory,
}

impl GuideFileFault {
    ghost use Rattle.std.specs.Prelude.{◌≡◌};
    ghost use Rattle.guide_toml.specs.Refusals.{placed_at, refusal_number};

    /// The number of the refusal; that of a guide's own fault is `GuideFault::number`.
    pub fn number(&self) -> u32
        ensures { result ≡ refusal_number self.now }
    {
        match self {
            GuideFileFault::NotToml => 1,
            GuideFileFault::Missing(_, _) => 2,
            GuideFileFault::WrongKind(_, _) => 3,
            GuideFileFault::Unknown(_, _) => 4,
            GuideFileFault::Guide(_) => 5,
            GuideFileFault::NoMemory => 6,
        }
    }

    /// This fault in the node of a number.
    pub(crate) fn at(self, slot: u32) -> GuideFileFault
        ensures { result ≡ placed_at slot self }
    {
        match self {
            GuideFileFault::Missing(key, _) => GuideFileFault::Missing(key, slot),
            GuideFileFault::WrongKind(key, _) => GuideFileFault::WrongKind(key, slot),
            GuideFileFault::Unknown(key, _) => GuideFileFault::Unknown(key, slot),
            other => other,
        }
    }
}

impl From<FileFault> for GuideFileFault {
    ghost use Rattle.std.specs.Prelude.{◌≡◌};
    ghost use Rattle.toml_keys.specs.Answers as file;
    ghost use Rattle.guide_toml.specs.Answers.{meaning_of};

    ghost from_gives = { λ fault made. meaning_of made ≡ file.meaning_of fault };

    fn from(fault: FileFault) -> GuideFileFault {
        match fault {
            FileFault::NotToml => GuideFileFault::NotToml,
            FileFault::Missing(key) => GuideFileFault::Missing(key, 0),
            FileFault::WrongKind(key) => GuideFileFault::WrongKind(key, 0),
            FileFault::Unknown(key) => GuideFileFault::Unknown(key, 0),
            FileFault::NoMemory => GuideFileFault::NoMemory,
        }
    }
}
