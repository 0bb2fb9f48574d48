use thiserror::Error;

/// Why a file isn't read.
#[derive(Debug, Drop, Error)]
pub enum FileFault {
    /// The bytes are no TOML table.
    #[error("no TOML table")]
    NotToml,
    /// A key that must be there isn't.
    #[error("{0} is missing")]
    Missing(&'static str),
    /// What is at a key has another type or form.
    #[error("{0} has another type or form")]
    WrongKind(&'static str),
    /// A key isn't listed.
    #[error("{0} is no key of its table")]
    Unknown(String),
    /// Memory was asked for and refused.
    #[error("no memory")]
    NoMemory,
}

impl FileFault {
    ghost use Rattle.std.specs.Prelude.{◌≡◌};
    ghost use Rattle.toml_keys.specs.Answers.{refusal_number};

    /// The number of the refusal.
    pub fn number(&self) -> u32
        ensures { result ≡ refusal_number self.now }
    {
        match self {
            FileFault::NotToml => 1,
            FileFault::Missing(_) => 2,
            FileFault::WrongKind(_) => 3,
            FileFault::Unknown(_) => 4,
            FileFault::NoMemory => 5,
        }
    }
}
