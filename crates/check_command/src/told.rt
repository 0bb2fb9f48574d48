ghost use Rattle.std.specs.Prelude.{◌≡◌};
ghost use Rattle.check_command.specs.Lines as lines;

use hub_kinds::{Text, Texts};

/// What a file lists.
#[derive(Clone, Copy, Debug, PartialEq, Eq)]
pub enum Listed {
    Slots,
    Partners,
    Counters,
}

/// What is reported of a file.
#[derive(Debug, Drop)]
pub enum Told {
    /// It is taken, has this many of what it lists, and these warnings, in words.
    Taken(u64, Listed, Texts),
    /// It is read, and isn't judged, since another file is refused.
    Open,
    /// It is refused: why, in words.
    Refused(Text),
}

impl Told {
    /// Whether it is taken.
    pub fn is_taken(&self) -> bool
        ensures { result ≡ lines.is_taken self.now }
    {
        match self {
            Told::Taken(_, _, _) => true,
            _ => false,
        }
    }

    /// Its warnings, in words.
    pub fn warnings(&self) -> &[Text]
        ensures { result.now ≡ lines.warnings_in self.now }
    {
        match self {
            Told::Taken(_, _, warnings) => warnings.as_slice(),
            _ => &[],
        }
    }
}

/// A file, by its path, and what is reported of it.
#[derive(Debug, Drop)]
pub struct FileTold<'a> {
    pub path: &'a str,
    pub told: Told,
}
