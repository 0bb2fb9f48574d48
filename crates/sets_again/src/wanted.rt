ghost use Rattle.std.specs.Prelude.{◌≡◌};

/// Which sets of a night go in again.
#[derive(Clone, Copy, Debug, PartialEq, Eq)]
pub enum Wanted {
    /// Those that were held for want of a route.
    HeldForRoute,
    /// Those that were rejected.
    Rejected,
}

impl Wanted {
    ghost use Rattle.std.specs.Prelude.{◌≡◌};
    ghost use Rattle.sets_again.specs.Rows.{words_of};

    /// The outcome of these sets, as the table has it.
    pub(crate) fn words(self) -> &'static [u8]
        ensures { result.now ≡ words_of self }
    {
        match self {
            Wanted::HeldForRoute => b"held route",
            Wanted::Rejected => b"rejected",
        }
    }
}
