ghost use Rattle.std.specs.Prelude.{◌≡◌, ℕ, List};
ghost use Rattle.partner_setup.specs.Setup.{SetupValue};
ghost use Rattle.set_answers.specs.CheckedText.{CheckedInterchange};
ghost use Rattle.night_batches.specs.declared.night.Night.{Night};
ghost use Rattle.night_batches.specs.Night.{IsNightOf};
ghost use Rattle.night_batches.specs.Writing.{IsClosedBy, IsWrittenOf, WritingValue};

/// A theorem, with nothing to run: what was written of the interchanges of a text, closed, is the night of these interchanges (X12.5,
/// interchange; 999 guide, 005010X231).
pub fn writing_gives_the_night()
    ensures { (text : List ℕ) (setup : SetupValue) (at : List ℕ) (known : List CheckedInterchange) (w : WritingValue) (night : Night)
        → IsWrittenOf text setup at known w → IsClosedBy setup at w night → IsNightOf text setup at known w.outside night }
{}
