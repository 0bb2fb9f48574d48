ghost use Rattle.std.specs.Prelude.{IfErr};
ghost use Rattle.hub_folder.specs.Failure.{IsBefore};

use crate::failure::Failure;
use night_review::ReviewFault;

/// What was read of the clock, or the failure of a hub in place of `text`.
pub fn clock_text(text: Result<String, ReviewFault>) -> Result<String, Failure>
    ensures before { IfErr result IsBefore }
{
    match text {
        Ok(text) => Ok(text),
        Err(ReviewFault::Memory) => Err(Failure::Memory),
        Err(_) => Err(Failure::Clock),
    }
}
