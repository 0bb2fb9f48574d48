ghost use Rattle.night_equal_night.specs.Answers.{AnswersAreOne};
ghost use Rattle.night_equal_night.specs.Night.{NightsAreOne};
ghost use Rattle.night_equal_text.specs.Answered.{ChecksAreOne};

use night_equal_faults::faults_are_one;
use night_equal_set::{set_codes_are_one, verdicts_are_one};
use night_equal_text::{
    answers_follow, interchanges_are_kept, nights_are_settled, sets_are_parts, texts_are_indexes,
};
use night_equal_writing::{boxes_are_one, deliveries_are_one, texts_are_one, totals_are_one};

/// A theorem, with nothing to run: a set that was checked is answered alike.
pub fn checks_are_one()
    ensures { ChecksAreOne }
{
    faults_are_one();
    set_codes_are_one();
    verdicts_are_one();
}

/// A theorem, with nothing to run: the groups and sets of an interchange are answered alike.
pub fn answers_are_one()
    ensures { AnswersAreOne }
{
    checks_are_one();
    answers_follow();
}

/// A theorem, with nothing to run: the night of a text, a sound setup and a moment is the definition's.
pub fn nights_are_one()
    ensures { NightsAreOne }
{
    checks_are_one();
    answers_follow();
    interchanges_are_kept();
    texts_are_indexes();
    nights_are_settled();
    sets_are_parts();
    texts_are_one();
    night_equal_writing::answers_are_one();
    deliveries_are_one();
    boxes_are_one();
    totals_are_one();
}
