ghost use Rattle.night_equal_read.specs.Known.{KnownTextsAreOne};
ghost use Rattle.night_equal_read.specs.Read.{BoxesAreRead, FileReferencesArePlain, ResponsesAreRead, Ta1sAreRead, VerdictsAreTrue};
ghost use Rattle.night_equal_read.specs.Read.{WholeNightsAreOne};

use night_equal_night::{checks_are_one, nights_are_one};
use night_equal_set::meetings_are_one;
use night_equal_text::{
    answers_follow, guides_are_one, interchanges_are_kept, nights_are_settled, set_numbers_are_one,
    sets_are_parts,
};
use night_equal_writing::{answers_are_one, codes_are_one, deliveries_are_one, texts_are_one};
use night_law::plain_references_are_quoted;

/// A theorem, with nothing to run: what is known of a text is what the definition answers to it.
pub fn known_texts_are_one()
    ensures { KnownTextsAreOne }
{
    checks_are_one();
    answers_follow();
    interchanges_are_kept();
    nights_are_settled();
    sets_are_parts();
    answers_are_one();
}

/// A theorem, with nothing to run: a partner finds in its mailbox just the sets that the definition delivers to it.
pub fn boxes_are_read()
    ensures { BoxesAreRead }
{
    known_texts_are_one();
    deliveries_are_one();
    texts_are_one();
}

/// A theorem, with nothing to run: a partner reads in its acknowledgments just the responses that the definition reports to it.
pub fn responses_are_read()
    ensures { ResponsesAreRead }
{
    known_texts_are_one();
    answers_are_one();
    codes_are_one();
    plain_references_are_quoted();
}

/// A theorem, with nothing to run: a partner reads in its acknowledgments just the TA1s that the definition gives it.
pub fn ta1s_are_read()
    ensures { Ta1sAreRead }
{
    known_texts_are_one();
    answers_are_one();
    codes_are_one();
    plain_references_are_quoted();
}

/// A theorem, with nothing to run: reference numbers that guide files give are digits or empty, so acknowledgments can be read.
pub fn file_references_are_plain()
    ensures { FileReferencesArePlain }
{}

/// A theorem, with nothing to run: the definition accepts a set exactly if it meets its guide.
pub fn verdicts_are_true()
    ensures { VerdictsAreTrue }
{
    checks_are_one();
    answers_follow();
    interchanges_are_kept();
    nights_are_settled();
    sets_are_parts();
    guides_are_one();
    set_numbers_are_one();
    meetings_are_one();
}

/// A theorem, with nothing to run: the night of a text, a sound setup and a moment is a night of the definition, and partners read it so.
pub fn whole_nights_are_one()
    ensures { WholeNightsAreOne }
{
    nights_are_one();
    verdicts_are_true();
    responses_are_read();
    ta1s_are_read();
    boxes_are_read();
}
