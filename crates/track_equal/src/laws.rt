ghost use Rattle.track_equal.specs.Table.{TracksAreOne};

use night_equal_night::checks_are_one;
use night_equal_text::{
    answers_follow, interchanges_are_kept, nights_are_settled, sets_are_parts, texts_are_indexes,
};
use night_equal_writing::{
    answers_are_one, codes_are_one, deliveries_are_one, texts_are_one, totals_are_one,
};

/// A theorem, with nothing to run: the table of the night of a text by a setup is the definition's.
pub fn tracks_are_one()
    ensures { TracksAreOne }
{
    checks_are_one();
    answers_follow();
    interchanges_are_kept();
    texts_are_indexes();
    nights_are_settled();
    sets_are_parts();
    texts_are_one();
    codes_are_one();
    answers_are_one();
    deliveries_are_one();
    totals_are_one();
}
