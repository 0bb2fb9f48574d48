ghost use Rattle.track_follows.specs.Laws.{TablesAreTracks};

use layers_exist::each_text_has_a_night;
use night_equal_night::checks_are_one;
use night_equal_text::{
    answers_follow, interchanges_are_kept, nights_are_settled, sets_are_parts, texts_are_indexes,
};
use night_equal_writing::{
    answers_are_one, codes_are_one, deliveries_are_one, texts_are_one, totals_are_one,
};

/// A theorem, with nothing to run: the definition's table of a text is what the layers describe, by a setup of accepted guides.
pub fn tables_are_tracks()
    ensures { TablesAreTracks }
{
    each_text_has_a_night();
    checks_are_one();
    answers_follow();
    interchanges_are_kept();
    texts_are_indexes();
    nights_are_settled();
    sets_are_parts();
    texts_are_one();
    codes_are_one();
    answers_are_one();
    deliveries_are_one();
    totals_are_one();
}
