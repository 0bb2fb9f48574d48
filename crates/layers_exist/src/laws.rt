ghost use Rattle.layers_exist.specs.Follow.{LayersFollow, NightsAreTheDefinitions};
ghost use Rattle.layers_exist.specs.Laws.{EachGroupHasItsAnswers, EachSetHasItsFaults, EachTextHasANight, EachTextHasAnIndex};
ghost use Rattle.layers_exist.specs.Laws.{FaultyGuidesAnswerNothing};

use env_index::envelope_is_there;
use night_equal_night::nights_are_one;
use night_equal_read::whole_nights_are_one;
use night_equal_set::{errors_are_one, rule_faults_are_one};

/// A theorem, with nothing to run: each text has an index.
pub fn each_text_has_an_index()
    ensures { EachTextHasAnIndex }
{
    envelope_is_there();
}

/// A theorem, with nothing to run: each set has its faults, by an accepted guide or by none.
pub fn each_set_has_its_faults()
    ensures { EachSetHasItsFaults }
{
    errors_are_one();
    rule_faults_are_one();
}

/// A theorem, with nothing to run: the groups of a sender's interchange have their answers, and so have their sets.
pub fn each_group_has_its_answers()
    ensures { EachGroupHasItsAnswers }
{
    each_set_has_its_faults();
}

/// A theorem, with nothing to run: a set has no answer by a guide with a fault, so the guides of a setup must be accepted.
pub fn faulty_guides_answer_nothing()
    ensures { FaultyGuidesAnswerNothing }
{}

/// A theorem, with nothing to run: each text has a night of the layers, by a setup of accepted guides and at any moment.
pub fn each_text_has_a_night()
    ensures { EachTextHasANight }
{
    each_text_has_an_index();
    each_group_has_its_answers();
}

/// A theorem, with nothing to run: the files that the definition gives for a text are a night of the layers.
pub fn layers_follow()
    ensures { LayersFollow }
{
    each_text_has_a_night();
    nights_are_one();
}

/// A theorem, with nothing to run: a night is one of the layers exactly if it is one of the definition.
pub fn nights_are_the_definitions()
    ensures { NightsAreTheDefinitions }
{
    layers_follow();
    whole_nights_are_one();
}
