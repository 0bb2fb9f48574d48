ghost use Rattle.night_equal_text.specs.Laws.{AnswersFollow, ContentsAreOne, FaultsAloneAreOne, FaultsAreOne, GroupCodesAreOne};
ghost use Rattle.night_equal_text.specs.Laws.{GuidesAreOne, InterchangesAreKept, NightsAreSettled, ReachesAreOne, RoutesAreOne};
ghost use Rattle.night_equal_text.specs.Laws.{SendersAreOne, SetNumbersAreOne, SetsAreParts, TextsAreIndexes};

/// A theorem, with nothing to run: an interchange has its segments and its end.
pub fn reaches_are_one()
    ensures { ReachesAreOne }
{}

/// A theorem, with nothing to run: what is read of segments is the tree that they derive.
pub fn contents_are_one()
    ensures { ContentsAreOne }
{}

/// A theorem, with nothing to run: what the index keeps of an interchange is what is read of it.
pub fn interchanges_are_kept()
    ensures { InterchangesAreKept }
{}

/// A theorem, with nothing to run: the interchanges of a text are those of its index, and so is the number of bytes outside.
pub fn texts_are_indexes()
    ensures { TextsAreIndexes }
{}

/// A theorem, with nothing to run: the faults 1 to 7 of an interchange are those of its entry.
pub fn faults_are_one()
    ensures { FaultsAreOne }
{}

/// A theorem, with nothing to run: a header names the same sender.
pub fn senders_are_one()
    ensures { SendersAreOne }
{}

/// A theorem, with nothing to run: sets go to the same partners.
pub fn routes_are_one()
    ensures { RoutesAreOne }
{}

/// A theorem, with nothing to run: a set is asked for by the same guide.
pub fn guides_are_one()
    ensures { GuidesAreOne }
{}

/// A theorem, with nothing to run: the faults 1 to 8 of an interchange are those of its entry.
pub fn faults_alone_are_one()
    ensures { FaultsAloneAreOne }
{}

/// A theorem, with nothing to run: the faults 1 to 9 of a text are those of its settled index.
pub fn nights_are_settled()
    ensures { NightsAreSettled }
{}

/// A theorem, with nothing to run: each set of a text is the one that is checked in its span.
pub fn sets_are_parts()
    ensures { SetsAreParts }
{}

/// A theorem, with nothing to run: a set's ST02 is an earlier set's alike.
pub fn set_numbers_are_one()
    ensures { SetNumbersAreOne }
{}

/// A theorem, with nothing to run: a group has the same codes.
pub fn group_codes_are_one()
    ensures { GroupCodesAreOne }
{}

/// A theorem, with nothing to run: groups are answered alike, once sets are.
pub fn answers_follow()
    ensures { AnswersFollow }
{}
