ghost use Rattle.track_examples.specs.TableCutOffResentAndSentAgain.{Computes as CutOffResentAndSentAgain};
ghost use Rattle.track_examples.specs.TableElementsWrong.{Computes as ElementsWrong};
ghost use Rattle.track_examples.specs.TableHeldWithoutARoute.{Computes as HeldWithoutARoute};
ghost use Rattle.track_examples.specs.TableNumbersBeginAgain.{Computes as NumbersBeginAgain};
ghost use Rattle.track_examples.specs.TableReceivedAcknowledgments.{Computes as ReceivedAcknowledgments};
ghost use Rattle.track_examples.specs.TableSetNumberTwice.{Computes as SetNumberTwice};
ghost use Rattle.track_examples.specs.TableTwoPartners.{Computes as TwoPartners};
ghost use Rattle.track_examples.specs.TableTwoReceiversAndOneHeld.{Computes as TwoReceiversAndOneHeld};

/// The table of the night `cut_off_resent_and_sent_again`, computed by the definition.
pub fn cut_off_resent_and_sent_again()
    ensures { CutOffResentAndSentAgain }
{}

/// The table of the night `elements_wrong`, computed by the definition.
pub fn elements_wrong()
    ensures { ElementsWrong }
{}

/// The table of the night `held_without_a_route`, computed by the definition.
pub fn held_without_a_route()
    ensures { HeldWithoutARoute }
{}

/// The table of the night `numbers_begin_again`, computed by the definition.
pub fn numbers_begin_again()
    ensures { NumbersBeginAgain }
{}

/// The table of the night `received_acknowledgments`, computed by the definition.
pub fn received_acknowledgments()
    ensures { ReceivedAcknowledgments }
{}

/// The table of the night `set_number_twice`, computed by the definition.
pub fn set_number_twice()
    ensures { SetNumberTwice }
{}

/// The table of the night `two_partners`, computed by the definition.
pub fn two_partners()
    ensures { TwoPartners }
{}

/// The table of the night `two_receivers_and_one_held`, computed by the definition.
pub fn two_receivers_and_one_held()
    ensures { TwoReceiversAndOneHeld }
{}
