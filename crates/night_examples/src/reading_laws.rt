ghost use Rattle.night_examples.specs.Readings.{AskedFor, OneOrder};

/// In the night `one_order` the sender reads its response, and the receiver its order.
pub fn one_order_is_read()
    ensures { OneOrder }
{}

/// In the night `acknowledgment_asked_for` the sender reads the TA1 that its ISA14 asks for.
pub fn ta1_is_read()
    ensures { AskedFor }
{}
