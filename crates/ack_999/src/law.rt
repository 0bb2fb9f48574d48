ghost use Rattle.ack_999.specs.Rising.{TellsEachPosition};

/// What is reported of faults that are in their order, each once: at each position an IK3 for each structural fault, and
/// for all its element faults together one IK3 with code 8 and the IK4s after it, at the place of that code.
pub fn each_position_is_told()
    ensures { TellsEachPosition }
{}
