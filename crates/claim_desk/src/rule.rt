// The rule of the desk's word, and the names of its steps.
use atomic_table::{Join, Play, Split, TableRule};
use std::collections::LinkedList;

// What a seat knows of its desk and of itself. No value of it is made.
pub struct View {
    pub n: u64,
    pub seats: u64,
    pub got: LinkedList<u64>,
    pub weight: u64,
    pub ended: u64,
}

// The word counts the claims, and the jobs below it are each once in what the seats got.
pub struct InOrder;

impl TableRule<(), View, (u64, u64)> for InOrder {
    ghost use Rattle.claim_desk.specs.Rule.{Orderly, opened};

    ghost holds = { Orderly };

    ghost first = { opened };
}

// A claim adds 1 to the word; what the word was is the seat's next job, or past the last one, and the seat ends.
pub struct Claims;

impl Play<(), View> for Claims {
    ghost use Rattle.claim_desk.specs.Rule.{claimed};

    ghost then = { claimed };
}

// A look at the word changes nothing.
pub struct Looks;

impl Play<(), View> for Looks {
    ghost use Rattle.claim_desk.specs.Rule.{looked};

    ghost then = { looked };
}

// A seat gives 1 of its weight to a new one.
pub struct Cut;

impl Split<View> for Cut {
    ghost use Rattle.claim_desk.specs.Rule.{lighter, newcomer};

    ghost left = { lighter };

    ghost right = { newcomer };
}

// A seat takes over all that another one has.
pub struct Glue;

impl Join<View> for Glue {
    ghost use Rattle.claim_desk.specs.Rule.{joined, spent};

    ghost both = { joined };

    ghost spent = { spent };
}
