ghost use Rattle.cut_plan.specs.Plan.{Plan, IsPlan, PiecesAreTheText};

/// A theorem, with nothing to run: the pieces of a text, one after another, are the text.
pub fn pieces_are_the_text()
    ensures { (plan : Plan) → IsPlan plan → PiecesAreTheText plan }
{}
