ghost use Rattle.std.specs.Prelude.{List, Option};
ghost use Rattle.guide_tree.specs.Words.{Place, Segment, Trees};
ghost use Rattle.loop_match.specs.PlacedSegments.{AreInOrder, AreThoseWithPlaces, placed_segments};

/// The placed segments of a body are exactly those that have a place which leads to a slot, in the order of the body, and no stray is
/// among them. It does nothing: its contract is the theorem.
pub fn placed_segments_have_places()
    ensures members { (ts : Trees) (body : List Segment) (given : List (Option Place)) → AreThoseWithPlaces ts body given }
    ensures order { (ts : Trees) (body : List Segment) (given : List (Option Place)) → AreInOrder (placed_segments ts body given) }
{}
