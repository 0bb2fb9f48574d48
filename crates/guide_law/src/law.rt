ghost use Rattle.guide_tree.specs.Words.{GuideTree, Trees, with_slot_numbers, IsWellFormed};
ghost use Rattle.guide_law.specs.Law.{DerivedIsPlaced, PlacedIsDerived, IsPlacedOneWay, DerivedHasPlacing, UsesAreCounted};
ghost use Rattle.guide_law.specs.Law.{NextsAreExact, IsOnlyPlacing, PassIsGrammar, MembersAreFaults, FaultsAreKeyed};

/// In a guide without fault a body is derived exactly where its placing has no stray and no structural fault, and
/// then the derivation gives each segment the slot of its place; a derived body has a placing, a body has no two, and
/// in each placing, strays or not, the uses of a child are numbered from 0 without gaps. It does nothing: its contract
/// is the theorem.
pub fn placing_is_grammar()
    ensures derived { (g : GuideTree) → IsWellFormed g → DerivedIsPlaced g }
    ensures placed { (g : GuideTree) → IsWellFormed g → PlacedIsDerived g }
    ensures there { (g : GuideTree) → IsWellFormed g → DerivedHasPlacing g }
    ensures counted { (ts : Trees) → UsesAreCounted ts }
    ensures one { (g : GuideTree) → IsWellFormed g → IsPlacedOneWay g }
{}

/// In a guide without fault the candidates of `nexts` are exactly the places that may follow and lead to a slot, each
/// with its slot; the computed placing of a body is its one placing; the pass over it meets exactly its structural faults,
/// and none exactly where the body is derived. With numbered slots two structural faults of a body that have one place in
/// the order of faults are one. It does nothing: its contract is the theorem.
pub fn placing_is_computed()
    ensures nexts { (g : GuideTree) → IsWellFormed g → NextsAreExact g.nodes }
    ensures only { (g : GuideTree) → IsWellFormed g → IsOnlyPlacing g }
    ensures pass { (g : GuideTree) → IsWellFormed g → PassIsGrammar g }
    ensures members { (g : GuideTree) → IsWellFormed g → MembersAreFaults g }
    ensures keyed { (g : GuideTree) → FaultsAreKeyed (with_slot_numbers g) }
{}
