ghost use Rattle.std.specs.Prelude.{◌≡◌, ℕ, Bool, List, true};
ghost use Rattle.x12_bytes.specs.Header.{header_delims, header_at};
ghost use Rattle.x12_bytes.specs.HeaderTest.{is_head};
ghost use Rattle.x12_segs.specs.Words.{SegValue, kind_of};
ghost use Rattle.env_index.specs.Envelope.{Body, DerivesInterchange};
ghost use Rattle.x12_segs.specs.declared.kind.Kind.{Kind};
ghost use Rattle.env_index.specs.Mapped.{EndsWithTrailer, KeepsKinds, MapsTrees, MapsTreesBack};
ghost use Rattle.env_index.specs.Ends.{EndsLeast};
ghost use Rattle.env_index.specs.Extents.{Extent, Chain, reach_at};
ghost use Rattle.env_index.specs.Index.{IndexValue, IsIndex};
ghost use Rattle.env_index.specs.Unjudged.{IsUnjudged, JudgedIs, JudgedIsIndex};
ghost use Rattle.env_index.specs.IndexPlaces.{PlacesAreIndexPlaces};
ghost use Rattle.env_index.specs.Spans.{SetStandsAlone, EachSetIn};

/// A theorem, with nothing to run: the segments of an interchange derive at most one tree of envelopes
/// (X12.5, interchange; X12.6, functional group and transaction set).
pub fn envelope_is_one()
    ensures { (segs : List SegValue) (a b : Body SegValue) → DerivesInterchange kind_of segs a → DerivesInterchange kind_of segs b → a ≡ b }
{}

/// A theorem, with nothing to run: whatever is after a header, its segments up to the interchange's
/// end derive a tree of envelopes.
pub fn envelope_is_there()
    ensures { (text : List ℕ) (start : ℕ) → (tree : Body SegValue) × DerivesInterchange kind_of (reach_at text start).segs tree }
{}

/// A theorem, with nothing to run: whatever segments are held as, they derive at most one tree of envelopes,
/// and they derive one exactly where no segment is after an IEA (X12.5, interchange).
pub fn envelope_is_of_kinds<X>()
    ensures one { (kind : X → Kind) (segs : List X) (a b : Body X) → DerivesInterchange kind segs a → DerivesInterchange kind segs b → a
        ≡ b }
    ensures there { (kind : X → Kind) (segs : List X) → EndsWithTrailer kind segs → (tree : Body X) × DerivesInterchange kind segs tree }
    ensures ends { (kind : X → Kind) (segs : List X) (tree : Body X) → DerivesInterchange kind segs tree → EndsWithTrailer kind segs }
{}

/// A theorem, with nothing to run: where segments are held in another way that keeps their kinds, they
/// derive the same tree, each of its segments held in that way, and no other.
pub fn envelope_is_mapped<X, Y>()
    ensures there { (kind : X → Kind) (other : Y → Kind) (f : X → Y) → KeepsKinds kind other f → MapsTrees kind other f }
    ensures back { (kind : X → Kind) (other : Y → Kind) (f : X → Y) → KeepsKinds kind other f → MapsTreesBack kind other f }
{}

/// A theorem, with nothing to run: a text has at most one chain of interchanges (X12.5, interchange).
pub fn chain_is_one()
    ensures { (text : List ℕ) (xs ys : List Extent) → Chain text xs → Chain text ys → xs ≡ ys }
{}

/// A theorem, with nothing to run: a text has at most one index (X12.5, interchange).
pub fn index_is_one()
    ensures { (text : List ℕ) (a b : IndexValue) → IsIndex text a → IsIndex text b → a ≡ b }
{}

/// A theorem, with nothing to run: an interchange ends at the least of three offsets: after the terminator of
/// the first IEA; where the first segment or rest begins, after its CR and LF, that begins at a header; the
/// text's length (X12.5, interchange; own where the IEA is missing).
pub fn end_is_least()
    ensures { (text : List ℕ) (start : ℕ) → is_head text start ≡ true → EndsLeast text start (reach_at text start).end }
{}

/// A theorem, with nothing to run: each set of an interchange is in a span of the text, from its ST
/// to just after its last segment, and that span, read by the interchange's delimiters, has just the
/// set's segments (X12.6, transaction set). So a set can be checked in its span.
pub fn sets_stand_alone()
    ensures { (text : List ℕ) (start : ℕ) (tree : Body SegValue) → is_head text start ≡ true
        → DerivesInterchange kind_of (reach_at text start).segs tree
        → EachSetIn (SetStandsAlone text (header_delims (header_at text start))) tree.members }
{}

/// A theorem, with nothing to run: an index that was not judged, once each of its interchanges is given the least of its faults 1
/// to 7, is the index of the text, and so the one that is read front to back (X12.5, interchange).
pub fn judged_is_index()
    ensures index { (text : List ℕ) (index : IndexValue) → IsUnjudged text index → JudgedIsIndex text index }
    ensures plain { (text : List ℕ) (index plain : IndexValue) → IsUnjudged text index → IsIndex text plain → JudgedIs index plain }
{}

/// A theorem, with nothing to run: an index that is settled with the least of the faults 1 to 8 of each interchange lists just the index
/// places of its interchanges (X12.5, interchange; X12.6, functional group and transaction set; the faults' numbers are own).
pub fn places_are_index_places()
    ensures { (knows : List ℕ → Bool) (index : IndexValue) → PlacesAreIndexPlaces knows index }
{}
