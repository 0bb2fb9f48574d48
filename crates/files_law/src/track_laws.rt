ghost use Rattle.std.specs.Prelude.{◌≡◌, ℕ, List, map};
ghost use Rattle.x12_bytes.specs.declared.delims.Delims.{Delims};
ghost use Rattle.moment.specs.Moment.{IsMoment};
ghost use Rattle.partner_setup.specs.Setup.{SetupValue};
ghost use Rattle.partner_setup.specs.Sound.{IsSoundSetup};
ghost use Rattle.night_batches.specs.declared.night.Night.{Night};
ghost use Rattle.night_batches.specs.Night.{IsNight};
ghost use Rattle.night_law.specs.SetsRead.{sets_found};
ghost use Rattle.set_documents.specs.Documents.{DocumentValue};
ghost use Rattle.track_table.specs.Track.{IsTrack};
ghost use Rattle.track_table.specs.declared.track.Track.{Track};
ghost use Rattle.files_law.specs.Entries.{HasRowsOfSets};
ghost use Rattle.files_law.specs.Found.{found_in};
ghost use Rattle.files_law.specs.Named.{NamesWhatIsFound};

/// A text has one table by a setup and by named documents. It does nothing: its contract is the theorem.
pub fn track_is_one()
    ensures { (text : List ℕ) (setup : SetupValue) (documents : List DocumentValue) (a b : Track)
        → IsTrack text setup documents a → IsTrack text setup documents b → a ≡ b }
{}

/// The rows of a table are those of its night, in their order, and no other: one for each interchange that is refused (X12.5), and of each
/// set of the others one for each receiver of its route, or one where nobody gets it (X12.6, transaction set). Each names its interchange,
/// its group and its set as they were sent. It does nothing: its contract is the theorem.
pub fn rows_are_of_sets()
    ensures { (text : List ℕ) (setup : SetupValue) (documents : List DocumentValue) (track : Track) → IsSoundSetup setup
        → IsTrack text setup documents track → HasRowsOfSets text setup track }
{}

/// The rows that say `delivered` to a partner are of the sets of its mailbox, one for each, in their order, and name the ISA13, the GS06
/// and the ST02 under which the partner finds them there (X12.5; X12.6). It does nothing: its contract is the theorem.
pub fn rows_name_what_is_found()
    ensures { (text : List ℕ) (setup : SetupValue) (at : List ℕ) (documents : List DocumentValue) (track : Track) (night : Night)
        → IsSoundSetup setup → IsMoment at → IsNight text setup at night → IsTrack text setup documents track
        → NamesWhatIsFound text setup track night.boxes }
{}

/// The sets that are found under their numbers are the sets that are found (X12.6, transaction set). It does nothing: its contract is the
/// theorem.
pub fn sets_found_are_those()
    ensures { (d : Delims) (text : List ℕ) → map (λ found. found.set) (found_in d text) ≡ sets_found d text }
{}
