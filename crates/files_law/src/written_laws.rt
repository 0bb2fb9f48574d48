ghost use Rattle.std.specs.Prelude.{◌≡◌, List, [], ◌∷◌, length};
ghost use Rattle.std.specs.List.{All};
ghost use Rattle.x12_bytes.specs.declared.delims.Delims.{Delims};
ghost use Rattle.env_index.specs.Words.{IsLone};
ghost use Rattle.x12_write.specs.Group.{texts_in_row};
ghost use Rattle.files_law.specs.Files.{HasInterchanges};
ghost use Rattle.files_law.specs.Written.{AreClear, BeginsOtherwise, IsWritten, NoInnerHeads, Written, texts_of, written_text};

/// A theorem, with nothing to run: interchanges that are written one after another, each whole and with an envelope that can be sent, are
/// read by the definition of the index as just these, with no byte outside of them and none with a fault 1 to 7, where no header begins
/// at a segment of theirs (X12.5, interchange; that a header ends an interchange is own).
pub fn written_interchanges_are_read()
    ensures { (ws : List Written) → All IsWritten ws → AreClear (texts_in_row (texts_of ws)) 0 ws
        → HasInterchanges (texts_of ws) (texts_in_row (texts_of ws)) }
{}

/// A theorem, with nothing to run: no header begins at a segment whose first two bytes are others than IS (X12.5, ISA).
pub fn other_segments_are_clear()
    ensures { (ws : List Written) → All IsWritten ws → All (λ w. All BeginsOtherwise w.segments) ws
        → AreClear (texts_in_row (texts_of ws)) 0 ws }
{}

/// A theorem, with nothing to run: nor does one where none begins at a segment of theirs that may be between ST and SE, as it is read by
/// the delimiters they are written with (X12.6, segment, transaction set): no control segment begins as a header.
pub fn segments_as_read_are_clear()
    ensures { (d : Delims) (ws : List Written) → All IsWritten ws → All (λ w. w.envelope.delims ≡ d) ws
        → NoInnerHeads d (texts_in_row (texts_of ws)) 0 (texts_of ws) → AreClear (texts_in_row (texts_of ws)) 0 ws }
{}

/// A theorem, with nothing to run: a text that is one such interchange is one interchange from its first byte to its last, and no byte
/// is outside of it (X12.5, interchange).
pub fn written_interchange_is_alone()
    ensures { (w : Written) → IsWritten w → AreClear (written_text w) 0 (w ∷ [])
        → IsLone (written_text w) (record { start = 0; end = length (written_text w) }) }
{}
