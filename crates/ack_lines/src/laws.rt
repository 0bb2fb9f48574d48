ghost use Rattle.std.specs.Prelude.{◌≡◌, IfSome, Option, true};
ghost use Rattle.hub_kinds.specs.Words as texts;
ghost use Rattle.hub_kinds.specs.declared.codes.ElementCode.{ElementCode};
ghost use Rattle.hub_kinds.specs.declared.codes.SegmentCode.{SegmentCode};
ghost use Rattle.hub_kinds.specs.declared.interchange.InterchangeFault.{InterchangeFault};
ghost use Rattle.hub_kinds.specs.declared.set_codes.GroupCode.{GroupCode};
ghost use Rattle.hub_kinds.specs.declared.set_codes.GroupVerdict.{GroupVerdict};
ghost use Rattle.hub_kinds.specs.declared.set_codes.SetCode.{SetCode};
ghost use Rattle.hub_kinds.specs.declared.set_codes.Verdict.{Verdict};
ghost use Rattle.ack_lines.specs.Worded.{IsToldNote, is_worded};

use crate::words::{
    ELEMENT_WORDS, GROUP_VERDICT_WORDS, GROUP_WORDS, SEGMENT_WORDS, SET_VERDICT_WORDS, SET_WORDS,
};

/// A theorem, with nothing to run: each code that the hub writes has words (999 guide, IK304, IK403, IK501, IK502, AK901 and AK905).
pub fn codes_have_words()
    ensures segments { (code : SegmentCode) → is_worded (λ row. row.0.now) SEGMENT_WORDS (texts.segment_code_text code) ≡ true }
    ensures elements { (code : ElementCode) → is_worded (λ row. row.0.now) ELEMENT_WORDS (texts.element_code_text code) ≡ true }
    ensures verdicts { (code : Verdict) → is_worded (λ row. row.0.now) SET_VERDICT_WORDS (texts.verdict_text code) ≡ true }
    ensures sets { (code : SetCode) → is_worded (λ row. row.0.now) SET_WORDS (texts.set_code_text code) ≡ true }
    ensures group_verdicts { (code : GroupVerdict)
        → is_worded (λ row. row.0.now) GROUP_VERDICT_WORDS (texts.group_verdict_text code) ≡ true }
    ensures groups { (code : GroupCode) → is_worded (λ row. row.0.now) GROUP_WORDS (texts.group_code_text code) ≡ true }
{}

/// A theorem, with nothing to run: each note that the hub gives on an interchange has words, and so has the code beside it (X12.5, TA104
/// and TA105).
pub fn notes_have_words()
    ensures { (fault : Option InterchangeFault) → IfSome (texts.note_text fault) IsToldNote }
{}
