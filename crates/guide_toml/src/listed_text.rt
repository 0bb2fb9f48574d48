ghost use Rattle.std.specs.Prelude.{◌≡◌, IfOk, is_some};
ghost use Rattle.guide_toml.specs.ListedTexts.{can_stand};

use crate::entry::{Entry, Form, has_form};
use crate::fault_codes::{element_code_of, segment_code_of};
use crate::stops::element_stop;
use guide_tree::{Condition, HlPair, Pick};
use hub_kinds::NoMemory;
use std::alloc::Global;
use toml_keys::TextFault;

/// What each text of a list of a guide file is.
#[derive(Clone, Copy, Debug, PartialEq, Eq)]
pub enum ListedText {
    /// The row of a data element, in `elements`.
    Element,
    /// A relational condition, in `conditions`.
    Condition,
    /// An element and its codes, in `pick`.
    Pick,
    /// A parent's and a child's level, in `pairs`.
    LevelPair,
    /// A code, in `codes` of a dependency.
    Code,
    /// A segment's id, in `dictionary`.
    SegmentId,
    /// A code of IK304 but 8, in `tolerate_segment`.
    SegmentCode,
    /// A code of IK403, in `tolerate_element`.
    ElementCode,
}

fn is_read<T: Entry>(alloc: Global, text: &[u8]) -> Result<bool, NoMemory>
    ensures { IfOk result (λ yes. yes ≡ is_some (T.reading text.now)) }
{
    match T::read(alloc, text) {
        Ok(_) => Ok(true),
        Err(TextFault::Malformed) => Ok(false),
        Err(TextFault::NoMemory) => Err(NoMemory),
    }
}

/// Whether a text can be in such a list. The only error is out of memory.
pub fn can_stand(alloc: Global, kind: ListedText, text: &[u8]) -> Result<bool, NoMemory>
    ensures { IfOk result (λ yes. yes ≡ can_stand kind text.now) }
{
    match kind {
        ListedText::Element => Ok(element_stop(alloc, text)?.is_none()),
        ListedText::Condition => is_read::<Condition>(alloc, text),
        ListedText::Pick => is_read::<Pick>(alloc, text),
        ListedText::LevelPair => is_read::<HlPair>(alloc, text),
        ListedText::Code => Ok(has_form(Form::Code, text)),
        ListedText::SegmentId => Ok(has_form(Form::SegmentId, text)),
        ListedText::SegmentCode => Ok(segment_code_of(text).is_some()),
        ListedText::ElementCode => Ok(element_code_of(text).is_some()),
    }
}
