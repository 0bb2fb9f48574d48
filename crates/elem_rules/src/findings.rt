ghost use Rattle.std.specs.Prelude.{◌≡◌, ◌++◌, [], ◌∷◌, List, OnOk, IfOk};
ghost use Rattle.hub_kinds.specs.declared.fault.ElemFault.{ElemFault};
ghost use Rattle.elem_rules.specs.Found.{fault, copy_of, reported};

use hub_kinds::{ElemFault, ElementCode, Lent, NoMemory};
use std::alloc::Global;
use std::marker::Model;

/// Where a fault is shown: the numbers of an element, of a component and of a repetition, from 1 on; the last two
/// are 0 where they aren't shown (999 guide, IK401).
#[derive(Clone, Copy, Debug)]
pub struct Spot {
    pub element: u32,
    pub component: u32,
    pub repetition: u32,
}

/// The faults that were found so far, in the order in which they were found. Contracts see their list.
#[derive(Drop)]
pub struct Findings<'a> {
    faults: Vec<ElemFault<'a>>,
}

impl<'a> Model for Findings<'a> {
    ghost Value = { List ElemFault };

    ghost view = { λ f. f.faults.items };
}

impl<'a> Findings<'a> {
    /// No fault.
    pub fn new(alloc: Global) -> Findings<'a>
        ensures { result ≡ [] }
    {
        Findings {
            faults: Vec::new(alloc),
        }
    }

    /// The faults, as a list.
    pub fn into_faults(self) -> Vec<ElemFault<'a>>
        ensures { result.items ≡ self.entry }
    {
        self.faults
    }

    /// Adds a fault that lends these texts. Where memory is refused, here and in all calls that add, some of
    /// the faults may be there.
    pub fn add(
        &mut self,
        spot: Spot,
        code: ElementCode,
        reference: &'a [u8],
        copy: &'a [u8],
    ) -> Result<(), NoMemory>
        ensures { OnOk result
            (self.new
            ≡ self.old ++ fault spot.element spot.component spot.repetition code reference.now copy.now ∷ []) }
    {
        let fault = ElemFault {
            element: spot.element,
            component: spot.component,
            repetition: spot.repetition,
            code,
            reference: Lent::new(reference),
            copy: Lent::new(copy),
        };
        self.faults.push(fault)?;
        Ok(())
    }

    /// Adds the fault with this code, if there is one; of what is missing no text is lent.
    pub fn add_if(
        &mut self,
        spot: Spot,
        code: Option<ElementCode>,
        reference: &'a [u8],
        text: &'a [u8],
    ) -> Result<(), NoMemory>
        ensures { OnOk result
            (self.new
            ≡ self.old ++ reported spot.element spot.component spot.repetition reference.now text.now code) }
    {
        match code {
            None => Ok(()),
            Some(code) => self.add(spot, code, reference, copy_of(code, text)),
        }
    }
}

/// The text that is shown under a code: of what is missing nothing.
fn copy_of(code: ElementCode, text: &[u8]) -> &[u8]
    ensures { result.now ≡ copy_of code text.now }
{
    match code {
        ElementCode::RequiredMissing
        | ElementCode::ConditionalMissing
        | ElementCode::DependentMissing => b"",
        ElementCode::TooManyElements
        | ElementCode::TooShort
        | ElementCode::TooLong
        | ElementCode::InvalidCharacter
        | ElementCode::InvalidCode
        | ElementCode::InvalidDate
        | ElementCode::InvalidTime
        | ElementCode::ExclusionViolated
        | ElementCode::TooManyRepetitions
        | ElementCode::TooManyComponents
        | ElementCode::CodeNotUsed
        | ElementCode::NotUsedPresent
        | ElementCode::PatternFailure
        | ElementCode::DependentNotUsedPresent => text,
    }
}
