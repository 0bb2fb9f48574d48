ghost use Rattle.std.specs.Prelude.{◌≡◌};
ghost use Rattle.hl_check.specs.Names.{Names};

use std::marker::Model;

/// HL01 to HL04 of an HL segment, as they are there.
#[derive(Drop)]
pub struct HlNames<'a> {
    number: &'a [u8],
    parent: &'a [u8],
    level: &'a [u8],
    child: &'a [u8],
}

impl<'a> Model for HlNames<'a> {
    ghost Value = { Names };

    ghost view = { λ n. record {
      number = n.number.now;
      parent = n.parent.now;
      level = n.level.now;
      child = n.child.now;
    } };
}

impl<'a> HlNames<'a> {
    /// These elements.
    pub fn new(number: &'a [u8], parent: &'a [u8], level: &'a [u8], child: &'a [u8]) -> HlNames<'a>
        ensures { result ≡ record {
          number = number.entry.now;
          parent = parent.entry.now;
          level = level.entry.now;
          child = child.entry.now;
        } }
    {
        HlNames {
            number,
            parent,
            level,
            child,
        }
    }

    /// HL01, the HL's own number.
    pub(crate) fn number(&self) -> &'a [u8]
        ensures { result.now ≡ self.now.number }
    {
        self.number
    }

    /// HL02, the number of its parent.
    pub(crate) fn parent(&self) -> &'a [u8]
        ensures { result.now ≡ self.now.parent }
    {
        self.parent
    }

    /// HL03, its level.
    pub(crate) fn level(&self) -> &'a [u8]
        ensures { result.now ≡ self.now.level }
    {
        self.level
    }

    /// HL04, whether it has children.
    pub(crate) fn child(&self) -> &'a [u8]
        ensures { result.now ≡ self.now.child }
    {
        self.child
    }
}
