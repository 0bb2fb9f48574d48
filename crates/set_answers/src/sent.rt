use guide_tree::Guide;
use partner_setup::Setup;
use std::marker::Model;
use x12_bytes::Delims;

/// What the sets of an interchange are checked under.
#[derive(Drop)]
pub(crate) struct Sent<'a> {
    text: &'a [u8],
    setup: &'a Setup,
    sender: usize,
    delims: Delims,
}

impl<'a> Model for Sent<'a> {
    ghost use Rattle.set_answers.specs.Answers.{SentValue};
    ghost use Rattle.guide_tree.specs.contracts.node.Node as node;
    ghost use Rattle.std.specs.Coded.{codes};

    ghost Value = { SentValue };

    ghost coded = { Prim.hlevel (codes, node.the_row.coded) };

    ghost view = { λ s. record { text = s.text.now; setup = s.setup.now; sender = s.sender; delims = s.delims } };
}

impl<'a> Sent<'a> {
    ghost use Rattle.std.specs.Prelude.{◌≡◌, option_map};
    ghost use Rattle.partner_setup.specs.Setup as setup;

    /// The interchanges of this sender in the text, with these delimiters.
    pub(crate) fn new(text: &'a [u8], setup: &'a Setup, sender: usize, delims: Delims) -> Sent<'a>
        ensures { result ≡ record { text = text.entry.now; setup = setup.entry.now; sender = sender; delims = delims } }
    {
        Sent {
            text,
            setup,
            sender,
            delims,
        }
    }

    pub(crate) fn text(&self) -> &'a [u8]
        ensures { result.now ≡ self.now.text }
    {
        self.text
    }

    pub(crate) fn delims(&self) -> Delims
        ensures { result ≡ self.now.delims }
    {
        self.delims
    }

    /// The sender's guide for a GS01, GS08 and ST01.
    pub(crate) fn guide(&self, group: &[u8], version: &[u8], set: &[u8]) -> Option<&'a Guide>
        ensures { option_map (λ g. g.now) result ≡ setup.guide_for_set self.now.setup self.now.sender group.now version.now set.now }
    {
        self.setup.guide_of(self.sender, group, version, set)
    }

    pub(crate) fn has_group(&self, group: &[u8]) -> bool
        ensures { result ≡ setup.has_group self.now.setup self.now.sender group.now }
    {
        self.setup.has_group(self.sender, group)
    }

    pub(crate) fn has_version(&self, group: &[u8], version: &[u8]) -> bool
        ensures { result ≡ setup.has_version self.now.setup self.now.sender group.now version.now }
    {
        self.setup.has_version(self.sender, group, version)
    }
}
