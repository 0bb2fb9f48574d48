ghost use Rattle.std.specs.Prelude.{◌≡◌};
ghost use Rattle.diff_lines.specs.Words as words;

use guide_widening::{Change, Key};

/// What a difference does to the sets that meet the guide, in a word.
pub(crate) fn change_text(change: Change) -> &'static [u8]
    ensures { result.now ≡ words.change_text change }
{
    match change {
        Change::Narrower => b"narrower ",
        Change::Wider => b"wider ",
        Change::Other => b"other ",
    }
}

/// What two guides say otherwise, in a word.
pub(crate) fn key_text(key: Key) -> &'static [u8]
    ensures { result.now ≡ words.key_text key }
{
    match key {
        Key::Group => b"group ",
        Key::Set => b"set ",
        Key::Version => b"version ",
        Key::Convention => b"convention ",
        Key::TolerateSegment => b"tolerate_segment ",
        Key::TolerateElement => b"tolerate_element ",
        Key::Hierarchy => b"hl ",
        Key::Sequential => b"hl sequential ",
        Key::Pair => b"hl pairs ",
        Key::Dependency => b"depends ",
        Key::Node => b"min to max ",
        Key::Label => b"label ",
        Key::LeastUse => b"min ",
        Key::GreatestUse => b"max ",
        Key::Pick => b"pick ",
        Key::Condition => b"condition ",
        Key::Presence => b"use ",
        Key::Components => b"components ",
        Key::Repeat => b"repeat ",
        Key::Type => b"type ",
        Key::LeastLength => b"shortest ",
        Key::GreatestLength => b"longest ",
        Key::Wide => b"wide ",
        Key::Codes => b"codes ",
        Key::Code => b"code ",
    }
}
