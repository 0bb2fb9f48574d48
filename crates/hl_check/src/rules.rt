ghost use Rattle.std.specs.Prelude.{◌≡◌, false, ◌&&◌, ◌||◌, not, codes, decimal, Some, None, option_map, if◌then◌else◌};
ghost use Rattle.std.specs.List.{list_any};
ghost use Rattle.std.specs.Option.{option_map_or};
ghost use Rattle.std.specs.Str.{bytes_eq};
ghost use Rattle.elem_rules.specs.Divided.{is_filled};
ghost use Rattle.hl_check.specs.Hierarchy.{is_pair, is_listed};

use elem_rules::is_empty;
use guide_tree::{HlPair, HlRule};
use itoa::Buffer;
use x12_bytes::Delims;

/// Whether a text has a byte other than component and repetition separators.
pub(crate) fn is_filled(delims: Delims, text: &[u8]) -> bool
    ensures { result ≡ is_filled delims text.now }
{
    !is_empty(delims, text)
}

/// Whether a text is the number in decimal, without leading zeros.
pub(crate) fn is_count(text: &[u8], count: usize) -> bool
    ensures { result ≡ bytes_eq text.now (decimal count) }
{
    let mut buffer = Buffer::new();
    text == buffer.format(count).as_bytes()
}

/// Whether an HL01 is wrong that `known` says an earlier HL has, and that is the one with this count.
pub(crate) fn is_number_wrong(
    rule: &HlRule,
    delims: Delims,
    number: &[u8],
    known: bool,
    count: usize,
) -> bool
    ensures { result ≡ (is_filled delims number.now
        && (known || (rule.now.sequential && not (bytes_eq number.now (decimal count))))) }
{
    is_filled(delims, number) && (known || (rule.sequential && !is_count(number, count)))
}

fn is_pair(parent: Option<&[u8]>, child: &[u8], pair: &HlPair) -> bool
    ensures { result ≡ is_pair (option_map (λ p. p.now) parent.entry) child.now pair.now }
{
    let same = match (parent, &pair.parent) {
        (None, own) => own.is_none(),
        (Some(_), None) => false,
        (Some(level), Some(own)) => own.as_slice() == level,
    };
    same && pair.child.as_slice() == child
}

/// Whether a level is listed below that of a parent, or as a root's.
pub(crate) fn is_listed(rule: &HlRule, parent: Option<&[u8]>, child: &[u8]) -> bool
    ensures { result ≡ is_listed rule.now (option_map (λ p. p.now) parent.entry) child.now }
{
    rule.pairs
        .as_slice()
        .iter()
        .any(|pair| is_pair(parent, child, pair))
}

/// Whether an HL03 is wrong, by the level of the HL that HL02 names, if there is one; `root` says that HL02 is empty.
pub(crate) fn is_level_wrong(rule: &HlRule, named: bool, above: Option<&[u8]>, level: &[u8]) -> bool
    ensures { result ≡ (if named
        then option_map_or (λ p. not (is_listed rule.now (Some p.now) level.now)) above.entry false
        else not (is_listed rule.now None level.now)) }
{
    if !named {
        return !is_listed(rule, None, level);
    }
    match above {
        None => false,
        Some(_) => !is_listed(rule, above, level),
    }
}

/// Whether an HL04 is wrong, by whether some later HL02 is the number.
pub(crate) fn is_child_wrong(child: &[u8], named: bool) -> bool
    ensures { result ≡ ((bytes_eq child.now (codes "1") && not named) || (bytes_eq child.now (codes "0") && named)) }
{
    (child == b"1".as_slice() && !named) || (child == b"0".as_slice() && named)
}
