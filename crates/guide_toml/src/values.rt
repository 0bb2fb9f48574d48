ghost use Rattle.std.specs.Prelude.{◌≡◌, option_map};
ghost use Rattle.std.specs.List.{list_all};
ghost use Rattle.std.specs.Char.{is_ascii_uppercase};
ghost use Rattle.toml.specs.Data.{as_bool};
ghost use Rattle.toml.specs.View.{view};
ghost use Rattle.toml_keys.specs.Reads.{Reads};
ghost use Rattle.guide_toml.specs.Values as values;

use guide_tree::DependencyKind;
use hub_kinds::Text;
use std::alloc::Global;
use toml::Value;
use toml_keys::{Reading, TextFault, copy_of};

/// A functional identifier code, not that of acknowledgments.
#[derive(Clone, Copy)]
pub struct GroupCode;

fn are_uppercase(text: &[u8]) -> bool
    ensures { result ≡ list_all is_ascii_uppercase text.now }
{
    text.iter().all(|byte| byte.is_ascii_uppercase())
}

fn is_group(text: &[u8]) -> bool
    ensures { result ≡ values.is_group text.now }
{
    text.len() == 2 && are_uppercase(text) && !(text == b"FA".as_slice())
}

impl Reading for GroupCode {
    type Read = Text;

    ghost reading = { λ _. values.group_in };

    fn read(&self, alloc: Global, value: &Value) -> Result<Text, TextFault> {
        match value.as_str() {
            None => Err(TextFault::Malformed),
            Some(text) => {
                if !is_group(text.as_bytes()) {
                    return Err(TextFault::Malformed);
                }
                copy_of(alloc, text.as_bytes())
            }
        }
    }
}

/// A truth value.
#[derive(Clone, Copy)]
pub struct Flag;

impl Reading for Flag {
    type Read = bool;

    ghost reading = { λ _. as_bool };

    fn read(&self, _alloc: Global, value: &Value) -> Result<bool, TextFault> {
        match value.as_bool() {
            None => Err(TextFault::Malformed),
            Some(flag) => Ok(flag),
        }
    }
}

/// `need` or `ban`.
#[derive(Clone, Copy)]
pub struct Kind;

impl Reading for Kind {
    type Read = DependencyKind;

    ghost reading = { λ _. values.dependency_kind_in };

    fn read(&self, _alloc: Global, value: &Value) -> Result<DependencyKind, TextFault> {
        match dependency_kind_in(value) {
            None => Err(TextFault::Malformed),
            Some(kind) => Ok(kind),
        }
    }
}

fn dependency_kind_in(value: &Value) -> Option<DependencyKind>
    ensures { result ≡ values.dependency_kind_in (view value.now) }
{
    match value.as_str() {
        None => None,
        Some(text) => {
            if text.as_bytes() == b"need".as_slice() {
                Some(DependencyKind::Need)
            } else if text.as_bytes() == b"ban".as_slice() {
                Some(DependencyKind::Ban)
            } else {
                None
            }
        }
    }
}
