ghost use Rattle.std.specs.Prelude.{◌≡◌, option_map};
ghost use Rattle.toml.specs.View.{view};
ghost use Rattle.partner_setup.specs.CountersFile as counters;
ghost use Rattle.partner_setup.specs.SetupFile as setup;

use crate::rows::Usage;
use std::alloc::Global;
use toml::Value;
use toml_keys::{Count, Reading, TextFault};

/// `P` or `T`.
#[derive(Clone, Copy)]
pub struct UsageText;

fn usage_of(text: &[u8]) -> Option<Usage>
    ensures { result ≡ setup.usage_of text.now }
{
    if text == b"P".as_slice() {
        Some(Usage::Production)
    } else if text == b"T".as_slice() {
        Some(Usage::Test)
    } else {
        None
    }
}

fn usage_in(value: &Value) -> Option<Usage>
    ensures { result ≡ setup.usage_in (view value.now) }
{
    match value.as_str() {
        None => None,
        Some(text) => usage_of(text.as_bytes()),
    }
}

impl Reading for UsageText {
    type Read = Usage;

    ghost reading = { λ _. setup.usage_in };

    fn read(&self, _alloc: Global, value: &Value) -> Result<Usage, TextFault> {
        match usage_in(value) {
            None => Err(TextFault::Malformed),
            Some(usage) => Ok(usage),
        }
    }
}

/// The versions of a counters file.
#[derive(Clone, Copy, Debug, PartialEq, Eq)]
pub enum Version {
    /// 1, without group counters.
    First,
    /// 2, with them.
    Second,
}

/// The number of a version: 1 or 2.
#[derive(Clone, Copy)]
pub struct VersionNumber;

fn version_of(number: u32) -> Option<Version>
    ensures { result ≡ counters.version_of number }
{
    if number == 1 {
        Some(Version::First)
    } else if number == 2 {
        Some(Version::Second)
    } else {
        None
    }
}

impl Reading for VersionNumber {
    type Read = Version;

    ghost reading = { λ _. counters.version_in };

    fn read(&self, alloc: Global, value: &Value) -> Result<Version, TextFault> {
        let number = Count.read(alloc, value)?;
        match version_of(number) {
            None => Err(TextFault::Malformed),
            Some(version) => Ok(version),
        }
    }
}
