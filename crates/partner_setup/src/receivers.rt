ghost use Rattle.std.specs.Prelude.{◌≡◌, [], ◌∷◌, Some, option_map, option_and_then};
ghost use Rattle.toml.specs.Data.{as_str};
ghost use Rattle.toml.specs.View.{view};
ghost use Rattle.toml_keys.specs.Reads.{Reads};
ghost use Rattle.toml_keys.specs.Tables as tables;
ghost use Rattle.partner_setup.specs.SetupFile as file;

use hub_kinds::{Items, Text, Texts};
use std::alloc::Global;
use toml::Value;
use toml_keys::{AnyText, ListOf, Reading, TextFault, copy_of};

/// How many receivers a route names at most.
pub const MOST_RECEIVERS: usize = 16;

/// The receivers of a route: a text, or a list of 1 to 16 texts.
#[derive(Clone, Copy)]
pub struct Receivers;

/// One receiver.
fn one_receiver(alloc: Global, text: &[u8]) -> Result<Texts, TextFault>
    ensures { Reads (λ x. x) result (Some (text.now ∷ [])) }
{
    let mut texts = Vec::new(alloc);
    texts.push(copy_of(alloc, text)?)?;
    Ok(Items::from_vec(texts))
}

fn are_receivers(texts: &[Text]) -> bool
    ensures { result ≡ file.are_receivers texts.now }
{
    1 <= texts.len() && texts.len() <= MOST_RECEIVERS
}

/// A list of receivers.
fn some_receivers(alloc: Global, value: &Value) -> Result<Texts, TextFault>
    ensures { Reads (λ x. x) result (option_and_then file.some_receivers (tables.list_in as_str (view value.now))) }
{
    let texts = ListOf(AnyText).read(alloc, value)?;
    if !are_receivers(texts.as_slice()) {
        return Err(TextFault::Malformed);
    }
    Ok(texts)
}

impl Reading for Receivers {
    type Read = Texts;

    ghost reading = { λ _. file.receivers_in };

    fn read(&self, alloc: Global, value: &Value) -> Result<Texts, TextFault> {
        match value.as_str() {
            None => some_receivers(alloc, value),
            Some(text) => one_receiver(alloc, text.as_bytes()),
        }
    }
}
