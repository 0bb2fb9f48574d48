ghost use Rattle.std.specs.Prelude.{◌≡◌};
ghost use Rattle.toml.specs.View.{view, items_view};
ghost use Rattle.toml_keys.specs.Reads.{Reads};
ghost use Rattle.toml_keys.specs.Tables as tables;

use crate::reading::Reading;
use crate::text_fault::TextFault;
use hub_kinds::Items;
use std::alloc::Global;
use toml::Value;

/// A list, each item of which is read.
#[derive(Clone, Copy)]
pub struct ListOf<R>(pub R);

impl<R: Reading> Reading for ListOf<R> {
    type Read = Items<R::Read>;

    ghost reading = { λ r. tables.list_in (R.reading r.0) };

    fn read(&self, alloc: Global, value: &Value) -> Result<Items<R::Read>, TextFault> {
        match value.as_array() {
            None => Err(TextFault::Malformed),
            Some(values) => each_item(alloc, &self.0, values),
        }
    }
}

fn each_item<R: Reading>(
    alloc: Global,
    reading: &R,
    values: &[Value],
) -> Result<Items<R::Read>, TextFault>
    ensures { Reads (λ x. x) result (tables.each_item (R.reading reading.now) (items_view values.now)) }
{
    let mut items = Vec::new(alloc);
    for value in values {
        match reading.read(alloc, value) {
            Ok(item) => items.push(item)?,
            Err(fault) => return Err(fault),
        }
    }
    Ok(Items::from_vec(items))
}
