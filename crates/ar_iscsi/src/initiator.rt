// The name of an initiator, kept from the text of its login until the port observes it.
ghost use Rattle.std.specs.Prelude.{◌≡◌, OnOk};
ghost use Rattle.ar_iscsi.specs.Initiator.{name_after_item, named_after};

use crate::keys::{Key, key_named};
use crate::text::{behind, item_name, item_value, place_of};
use std::alloc::AllocError;

// Has `name` be the value of the last InitiatorName of a text; without one it stays. `Err` if the allocation fails;
// `name` is unspecified then.
pub(crate) fn keep_name(name: &mut Vec<u8>, asked: &[u8]) -> Result<(), AllocError>
    ensures { OnOk result (name.new.items ≡ named_after name.old.items asked.now) }
{
    let mut rest = asked;
    let mut end = place_of(0, rest);
    while end < rest.len() {
        keep_item(name, &rest[..end])?;
        rest = behind(rest, end);
        end = place_of(0, rest);
    }
    keep_item(name, rest)
}

// Has `name` be the value of an item, if its key is InitiatorName.
fn keep_item(name: &mut Vec<u8>, item: &[u8]) -> Result<(), AllocError>
    ensures { OnOk result (name.new.items ≡ name_after_item name.old.items item.now) }
{
    match key_named(item_name(item)) {
        Key::InitiatorName => {
            name.clear();
            name.extend_from_slice(item_value(item))
        }
        _ => Ok(()),
    }
}
