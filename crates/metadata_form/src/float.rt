//! The first number of a tree that is no whole number of 64 bits.
ghost use Rattle.std.specs.Prelude.{◌≡◌, IfOk};
ghost use Rattle.serde_json.specs.View.{view, items_view, members_view};
ghost use Rattle.metadata_form.specs.Float.{first_float, first_float_of_items, first_float_of_members};

use crate::path::{in_item, in_member, itself_unless};
use ice_store::Text;
use serde_json::{Map, Value};
use std::alloc::{AllocError, Global};

/// Where the first such number stands.
#[cycle(floats)]
pub(crate) fn first_float(alloc: Global, value: &Value) -> Result<Option<Text>, AllocError>
    ensures { IfOk result (λ o. o ≡ first_float (view value.now)) }
{
    match value {
        Value::Null => Ok(None),
        Value::Bool(_) => Ok(None),
        Value::Number(n) => Ok(itself_unless(alloc, !n.is_f64())),
        Value::String(_) => Ok(None),
        Value::Array(items) => first_float_of_items(alloc, items.as_slice()),
        Value::Object(members) => first_float_of_members(alloc, members),
    }
}

#[cycle(floats)]
fn first_float_of_items(alloc: Global, items: &[Value]) -> Result<Option<Text>, AllocError>
    ensures { IfOk result (λ o. o ≡ first_float_of_items 0 (items_view items.now)) }
{
    for (i, item) in items.iter().enumerate() {
        if let Some(on) = first_float(alloc, item)? {
            return Ok(Some(in_item(alloc, i, &on)?));
        }
    }
    Ok(None)
}

#[cycle(floats)]
fn first_float_of_members(
    alloc: Global,
    members: &Map<String, Value>,
) -> Result<Option<Text>, AllocError>
    ensures { IfOk result (λ o. o ≡ first_float_of_members (members_view members.now.entries)) }
{
    for (key, member) in members.iter() {
        if let Some(on) = first_float(alloc, member)? {
            return Ok(Some(in_member(alloc, key.as_str(), &on)?));
        }
    }
    Ok(None)
}
