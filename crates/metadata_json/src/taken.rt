//! Parts that are taken out of a tree, so that they are changed in place and put back.
ghost use Rattle.std.specs.Prelude.{◌≡◌, Some, map, unwrap_or, IfOk, OnOk};
ghost use Rattle.serde_json.specs.Data.{Data, null, object, put};
ghost use Rattle.serde_json.specs.Find.{get_member};
ghost use Rattle.serde_json.specs.View.{view, members_view};
ghost use Rattle.metadata_json.specs.Edits.{set};
ghost use Rattle.metadata_json.specs.Fields.{value_at, items_in, members_in};

use serde_json::{Map, Value};
use std::alloc::{AllocError, Global};

/// A tree from which the value of a field was taken.
#[derive(Drop)]
pub struct Taken {
    pub rest: Value,
    /// Null where the field lacked.
    pub value: Value,
}

/// Takes the value out of a field, which has to be set again.
pub fn take(alloc: Global, tree: Value, key: &str) -> Result<Taken, AllocError>
    ensures value { IfOk result (λ t. view t.value ≡ value_at key.now (view tree)) }
    // Once the field is set again, nothing else has changed.
    ensures rest { IfOk result (λ t. (v : Data) → set key.now v (view t.rest) ≡ set key.now v (view tree)) }
{
    match tree {
        Value::Object(mut members) => {
            let value = take_member(alloc, &mut members, key)?;
            Ok(Taken {
                rest: Value::Object(members),
                value,
            })
        }
        rest => Ok(Taken {
            rest,
            value: Value::Null,
        }),
    }
}

fn take_member(
    alloc: Global,
    members: &mut Map<String, Value>,
    key: &str,
) -> Result<Value, AllocError>
    ensures taken { IfOk result (λ v. view v ≡ unwrap_or (get_member key.now (members_view members.old.entries)) null) }
    ensures left { OnOk result (members_view members.new.entries ≡ put key.now null (members_view members.old.entries)) }
{
    let name = String::from_str(alloc, key)?;
    let old = members.insert(name, Value::Null)?;
    Ok(old.unwrap_or(Value::Null))
}

/// The object; an empty one in place of what is none.
pub fn object_or_empty(alloc: Global, value: Value) -> Value
    ensures { view result ≡ object (members_in (Some (view value))) }
{
    match value {
        Value::Object(members) => Value::Object(members),
        _ => Value::Object(Map::new(alloc)),
    }
}

/// The items of the array; none in place of what is none.
pub fn items_or_none(alloc: Global, value: Value) -> Vec<Value>
    ensures { map view result.items ≡ items_in (Some (view value)) }
{
    match value {
        Value::Array(items) => items,
        _ => Vec::new(alloc),
    }
}
