//! Looking into a tree.
ghost use Rattle.std.specs.Prelude.{◌≡◌, option_map, option_and_then, map, IfSome, IfNone};
ghost use Rattle.serde_json.specs.Data.{no_members};
ghost use Rattle.serde_json.specs.Find.{get, as_array};
ghost use Rattle.serde_json.specs.View.{view, items_view, members_view};
ghost use Rattle.metadata_json.specs.Fields.{signed, items_at, members_at, signed_at, unsigned_at, text_at};

use serde_json::{Map, Value};

/// The whole number in a field, where it is one that fits an `i64`.
pub fn signed(tree: &Value, name: &str) -> Option<i64>
    ensures { result ≡ option_and_then signed (get name.now (view tree.now)) }
{
    tree.get(name).and_then(Value::as_i64)
}

/// The whole number in a field, else 0.
pub fn signed_or_zero(tree: &Value, name: &str) -> i64
    ensures { result ≡ signed_at name.now (view tree.now) }
{
    signed(tree, name).unwrap_or(0)
}

/// The whole number from 0 on in a field, else 0.
pub fn unsigned_or_zero(tree: &Value, name: &str) -> u64
    ensures { result ≡ unsigned_at name.now (view tree.now) }
{
    tree.get(name).and_then(Value::as_u64).unwrap_or(0)
}

/// The text in a field, else the empty one.
pub fn text_or_empty<'v>(tree: &'v Value, name: &str) -> &'v str
    ensures { result.now ≡ text_at name.now (view tree.now) }
{
    tree.get(name).and_then(Value::as_str).unwrap_or("")
}

/// The items of the array in a field, none where there is no array.
pub fn items<'v>(tree: &'v Value, name: &str) -> &'v [Value]
    ensures { map view result.now ≡ items_at name.now (view tree.now) }
{
    match array(tree, name) {
        Some(list) => list.as_slice(),
        None => &[],
    }
}

fn array<'v>(tree: &'v Value, name: &str) -> Option<&'v Vec<Value>>
    ensures { option_map (λ v. items_view v.now.items) result
        ≡ option_and_then as_array (get name.now (view tree.now)) }
{
    tree.get(name).and_then(Value::as_array)
}

/// The members of the object in a field.
pub fn members<'v>(tree: &'v Value, name: &str) -> Option<&'v Map<String, Value>>
    ensures some { IfSome result (λ m. members_view m.now.entries ≡ members_at name.now (view tree.now)) }
    ensures none { IfNone result (members_at name.now (view tree.now) ≡ no_members) }
{
    tree.get(name).and_then(Value::as_object)
}
