// Attributes of a schema's JSON object.
ghost use Rattle.std.specs.Prelude.{◌≡◌, option_map, option_and_then};
ghost use Rattle.serde_json.specs.View.{view, items_view};
ghost use Rattle.serde_json.specs.Find.{get, as_array};
ghost use Rattle.avro_schema.specs.Attribute.{text_at, narrow_unsigned, narrow_signed, u32_of, id_at, flag_at};

use serde_json::Value;

/// The text under a key of an object.
pub fn text_at<'v>(tree: &'v Value, key: &str) -> Option<&'v str>
    ensures { option_map (λ t. t.now) result ≡ text_at key.now (view tree.now) }
{
    tree.get(key).and_then(Value::as_str)
}

/// The items of the array under a key of an object.
pub fn array_at<'v>(tree: &'v Value, key: &str) -> Option<&'v Vec<Value>>
    ensures { option_map (λ v. items_view v.now.items) result
        ≡ option_and_then as_array (get key.now (view tree.now)) }
{
    tree.get(key).and_then(Value::as_array)
}

pub(crate) fn flag_at(tree: &Value, key: &str) -> bool
    ensures { result ≡ flag_at key.now (view tree.now) }
{
    tree.get(key).and_then(Value::as_bool).unwrap_or(false)
}

pub(crate) fn u32_of(tree: &Value) -> Option<u32>
    ensures { result ≡ u32_of (view tree.now) }
{
    tree.as_u64().and_then(narrow_unsigned)
}

/// The whole number of 32 bits under a key of an object.
#[tactic(auto, unfolding(crate::specs::Attribute::id_at))]
pub fn id_at(tree: &Value, key: &str) -> Option<i32>
    ensures { result ≡ id_at key.now (view tree.now) }
{
    tree.get(key)
        .and_then(Value::as_i64)
        .and_then(narrow_signed)
}

fn narrow_unsigned(n: u64) -> Option<u32>
    ensures { result ≡ narrow_unsigned n }
{
    u32::try_from(n).ok()
}

fn narrow_signed(n: i64) -> Option<i32>
    ensures { result ≡ narrow_signed n }
{
    i32::try_from(n).ok()
}
