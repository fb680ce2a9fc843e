//! Edits of a tree.
ghost use Rattle.std.specs.Prelude.{◌≡◌, ◌++◌, ◌<◌, ◌∷◌, [], map, IfOk};
ghost use Rattle.serde_json.specs.View.{view};
ghost use Rattle.metadata_json.specs.Edits.{set, object_at, last, add, add_within};

use crate::taken::{Taken, items_or_none, take};
use serde_json::{Map, Value};
use std::alloc::{AllocError, Global};

/// The object with one field set, the others as they are. What is no object counts as an empty one.
#[tactic(auto, unfolding(crate::specs::Edits::set))]
pub fn set(alloc: Global, tree: Value, key: &str, value: Value) -> Result<Value, AllocError>
    ensures { IfOk result (λ v. view v ≡ set key.now (view value) (view tree)) }
{
    match tree {
        Value::Object(mut map) => {
            serde_json::put(&mut map, alloc, key, value)?;
            Ok(Value::Object(map))
        }
        _ => {
            let mut map = Map::new(alloc);
            serde_json::put(&mut map, alloc, key, value)?;
            Ok(Value::Object(map))
        }
    }
}

/// A copy of the object in a field, an empty one where there is none.
#[tactic(auto, unfolding(crate::specs::Edits::object_at))]
pub fn object_at(alloc: Global, tree: &Value, key: &str) -> Result<Value, AllocError>
    ensures { IfOk result (λ v. view v ≡ object_at key.now (view tree.now)) }
{
    match tree.get(key) {
        Some(value) if value.is_object() => value.clone(),
        _ => Ok(Value::Object(Map::new(alloc))),
    }
}

/// Adds an item to the array in a field, which is made where it lacks.
#[tactic(auto, unfolding(crate::specs::Edits::add))]
pub fn add(alloc: Global, tree: Value, key: &str, item: Value) -> Result<Value, AllocError>
    ensures { IfOk result (λ v. view v ≡ add key.now (view item) (view tree)) }
{
    let Taken { rest, value } = take(alloc, tree, key)?;
    let mut list = items_or_none(alloc, value);
    list.push(item)?;
    set(alloc, rest, key, Value::Array(list))
}

/// Adds an item to the array in a field, which is made where it lacks, and keeps the last `most` items.
#[tactic(auto, unfolding(crate::specs::Edits::add_within))]
pub fn add_within(
    alloc: Global,
    tree: Value,
    key: &str,
    item: Value,
    most: u64,
) -> Result<Value, AllocError>
    requires { 0 < most }
    ensures { IfOk result (λ v. view v ≡ add_within most key.now (view item) (view tree)) }
{
    let Taken { rest, value } = take(alloc, tree, key)?;
    let list = last_of(items_or_none(alloc, value), item, most)?;
    set(alloc, rest, key, Value::Array(list))
}

// The last items of a list that has one more at its end.
fn last_of(items: Vec<Value>, item: Value, most: u64) -> Result<Vec<Value>, AllocError>
    requires { 0 < most }
    ensures { IfOk result (λ v. map view v.items ≡ last most (map view items.items ++ view item ∷ [])) }
{
    let mut items = items;
    let left_out = (items.len() as u64).saturating_sub(most - 1);
    let mut list = items.split_off(left_out as usize)?;
    list.push(item)?;
    Ok(list)
}
