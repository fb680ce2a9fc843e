//! The edit that takes snapshots away, on the tree and in place.
ghost use Rattle.std.specs.Prelude.{◌≡◌, ◌||◌, ◌≤◌, Some, map, length, drop, is_some, option_and_then, IfOk, OnOk, ℤ, ℕ, List};
ghost use Rattle.std.specs.Ordering.{int_cmp, int_eq};
ghost use Rattle.std.specs.Str.{bytes_eq};
ghost use Rattle.std.specs.BTreeSet.{contains};
ghost use Rattle.serde_json.specs.Find.{get, as_object};
ghost use Rattle.serde_json.specs.View.{view, members_view};
ghost use Rattle.metadata_json.specs.Fields.{members_in};
ghost use Rattle.metadata_snapshots.specs.Edits.{others, after_last, array_at, without_items, without_history, other_members, without_refs, without_these, without_snapshots};
ghost use Rattle.metadata_snapshots.specs.Sets.{IsIdSet, is_in, IsNameSet, has_key};

use ice_store::Text;
use metadata_json::{Taken, items_or_none, set, signed_or_zero, take};
use serde_json::{Map, Value};
use std::alloc::{AllocError, Global};
use std::collections::BTreeSet;

type IdSet = BTreeSet<i64>;

type NameSet = BTreeSet<Vec<u8>>;

fn add_id(ids: &mut IdSet, id: &i64) -> Result<(), AllocError>
    ensures { OnOk result ((q : ℤ) → contains int_cmp ids.new q ≡ (int_eq id.now q || contains int_cmp ids.old q)) }
{
    ids.insert(*id)?;
    Ok(())
}

fn id_set(alloc: Global, ids: &[i64]) -> Result<IdSet, AllocError>
    ensures { IfOk result (λ s. IsIdSet s ids.now) }
{
    let mut found = BTreeSet::new(alloc);
    for id in ids {
        add_id(&mut found, id)?;
    }
    Ok(found)
}

fn add_name(names: &mut NameSet, name: &Text) -> Result<(), AllocError>
    ensures { OnOk result ((q : List ℕ) → has_key names.new q ≡ (bytes_eq q name.now || has_key names.old q)) }
{
    let copy = name.copy()?;
    names.insert(copy.into_inner())?;
    Ok(())
}

fn name_set(alloc: Global, names: &[Text]) -> Result<NameSet, AllocError>
    ensures { IfOk result (λ s. IsNameSet s names.now) }
{
    let mut found = BTreeSet::new(alloc);
    for name in names {
        add_name(&mut found, name)?;
    }
    Ok(found)
}

fn is_in(ids: &IdSet, item: &Value) -> bool
    ensures { result ≡ is_in ids.now (view item.now) }
{
    ids.contains(&signed_or_zero(item, "snapshot-id"))
}

#[tactic(auto, unfolding(crate::specs::Edits::others))]
fn others(ids: &IdSet, items: Vec<Value>) -> Vec<Value>
    ensures { map view result.items ≡ others (is_in ids.now) (map view items.items) }
{
    let mut items = items;
    items.retain(|item| !is_in(ids, item));
    items
}

// The place after the last item of one of the snapshots.
fn history_end(ids: &IdSet, items: &[Value]) -> usize
    ensures fits { result ≤ length items.now }
    ensures rest { map view (drop result items.now) ≡ after_last (is_in ids.now) (map view items.now) }
{
    let mut end = items.len();
    while end > 0 && !is_in(ids, &items[end - 1]) {
        end -= 1;
    }
    end
}

fn after_last(ids: &IdSet, items: Vec<Value>) -> Result<Vec<Value>, AllocError>
    ensures { IfOk result (λ v. map view v.items ≡ after_last (is_in ids.now) (map view items.items)) }
{
    let mut items = items;
    let end = history_end(ids, &items);
    Ok(items.split_off(end)?)
}

fn has_array(tree: &Value, key: &str) -> bool
    ensures { result ≡ is_some (array_at key.now (view tree.now)) }
{
    tree.get(key).and_then(Value::as_array).is_some()
}

#[tactic(auto, unfolding(crate::specs::Edits::without_items))]
fn without_items(alloc: Global, tree: Value, ids: &IdSet, key: &str) -> Result<Value, AllocError>
    ensures { IfOk result (λ v. view v ≡ without_items (is_in ids.now) key.now (view tree)) }
{
    if !has_array(&tree, key) {
        return Ok(tree);
    }
    let Taken { rest, value } = take(alloc, tree, key)?;
    let left = others(ids, items_or_none(alloc, value));
    set(alloc, rest, key, Value::Array(left))
}

#[tactic(auto, unfolding(crate::specs::Edits::without_history))]
fn without_history(alloc: Global, tree: Value, ids: &IdSet) -> Result<Value, AllocError>
    ensures { IfOk result (λ v. view v ≡ without_history (is_in ids.now) (view tree)) }
{
    if !has_array(&tree, "snapshot-log") {
        return Ok(tree);
    }
    let Taken { rest, value } = take(alloc, tree, "snapshot-log")?;
    let left = after_last(ids, items_or_none(alloc, value))?;
    set(alloc, rest, "snapshot-log", Value::Array(left))
}

fn other_members(names: &NameSet, members: Map<String, Value>) -> Map<String, Value>
    ensures { members_view result.entries ≡ other_members (has_key names.now) (members_view members.entries) }
{
    let mut members = members;
    members.retain(|name, _value| !names.contains(name.as_bytes()));
    members
}

#[tactic(auto, unfolding(crate::specs::Edits::without_refs))]
fn without_refs(alloc: Global, tree: Value, names: &NameSet) -> Result<Value, AllocError>
    ensures { IfOk result (λ v. view v ≡ without_refs (has_key names.now) (view tree)) }
{
    if !has_object(&tree, "refs") {
        return Ok(tree);
    }
    let Taken { rest, value } = take(alloc, tree, "refs")?;
    let left = other_members(names, members_or_none(alloc, value));
    set(alloc, rest, "refs", Value::Object(left))
}

fn has_object(tree: &Value, key: &str) -> bool
    ensures { result ≡ is_some (option_and_then as_object (get key.now (view tree.now))) }
{
    tree.get(key).and_then(Value::as_object).is_some()
}

fn members_or_none(alloc: Global, value: Value) -> Map<String, Value>
    ensures { members_view result.entries ≡ members_in (Some (view value)) }
{
    match value {
        Value::Object(members) => members,
        _ => Map::new(alloc),
    }
}

#[tactic(auto, unfolding(crate::specs::Edits::without_these))]
fn without_these(
    alloc: Global,
    tree: Value,
    ids: &IdSet,
    names: &NameSet,
) -> Result<Value, AllocError>
    ensures { IfOk result (λ v. view v ≡ without_these (is_in ids.now) (has_key names.now) (view tree)) }
{
    let tree = without_refs(alloc, tree, names)?;
    let tree = without_history(alloc, tree, ids)?;
    let tree = without_items(alloc, tree, ids, "partition-statistics")?;
    let tree = without_items(alloc, tree, ids, "statistics")?;
    without_items(alloc, tree, ids, "snapshots")
}

/// The tree without these snapshots and the refs of these names.
pub fn without_snapshots(
    alloc: Global,
    tree: Value,
    ids: &[i64],
    names: &[Text],
) -> Result<Value, AllocError>
    ensures { IfOk result (λ v. view v ≡ without_snapshots ids.now names.now (view tree)) }
{
    let ids = id_set(alloc, ids)?;
    let names = name_set(alloc, names)?;
    without_these(alloc, tree, &ids, &names)
}
