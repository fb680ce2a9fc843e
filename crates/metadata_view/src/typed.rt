//! The typed view of a tree.
ghost use Rattle.std.specs.Prelude.{◌≡◌, ◌++◌, map, IfOk, IsUtf8, codes, option_map, option_and_then};
ghost use Rattle.serde_json.specs.Find.{get};
ghost use Rattle.serde_json.specs.View.{view, members_view};
ghost use Rattle.metadata_json.specs.Fields.{unsigned, text_at};
ghost use Rattle.metadata_form.specs.Form.{int};
ghost use Rattle.metadata_json.specs.Edits.{set};
ghost use Rattle.metadata_view.specs.View.{int_at, current_of, operation_of, snapshot_of, snapshots_of, new_branch, main_ref, refs_tree, ref_of, refs_in, refs_of, statistics_file_of, statistics_of, text_in, properties_in, properties_of, typed_of};

use crate::types::{
    Property, PropertyList, Ref, RefList, Snapshot, SnapshotList, Statistics, StatisticsList,
};
use ice_store::{Items, Text};
use metadata_form::{int, is_branch_text};
use metadata_json::{
    items, members, object_at, set, signed, signed_or_zero, text_or_empty, unsigned_or_zero,
};
use serde_json::{Map, Value, json};
use std::alloc::{AllocError, Global};

/// What the fields of metadata say.
#[derive(Drop)]
pub struct Typed {
    pub uuid: Text,
    pub location: Text,
    pub last_sequence: i64,
    pub last_updated_ms: u64,
    pub current: Option<i64>,
    pub current_schema_id: i32,
    pub default_spec_id: i32,
    pub snapshots: SnapshotList,
    pub refs: RefList,
    pub statistics: StatisticsList,
    pub properties: PropertyList,
}

fn int_in(found: Option<&Value>) -> Option<i32>
    ensures { result ≡ option_and_then int (option_map (λ v. view v.now) found.entry) }
{
    match found {
        Some(value) => int(value),
        None => None,
    }
}

fn int_or_zero(tree: &Value, name: &str) -> i32
    ensures { result ≡ int_at name.now (view tree.now) }
{
    int_in(tree.get(name)).unwrap_or(0)
}

fn unsigned(tree: &Value, name: &str) -> Option<u64>
    ensures { result ≡ option_and_then unsigned (get name.now (view tree.now)) }
{
    tree.get(name).and_then(Value::as_u64)
}

/// The current snapshot's id; absent, null and -1 stand for none.
pub(crate) fn current(tree: &Value) -> Option<i64>
    ensures { result ≡ current_of (view tree.now) }
{
    match signed(tree, "current-snapshot-id") {
        Some(id) => if id == -1 { None } else { Some(id) },
        None => None,
    }
}

fn copy_of_text(alloc: Global, tree: &Value, name: &str) -> Result<Text, AllocError>
    ensures text { IfOk result (λ t. t ≡ text_at name.now (view tree.now)) }
    ensures utf8 { IfOk result (λ t. IsUtf8 t) }
{
    Text::copy_of(alloc, text_or_empty(tree, name).as_bytes())
}

fn operation(alloc: Global, summary: Option<&Value>) -> Result<Text, AllocError>
    ensures { IfOk result (λ t. t ≡ operation_of (option_map (λ v. view v.now) summary.entry)) }
{
    match summary {
        Some(summary) => copy_of_text(alloc, summary, "operation"),
        None => Ok(Text::new(Vec::new(alloc))),
    }
}

#[tactic(auto, unfolding(crate::specs::View::snapshot_of))]
fn snapshot(alloc: Global, tree: &Value) -> Result<Snapshot, AllocError>
    ensures { IfOk result (λ s. s ≡ snapshot_of (view tree.now)) }
{
    let list = copy_of_text(alloc, tree, "manifest-list")?;
    let operation = operation(alloc, tree.get("summary"))?;
    Ok(Snapshot {
        id: signed_or_zero(tree, "snapshot-id"),
        parent: signed(tree, "parent-snapshot-id"),
        sequence: signed_or_zero(tree, "sequence-number"),
        ms: unsigned_or_zero(tree, "timestamp-ms"),
        list,
        operation,
        schema_id: signed(tree, "schema-id"),
    })
}

/// The snapshots, in the order of `snapshots`.
fn snapshots(alloc: Global, tree: &Value) -> Result<SnapshotList, AllocError>
    ensures { IfOk result (λ s. s ≡ snapshots_of (view tree.now)) }
{
    let list = items(tree, "snapshots");
    let mut found = Vec::with_capacity(alloc, list.len())?;
    for item in list {
        found.push(snapshot(alloc, item)?)?;
    }
    Ok(Items::new(found))
}

/// A branch at a snapshot.
#[tactic(auto, unfolding(crate::specs::View::new_branch))]
pub fn new_branch(alloc: Global, id: i64) -> Result<Value, AllocError>
    ensures { IfOk result (λ v. view v ≡ new_branch id) }
{
    json!(in alloc; {"snapshot-id": id, "type": "branch"})
}

/// The ref `main` that is written in `refs`.
pub(crate) fn main_ref(tree: &Value) -> Option<&Value>
    ensures { option_map (λ v. view v.now) result ≡ main_ref (view tree.now) }
{
    match tree.get("refs") {
        Some(refs) => refs.get("main"),
        None => None,
    }
}

fn refs_tree(alloc: Global, tree: &Value) -> Result<Value, AllocError>
    ensures { IfOk result (λ v. view v ≡ refs_tree (view tree.now)) }
{
    let refs = object_at(alloc, tree, "refs")?;
    match current(tree) {
        Some(id) => if main_ref(tree).is_some() {
            Ok(refs)
        } else {
            with_branch(alloc, refs, id)
        },
        None => Ok(refs),
    }
}

fn with_branch(alloc: Global, refs: Value, id: i64) -> Result<Value, AllocError>
    ensures { IfOk result (λ v. view v ≡ set (codes "main") (new_branch id) (view refs)) }
{
    let branch = new_branch(alloc, id)?;
    set(alloc, refs, "main", branch)
}

#[tactic(auto, unfolding(crate::specs::View::ref_of))]
fn reference(alloc: Global, name: &str, tree: &Value) -> Result<Ref, AllocError>
    ensures { IfOk result (λ r. r ≡ ref_of name.now (view tree.now)) }
{
    let name = Text::copy_of(alloc, name.as_bytes())?;
    Ok(Ref {
        name,
        id: signed_or_zero(tree, "snapshot-id"),
        is_branch: is_branch_text(text_or_empty(tree, "type")),
        max_ref_age_ms: unsigned(tree, "max-ref-age-ms"),
        min_keep: unsigned(tree, "min-snapshots-to-keep"),
        max_snapshot_age_ms: unsigned(tree, "max-snapshot-age-ms"),
    })
}

fn refs_in(alloc: Global, members: &Map<String, Value>) -> Result<RefList, AllocError>
    ensures { IfOk result (λ s. s ≡ refs_in (members_view members.now.entries)) }
{
    let mut found = Vec::new(alloc);
    for (name, value) in members.iter() {
        found.push(reference(alloc, name.as_str(), value)?)?;
    }
    Ok(Items::new(found))
}

fn refs(alloc: Global, tree: &Value) -> Result<RefList, AllocError>
    ensures { IfOk result (λ s. s ≡ refs_of (view tree.now)) }
{
    let refs = refs_tree(alloc, tree)?;
    match refs.as_object() {
        Some(members) => refs_in(alloc, members),
        None => Ok(Items::empty(alloc)),
    }
}

#[tactic(auto, unfolding(crate::specs::View::statistics_file_of))]
fn statistics_file(alloc: Global, tree: &Value) -> Result<Statistics, AllocError>
    ensures { IfOk result (λ s. s ≡ statistics_file_of (view tree.now)) }
{
    let path = copy_of_text(alloc, tree, "statistics-path")?;
    Ok(Statistics {
        snapshot_id: signed_or_zero(tree, "snapshot-id"),
        path,
    })
}

fn add_statistics(
    alloc: Global,
    list: &[Value],
    found: Vec<Statistics>,
) -> Result<Vec<Statistics>, AllocError>
    ensures { IfOk result (λ v. v.items ≡ found.items ++ map statistics_file_of (map view list.now)) }
{
    let mut longer = found;
    for item in list {
        longer.push(statistics_file(alloc, item)?)?;
    }
    Ok(longer)
}

fn statistics(alloc: Global, tree: &Value) -> Result<StatisticsList, AllocError>
    ensures { IfOk result (λ s. s ≡ statistics_of (view tree.now)) }
{
    let first = add_statistics(alloc, items(tree, "statistics"), Vec::new(alloc))?;
    let both = add_statistics(alloc, items(tree, "partition-statistics"), first)?;
    Ok(Items::new(both))
}

fn property(alloc: Global, name: &str, value: &Value) -> Result<Property, AllocError>
    ensures { IfOk result (λ p. p ≡ record { name = name.now; value = text_in (view value.now) }) }
{
    let name = Text::copy_of(alloc, name.as_bytes())?;
    let value = Text::copy_of(alloc, value.as_str().unwrap_or("").as_bytes())?;
    Ok(Property { name, value })
}

fn properties_in(alloc: Global, members: &Map<String, Value>) -> Result<PropertyList, AllocError>
    ensures { IfOk result (λ s. s ≡ properties_in (members_view members.now.entries)) }
{
    let mut found = Vec::new(alloc);
    for (name, value) in members.iter() {
        found.push(property(alloc, name.as_str(), value)?)?;
    }
    Ok(Items::new(found))
}

fn properties(alloc: Global, tree: &Value) -> Result<PropertyList, AllocError>
    ensures { IfOk result (λ s. s ≡ properties_of (view tree.now)) }
{
    match members(tree, "properties") {
        Some(members) => properties_in(alloc, members),
        None => Ok(Items::empty(alloc)),
    }
}

/// The typed view.
pub fn typed_view(alloc: Global, tree: &Value) -> Result<Typed, AllocError>
    ensures typed { IfOk result (λ t. t ≡ typed_of (view tree.now)) }
    ensures utf8 { IfOk result (λ t. IsUtf8 t.location) }
{
    let uuid = copy_of_text(alloc, tree, "table-uuid")?;
    let location = copy_of_text(alloc, tree, "location")?;
    let snapshots = snapshots(alloc, tree)?;
    let refs = refs(alloc, tree)?;
    let statistics = statistics(alloc, tree)?;
    let properties = properties(alloc, tree)?;
    Ok(Typed {
        uuid,
        location,
        last_sequence: signed_or_zero(tree, "last-sequence-number"),
        last_updated_ms: unsigned_or_zero(tree, "last-updated-ms"),
        current: current(tree),
        current_schema_id: int_or_zero(tree, "current-schema-id"),
        default_spec_id: int_or_zero(tree, "default-spec-id"),
        snapshots,
        refs,
        statistics,
        properties,
    })
}
