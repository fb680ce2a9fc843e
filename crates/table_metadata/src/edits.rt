//! The edits of metadata, on its tree and in place.
ghost use Rattle.std.specs.Prelude.{◌≡◌, ◌<◌, IfOk, IsUtf8, option_map};
ghost use Rattle.serde_json.specs.Find.{get};
ghost use Rattle.metadata_json.specs.Edits.{set};
ghost use Rattle.serde_json.specs.View.{view};
ghost use Rattle.metadata_snapshots.specs.Conditions.{AreTexts};
ghost use Rattle.table_metadata.specs.Edits.{moved_ref, with_moved_ref, snapshot_log_item, with_current, moment_of, with_ref, with_snapshot, metadata_log_item, with_previous, next_keeping};

use ice_store::Text;
use metadata_json::{Taken, add, add_within, object_or_empty, set, take, unsigned_or_zero};
use metadata_snapshots::with_listed;
use metadata_view::{Snapshot, new_branch};
use serde_json::{Value, json};
use std::alloc::{AllocError, Global};

#[tactic(auto, unfolding(crate::specs::Edits::moved_ref))]
fn moved_ref(alloc: Global, old: Option<&Value>, id: i64) -> Result<Value, AllocError>
    ensures { IfOk result (λ v. view v ≡ moved_ref id (option_map (λ r. view r.now) old.entry)) }
{
    match old {
        Some(old) => set(alloc, old.clone()?, "snapshot-id", Value::from(id)),
        None => new_branch(alloc, id),
    }
}

fn moved_among(alloc: Global, refs: Value, name: &str, id: i64) -> Result<Value, AllocError>
    ensures { IfOk result (λ v. view v ≡ set name.now (moved_ref id (get name.now (view refs))) (view refs)) }
{
    let moved = moved_ref(alloc, refs.get(name), id)?;
    set(alloc, refs, name, moved)
}

#[tactic(auto, unfolding(crate::specs::Edits::with_moved_ref))]
fn with_moved_ref(alloc: Global, tree: Value, name: &str, id: i64) -> Result<Value, AllocError>
    ensures { IfOk result (λ v. view v ≡ with_moved_ref name.now id (view tree)) }
{
    let Taken { rest, value } = take(alloc, tree, "refs")?;
    let refs = moved_among(alloc, object_or_empty(alloc, value), name, id)?;
    set(alloc, rest, "refs", refs)
}

#[tactic(auto, unfolding(crate::specs::Edits::snapshot_log_item))]
fn snapshot_log_item(alloc: Global, id: i64, t: u64) -> Result<Value, AllocError>
    ensures { IfOk result (λ v. view v ≡ snapshot_log_item id t) }
{
    json!(in alloc; {"snapshot-id": id, "timestamp-ms": t})
}

#[tactic(auto, unfolding(crate::specs::Edits::with_current))]
fn with_current(alloc: Global, tree: Value, id: i64, t: u64) -> Result<Value, AllocError>
    ensures { IfOk result (λ v. view v ≡ with_current id t (view tree)) }
{
    let tree = set(alloc, tree, "current-snapshot-id", Value::from(id))?;
    let item = snapshot_log_item(alloc, id, t)?;
    add(alloc, tree, "snapshot-log", item)
}

fn moment(ms: u64, tree: &Value) -> u64
    ensures { result ≡ moment_of ms (view tree.now) }
{
    ms.max(unsigned_or_zero(tree, "last-updated-ms"))
}

/// The tree with a ref moved to a snapshot.
#[tactic(auto, unfolding(crate::specs::Edits::with_ref))]
pub(crate) fn with_ref(
    alloc: Global,
    tree: Value,
    name: &str,
    id: i64,
    ms: u64,
) -> Result<Value, AllocError>
    ensures { IfOk result (λ v. view v ≡ with_ref name.now id ms (view tree)) }
{
    let t = moment(ms, &tree);
    let moved = with_moved_ref(alloc, tree, name, id)?;
    if name == "main" {
        with_current(alloc, moved, id, t)
    } else {
        Ok(moved)
    }
}

/// The tree with one more snapshot, to which `main` goes.
#[tactic(auto, unfolding(crate::specs::Edits::with_snapshot))]
pub(crate) fn with_snapshot(
    alloc: Global,
    tree: Value,
    snapshot: &Snapshot,
    texts: &[(Text, Text)],
    ms: u64,
) -> Result<Value, AllocError>
    requires list { IsUtf8 snapshot.now.list }
    requires operation { IsUtf8 snapshot.now.operation }
    requires texts { AreTexts texts.now }
    ensures { IfOk result (λ v. view v ≡ with_snapshot snapshot.now texts.now ms (view tree)) }
{
    let listed = with_listed(alloc, tree, snapshot, texts)?;
    with_ref(alloc, listed, "main", snapshot.id, ms)
}

#[tactic(auto, unfolding(crate::specs::Edits::metadata_log_item))]
fn metadata_log_item(alloc: Global, previous: &str, t: u64) -> Result<Value, AllocError>
    ensures { IfOk result (λ v. view v ≡ metadata_log_item previous.now t) }
{
    json!(in alloc; {"metadata-file": previous, "timestamp-ms": t})
}

#[tactic(auto, unfolding(crate::specs::Edits::with_previous))]
fn with_previous(alloc: Global, tree: Value, previous: &str, most: u64) -> Result<Value, AllocError>
    requires { 0 < most }
    ensures { IfOk result (λ v. view v ≡ with_previous most previous.now (view tree)) }
{
    let item = metadata_log_item(alloc, previous, unsigned_or_zero(&tree, "last-updated-ms"))?;
    add_within(alloc, tree, "metadata-log", item, most)
}

/// The tree of the next version, whose metadata log keeps at most `most` items.
#[tactic(auto, unfolding(crate::specs::Edits::next_keeping))]
pub(crate) fn next_version(
    alloc: Global,
    tree: Value,
    previous: &str,
    ms: u64,
    most: u64,
) -> Result<Value, AllocError>
    requires { 0 < most }
    ensures { IfOk result (λ v. view v ≡ next_keeping most previous.now ms (view tree)) }
{
    let t = moment(ms, &tree);
    let longer = with_previous(alloc, tree, previous, most)?;
    set(alloc, longer, "last-updated-ms", Value::from(t))
}
