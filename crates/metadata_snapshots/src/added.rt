//! The edit that adds a snapshot, on the tree and in place.
ghost use Rattle.std.specs.Prelude.{◌≡◌, IfOk, OnOk, IsUtf8};
ghost use Rattle.serde_json.specs.Data.{string, put, no_members};
ghost use Rattle.serde_json.specs.View.{view, members_view};
ghost use Rattle.metadata_snapshots.specs.Edits.{put_texts, summary_tree, bare_snapshot, set_number, snapshot_tree, with_listed};
ghost use Rattle.metadata_snapshots.specs.Conditions.{AreTexts};

use ice_store::{Items, Text};
use metadata_json::{add, set};
use metadata_view::Snapshot;
use serde_json::{Map, Value, json};
use std::alloc::{AllocError, Global};

/// Names with a text each.
pub type PairTexts = Items<(Text, Text)>;

/// A text as it is written in JSON.
pub fn as_str(text: &Text) -> &str
    requires { IsUtf8 text.now }
    ensures { result.now ≡ text.now }
{
    match std::str::from_utf8(text.inner().as_slice()) {
        Ok(s) => s,
        Err(_) => unreachable!(),
    }
}

fn text_value(alloc: Global, text: &Text) -> Result<Value, AllocError>
    requires { IsUtf8 text.now }
    ensures { IfOk result (λ v. view v ≡ string text.now) }
{
    Ok(Value::String(String::from_str(alloc, as_str(text))?))
}

fn put_text(
    alloc: Global,
    members: &mut Map<String, Value>,
    name: &str,
    text: &Text,
) -> Result<(), AllocError>
    requires { IsUtf8 text.now }
    ensures { OnOk result (members_view members.new.entries ≡ put name.now (string text.now) (members_view members.old.entries)) }
{
    let value = text_value(alloc, text)?;
    serde_json::put(members, alloc, name, value)?;
    Ok(())
}

fn put_pair(
    alloc: Global,
    members: &mut Map<String, Value>,
    pair: &(Text, Text),
) -> Result<(), AllocError>
    requires { IsUtf8 pair.now.0 × IsUtf8 pair.now.1 }
    ensures { OnOk result (members_view members.new.entries ≡ put pair.now.0 (string pair.now.1) (members_view members.old.entries)) }
{
    put_text(alloc, members, as_str(&pair.0), &pair.1)
}

#[tactic(auto, unfolding(crate::specs::Edits::put_texts))]
fn members_of(alloc: Global, texts: &[(Text, Text)]) -> Result<Map<String, Value>, AllocError>
    requires { AreTexts texts.now }
    ensures { IfOk result (λ m. members_view m.entries ≡ put_texts texts.now no_members) }
{
    let mut members = Map::new(alloc);
    for pair in texts {
        put_pair(alloc, &mut members, pair)?;
    }
    Ok(members)
}

#[tactic(auto, unfolding(crate::specs::Edits::summary_tree))]
fn summary_tree(
    alloc: Global,
    operation: &Text,
    texts: &[(Text, Text)],
) -> Result<Value, AllocError>
    requires operation { IsUtf8 operation.now }
    requires texts { AreTexts texts.now }
    ensures { IfOk result (λ v. view v ≡ summary_tree operation.now texts.now) }
{
    let mut members = members_of(alloc, texts)?;
    put_text(alloc, &mut members, "operation", operation)?;
    Ok(Value::Object(members))
}

#[tactic(auto, unfolding(crate::specs::Edits::bare_snapshot))]
fn bare_snapshot(alloc: Global, snapshot: &Snapshot) -> Result<Value, AllocError>
    requires { IsUtf8 snapshot.now.list }
    ensures { IfOk result (λ v. view v ≡ bare_snapshot snapshot.now) }
{
    json!(in alloc; {
        "manifest-list": as_str(&snapshot.list),
        "sequence-number": snapshot.sequence,
        "snapshot-id": snapshot.id,
        "timestamp-ms": snapshot.ms
    })
}

fn set_number(
    alloc: Global,
    tree: Value,
    key: &str,
    number: Option<i64>,
) -> Result<Value, AllocError>
    ensures { IfOk result (λ v. view v ≡ set_number key.now number (view tree)) }
{
    match number {
        Some(number) => set(alloc, tree, key, Value::from(number)),
        None => Ok(tree),
    }
}

#[tactic(auto, unfolding(crate::specs::Edits::snapshot_tree))]
fn snapshot_tree(
    alloc: Global,
    snapshot: &Snapshot,
    texts: &[(Text, Text)],
) -> Result<Value, AllocError>
    requires list { IsUtf8 snapshot.now.list }
    requires operation { IsUtf8 snapshot.now.operation }
    requires texts { AreTexts texts.now }
    ensures { IfOk result (λ v. view v ≡ snapshot_tree snapshot.now texts.now) }
{
    let summary = summary_tree(alloc, &snapshot.operation, texts)?;
    let bare = bare_snapshot(alloc, snapshot)?;
    let whole = set(alloc, bare, "summary", summary)?;
    let child = set_number(alloc, whole, "parent-snapshot-id", snapshot.parent)?;
    set_number(alloc, child, "schema-id", snapshot.schema_id)
}

/// The tree with one more snapshot, whose sequence number is now the last one.
#[tactic(auto, unfolding(crate::specs::Edits::with_listed))]
pub fn with_listed(
    alloc: Global,
    tree: Value,
    snapshot: &Snapshot,
    texts: &[(Text, Text)],
) -> Result<Value, AllocError>
    requires list { IsUtf8 snapshot.now.list }
    requires operation { IsUtf8 snapshot.now.operation }
    requires texts { AreTexts texts.now }
    ensures { IfOk result (λ v. view v ≡ with_listed snapshot.now texts.now (view tree)) }
{
    let item = snapshot_tree(alloc, snapshot, texts)?;
    let longer = add(alloc, tree, "snapshots", item)?;
    set(
        alloc,
        longer,
        "last-sequence-number",
        Value::from(snapshot.sequence),
    )
}
