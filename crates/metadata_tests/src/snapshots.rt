//! Worked examples: snapshots that are added to a table, and taken away.
ghost use Rattle.std.specs.Prelude.{◌≡◌, ◌<◌, ◌^◌, IfOk, IsUtf8};
ghost use Rattle.metadata_snapshots.specs.Conditions.{AreTexts, IsTextual, IsIntOrNone};

use crate::tables::{neighbour, read, show_walk, shown, text_of, written};
use crate::three_snapshots;
use ice_store::{Items, Text, TextList};
use std::alloc::{AllocError, Global};
use std::test::Fail;
use table_metadata::{IdList, Meta, MetaErr, PairTexts, Snapshot};

// What a change of a table comes to, and what a line says that it comes to.
struct Outcome {
    found: Text,
    want: String,
}

fn wanted(alloc: Global, after: &str) -> Result<String, AllocError> {
    if after == "no" {
        return String::from_str(alloc, "no");
    }
    neighbour(alloc, three_snapshots(), after)
}

fn written_or_no(alloc: Global, meta: Option<Meta>) -> Result<Text, AllocError> {
    match meta {
        Some(meta) => written(alloc, &meta),
        None => text_of(alloc, "no"),
    }
}

fn number(digits: &str) -> i64 {
    match digits {
        "11" => 11,
        "22" => 22,
        "33" => 33,
        "55" => 55,
        _ => 99,
    }
}

fn neighbour_read(alloc: Global, changes: &str) -> Result<Meta, MetaErr> {
    let text = neighbour(alloc, three_snapshots(), changes)?;
    read(alloc, text.as_str())
}

fn texts(alloc: Global) -> Result<PairTexts, AllocError>
    ensures { IfOk result (λ t. AreTexts t) }
{
    let added = text_of(alloc, "added-records")?;
    let number = text_of(alloc, "2")?;
    let other = text_of(alloc, "z")?;
    let value = text_of(alloc, "y")?;
    let mut pairs = Vec::new(alloc);
    pairs.push((other, value))?;
    pairs.push((added, number))?;
    Ok(Items::new(pairs))
}

// The snapshot 44, of this parent.
fn snapshot_44(alloc: Global, parent: i64) -> Result<Snapshot, AllocError>
    ensures list { IfOk result (λ s. IsUtf8 s.list) }
    ensures operation { IfOk result (λ s. IsUtf8 s.operation) }
    ensures schema { IfOk result (λ s. IsIntOrNone s.schema_id) }
    ensures made { IfOk result (λ s. s.ms < 2 ^ 63) }
{
    let list = text_of(alloc, "/w/t/metadata/l44.avro")?;
    let operation = text_of(alloc, "append")?;
    Ok(Snapshot {
        id: 44,
        parent: Some(parent),
        sequence: 4,
        ms: 3000,
        list,
        operation,
        schema_id: None,
    })
}

fn added_to(
    alloc: Global,
    meta: &Meta,
    snapshot: &Snapshot,
    summary: &PairTexts,
) -> Result<Option<Meta>, AllocError>
    requires texts { IsTextual snapshot.now summary.now }
    requires schema { IsIntOrNone snapshot.now.schema_id }
    requires made { snapshot.now.ms < 2 ^ 63 }
{
    if !meta.is_new_id(snapshot.id) || !meta.knows_parent(snapshot.parent) {
        return Ok(None);
    }
    Ok(Some(meta.with_snapshot(alloc, snapshot, summary, 2500)?))
}

fn with_44(alloc: Global, meta: &Meta, parent: i64) -> Result<Text, AllocError> {
    let snapshot = snapshot_44(alloc, parent)?;
    let summary = texts(alloc)?;
    let longer = added_to(alloc, meta, &snapshot, &summary)?;
    written_or_no(alloc, longer)
}

// Each line has a parent, the changes of the table before the snapshot 44 is added at 2500, and those that this comes to.
fn additions() -> &'static str {
    "33: \"schemas\"=>\"schemas\" = \"current-snapshot-id\":33=>\"current-snapshot-id\":44;;\"last-sequence-number\":3=>\"last-sequence-number\":4;;\"main\":{\"snapshot-id\":33=>\"main\":{\"snapshot-id\":44;;\"snapshot-id\":33,\"timestamp-ms\":3000}],=>\"snapshot-id\":33,\"timestamp-ms\":3000},{\"snapshot-id\":44,\"timestamp-ms\":3000}],;;\"timestamp-ms\":3000}],\"sort-orders\"=>\"timestamp-ms\":3000},{\"manifest-list\":\"/w/t/metadata/l44.avro\",\"parent-snapshot-id\":33,\"sequence-number\":4,\"snapshot-id\":44,\"summary\":{\"added-records\":\"2\",\"operation\":\"append\",\"z\":\"y\"},\"timestamp-ms\":3000}],\"sort-orders\"
33: \"snapshot-log\":[{\"snapshot-id\":11,\"timestamp-ms\":1000},{\"snapshot-id\":22,\"timestamp-ms\":2000},{\"snapshot-id\":33,\"timestamp-ms\":3000}],=>\"x\":{\"y\":[1]},;;\"main\":{\"snapshot-id\":33,=>\"main\":{\"snapshot-id\":33,\"u\":1, = \"current-snapshot-id\":33=>\"current-snapshot-id\":44;;\"last-sequence-number\":3=>\"last-sequence-number\":4;;\"main\":{\"snapshot-id\":33,\"type\":\"branch\"}=>\"main\":{\"snapshot-id\":44,\"type\":\"branch\",\"u\":1};;\"snapshot-log\":[{\"snapshot-id\":11,\"timestamp-ms\":1000},{\"snapshot-id\":22,\"timestamp-ms\":2000},{\"snapshot-id\":33,\"timestamp-ms\":3000}]=>\"snapshot-log\":[{\"snapshot-id\":44,\"timestamp-ms\":3000}];;\"timestamp-ms\":3000}],\"sort-orders\"=>\"timestamp-ms\":3000},{\"manifest-list\":\"/w/t/metadata/l44.avro\",\"parent-snapshot-id\":33,\"sequence-number\":4,\"snapshot-id\":44,\"summary\":{\"added-records\":\"2\",\"operation\":\"append\",\"z\":\"y\"},\"timestamp-ms\":3000}],\"sort-orders\";;ddf69c1\"=>ddf69c1\",\"x\":{\"y\":[1]}
55: \"schemas\"=>\"schemas\" = no
33: \"snapshot-id\":11,\"summary\"=>\"parent-snapshot-id\":44,\"snapshot-id\":11,\"summary\" = no"
}

fn addition(alloc: Global, line: &str) -> Result<Outcome, Fail> {
    let (parent, changes) = line.split_once(": ").unwrap_or(("", ""));
    let (before, after) = changes.split_once(" = ").unwrap_or(("", ""));
    let meta = neighbour_read(alloc, before)?;
    let found = with_44(alloc, &meta, number(parent))?;
    Ok(Outcome {
        found,
        want: wanted(alloc, after)?,
    })
}

#[test]
fn snapshot_added_at_old_moment(rt: HostRuntime) -> Result<(), Fail> {
    for line in additions().lines() {
        let Outcome { found, want } = addition(rt.alloc(), line)?;
        assert_eq!(rt; shown(&found), want.as_str(), "{line}");
    }
    Ok(())
}

fn taken_from(
    alloc: Global,
    meta: &Meta,
    ids: &IdList,
    refs: &TextList,
) -> Result<Option<Meta>, AllocError> {
    if !meta.can_lose(ids, refs) {
        return Ok(None);
    }
    Ok(Some(meta.without_snapshots(alloc, ids, refs)?))
}

fn id_list(alloc: Global, id: i64) -> Result<IdList, AllocError> {
    let mut ids = Vec::new(alloc);
    ids.push(id)?;
    Ok(Items::new(ids))
}

fn name_list(alloc: Global, name: &str) -> Result<TextList, AllocError> {
    let mut names = Vec::new(alloc);
    names.push(text_of(alloc, name)?)?;
    Ok(Items::new(names))
}

fn without(alloc: Global, meta: &Meta, id: i64, name: &str) -> Result<Option<Meta>, AllocError> {
    let (ids, names) = (id_list(alloc, id)?, name_list(alloc, name)?);
    taken_from(alloc, meta, &ids, &names)
}

// Each line has an id and a name, the changes of the table before the snapshot goes with the ref, and those that this comes
// to.
fn removals() -> &'static str {
    "22 x: \"schemas\"=>\"schemas\" = \"snapshot-log\":[{\"snapshot-id\":11,\"timestamp-ms\":1000},{\"snapshot-id\":22,\"timestamp-ms\":2000},=>\"snapshot-log\":[;;{\"manifest-list\":\"/w/t/metadata/l22.avro\",\"parent-snapshot-id\":11,\"sequence-number\":2,\"snapshot-id\":22,\"summary\":{\"operation\":\"append\"},\"timestamp-ms\":2000},=>
11 x: \"schemas\"=>\"schemas\" = \"snapshot-log\":[{\"snapshot-id\":11,\"timestamp-ms\":1000},=>\"snapshot-log\":[;;{\"manifest-list\":\"/w/t/metadata/l11.avro\",\"sequence-number\":1,\"snapshot-id\":11,\"summary\":{\"operation\":\"append\"},\"timestamp-ms\":1000},=>
11 x: \"snapshot-log\":[{\"snapshot-id\":11,\"timestamp-ms\":1000},{\"snapshot-id\":22,\"timestamp-ms\":2000},{\"snapshot-id\":33,\"timestamp-ms\":3000}],=>\"x\":{\"y\":[1]},;;\"timestamp-ms\":3000}],\"sort-orders\"=>\"timestamp-ms\":3000,\"z\":{}}],\"sort-orders\" = \"snapshot-log\":[{\"snapshot-id\":11,\"timestamp-ms\":1000},{\"snapshot-id\":22,\"timestamp-ms\":2000},{\"snapshot-id\":33,\"timestamp-ms\":3000}],=>;;{\"manifest-list\":\"/w/t/metadata/l11.avro\",\"sequence-number\":1,\"snapshot-id\":11,\"summary\":{\"operation\":\"append\"},\"timestamp-ms\":1000},=>;;\"timestamp-ms\":3000}],\"sort-orders\"=>\"timestamp-ms\":3000,\"z\":{}}],\"sort-orders\";;ddf69c1\"=>ddf69c1\",\"x\":{\"y\":[1]}
22 b: \"refs\":{=>\"refs\":{\"a\":{\"snapshot-id\":11,\"type\":\"tag\",\"x\":7},\"b\":{\"snapshot-id\":22,\"type\":\"tag\"},;;\"properties\":{}=>\"partition-statistics\":[{\"file-size-in-bytes\":1,\"snapshot-id\":22,\"statistics-path\":\"p\"},{\"file-size-in-bytes\":1,\"snapshot-id\":33,\"statistics-path\":\"q\"}],\"properties\":{};;\"table-uuid\"=>\"statistics\":[{\"blob-metadata\":[],\"file-footer-size-in-bytes\":1,\"file-size-in-bytes\":1,\"k\":[],\"snapshot-id\":11,\"statistics-path\":\"s\"},{\"blob-metadata\":[],\"file-footer-size-in-bytes\":1,\"file-size-in-bytes\":1,\"k\":[],\"snapshot-id\":22,\"statistics-path\":\"t\"}],\"table-uuid\" = \"refs\":{=>\"refs\":{\"a\":{\"snapshot-id\":11,\"type\":\"tag\",\"x\":7},;;\"properties\":{}=>\"partition-statistics\":[{\"file-size-in-bytes\":1,\"snapshot-id\":33,\"statistics-path\":\"q\"}],\"properties\":{};;\"table-uuid\"=>\"statistics\":[{\"blob-metadata\":[],\"file-footer-size-in-bytes\":1,\"file-size-in-bytes\":1,\"k\":[],\"snapshot-id\":11,\"statistics-path\":\"s\"}],\"table-uuid\";;\"snapshot-log\":[{\"snapshot-id\":11,\"timestamp-ms\":1000},{\"snapshot-id\":22,\"timestamp-ms\":2000},=>\"snapshot-log\":[;;{\"manifest-list\":\"/w/t/metadata/l22.avro\",\"parent-snapshot-id\":11,\"sequence-number\":2,\"snapshot-id\":22,\"summary\":{\"operation\":\"append\"},\"timestamp-ms\":2000},=>
99 x: \"schemas\"=>\"schemas\" = \"schemas\"=>\"schemas\"
22 main: \"schemas\"=>\"schemas\" = no
33 x: \"schemas\"=>\"schemas\" = no
22 x: \"refs\":{=>\"refs\":{\"b\":{\"snapshot-id\":22,\"type\":\"tag\"}, = no
33 b: \"refs\":{\"main\":{\"snapshot-id\":33,\"type\":\"branch\"}},=> = no"
}

fn removal(alloc: Global, line: &str) -> Result<Outcome, Fail> {
    let (which, changes) = line.split_once(": ").unwrap_or(("", ""));
    let (id, name) = which.split_once(" ").unwrap_or(("", ""));
    let (before, after) = changes.split_once(" = ").unwrap_or(("", ""));
    let meta = neighbour_read(alloc, before)?;
    let fewer = without(alloc, &meta, number(id), name)?;
    let found = written_or_no(alloc, fewer)?;
    Ok(Outcome {
        found,
        want: wanted(alloc, after)?,
    })
}

#[test]
fn snapshots_removed_from_log(rt: HostRuntime) -> Result<(), Fail> {
    for line in removals().lines() {
        let Outcome { found, want } = removal(rt.alloc(), line)?;
        assert_eq!(rt; shown(&found), want.as_str(), "{line}");
    }
    Ok(())
}

fn walk_without_22(alloc: Global) -> Result<String, MetaErr> {
    let meta = read(alloc, three_snapshots())?;
    match without(alloc, &meta, 22, "x")? {
        Some(fewer) => Ok(show_walk(alloc, &fewer, 33)?),
        None => Ok(String::new(alloc)),
    }
}

#[test]
fn ancestors_of_33_without_22(rt: HostRuntime) -> Result<(), Fail> {
    let found = walk_without_22(rt.alloc())?;
    assert_eq!(rt; found.as_str(), "[33]");
    Ok(())
}
