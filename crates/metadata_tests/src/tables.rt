//! Worked examples: a table with three snapshots, what is wrong with its neighbours, and its next version.
ghost use Rattle.std.specs.Prelude.{◌<◌, ◌^◌, IfOk, IsUtf8};

use crate::three_snapshots;
use ice_store::{Bytes, Text};
use std::alloc::{AllocError, Global};
use std::test::Fail;
use table_metadata::{EditErr, Meta, MetaErr, Ref, Snapshot, Statistics, read_meta, write_meta};

// The same table after a rollback to 11 at 9000.
fn rolled_back() -> &'static str {
    "{\"current-schema-id\":0,\"current-snapshot-id\":11,\"default-sort-order-id\":0,\"default-spec-id\":0,\"format-version\":2,\"last-column-id\":2,\"last-partition-id\":999,\"last-sequence-number\":3,\"last-updated-ms\":9000,\"location\":\"/w/t\",\"metadata-log\":[{\"metadata-file\":\"/w/t/metadata/v3.metadata.json\",\"timestamp-ms\":3000}],\"partition-specs\":[{\"fields\":[],\"spec-id\":0}],\"properties\":{},\"refs\":{\"main\":{\"snapshot-id\":11,\"type\":\"branch\"}},\"schemas\":[{\"fields\":[{\"id\":1,\"name\":\"id\",\"required\":true,\"type\":\"long\"},{\"id\":2,\"name\":\"name\",\"required\":false,\"type\":\"string\"}],\"schema-id\":0,\"type\":\"struct\"}],\"snapshot-log\":[{\"snapshot-id\":11,\"timestamp-ms\":1000},{\"snapshot-id\":22,\"timestamp-ms\":2000},{\"snapshot-id\":33,\"timestamp-ms\":3000},{\"snapshot-id\":11,\"timestamp-ms\":9000}],\"snapshots\":[{\"manifest-list\":\"/w/t/metadata/l11.avro\",\"sequence-number\":1,\"snapshot-id\":11,\"summary\":{\"operation\":\"append\"},\"timestamp-ms\":1000},{\"manifest-list\":\"/w/t/metadata/l22.avro\",\"parent-snapshot-id\":11,\"sequence-number\":2,\"snapshot-id\":22,\"summary\":{\"operation\":\"append\"},\"timestamp-ms\":2000},{\"manifest-list\":\"/w/t/metadata/l33.avro\",\"parent-snapshot-id\":22,\"sequence-number\":3,\"snapshot-id\":33,\"summary\":{\"operation\":\"append\"},\"timestamp-ms\":3000}],\"sort-orders\":[{\"fields\":[],\"order-id\":0}],\"table-uuid\":\"9c12d441-03fe-4693-9a96-a0705ddf69c1\"}"
}

// The text with the first `from` in it replaced, or an empty one where there is none.
fn changed(alloc: Global, text: &str, from: &str, to: &str) -> Result<String, AllocError> {
    match text.split_once(from) {
        Some((before, after)) => format!(in alloc; "{before}{to}{after}"),
        None => Ok(String::new(alloc)),
    }
}

// The text after the changes `from=>to`, with `;;` between them.
pub(crate) fn neighbour(alloc: Global, text: &str, changes: &str) -> Result<String, AllocError> {
    let mut now = String::from_str(alloc, text)?;
    for change in changes.split(";;") {
        let (from, to) = change.split_once("=>").unwrap_or(("", ""));
        now = changed(alloc, now.as_str(), from, to)?;
    }
    Ok(now)
}

// The cause for which a text is refused, or `read`.
fn outcome(alloc: Global, text: &str) -> Result<String, AllocError> {
    match read_meta(alloc, text.as_bytes()) {
        Ok(_) => String::from_str(alloc, "read"),
        Err(MetaErr::Bad { path, cause }) => {
            let path = shown(&path);
            format!(in alloc; "{cause:?} {path}")
        }
        Err(MetaErr::Memory) => String::from_str(alloc, "no memory"),
    }
}

// Each line has an outcome, a cause with its path, and the changes of the table that lead to it.
fn outcomes() -> &'static str {
    "NotJson : {\"current-schema-id\"=>\"current-schema-id\"
NotJson : \"last-column-id\":2=>\"last-column-id\":1e400
Fraction last-column-id: \"last-column-id\":2=>\"last-column-id\":2.0
Fraction x[0].y: \"properties\":{}=>\"properties\":{},\"x\":[{\"y\":-0}]
Fraction properties.a.b: \"properties\":{}=>\"properties\":{\"a.b\":1e1}
Fraction .y: {\"current-schema-id\"=>{\"\":{\"y\":0.5},\"current-schema-id\"
Fraction snapshots[1].sequence-number: \"sequence-number\":2=>\"sequence-number\":2.5;;\"sequence-number\":3=>\"sequence-number\":3.5
Fraction x: \"properties\":{}=>\"x\":18446744073709551616;;\"format-version\":2=>\"format-version\":1
Version(1) format-version: \"format-version\":2=>\"format-version\":1;;\"location\":\"/w/t\",=>
Version(18446744073709551615) format-version: \"format-version\":2,\"last-column-id\":2=>\"format-version\":18446744073709551615
Version(-2) format-version: \"format-version\":2=>\"format-version\":-2
Field format-version: \"format-version\":2=>\"format-version\":\"2\"
Field last-column-id: \"last-column-id\":2=>\"last-column-id\":2147483648;;\"location\":\"/w/t\"=>\"location\":5
Field location: \"location\":\"/w/t\"=>\"location\":null
Field last-updated-ms: \"last-updated-ms\":3000=>\"last-updated-ms\":-1
Field last-sequence-number: \"last-sequence-number\":3=>\"last-sequence-number\":9223372036854775808
Field table-uuid: ddf69c1\"=>ddf69c\"
Field current-schema-id: \"current-schema-id\":0=>\"current-schema-id\":1;;\"default-spec-id\":0=>\"default-spec-id\":5
Field current-schema-id: \"schemas\":[=>\"schema\":[
Field current-snapshot-id: \"current-snapshot-id\":33=>\"current-snapshot-id\":\"33\"
Field default-spec-id: \"default-spec-id\":0=>\"default-spec-id\":5
Field sort-orders: \"sort-orders\":[{\"fields\":[],\"order-id\":0}]=>\"sort-orders\":{}
Field sort-orders[1]: \"order-id\":0}]=>\"order-id\":0},0,1]
Field partition-specs[0]: \"partition-specs\":[=>\"partition-specs\":[[],
Field properties.b: \"properties\":{}=>\"properties\":{\"a\":\"c\",\"b\":1,\"d\":2}
Field properties: \"properties\":{}=>\"properties\":[]
Field refs: \"refs\":{\"main\":{\"snapshot-id\":33,\"type\":\"branch\"}}=>\"refs\":[]
Field refs.a: \"refs\":{=>\"refs\":{\"a\":7,
Field refs.main.min-snapshots-to-keep: \"type\":\"branch\"=>\"min-snapshots-to-keep\":-1,\"type\":\"tree\"
Field refs.main.type: \"type\":\"branch\"=>\"type\":\"tree\"
Field snapshots: \"snapshots\":[=>\"snapshots\":7,\"x\":[
Field snapshots[0]: \"snapshots\":[=>\"snapshots\":[7,
Field snapshots[0].manifest-list: \"manifest-list\":\"/w/t/metadata/l11.avro\"=>\"manifest-list\":null
Field snapshots[0].snapshot-id: \"snapshot-id\":11,\"summary\"=>\"snapshot-id\":-1,\"summary\"
Field snapshots[0].schema-id: \"summary\"=>\"schema-id\":2147483648,\"summary\"
Field snapshots[0].summary.a: {\"operation\":\"append\"}=>{\"a\":1}
Field snapshots[0].summary.operation: {\"operation\":\"append\"}=>{\"z\":1}
Field snapshots[0].summary.operation: {\"operation\":\"append\"}=>{\"operation\":1,\"z\":1}
Field snapshots[0].summary.z: {\"operation\":\"append\"}=>{\"operation\":\"append\",\"z\":1}
Field snapshots[1].parent-snapshot-id: \"parent-snapshot-id\":11=>\"parent-snapshot-id\":\"11\"
Field snapshots[2].sequence-number: \"sequence-number\":3,=>;;\"sort-orders\":[{\"fields\":[],\"order-id\":0}]=>\"sort-orders\":7
Field snapshot-log[2].timestamp-ms: \"snapshot-id\":33,\"timestamp-ms\":3000}]=>\"snapshot-id\":33}];;\"sequence-number\":3,=>
Field metadata-log[0].timestamp-ms: \"metadata-log\":[]=>\"metadata-log\":[{\"metadata-file\":\"a\"}]
Field partition-statistics[0].statistics-path: \"properties\":{}=>\"partition-statistics\":[{\"file-size-in-bytes\":1,\"snapshot-id\":22}]
Field statistics[0].blob-metadata: \"properties\":{}=>\"statistics\":[{\"snapshot-id\":1,\"statistics-path\":\"a\",\"file-size-in-bytes\":1}]
Field statistics[0].blob-metadata[0].fields[1]: \"properties\":{}=>\"statistics\":[{\"blob-metadata\":[{\"fields\":[1,\"a\"],\"properties\":7}]}]
Field location: \"manifest-list\":\"/w/t/metadata/l11.avro\",=>;;\"location\":\"/w/t\",=>
NoManifestList snapshots[1].manifest-list: \"manifest-list\":\"/w/t/metadata/l22.avro\",=>;;\"manifest-list\":\"/w/t/metadata/l33.avro\",=>;;\"snapshot-id\":33,\"summary\"=>\"snapshot-id\":22,\"summary\"
DoubleId snapshots[2].snapshot-id: \"snapshot-id\":33,\"summary\"=>\"snapshot-id\":22,\"summary\"
DoubleId snapshots[1].snapshot-id: \"snapshot-id\":22,\"summary\"=>\"snapshot-id\":11,\"summary\";;\"snapshot-id\":33,\"summary\"=>\"snapshot-id\":11,\"summary\"
BrokenRef refs.main: \"main\":{\"snapshot-id\":33=>\"main\":{\"snapshot-id\":22
BrokenRef refs.main: \"current-snapshot-id\":33=>\"current-snapshot-id\":-1
BrokenRef refs.b: \"refs\":{=>\"refs\":{\"b\":{\"snapshot-id\":99,\"type\":\"tag\"},\"c\":{\"snapshot-id\":98,\"type\":\"tag\"},;;\"main\":{\"snapshot-id\":33=>\"main\":{\"snapshot-id\":22
BrokenRef current-snapshot-id: \"refs\":{\"main\"=>\"refs\":{\"b\";;\"b\":{\"snapshot-id\":33=>\"b\":{\"snapshot-id\":98;;\"current-snapshot-id\":33=>\"current-snapshot-id\":99
BrokenRef refs.main: \"sequence-number\":1=>\"parent-snapshot-id\":33,\"sequence-number\":1;;\"main\":{\"snapshot-id\":33=>\"main\":{\"snapshot-id\":22
BrokenParent snapshots[0].parent-snapshot-id: \"sequence-number\":1=>\"parent-snapshot-id\":22,\"sequence-number\":1
BrokenParent snapshots[1].parent-snapshot-id: \"parent-snapshot-id\":11=>\"parent-snapshot-id\":22
BrokenParent snapshots[1].parent-snapshot-id: \"parent-snapshot-id\":11=>\"parent-snapshot-id\":33
read: \"properties\":{}=>\"properties\":null
read: \"metadata-log\":[],=>;;\"properties\":{},=>
read: \"parent-snapshot-id\":11=>\"parent-snapshot-id\":5
read: \"parent-snapshot-id\":11=>\"parent-snapshot-id\":null
read: \"type\":\"branch\"=>\"type\":\"BRANCH\"
read: \"type\":\"branch\"=>\"type\":\"Tag\"
read: 9c12d441-03fe-4693-9a96-a0705ddf69c1=>9C12D44103FE46939A96A0705DDF69C1
read: \"refs\":{\"main\":{\"snapshot-id\":33,\"type\":\"branch\"}},=>
read: \"format-version\":2=>\"format-version\":1,\"format-version\":2"
}

fn outcome_of_line(alloc: Global, changes: &str) -> Result<String, AllocError> {
    let text = neighbour(alloc, three_snapshots(), changes)?;
    outcome(alloc, text.as_str())
}

// The first line that another outcome answers, behind that outcome; nothing where there is none.
fn first_other(alloc: Global, lines: &str) -> Result<String, AllocError> {
    for line in lines.lines() {
        let (want, changes) = line.split_once(": ").unwrap_or(("", ""));
        let found = outcome_of_line(alloc, changes)?;
        if found.as_str() != want {
            return format!(in alloc; "{found} for {line}");
        }
    }
    Ok(String::new(alloc))
}

#[test]
fn first_cause_answered(rt: HostRuntime) -> Result<(), Fail> {
    let other = first_other(rt.alloc(), outcomes())?;
    assert_eq!(rt; other.as_str(), "");
    Ok(())
}

// The same, with each required field taken away in turn.
fn lacking() -> &'static str {
    "Field current-schema-id: \"current-schema-id\":0,=>
Field default-sort-order-id: \"default-sort-order-id\":0,=>
Field default-spec-id: \"default-spec-id\":0,=>
Field format-version: \"format-version\":2,=>
Field last-column-id: \"last-column-id\":2,=>
Field last-partition-id: \"last-partition-id\":999,=>
Field last-sequence-number: \"last-sequence-number\":3,=>
Field last-updated-ms: \"last-updated-ms\":3000,=>
Field location: \"location\":\"/w/t\",=>
Field default-spec-id: \"partition-specs\":[{\"fields\":[],\"spec-id\":0}],=>
Field current-schema-id: \"schemas\"=>\"x\"
Field sort-orders: \"sort-orders\":[{\"fields\":[],\"order-id\":0}],=>
Field table-uuid: ,\"table-uuid\":\"9c12d441-03fe-4693-9a96-a0705ddf69c1\"=>
Field refs.main.snapshot-id: \"snapshot-id\":33,\"type\"=>\"type\"
Field refs.main.type: ,\"type\":\"branch\"=>
Field snapshot-log[0].snapshot-id: [{\"snapshot-id\":11,=>[{
Field snapshot-log[1].timestamp-ms: 22,\"timestamp-ms\":2000=>22
Field snapshots[0].sequence-number: \"sequence-number\":1,=>
Field snapshots[1].snapshot-id: \"snapshot-id\":22,\"summary\"=>\"summary\"
Field snapshots[0].summary: \"summary\":{\"operation\":\"append\"},=>
Field snapshots[0].summary.operation: {\"operation\":\"append\"}=>{}
Field snapshots[2].timestamp-ms: ,\"timestamp-ms\":3000}],\"sort-orders\"=>}],\"sort-orders\"
Field metadata-log[0].metadata-file: \"metadata-log\":[]=>\"metadata-log\":[{\"timestamp-ms\":1}]
Field statistics[0].file-footer-size-in-bytes: \"table-uuid\"=>\"statistics\":[{\"blob-metadata\":[],\"file-size-in-bytes\":1,\"snapshot-id\":11,\"statistics-path\":\"s\"}],\"table-uuid\"
Field statistics[0].blob-metadata[0].type: \"table-uuid\"=>\"statistics\":[{\"blob-metadata\":[{\"fields\":[],\"sequence-number\":1,\"snapshot-id\":11}]}],\"table-uuid\"
Field partition-statistics[0].file-size-in-bytes: \"properties\"=>\"partition-statistics\":[{\"snapshot-id\":11}],\"properties\""
}

#[test]
fn required_fields_missed(rt: HostRuntime) -> Result<(), Fail> {
    let other = first_other(rt.alloc(), lacking())?;
    assert_eq!(rt; other.as_str(), "");
    Ok(())
}

pub(crate) fn text_of(alloc: Global, text: &str) -> Result<Text, AllocError>
    ensures { IfOk result (λ t. IsUtf8 t) }
{
    Text::copy_of(alloc, text.as_bytes())
}

pub(crate) fn shown(text: &Text) -> &str {
    std::str::from_utf8(text.inner().as_slice()).unwrap_or("no text")
}

fn text_in(bytes: Bytes) -> Text {
    Text::new(bytes.into_inner())
}

pub(crate) fn written(alloc: Global, meta: &Meta) -> Result<Text, AllocError> {
    Ok(text_in(write_meta(alloc, meta)?))
}

// The functions that hold metadata do one thing each: a proof grows with all that is held where an error may come.
pub(crate) fn read(alloc: Global, text: &str) -> Result<Meta, MetaErr> {
    read_meta(alloc, text.as_bytes())
}

fn three(alloc: Global) -> Result<Meta, MetaErr> {
    read(alloc, three_snapshots())
}

fn written_again(alloc: Global) -> Result<Text, MetaErr> {
    let meta = three(alloc)?;
    Ok(written(alloc, &meta)?)
}

fn with_ref(alloc: Global, meta: &Meta, name: &str, id: i64, ms: u64) -> Result<Meta, EditErr>
    requires { ms < 2 ^ 63 }
{
    let name = text_of(alloc, name)?;
    meta.with_ref(alloc, &name, id, ms)
}

// The next version, where the table has a limit of its form.
fn next(alloc: Global, meta: &Meta) -> Result<Option<Meta>, AllocError> {
    if !meta.has_version_limit() {
        return Ok(None);
    }
    let previous = text_of(alloc, "/w/t/metadata/v3.metadata.json")?;
    Ok(Some(meta.next_version(alloc, &previous, 9000)?))
}

fn written_next(alloc: Global, meta: &Meta) -> Result<Text, AllocError> {
    match next(alloc, meta)? {
        Some(after) => written(alloc, &after),
        None => text_of(alloc, "no limit"),
    }
}

fn next_at_11(alloc: Global, meta: &Meta) -> Result<Text, EditErr> {
    let moved = with_ref(alloc, meta, "main", 11, 9000)?;
    Ok(written_next(alloc, &moved)?)
}

fn version_4(alloc: Global) -> Result<Text, Fail> {
    let meta = three(alloc)?;
    Ok(next_at_11(alloc, &meta)?)
}

#[test]
fn metadata_read_and_written(rt: HostRuntime) -> Result<(), Fail> {
    let text = written_again(rt.alloc())?;
    assert_eq!(rt; shown(&text), three_snapshots());
    Ok(())
}

#[test]
fn rollback_to_11(rt: HostRuntime) -> Result<(), Fail> {
    let text = version_4(rt.alloc())?;
    assert_eq!(rt; shown(&text), rolled_back());
    Ok(())
}

// The same in place, where the table has the snapshot 11.
fn into_11(alloc: Global, meta: Meta) -> Result<Option<Meta>, AllocError> {
    if !meta.has_snapshot(11) {
        return Ok(None);
    }
    let name = text_of(alloc, "main")?;
    Ok(Some(meta.into_with_ref(alloc, &name, 11, 9000)?))
}

fn into_text_of_next(alloc: Global, meta: Meta) -> Result<Text, AllocError> {
    if !meta.has_version_limit() {
        return text_of(alloc, "no limit");
    }
    let previous = text_of(alloc, "/w/t/metadata/v3.metadata.json")?;
    Ok(text_in(meta.into_next_version_bytes(alloc, &previous, 9000)?))
}

fn into_version_4(alloc: Global) -> Result<Text, MetaErr> {
    match into_11(alloc, three(alloc)?)? {
        Some(moved) => Ok(into_text_of_next(alloc, moved)?),
        None => Ok(text_of(alloc, "no snapshot 11")?),
    }
}

#[test]
fn rollback_to_11_in_place(rt: HostRuntime) -> Result<(), Fail> {
    let text = into_version_4(rt.alloc())?;
    assert_eq!(rt; shown(&text), rolled_back());
    Ok(())
}

// Each line has a ref, the changes of the table before it goes to 22 at 2500, and those that this comes to.
fn moves() -> &'static str {
    "b: \"schemas\"=>\"schemas\" = \"refs\":{=>\"refs\":{\"b\":{\"snapshot-id\":22,\"type\":\"branch\"},
b: \"refs\":{=>\"refs\":{\"b\":{\"max-ref-age-ms\":7,\"snapshot-id\":11,\"type\":\"tag\",\"x\":[]}, = \"refs\":{=>\"refs\":{\"b\":{\"max-ref-age-ms\":7,\"snapshot-id\":22,\"type\":\"tag\",\"x\":[]},
main: \"refs\":{\"main\":{\"snapshot-id\":33,\"type\":\"branch\"}},=>\"x\":{}, = \"current-snapshot-id\":33=>\"current-snapshot-id\":22;;\"main\":{\"snapshot-id\":33=>\"main\":{\"snapshot-id\":22;;\"timestamp-ms\":3000}],=>\"timestamp-ms\":3000},{\"snapshot-id\":22,\"timestamp-ms\":3000}],;;ddf69c1\"=>ddf69c1\",\"x\":{}"
}

fn neighbour_read(alloc: Global, changes: &str) -> Result<Meta, MetaErr> {
    let text = neighbour(alloc, three_snapshots(), changes)?;
    read(alloc, text.as_str())
}

fn moved_to_22(alloc: Global, meta: &Meta, name: &str) -> Result<Text, EditErr> {
    let moved = with_ref(alloc, meta, name, 22, 2500)?;
    Ok(written(alloc, &moved)?)
}

fn moved(alloc: Global, name: &str, changes: &str) -> Result<Text, Fail> {
    let meta = neighbour_read(alloc, changes)?;
    Ok(moved_to_22(alloc, &meta, name)?)
}

// What a line comes to, and what it says that it comes to.
fn moved_and_wanted(alloc: Global, line: &str) -> Result<(Text, String), Fail> {
    let (name, changes) = line.split_once(": ").unwrap_or(("", ""));
    let (before, after) = changes.split_once(" = ").unwrap_or(("", ""));
    let found = moved(alloc, name, before)?;
    Ok((found, neighbour(alloc, three_snapshots(), after)?))
}

#[test]
fn refs_moved_and_made(rt: HostRuntime) -> Result<(), Fail> {
    for line in moves().lines() {
        let (found, want) = moved_and_wanted(rt.alloc(), line)?;
        assert_eq!(rt; shown(&found), want.as_str(), "{line}");
    }
    Ok(())
}

fn unknown_in(moved: Result<Meta, EditErr>) -> Option<i64> {
    match moved {
        Err(EditErr::UnknownSnapshot { id }) => Some(id),
        _ => None,
    }
}

fn unknown_at(alloc: Global, meta: &Meta, id: i64) -> Option<i64> {
    unknown_in(with_ref(alloc, meta, "main", id, 9000))
}

fn unknown_among(alloc: Global) -> Result<String, MetaErr> {
    let meta = three(alloc)?;
    let (unknown, known) = (unknown_at(alloc, &meta, 99), unknown_at(alloc, &meta, 11));
    Ok(format!(in alloc; "{unknown:?} {known:?}")?)
}

#[test]
fn unknown_snapshot_told(rt: HostRuntime) -> Result<(), Fail> {
    let found = unknown_among(rt.alloc())?;
    assert_eq!(rt; found.as_str(), "Some(99) None");
    Ok(())
}

// The table with this limit and two items in its metadata log.
fn limited(alloc: Global, limit: &str) -> Result<String, AllocError> {
    let property = format!(in alloc;
        "\"properties\":{{\"write.metadata.previous-versions-max\":\"{limit}\"}}"
    )?;
    let text = changed(
        alloc,
        three_snapshots(),
        "\"properties\":{}",
        property.as_str(),
    )?;
    neighbour(
        alloc,
        text.as_str(),
        "\"metadata-log\":[]=>\"metadata-log\":[{\"metadata-file\":\"a\",\"timestamp-ms\":1},{\"metadata-file\":\"b\",\"timestamp-ms\":2}]",
    )
}

fn limited_read(alloc: Global, limit: &str) -> Result<Meta, MetaErr> {
    let text = limited(alloc, limit)?;
    read(alloc, text.as_str())
}

fn log_of(alloc: Global, meta: &Meta) -> Result<String, AllocError> {
    match meta.tree().get("metadata-log") {
        Some(log) => Ok(log.to_string(alloc)?),
        None => Ok(String::new(alloc)),
    }
}

fn log_of_next(alloc: Global, meta: &Meta) -> Result<String, AllocError> {
    match next(alloc, meta)? {
        Some(after) => log_of(alloc, &after),
        None => String::from_str(alloc, "no limit"),
    }
}

// The metadata log of the next version of that table, or `no limit`.
fn log_after(alloc: Global, limit: &str) -> Result<String, MetaErr> {
    let meta = limited_read(alloc, limit)?;
    Ok(log_of_next(alloc, &meta)?)
}

fn logs() -> &'static str {
    "0: [{\"metadata-file\":\"/w/t/metadata/v3.metadata.json\",\"timestamp-ms\":3000}]
1: [{\"metadata-file\":\"/w/t/metadata/v3.metadata.json\",\"timestamp-ms\":3000}]
02: [{\"metadata-file\":\"b\",\"timestamp-ms\":2},{\"metadata-file\":\"/w/t/metadata/v3.metadata.json\",\"timestamp-ms\":3000}]
9223372036854775807: [{\"metadata-file\":\"a\",\"timestamp-ms\":1},{\"metadata-file\":\"b\",\"timestamp-ms\":2},{\"metadata-file\":\"/w/t/metadata/v3.metadata.json\",\"timestamp-ms\":3000}]
-1: no limit
+1: no limit
1.0: no limit
9223372036854775808: no limit
99999999999999999999999999999999999999999: no limit
: no limit"
}

#[test]
fn metadata_log_kept_to_its_limit(rt: HostRuntime) -> Result<(), Fail> {
    for line in logs().lines() {
        let (limit, want) = line.split_once(": ").unwrap_or(("", ""));
        let found = log_after(rt.alloc(), limit)?;
        assert_eq!(rt; found.as_str(), want, "{line}");
    }
    Ok(())
}

// A table with properties, a tag, no written `main`, a statistics file and a partition statistics file.
fn full(alloc: Global) -> Result<String, AllocError> {
    neighbour(
        alloc,
        three_snapshots(),
        "\"properties\":{}=>\"partition-statistics\":[{\"file-size-in-bytes\":1,\"snapshot-id\":22,\"statistics-path\":\"/w/t/p\"}],\"properties\":{\"b\":\"c\",\"d\":\"e\"};;\"refs\":{\"main\":{\"snapshot-id\":33,\"type\":\"branch\"}}=>\"refs\":{\"z\":{\"max-ref-age-ms\":5,\"max-snapshot-age-ms\":6,\"min-snapshots-to-keep\":7,\"snapshot-id\":11,\"type\":\"tag\"}};;\"table-uuid\"=>\"statistics\":[{\"blob-metadata\":[{\"fields\":[1],\"sequence-number\":1,\"snapshot-id\":11,\"type\":\"x\"}],\"file-footer-size-in-bytes\":1,\"file-size-in-bytes\":1,\"snapshot-id\":11,\"statistics-path\":\"/w/t/s\"}],\"table-uuid\"",
    )
}

fn show_snapshot(to: &mut String, snapshot: &Snapshot) -> Result<(), AllocError> {
    let (list, operation) = (shown(&snapshot.list), shown(&snapshot.operation));
    let (id, parent, sequence) = (snapshot.id, snapshot.parent, snapshot.sequence);
    let (ms, schema_id) = (snapshot.ms, snapshot.schema_id);
    write!(
        to,
        "{id} {parent:?} {sequence} {ms} {list} {operation} {schema_id:?}; "
    )
}

fn show_ref(to: &mut String, r: &Ref) -> Result<(), AllocError> {
    let (name, id, is_branch) = (shown(&r.name), r.id, r.is_branch);
    let (age, keep, snapshot_age) = (r.max_ref_age_ms, r.min_keep, r.max_snapshot_age_ms);
    write!(
        to,
        "{name} {id} {is_branch} {age:?} {keep:?} {snapshot_age:?}; "
    )
}

fn show_file(to: &mut String, file: &Statistics) -> Result<(), AllocError> {
    let (id, path) = (file.snapshot_id, shown(&file.path));
    write!(to, "{id} {path}; ")
}

fn show_snapshots(to: &mut String, meta: &Meta) -> Result<(), AllocError> {
    for snapshot in meta.snapshots().inner() {
        show_snapshot(to, snapshot)?;
    }
    Ok(())
}

fn show_refs(to: &mut String, meta: &Meta) -> Result<(), AllocError> {
    for r in meta.refs().inner() {
        show_ref(to, r)?;
    }
    Ok(())
}

fn show_files(to: &mut String, meta: &Meta) -> Result<(), AllocError> {
    for file in meta.statistics().inner() {
        show_file(to, file)?;
    }
    Ok(())
}

fn show_lists(alloc: Global, meta: &Meta) -> Result<String, AllocError> {
    let mut found = String::new(alloc);
    show_snapshots(&mut found, meta)?;
    show_refs(&mut found, meta)?;
    show_files(&mut found, meta)?;
    Ok(found)
}

fn full_read(alloc: Global) -> Result<Meta, MetaErr> {
    let text = full(alloc)?;
    read(alloc, text.as_str())
}

fn lists(alloc: Global) -> Result<String, MetaErr> {
    let meta = full_read(alloc)?;
    Ok(show_lists(alloc, &meta)?)
}

fn show_fields(alloc: Global, meta: &Meta) -> Result<String, AllocError> {
    let (uuid, location) = (shown(meta.uuid()), shown(meta.location()));
    let (sequence, ms, current) = (meta.last_sequence(), meta.last_updated_ms(), meta.current());
    let (schema, spec) = (meta.current_schema_id(), meta.default_spec_id());
    format!(in alloc; "{uuid} {location} {sequence} {ms} {current:?} {schema} {spec}")
}

fn show_trees(alloc: Global, meta: &Meta) -> Result<String, AllocError> {
    let schemas = meta.schemas_tree().is_array();
    let specs = meta.specs_tree().to_string(alloc)?;
    let (lacking, value) = (
        meta.property("a").is_none(),
        meta.property("d").map_or("", shown),
    );
    let (limit, known) = (meta.has_version_limit(), meta.tree().get("x").is_some());
    format!(in alloc; "{schemas} {specs} {lacking} {value} {limit} {known}")
}

fn show_all(alloc: Global, meta: &Meta) -> Result<String, AllocError> {
    let mut found = show_fields(alloc, meta)?;
    let trees = show_trees(alloc, meta)?;
    found.push_str(trees.as_str())?;
    Ok(found)
}

fn fields(alloc: Global) -> Result<String, MetaErr> {
    let meta = full_read(alloc)?;
    Ok(show_all(alloc, &meta)?)
}

#[test]
fn fields_read(rt: HostRuntime) -> Result<(), Fail> {
    let found = lists(rt.alloc())?;
    assert_eq!(rt;
        found.as_str(),
        "11 None 1 1000 /w/t/metadata/l11.avro append None; 22 Some(11) 2 2000 /w/t/metadata/l22.avro append None; 33 Some(22) 3 3000 /w/t/metadata/l33.avro append None; main 33 true None None None; z 11 false Some(5) Some(7) Some(6); 11 /w/t/s; 22 /w/t/p; "
    );
    let found = fields(rt.alloc())?;
    assert_eq!(rt;
        found.as_str(),
        "9c12d441-03fe-4693-9a96-a0705ddf69c1 /w/t 3 3000 Some(33) 0 0true [{\"fields\":[],\"spec-id\":0}] true e true false"
    );
    Ok(())
}

pub(crate) fn show_walk(alloc: Global, meta: &Meta, id: i64) -> Result<String, AllocError> {
    let ids = meta.ancestors(alloc, id)?;
    let ids = ids.inner().as_slice();
    format!(in alloc; "{ids:?}")
}

fn show_kin(alloc: Global, meta: &Meta) -> Result<String, AllocError> {
    let (above, itself) = (meta.ancestor_of(11, 33), meta.ancestor_of(33, 33));
    let (below, unknown) = (meta.ancestor_of(33, 11), meta.ancestor_of(99, 99));
    format!(in alloc; "{above} {itself} {below} {unknown}")
}

fn show_walks(alloc: Global, meta: &Meta) -> Result<String, AllocError> {
    let (all, none) = (show_walk(alloc, meta, 33)?, show_walk(alloc, meta, 99)?);
    let kin = show_kin(alloc, meta)?;
    format!(in alloc; "{all} {none} {kin}")
}

fn walks(alloc: Global) -> Result<String, MetaErr> {
    let meta = three(alloc)?;
    Ok(show_walks(alloc, &meta)?)
}

fn show_snapshot_looks(alloc: Global, meta: &Meta) -> Result<String, AllocError> {
    let (known, unknown) = (meta.has_snapshot(22), meta.has_snapshot(23));
    let ms = meta.snapshot(22).map(|s| s.ms);
    let lacks = meta.snapshot(23).is_none();
    format!(in alloc; "{known} {unknown} {ms:?} {lacks}")
}

fn ref_at(alloc: Global, meta: &Meta, name: &str) -> Result<Option<i64>, AllocError> {
    let name = text_of(alloc, name)?;
    Ok(meta.reference(&name).map(|r| r.id))
}

fn show_looks(alloc: Global, meta: &Meta) -> Result<String, AllocError> {
    let snapshots = show_snapshot_looks(alloc, meta)?;
    let (at, no_ref) = (ref_at(alloc, meta, "main")?, ref_at(alloc, meta, "b")?);
    format!(in alloc; "{snapshots} {at:?} {no_ref:?}")
}

fn looks(alloc: Global) -> Result<String, MetaErr> {
    let meta = three(alloc)?;
    Ok(show_looks(alloc, &meta)?)
}

#[test]
fn snapshots_and_refs_looked_up(rt: HostRuntime) -> Result<(), Fail> {
    let found = looks(rt.alloc())?;
    assert_eq!(rt; found.as_str(), "true false Some(2000) true Some(33) None");
    Ok(())
}

#[test]
fn ancestors_of_33(rt: HostRuntime) -> Result<(), Fail> {
    let found = walks(rt.alloc())?;
    assert_eq!(rt; found.as_str(), "[33, 22, 11] [] true true false false");
    Ok(())
}
