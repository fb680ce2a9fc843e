//! Rows of a manifest list.

use avro_datum::{Datum, decode};
use avro_schema::{Schema, read_schema};
use manifest_cells::FieldErr;
use manifest_rows::{ManifestRow, row_fields, row_of, row_schema, row_slots, rows_are_read_back};
use serde_json::Value;
use std::alloc::Global;
use std::process::Abort;
use std::test::Fail;

/// A row of deletes under the written schema: /m, 300 bytes, spec 0, sequence 7 and 3, snapshot 70, files 1, 2, 0, rows
/// 10, 20, 0, one summary with a null, of which NaN isn't told, from a to z, and no key metadata.
const WRITTEN: &[u8] =
    b"\x04/m\xd8\x04\x00\x02\x0e\x06\x8c\x01\x02\x04\x00\x14\x28\x00\x02\x02\x01\x00\x02\x02a\x02\x02z\x00\x00";

/// The same row as another writer may lay it out: other names, fields and unions in another order, a field of another id,
/// `contains_nan` lacking.
const OTHER_SCHEMA: &str = r#"{"type":"record","name":"x","fields":[
{"name":"partitions","field-id":507,"type":[{"type":"array","element-id":508,"items":{"type":"record","name":"s","fields":[
{"name":"u","field-id":511,"type":["bytes","null"]},{"name":"l","field-id":510,"type":["null","bytes"]},
{"name":"contains_nan","type":"boolean","field-id":5},{"name":"n","field-id":509,"type":"boolean"}]}},"null"]},
{"name":"manifest_path","field-id":9,"type":"string"},{"name":"key_metadata","field-id":519,"type":["null","bytes"]},
{"name":"p","field-id":500,"type":"string"},{"name":"c","field-id":517,"type":"int"},{"name":"s","field-id":502,"type":"int"},
{"name":"len","field-id":501,"type":"long"},{"name":"q","field-id":515,"type":"long"},{"name":"m","field-id":516,"type":"long"},
{"name":"a","field-id":503,"type":"long"},{"name":"f","field-id":504,"type":"int"},{"name":"g","field-id":505,"type":"int"},
{"name":"h","field-id":506,"type":"int"},{"name":"i","field-id":512,"type":"long"},{"name":"j","field-id":513,"type":"long"},
{"name":"k","field-id":514,"type":"long"}]}"#;

const OTHER: &[u8] =
    b"\x00\x02\x00\x02z\x02\x02a\x01\x01\x00\x06zzz\x00\x04/m\x02\x00\xd8\x04\x0e\x06\x8c\x01\x02\x04\x00\x14\x28\x00";

/// A content of 2; a length of -1; both.
const BAD_CONTENT: &[u8] = b"\x00\x00\x00\x04\x00\x00\x00\x00\x00\x00\x00\x00\x00\x00\x00";

const BAD_LENGTH: &[u8] = b"\x00\x01\x00\x00\x00\x00\x00\x00\x00\x00\x00\x00\x00\x00\x00";

const BAD_BOTH: &[u8] = b"\x00\x01\x00\x04\x00\x00\x00\x00\x00\x00\x00\x00\x00\x00\x00";

fn other_schema(alloc: Global) -> Result<Schema, Fail> {
    let tree = Value::from_str(alloc, OTHER_SCHEMA)?;
    Ok(read_schema(alloc, &tree)?)
}

/// The row that the bytes spell under a schema of a record, as if it began at 5.
fn row(alloc: Global, schema: &Schema, bytes: &[u8]) -> Result<ManifestRow, FieldErr> {
    let Schema::Fields { fields, .. } = schema else {
        return Err(FieldErr::BadField(-1));
    };
    let slots = row_slots(alloc, fields.as_slice())?;
    match decode(alloc, schema, bytes, 0) {
        Ok((Datum::Fields(items), _)) => row_of(alloc, slots.as_slice(), items.as_slice(), 5),
        _ => Err(FieldErr::BadField(-2)),
    }
}

/// The record that is written for a row, as a text.
fn written(rt: &impl Abort, alloc: Global, row: &ManifestRow) -> Result<String, Fail> {
    assert!(rt; row.manifest_length < 1 << 63);
    let record = Datum::Fields(row_fields(alloc, row)?);
    Ok(format!(in alloc; "{record:?}")?)
}

/// The record that the bytes of a written row spell, in the same way.
fn spelled(alloc: Global) -> Result<String, Fail> {
    let (record, _) = decode(alloc, &row_schema(alloc)?, WRITTEN, 0)?;
    Ok(format!(in alloc; "{record:?}")?)
}

fn same_row(rt: &impl Abort, row: &ManifestRow) {
    assert_eq!(rt; row.manifest_path.as_str(), "/m");
    assert_eq!(rt; (row.manifest_length, row.partition_spec_id), (300, 0));
    assert_eq!(rt; (row.is_deletes, row.at), (true, 5));
    assert_eq!(rt; (row.sequence_number, row.min_sequence_number), (7, 3));
    assert_eq!(rt; row.added_snapshot_id, 70);
    assert_eq!(rt; (row.added_files_count, row.existing_files_count), (1, 2));
    assert_eq!(rt; (row.deleted_files_count, row.deleted_rows_count), (0, 0));
    assert_eq!(rt; (row.added_rows_count, row.existing_rows_count), (10, 20));
    assert_eq!(rt; row.key_metadata.is_none(), true);
}

#[test]
fn rows_both_ways(rt: HostRuntime) -> Result<(), Fail> {
    let wanted = spelled(rt.alloc())?;
    let own = row(rt.alloc(), &row_schema(rt.alloc())?, WRITTEN)?;
    same_row(&rt, &own);
    assert_eq!(rt; written(&rt, rt.alloc(), &own)?.as_str(), wanted.as_str());
    Ok(())
}

#[test]
fn a_row_of_another_writer(rt: HostRuntime) -> Result<(), Fail> {
    let wanted = spelled(rt.alloc())?;
    let other = row(rt.alloc(), &other_schema(rt.alloc())?, OTHER)?;
    same_row(&rt, &other);
    assert_eq!(rt; written(&rt, rt.alloc(), &other)?.as_str(), wanted.as_str());
    Ok(())
}

/// The id of the field that makes the bytes of a written row no row.
fn bad(alloc: Global, bytes: &[u8]) -> Result<Option<i32>, Fail> {
    match row(alloc, &row_schema(alloc)?, bytes) {
        Err(FieldErr::BadField(id)) => Ok(Some(id)),
        _ => Ok(None),
    }
}

#[test]
fn rows_with_a_bad_field(rt: HostRuntime) -> Result<(), Fail> {
    for (bytes, id) in [(BAD_CONTENT, 517), (BAD_LENGTH, 501), (BAD_BOTH, 501)] {
        assert_eq!(rt; bad(rt.alloc(), bytes)?, Some(id));
    }
    rows_are_read_back();
    Ok(())
}
