//! Schemas of files and of what is written.

use avro_schema::{Field, FieldList, Schema, read_schema, write_schema};
use manifest_columns::{
    Column, Fault, RecordName, SlotList, data_file_columns, least_fault, place_of, row_columns,
    schema_of, slots_of, summary_columns, written_record, written_row_columns,
};
use serde_json::Value;
use sqlite_items::Items;
use std::alloc::Global;
use std::test::Fail;

/// The fields of the record that a text spells.
fn fields(alloc: Global, text: &str) -> Result<FieldList, Fail> {
    let tree = Value::from_str(alloc, text)?;
    match read_schema(alloc, &tree)? {
        Schema::Fields { fields, .. } => Ok(fields),
        _ => Ok(Items::new(alloc)),
    }
}

/// Ids of what lacks and of what is bad.
type Found = (Option<i32>, Option<i32>);

fn faults(columns: &[Column], fields: &[Field]) -> Found {
    (
        least_fault(Fault::Lacks, columns, fields),
        least_fault(Fault::Bad, columns, fields),
    )
}

/// The same of the column of this id alone, or of those of a field summary, which begin with 509.
fn faults_of(id: i32, fields: &[Field]) -> Found {
    match id {
        507 => faults(&[row_columns()[7]], fields),
        108 => faults(&[data_file_columns()[5]], fields),
        132 => faults(&[data_file_columns()[11]], fields),
        _ => faults(&summary_columns(), fields),
    }
}

/// Found by id, in either order of a union, with other fields between.
const BY_ID: &str = r#"{"type":"record","name":"x","fields":[
{"name":"a","type":["bytes","null"],"field-id":511},{"name":"contains_null","type":"string","field-id":1},
{"name":"b","type":"boolean","field-id":509}]}"#;

/// Ids of columns, schemas, and what of them lacks and is bad.
const CASES: [(i32, &str, Found); 11] = [
    (509, BY_ID, (None, None)),
    (
        509,
        r#"{"type":"record","name":"x","fields":[{"name":"contains_null","type":"boolean","field-id":1}]}"#,
        (Some(509), None),
    ),
    (
        509,
        r#"{"type":"record","name":"x","fields":[{"name":"a","type":"boolean","field-id":509},
{"name":"b","type":["null","boolean"],"field-id":518},{"name":"c","type":"bytes","field-id":510}]}"#,
        (None, Some(510)),
    ),
    (
        509,
        r#"{"type":"record","name":"x","fields":[{"name":"a","type":["null","int"],"field-id":518},
{"name":"b","type":["null","string"],"field-id":511},{"name":"c","type":"boolean","field-id":509}]}"#,
        (None, Some(511)),
    ),
    (
        509,
        r#"{"type":"record","name":"x","fields":[{"name":"a","type":["null","boolean"],"field-id":509}]}"#,
        (None, Some(509)),
    ),
    (
        507,
        r#"{"type":"record","name":"x","fields":[{"name":"p","field-id":507,"type":["null",{"type":"array","element-id":508,
"items":{"type":"record","name":"r","fields":[{"name":"n","type":["null","boolean"],"field-id":518}]}}]}]}"#,
        (Some(509), None),
    ),
    (
        507,
        r#"{"type":"record","name":"x","fields":[{"name":"p","field-id":507,"type":[{"type":"array","element-id":7,
"items":{"type":"record","name":"r","fields":[]}},"null"]}]}"#,
        (Some(508), None),
    ),
    (
        507,
        r#"{"type":"record","name":"x","fields":[{"name":"p","field-id":507,"type":["null","string"]}]}"#,
        (None, Some(507)),
    ),
    (
        108,
        r#"{"type":"record","name":"x","fields":[{"name":"p","field-id":108,"type":["null",{"type":"array",
"items":{"type":"record","name":"r","fields":[{"name":"key","type":"long","field-id":117}]}}]}]}"#,
        (Some(118), Some(117)),
    ),
    (
        132,
        r#"{"type":"record","name":"x","fields":[{"name":"p","field-id":132,"type":["null",{"type":"array","element-id":133,"items":"int"}]}]}"#,
        (None, Some(133)),
    ),
    (
        132,
        r#"{"type":"record","name":"x","fields":[{"name":"p","field-id":132,"type":["null",{"type":"array","element-id":133,"items":"long"}]}]}"#,
        (None, None),
    ),
];

#[test]
fn faults_of_schemas(rt: HostRuntime) -> Result<(), Fail> {
    for (id, text, wanted) in CASES {
        let fields = fields(rt.alloc(), text)?;
        assert_eq!(rt; faults_of(id, fields.as_slice()), wanted, "{text}");
    }
    Ok(())
}

/// Where a record has the column that is this one of its table.
fn place(slots: &SlotList, n: usize) -> Option<usize> {
    slots.get(n)?.place
}

#[test]
fn slots_by_id(rt: HostRuntime) -> Result<(), Fail> {
    let fields = fields(rt.alloc(), BY_ID)?;
    let slots = slots_of(rt.alloc(), fields.as_slice(), &summary_columns())?;
    assert_eq!(rt; place(&slots, 0), Some(2));
    assert_eq!(rt; place(&slots, 1), None);
    assert_eq!(rt; place(&slots, 2), Some(0));
    assert_eq!(rt; place(&slots, 3), None);
    assert_eq!(rt; place_of(fields.as_slice(), 1), Some(1));
    assert_eq!(rt; schema_of(fields.as_slice(), 2).is_some(), false);
    Ok(())
}

/// The text of the schema that is written for these columns.
fn written(alloc: Global, name: RecordName, columns: &[Column]) -> Result<String, Fail> {
    let schema = written_record(alloc, name, columns)?;
    Ok(write_schema(alloc, &schema)?.to_string(alloc)?)
}

#[test]
fn written_row_schema(rt: HostRuntime) -> Result<(), Fail> {
    let text = written(rt.alloc(), RecordName::ManifestFile, &written_row_columns())?;
    assert_eq!(rt;
        text.as_str(),
        concat!(
            r#"{"fields":[{"field-id":500,"name":"manifest_path","type":"string"},{"field-id":501,"name":"manifest_length","type":"long"},"#,
            r#"{"field-id":502,"name":"partition_spec_id","type":"int"},{"field-id":517,"name":"content","type":"int"},"#,
            r#"{"field-id":515,"name":"sequence_number","type":"long"},{"field-id":516,"name":"min_sequence_number","type":"long"},"#,
            r#"{"field-id":503,"name":"added_snapshot_id","type":"long"},{"field-id":504,"name":"added_files_count","type":"int"},"#,
            r#"{"field-id":505,"name":"existing_files_count","type":"int"},{"field-id":506,"name":"deleted_files_count","type":"int"},"#,
            r#"{"field-id":512,"name":"added_rows_count","type":"long"},{"field-id":513,"name":"existing_rows_count","type":"long"},"#,
            r#"{"field-id":514,"name":"deleted_rows_count","type":"long"},{"default":null,"field-id":507,"name":"partitions","type":["null","#,
            r#"{"element-id":508,"items":{"fields":[{"field-id":509,"name":"contains_null","type":"boolean"},"#,
            r#"{"default":null,"field-id":518,"name":"contains_nan","type":["null","boolean"]},"#,
            r#"{"default":null,"field-id":510,"name":"lower_bound","type":["null","bytes"]},"#,
            r#"{"default":null,"field-id":511,"name":"upper_bound","type":["null","bytes"]}],"name":"r508","type":"record"},"type":"array"}]},"#,
            r#"{"default":null,"field-id":519,"name":"key_metadata","type":["null","bytes"]}],"name":"manifest_file","type":"record"}"#
        )
    );
    Ok(())
}

#[test]
fn written_map_schema(rt: HostRuntime) -> Result<(), Fail> {
    let text = written(rt.alloc(), RecordName::DataFile, &[data_file_columns()[5]])?;
    assert_eq!(rt;
        text.as_str(),
        concat!(
            r#"{"fields":[{"default":null,"field-id":108,"name":"column_sizes","type":["null",{"items":{"fields":["#,
            r#"{"field-id":117,"name":"key","type":"int"},{"field-id":118,"name":"value","type":"long"}],"#,
            r#""name":"k117_v118","type":"record"},"logicalType":"map","type":"array"}]}],"name":"r2","type":"record"}"#
        )
    );
    Ok(())
}
