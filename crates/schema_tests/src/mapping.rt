use crate::tables::{STRUCT_OF_INT, one_column, schema_of};
use avro_schema::write_schema;
use ice_schema::to_avro;
use std::alloc::Global;
use std::process::Abort;
use std::test::Fail;

// The text of the Avro schema of the schema that a text spells.
pub(crate) fn mapped(alloc: Global, schema: &str) -> Result<String, Fail> {
    let schema = schema_of(alloc, schema)?;
    let avro = to_avro(alloc, &schema)?;
    let tree = write_schema(alloc, &avro)?;
    Ok(tree.to_string(alloc)?)
}

// A required column of this type maps to a field of this type.
fn maps(rt: &impl Abort, alloc: Global, ty: &str, wanted: &str) -> Result<(), Fail> {
    let schema = one_column(alloc, true, ty)?;
    let found = mapped(alloc, schema.as_str())?;
    let wanted = format!(in alloc;
        r#"{{"fields":[{{"field-id":7,"name":"c","type":{wanted}}}],"name":"table","type":"record"}}"#
    )?;
    assert_eq!(rt; found.as_str(), wanted.as_str(), "{ty}");
    Ok(())
}

const PRIMITIVE: [(&str, &str); 11] = [
    (r#""boolean""#, r#""boolean""#),
    (r#""int""#, r#""int""#),
    (r#""float""#, r#""float""#),
    (r#""double""#, r#""double""#),
    (r#""binary""#, r#""bytes""#),
    (r#""date""#, r#"{"logicalType":"date","type":"int"}"#),
    (
        r#""time""#,
        r#"{"logicalType":"time-micros","type":"long"}"#,
    ),
    (
        r#""timestamp""#,
        r#"{"adjust-to-utc":false,"logicalType":"timestamp-micros","type":"long"}"#,
    ),
    (
        r#""timestamptz""#,
        r#"{"adjust-to-utc":true,"logicalType":"timestamp-micros","type":"long"}"#,
    ),
    (
        r#""uuid""#,
        r#"{"logicalType":"uuid","name":"f7","size":16,"type":"fixed"}"#,
    ),
    (r#""fixed[5]""#, r#"{"name":"f7","size":5,"type":"fixed"}"#),
];

#[test]
fn primitive_types_mapped(rt: HostRuntime) -> Result<(), Fail> {
    for (ty, wanted) in PRIMITIVE {
        maps(&rt, rt.alloc(), ty, wanted)?;
    }
    Ok(())
}

// A decimal of so many digits maps to a fixed of so many bytes.
fn has_size(rt: &impl Abort, alloc: Global, precision: u32, size: u32) -> Result<(), Fail> {
    let ty = format!(in alloc; r#""decimal({precision},0)""#)?;
    let wanted = format!(in alloc;
        r#"{{"logicalType":"decimal","name":"f7","precision":{precision},"scale":0,"size":{size},"type":"fixed"}}"#
    )?;
    maps(rt, alloc, ty.as_str(), wanted.as_str())
}

// 2^(8n - 1) is above 10^P - 1 for the first time.
const SIZES: [(u32, u32); 10] = [
    (1, 1),
    (2, 1),
    (3, 2),
    (4, 2),
    (5, 3),
    (9, 4),
    (10, 5),
    (18, 8),
    (19, 9),
    (38, 16),
];

#[test]
fn decimal_sizes(rt: HostRuntime) -> Result<(), Fail> {
    for (precision, size) in SIZES {
        has_size(&rt, rt.alloc(), precision, size)?;
    }
    Ok(())
}

const NESTED: [(&str, &str); 5] = [
    (
        STRUCT_OF_INT,
        r#"{"fields":[{"default":null,"field-id":8,"name":"_8","type":["null","int"]}],"name":"r7","type":"record"}"#,
    ),
    (
        r#"{"type":"list","element-id":9,"element-required":true,"element":{"type":"struct","fields":[{"id":8,"name":"a b","required":false,"type":"int"}]}}"#,
        r#"{"element-id":9,"items":{"fields":[{"default":null,"field-id":8,"name":"_8","type":["null","int"]}],"name":"r9","type":"record"},"type":"array"}"#,
    ),
    (
        r#"{"type":"list","element-id":9,"element-required":false,"element":"string"}"#,
        r#"{"element-id":9,"items":["null","string"],"type":"array"}"#,
    ),
    (
        r#"{"type":"map","key-id":8,"key":"string","value-id":9,"value-required":true,"value":"long"}"#,
        r#"{"key-id":8,"type":"map","value-id":9,"values":"long"}"#,
    ),
    (
        r#"{"type":"map","key-id":8,"key":"int","value-id":9,"value-required":false,"value":"double"}"#,
        r#"{"items":{"fields":[{"field-id":8,"name":"key","type":"int"},{"default":null,"field-id":9,"name":"value","type":["null","double"]}],"name":"k8_v9","type":"record"},"logicalType":"map","type":"array"}"#,
    ),
];

#[test]
fn nested_types_mapped(rt: HostRuntime) -> Result<(), Fail> {
    for (ty, wanted) in NESTED {
        maps(&rt, rt.alloc(), ty, wanted)?;
    }
    Ok(())
}
