use crate::tables::{ID_AND_NAME, schema_of, text};
use ice_schema::{PartErr, partition_type};
use schema_types::{PartType, SchemaList, Spec, SpecField, Transform};
use sqlite_items::Items;
use std::alloc::{AllocError, Global};
use std::process::Abort;
use std::test::Fail;

// A schema with a greater id, in which column 1 is a string; it also has column 3, a list of structs with column 8, and
// lacks column 2.
const LATER: &str =
    r#"{"fields":[{"id":1,"name":"id","required":true,"type":"string"},{"id":3,"name":"list","required":true,"type":{"type":"list","element-id":9,"element-required":true,"element":{"type":"struct","fields":[{"id":8,"name":"a b","required":false,"type":"int"}]}}}],"schema-id":4,"type":"struct"}"#;

fn schemas(alloc: Global) -> Result<SchemaList, Fail> {
    let mut schemas = Items::new(alloc);
    schemas.push(schema_of(alloc, LATER)?)?;
    schemas.push(schema_of(alloc, ID_AND_NAME)?)?;
    Ok(schemas)
}

fn spec_of(alloc: Global, source_id: i32, transform: Transform) -> Result<Spec, AllocError> {
    let mut fields = Items::new(alloc);
    fields.push(SpecField {
        field_id: 1000,
        source_id,
        name: text(alloc, "part")?,
        transform,
    })?;
    Ok(Spec { id: 0, fields })
}

fn shown(alloc: Global, typed: &PartType) -> Result<String, Fail> {
    match typed.fields.as_slice() {
        [field] => Ok(format!(in alloc;
            "{} {} {:?} by {:?}",
            field.field_id,
            field.name.as_str(),
            field.ty,
            field.transform
        )?),
        fields => Ok(format!(in alloc; "{} fields", fields.len())?),
    }
}

// The type of the partitions by this transform of a column, or why there is none.
fn typed(alloc: Global, source_id: i32, transform: Transform) -> Result<String, Fail> {
    let schemas = schemas(alloc)?;
    let spec = spec_of(alloc, source_id, transform)?;
    match partition_type(alloc, &spec, &schemas) {
        Ok(typed) => shown(alloc, &typed),
        Err(PartErr::Transform) => Ok(String::from_str(alloc, "no type")?),
        Err(PartErr::Memory) => Ok(String::from_str(alloc, "memory")?),
    }
}

#[test]
fn partition_types(rt: HostRuntime) -> Result<(), Fail> {
    for (source_id, transform, wanted) in [
        (2, Transform::Identity, "1000 part Str by Identity"),
        (2, Transform::Truncate(4), "1000 part Str by Truncate(4)"),
        (2, Transform::Void, "1000 part Str by Void"),
        (2, Transform::Bucket(16), "1000 part Int by Bucket(16)"),
        (2, Transform::Year, "1000 part Int by Year"),
        (2, Transform::Month, "1000 part Int by Month"),
        (2, Transform::Hour, "1000 part Int by Hour"),
        (2, Transform::Day, "1000 part Date by Day"),
        (1, Transform::Identity, "1000 part Str by Identity"),
        (8, Transform::Identity, "1000 part Int by Identity"),
        (2, Transform::Unknown, "no type"),
        (9, Transform::Identity, "no type"),
    ] {
        let found = typed(rt.alloc(), source_id, transform)?;
        assert_eq!(&rt; found.as_str(), wanted, "{transform:?} of {source_id}");
    }
    Ok(())
}
