//! What a file's schema has of a partition.

use avro_schema::{FieldList, Schema, Text, read_schema, write_schema};
use ice_schema::{ColType, PartField, PartType, Transform};
use manifest_files::PartSlotList;
use manifest_parts::{
    part_fault, part_slots, written_part_fields, written_parts_are_in_order,
    written_parts_have_no_fault,
};
use serde_json::Value;
use sqlite_items::Items;
use std::alloc::{AllocError, Global};
use std::test::Fail;

fn text(alloc: Global, text: &str) -> Result<Text, AllocError> {
    Ok(Text::new(String::from_str(alloc, text)?))
}

fn field(
    alloc: Global,
    field_id: i32,
    name: &str,
    transform: Transform,
    ty: ColType,
) -> Result<PartField, AllocError> {
    Ok(PartField {
        field_id,
        name: text(alloc, name)?,
        ty,
        transform,
    })
}

/// A long as it is, a day, and what was made from a string and is null.
fn part(alloc: Global) -> Result<PartType, AllocError> {
    let mut fields = Items::new(alloc);
    fields.push(field(alloc, 1002, "n", Transform::Identity, ColType::Long)?)?;
    fields.push(field(alloc, 1000, "on-day", Transform::Day, ColType::Date)?)?;
    fields.push(field(alloc, 1001, "_v2", Transform::Void, ColType::Str)?)?;
    Ok(PartType { fields })
}

/// Records of partitions, the field of that type that is wrong, and the place of 1000.
const CASES: [(&str, Option<i32>, Option<usize>); 7] = [
    (r#"[]"#, None, None),
    (
        r#"[{"name":"d","type":["int","null"],"field-id":1000},{"name":"v","type":["null","int"],"field-id":1001},
{"name":"n","type":["null","int"],"field-id":1002}]"#,
        None,
        Some(0),
    ),
    (
        r#"[{"name":"n","type":["long","null"],"field-id":1002},{"name":"v","type":["null","string"],"field-id":1001},
{"name":"d","type":["null",{"type":"int","logicalType":"date"}],"field-id":1000}]"#,
        None,
        Some(2),
    ),
    (
        r#"[{"name":"n","type":["null","string"],"field-id":1002},{"name":"d","type":["null","long"],"field-id":1000}]"#,
        Some(1000),
        Some(1),
    ),
    (
        r#"[{"name":"n","type":"long","field-id":1002}]"#,
        Some(1002),
        None,
    ),
    (
        r#"[{"name":"v","type":["null","long"],"field-id":1001}]"#,
        Some(1001),
        None,
    ),
    (
        r#"[{"name":"n","type":["null",{"type":"int","logicalType":"date"}],"field-id":1002}]"#,
        Some(1002),
        None,
    ),
];

/// The fields of a record, by the text of their list.
fn fields(alloc: Global, list: &str) -> Result<FieldList, Fail> {
    let text = format!(in alloc; r#"{{"type":"record","name":"r102","fields":{list}}}"#)?;
    let tree = Value::from_str(alloc, text.as_str())?;
    match read_schema(alloc, &tree)? {
        Schema::Fields { fields, .. } => Ok(fields),
        _ => Ok(Items::new(alloc)),
    }
}

/// The place of 1000, which is the second field of that type.
fn day(slots: &PartSlotList) -> Option<usize> {
    slots.get(1)?.place
}

#[test]
fn partitions_of_files(rt: HostRuntime) -> Result<(), Fail> {
    let part = part(rt.alloc())?;
    for (list, fault, place) in CASES {
        let fields = fields(rt.alloc(), list)?;
        assert_eq!(rt;
            part_fault(rt.alloc(), fields.as_slice(), &part)?,
            fault,
            "{list}"
        );
        let slots = part_slots(rt.alloc(), fields.as_slice(), &part)?;
        assert_eq!(rt; day(&slots), place, "{list}");
    }
    Ok(())
}

#[test]
fn partitions_written(rt: HostRuntime) -> Result<(), Fail> {
    let part = part(rt.alloc())?;
    let schema = Schema::Fields {
        name: text(rt.alloc(), "r102")?,
        fields: written_part_fields(rt.alloc(), &part)?,
    };
    let text = write_schema(rt.alloc(), &schema)?.to_string(rt.alloc())?;
    assert_eq!(rt;
        text.as_str(),
        concat!(
            r#"{"fields":[{"default":null,"field-id":1002,"name":"n","type":["null","long"]},"#,
            r#"{"default":null,"field-id":1000,"name":"_1000","type":["null",{"logicalType":"date","type":"int"}]},"#,
            r#"{"default":null,"field-id":1001,"name":"_v2","type":["null","string"]}],"name":"r102","type":"record"}"#
        )
    );
    written_parts_have_no_fault();
    written_parts_are_in_order();
    Ok(())
}
