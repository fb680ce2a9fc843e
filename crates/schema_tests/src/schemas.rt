use crate::tables::schema_of;
use ice_schema::{JsonErr, read_schema, schema_tree};
use serde_json::Value;
use std::alloc::Global;
use std::process::Abort;
use std::test::Fail;

// The text that is written for the schema that a text spells.
fn rewritten(alloc: Global, text: &str) -> Result<String, Fail> {
    let schema = schema_of(alloc, text)?;
    let copied = schema.copy(alloc)?;
    let written = schema_tree(alloc, &copied)?;
    Ok(written.to_string(alloc)?)
}

pub(crate) fn told(alloc: Global, error: JsonErr) -> Result<String, Fail> {
    match error {
        JsonErr::Memory => Ok(String::from_str(alloc, "memory")?),
        JsonErr::Bad { path } => Ok(path.into_inner()),
    }
}

// The path of the first fault of a text as a schema.
fn fault_of(alloc: Global, text: &str) -> Result<String, Fail> {
    let tree = Value::from_str(alloc, text)?;
    match read_schema(alloc, &tree) {
        Ok(_) => Ok(String::from_str(alloc, "none")?),
        Err(error) => told(alloc, error),
    }
}

const SCHEMAS: [(&str, &str); 4] = [
    (
        r#"{"fields":[{"id":1,"name":"id","required":true,"type":"long"},{"id":2,"name":"name","required":false,"type":"string"}],"schema-id":0,"type":"struct"}"#,
        r#"{"fields":[{"id":1,"name":"id","required":true,"type":"long"},{"id":2,"name":"name","required":false,"type":"string"}],"schema-id":0,"type":"struct"}"#,
    ),
    (
        r#"{"type": "struct", "schema-id": -1, "identifier-field-ids": [1], "fields": [{"id": 1, "name": "id", "required": true, "type": "uuid", "doc": "key", "initial-default": "0db3e2a8-9d1d-42b9-aa7b-74ebe558dceb"}]}"#,
        r#"{"fields":[{"id":1,"name":"id","required":true,"type":"uuid"}],"schema-id":-1,"type":"struct"}"#,
    ),
    (
        r#"{"type": "struct", "schema-id": 3, "fields": [
                {"id": 1, "name": "a", "required": true, "type": "boolean"}, {"id": 2, "name": "b", "required": true, "type": "int"},
                {"id": 3, "name": "c", "required": true, "type": "float"}, {"id": 4, "name": "d", "required": true, "type": "double"},
                {"id": 5, "name": "e", "required": true, "type": "decimal(9,2)"}, {"id": 6, "name": "f", "required": true, "type": "decimal(38, 10)"},
                {"id": 7, "name": "g", "required": true, "type": "date"}, {"id": 8, "name": "h", "required": true, "type": "time"},
                {"id": 9, "name": "i", "required": true, "type": "timestamp"}, {"id": 10, "name": "j", "required": true, "type": "timestamptz"},
                {"id": 11, "name": "k", "required": true, "type": "fixed[16]"}, {"id": 12, "name": "l", "required": true, "type": "binary"}]}"#,
        r#"{"fields":[{"id":1,"name":"a","required":true,"type":"boolean"},{"id":2,"name":"b","required":true,"type":"int"},{"id":3,"name":"c","required":true,"type":"float"},{"id":4,"name":"d","required":true,"type":"double"},{"id":5,"name":"e","required":true,"type":"decimal(9,2)"},{"id":6,"name":"f","required":true,"type":"decimal(38,10)"},{"id":7,"name":"g","required":true,"type":"date"},{"id":8,"name":"h","required":true,"type":"time"},{"id":9,"name":"i","required":true,"type":"timestamp"},{"id":10,"name":"j","required":true,"type":"timestamptz"},{"id":11,"name":"k","required":true,"type":"fixed[16]"},{"id":12,"name":"l","required":true,"type":"binary"}],"schema-id":3,"type":"struct"}"#,
    ),
    (
        r#"{"type": "struct", "schema-id": 0, "fields": [
                {"id": 1, "name": "tags", "required": false, "type": {"type": "list", "element-id": 3, "element-required": true, "element": "string"}},
                {"id": 2, "name": "rates", "required": true, "type": {"type": "map", "key-id": 4, "key": "string", "value-id": 5, "value-required": false,
                "value": {"type": "struct", "fields": [{"id": 6, "name": "x", "required": false, "type": "double"}]}}}]}"#,
        r#"{"fields":[{"id":1,"name":"tags","required":false,"type":{"element":"string","element-id":3,"element-required":true,"type":"list"}},{"id":2,"name":"rates","required":true,"type":{"key":"string","key-id":4,"type":"map","value":{"fields":[{"id":6,"name":"x","required":false,"type":"double"}],"type":"struct"},"value-id":5,"value-required":false}}],"schema-id":0,"type":"struct"}"#,
    ),
];

#[test]
fn schemas_are_written_in_one_form(rt: HostRuntime) -> Result<(), Fail> {
    for (text, wanted) in SCHEMAS {
        let written = rewritten(rt.alloc(), text)?;
        assert_eq!(rt; written.as_str(), wanted, "{text}");
    }
    Ok(())
}

// A schema of one column, whose type's text goes between these.
fn with_type(alloc: Global, ty: &str) -> Result<String, Fail> {
    Ok(format!(in alloc;
        "{{\"fields\":[{{\"id\":1,\"name\":\"a\",\"required\":true,\"type\":{ty}}}],\"schema-id\":0,\"type\":\"struct\"}}"
    )?)
}

const BAD_TYPES: [(&str, &str); 23] = [
    (r#""varchar""#, "fields[0].type"),
    (r#""Long""#, "fields[0].type"),
    (r#""decimal(39,2)""#, "fields[0].type"),
    (r#""decimal(09,2)""#, "fields[0].type"),
    (r#""decimal(9,  2)""#, "fields[0].type"),
    (r#""decimal(9 ,2)""#, "fields[0].type"),
    (r#""decimal(9,2""#, "fields[0].type"),
    (r#""decimal(9,+2)""#, "fields[0].type"),
    (r#""decimal(9,4294967296)""#, "fields[0].type"),
    (r#""fixed[]""#, "fields[0].type"),
    (r#""fixed[4294967296]""#, "fields[0].type"),
    (r#""fixed[16] ""#, "fields[0].type"),
    ("null", "fields[0].type"),
    ("[]", "fields[0].type"),
    ("{}", "fields[0].type.type"),
    (r#"{"type":"long"}"#, "fields[0].type.type"),
    (r#"{"type":"lists","element":"x"}"#, "fields[0].type.type"),
    (
        r#"{"type":"list","element":"int","element-required":true}"#,
        "fields[0].type.element-id",
    ),
    (
        r#"{"type":"list","element-id":2,"element":"int","element-required":"true"}"#,
        "fields[0].type.element-required",
    ),
    (
        r#"{"type":"list","element-id":1,"element":"int","element-required":true}"#,
        "fields[0].type.element-id",
    ),
    (
        r#"{"type":"map","key-id":2,"key":"int","value-id":2,"value":"int","value-required":true}"#,
        "fields[0].type.value-id",
    ),
    (
        r#"{"type":"map","key-id":2,"key":"int","value-id":3,"value":{"type":"list","element-id":3,"element":"x","element-required":true},"value-required":true}"#,
        "fields[0].type.value.element",
    ),
    (
        r#"{"type":"struct","fields":[{"id":2,"name":"b","required":true,"type":"int"},{"id":2,"name":"c","required":true,"type":"int"}]}"#,
        "fields[0].type.fields[1].id",
    ),
];

#[test]
fn other_types_are_faulty_where_they_stand(rt: HostRuntime) -> Result<(), Fail> {
    for (ty, wanted) in BAD_TYPES {
        let text = with_type(rt.alloc(), ty)?;
        let path = fault_of(rt.alloc(), text.as_str())?;
        assert_eq!(rt; path.as_str(), wanted, "{ty}");
    }
    Ok(())
}

const BAD_SCHEMAS: [(&str, &str); 12] = [
    ("[]", ""),
    ("{}", "fields"),
    (r#"{"fields":{},"schema-id":0,"type":"struct"}"#, "fields"),
    (r#"{"fields":[]}"#, "schema-id"),
    (
        r#"{"fields":[],"schema-id":2147483648,"type":"struct"}"#,
        "schema-id",
    ),
    (r#"{"fields":[],"schema-id":0}"#, "type"),
    (r#"{"fields":[],"type":"list"}"#, "schema-id"),
    (r#"{"fields":[],"schema-id":0,"type":"list"}"#, "type"),
    (
        r#"{"fields":[3],"schema-id":0,"type":"struct"}"#,
        "fields[0]",
    ),
    (
        r#"{"fields":[{"id":1.0,"name":"a","required":true,"type":"int"}],"schema-id":0,"type":"struct"}"#,
        "fields[0].id",
    ),
    (
        r#"{"fields":[{"id":1,"required":1,"type":"int"}],"schema-id":0,"type":"struct"}"#,
        "fields[0].name",
    ),
    (
        r#"{"fields":[{"id":1,"name":"a","required":1}],"schema-id":0,"type":"struct"}"#,
        "fields[0].required",
    ),
];

#[test]
fn the_first_fault_of_a_schema_counts(rt: HostRuntime) -> Result<(), Fail> {
    for (text, wanted) in BAD_SCHEMAS {
        let path = fault_of(rt.alloc(), text)?;
        assert_eq!(rt; path.as_str(), wanted, "{text}");
    }
    Ok(())
}
