use crate::schemas::told;
use ice_schema::{read_spec, spec_tree};
use schema_types::{Spec, Transform};
use serde_json::Value;
use std::alloc::Global;
use std::process::Abort;
use std::test::Fail;

// The text that is written for the spec that a text spells, if its transforms are known.
fn rewritten(alloc: Global, text: &str) -> Result<String, Fail> {
    let tree = Value::from_str(alloc, text)?;
    let spec = read_spec(alloc, &tree)?;
    let copied = spec.copy(alloc)?;
    if !copied.has_known_transforms() {
        return Ok(String::from_str(alloc, "unknown")?);
    }
    let written = spec_tree(alloc, &copied)?;
    Ok(written.to_string(alloc)?)
}

// The path of the first fault of a text as a spec.
fn fault_of(alloc: Global, text: &str) -> Result<String, Fail> {
    let tree = Value::from_str(alloc, text)?;
    match read_spec(alloc, &tree) {
        Ok(_) => Ok(String::from_str(alloc, "none")?),
        Err(error) => told(alloc, error),
    }
}

// A spec of one field with this transform.
fn with_transform(alloc: Global, transform: &str) -> Result<String, Fail> {
    Ok(format!(in alloc;
        "{{\"fields\":[{{\"field-id\":1000,\"name\":\"p\",\"source-id\":1,\"transform\":\"{transform}\"}}],\"spec-id\":0}}"
    )?)
}

#[test]
fn transforms_are_read_and_written(rt: HostRuntime) -> Result<(), Fail> {
    for name in [
        "identity",
        "bucket[16]",
        "truncate[4294967295]",
        "year",
        "month",
        "day",
        "hour",
        "void",
    ] {
        let text = with_transform(rt.alloc(), name)?;
        let written = rewritten(rt.alloc(), text.as_str())?;
        assert_eq!(rt; written.as_str(), text.as_str(), "{name}");
    }
    Ok(())
}

#[test]
fn other_transforms_are_unknown(rt: HostRuntime) -> Result<(), Fail> {
    for name in [
        "zorder",
        "bucket",
        "bucket[016]",
        "bucket[4294967296]",
        "bucket[16]]",
        "bucket[-1]",
        "Identity",
        "",
    ] {
        let text = with_transform(rt.alloc(), name)?;
        let written = rewritten(rt.alloc(), text.as_str())?;
        assert_eq!(rt; written.as_str(), "unknown", "{name}");
    }
    Ok(())
}

fn first_transform(spec: &Spec) -> Option<Transform> {
    match spec.fields.as_slice() {
        [first, ..] => Some(first.transform),
        [] => None,
    }
}

#[test]
fn a_size_is_read_as_a_number(rt: HostRuntime) -> Result<(), Fail> {
    let text = with_transform(rt.alloc(), "bucket[16]")?;
    let tree = Value::from_str(rt.alloc(), text.as_str())?;
    let spec = read_spec(rt.alloc(), &tree)?;
    assert_eq!(rt; first_transform(&spec), Some(Transform::Bucket(16)));
    Ok(())
}

const BAD_SPECS: [(&str, &str); 8] = [
    ("null", ""),
    (r#"{"spec-id":0}"#, "fields"),
    (r#"{"fields":[]}"#, "spec-id"),
    (r#"{"fields":[[]],"spec-id":0}"#, "fields[0]"),
    (
        r#"{"fields":[{"name":"p","source-id":1,"transform":"day"}],"spec-id":0}"#,
        "fields[0].field-id",
    ),
    (
        r#"{"fields":[{"field-id":1000,"name":1,"source-id":1}],"spec-id":0}"#,
        "fields[0].name",
    ),
    (
        r#"{"fields":[{"field-id":1000,"name":"p","source-id":"1"}],"spec-id":0}"#,
        "fields[0].source-id",
    ),
    (
        r#"{"fields":[{"field-id":7,"name":"p","source-id":1,"transform":"day"},{"field-id":7,"name":"q","source-id":1,"transform":4}],"spec-id":0}"#,
        "fields[1].field-id",
    ),
];

#[test]
fn the_first_fault_of_a_spec_counts(rt: HostRuntime) -> Result<(), Fail> {
    for (text, wanted) in BAD_SPECS {
        let path = fault_of(rt.alloc(), text)?;
        assert_eq!(rt; path.as_str(), wanted, "{text}");
    }
    Ok(())
}
