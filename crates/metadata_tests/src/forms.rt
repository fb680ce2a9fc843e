//! Worked examples of faults of form.
use ice_store::Text;
use metadata_form::{
    Fault, MetaCause, fault_at, form_fault, in_item, in_member, int, is_branch_text,
};
use serde_json::Value;
use std::alloc::{AllocError, Global};
use std::test::Fail;

fn shown(alloc: Global, fault: &Fault) -> Result<String, AllocError> {
    let path = std::str::from_utf8(fault.path.inner().as_slice()).unwrap_or("no text");
    let cause = fault.cause;
    format!(in alloc; "{cause:?} {path}")
}

fn outcome(alloc: Global, text: &str) -> Result<String, Fail> {
    let tree = Value::from_str(alloc, text)?;
    match form_fault(alloc, &tree)? {
        Some(fault) => Ok(shown(alloc, &fault)?),
        None => Ok(String::from_str(alloc, "none")?),
    }
}

// Each line has an outcome and a text.
fn outcomes() -> &'static str {
    "Fraction : 1.5
Fraction [1][0]: [1,[0.5]]
Fraction a.b[2]: {\"a\":{\"b\":[1,2,3e1]},\"format-version\":1}
Version(3) format-version: {\"format-version\":3}
Field : []
Field : null
Field current-schema-id: {}
Field current-schema-id: {\"current-schema-id\":1,\"schemas\":[{\"schema-id\":0}]}
Field default-sort-order-id: {\"current-schema-id\":0,\"schemas\":[{\"schema-id\":0}]}
NoManifestList snapshots[0].manifest-list: {\"current-schema-id\":0,\"default-sort-order-id\":0,\"default-spec-id\":0,\"format-version\":2,\"last-column-id\":0,\"last-partition-id\":999,\"last-sequence-number\":0,\"last-updated-ms\":0,\"location\":\"/t\",\"partition-specs\":[{\"spec-id\":0}],\"schemas\":[{\"schema-id\":0}],\"snapshots\":[{\"sequence-number\":1,\"snapshot-id\":1,\"summary\":{\"operation\":\"append\"},\"timestamp-ms\":0}],\"sort-orders\":[],\"table-uuid\":\"9c12d441-03fe-4693-9a96-a0705ddf69c1\"}
none: {\"current-schema-id\":0,\"default-sort-order-id\":0,\"default-spec-id\":0,\"format-version\":2,\"last-column-id\":0,\"last-partition-id\":999,\"last-sequence-number\":0,\"last-updated-ms\":0,\"location\":\"/t\",\"partition-specs\":[{\"spec-id\":0}],\"schemas\":[{\"schema-id\":0}],\"sort-orders\":[],\"table-uuid\":\"9c12d441-03fe-4693-9a96-a0705ddf69c1\"}"
}

#[test]
fn faults_of_form(rt: HostRuntime) -> Result<(), Fail> {
    for line in outcomes().lines() {
        let (want, text) = line.split_once(": ").unwrap_or(("", ""));
        let found = outcome(rt.alloc(), text)?;
        assert_eq!(rt; found.as_str(), want, "{line}");
    }
    Ok(())
}

fn third_ref(alloc: Global) -> Result<String, AllocError> {
    let itself = Text::new(Vec::new(alloc));
    let item = in_item(alloc, 3, &itself)?;
    let path = in_member(alloc, "refs", &item)?;
    let fault = fault_at(alloc, MetaCause::BrokenRef, path)?;
    shown(alloc, &fault)
}

#[test]
fn path_written(rt: HostRuntime) -> Result<(), Fail> {
    let found = third_ref(rt.alloc())?;
    assert_eq!(rt; found.as_str(), "BrokenRef refs[3]");
    Ok(())
}

#[test]
fn values_read(rt: HostRuntime) -> Result<(), Fail> {
    assert!(rt; int(&Value::from(-2147483648i64)) == Some(-2147483648));
    assert!(rt; int(&Value::from(2147483648i64)).is_none());
    assert!(rt; is_branch_text("Branch"));
    assert!(rt; !is_branch_text("tag"));
    Ok(())
}
