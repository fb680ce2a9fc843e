//! Rollbacks, on a quiet store and on one whose calls fail.
use crate::fixtures::{
    Ran, draft, file, next, no_failures, outcome_failing, outcome_of, place, run_over, shown, sink,
    table, words_of,
};
use ice_store::Place;
use metadata_tests::three_snapshots;
use std::test::Fail;

// The table after the rollback to 11. In a function with no clause, so that no proof carries the text.
fn version_4() -> &'static str {
    "{\"current-schema-id\":0,\"current-snapshot-id\":11,\"default-sort-order-id\":0,\"default-spec-id\":0,\"format-version\":2,\"last-column-id\":2,\"last-partition-id\":999,\"last-sequence-number\":3,\"last-updated-ms\":9000,\"location\":\"/w/t\",\"metadata-log\":[{\"metadata-file\":\"/w/t/metadata/v3.metadata.json\",\"timestamp-ms\":3000}],\"partition-specs\":[{\"fields\":[],\"spec-id\":0}],\"properties\":{},\"refs\":{\"main\":{\"snapshot-id\":11,\"type\":\"branch\"}},\"schemas\":[{\"fields\":[{\"id\":1,\"name\":\"id\",\"required\":true,\"type\":\"long\"},{\"id\":2,\"name\":\"name\",\"required\":false,\"type\":\"string\"}],\"schema-id\":0,\"type\":\"struct\"}],\"snapshot-log\":[{\"snapshot-id\":11,\"timestamp-ms\":1000},{\"snapshot-id\":22,\"timestamp-ms\":2000},{\"snapshot-id\":33,\"timestamp-ms\":3000},{\"snapshot-id\":11,\"timestamp-ms\":9000}],\"snapshots\":[{\"manifest-list\":\"/w/t/metadata/l11.avro\",\"sequence-number\":1,\"snapshot-id\":11,\"summary\":{\"operation\":\"append\"},\"timestamp-ms\":1000},{\"manifest-list\":\"/w/t/metadata/l22.avro\",\"parent-snapshot-id\":11,\"sequence-number\":2,\"snapshot-id\":22,\"summary\":{\"operation\":\"append\"},\"timestamp-ms\":2000},{\"manifest-list\":\"/w/t/metadata/l33.avro\",\"parent-snapshot-id\":22,\"sequence-number\":3,\"snapshot-id\":33,\"summary\":{\"operation\":\"append\"},\"timestamp-ms\":3000}],\"sort-orders\":[{\"fields\":[],\"order-id\":0}],\"table-uuid\":\"9c12d441-03fe-4693-9a96-a0705ddf69c1\"}"
}

fn to_11() -> &'static str {
    "CALL c.system.rollback_to_snapshot(table => '/w/t', snapshot_id => 11)"
}

fn to_33() -> &'static str {
    "CALL c.system.rollback_to_snapshot(table => '/w/t', snapshot_id => 33)"
}

fn rolled_back() -> &'static str {
    "0 committed 4 by create append seal sync rename sync\nprevious_snapshot_id\tcurrent_snapshot_id\n33\t11\n"
}

fn there_already() -> &'static str {
    "0\nprevious_snapshot_id\tcurrent_snapshot_id\n33\t33\n"
}

fn holds_version_4(ran: &Ran, at: &Place) -> bool {
    match ran.store.history.find(at) {
        Some(held) => held.is_sealed && held.bytes.inner().as_slice() == version_4().as_bytes(),
        None => false,
    }
}

// whether the rollback to 11 leaves version 4 with its content, sealed
fn makes_version_4(rt: &HostRuntime) -> Result<bool, Fail> {
    let alloc = rt.alloc();
    let words = words_of(alloc, to_11())?;
    let files = table(alloc, three_snapshots().as_bytes())?;
    let at = place(alloc, next())?;
    let mut out = sink(alloc)?;
    let mut err = sink(alloc)?;
    let ran = run_over(rt, files, no_failures(alloc), &words, &mut out, &mut err)?;
    Ok(holds_version_4(&ran, &at))
}

#[test]
fn rollback_to_11(rt: HostRuntime) -> Result<(), Fail> {
    assert_eq!(rt; outcome_of(&rt, to_11())?.as_str(), rolled_back());
    assert_eq!(rt; outcome_of(&rt, to_33())?.as_str(), there_already());
    assert!(rt; makes_version_4(&rt)?);
    Ok(())
}

// the rollback to 11 with a file where its draft is to go
fn outcome_on_taken_name(rt: &HostRuntime) -> Result<String, Fail> {
    let alloc = rt.alloc();
    let words = words_of(alloc, to_11())?;
    let mut files = table(alloc, three_snapshots().as_bytes())?;
    files.push(file(alloc, draft(), b"")?)?;
    let mut out = sink(alloc)?;
    let mut err = sink(alloc)?;
    let ran = run_over(rt, files, no_failures(alloc), &words, &mut out, &mut err)?;
    Ok(shown(alloc, &ran, &out, &err)?)
}

fn name_taken() -> &'static str {
    "9\n! upkeep: name taken /w/t/metadata/00000000-0000-0000-0000-000000000001.metadata.json\n"
}

#[test]
fn rollback_events_and_taken_name(rt: HostRuntime) -> Result<(), Fail> {
    assert_eq!(rt; outcome_of(&rt, to_11())?.as_str(), rolled_back());
    assert_eq!(rt; outcome_on_taken_name(&rt)?.as_str(), name_taken());
    Ok(())
}

// The store call that fails, whether its step is taken, and what is left.
fn failures() -> [(u64, bool, &'static str); 16] {
    [
        (0, false, "5\n! upkeep: store failed at /w/t/metadata\n"),
        (0, true, "5\n! upkeep: store failed at /w/t/metadata\n"),
        (
            1,
            false,
            "5\n! upkeep: store failed at /w/t/metadata/v3.metadata.json\n",
        ),
        (
            1,
            true,
            "5\n! upkeep: store failed at /w/t/metadata/v3.metadata.json\n",
        ),
        (
            2,
            false,
            "5 left draft-1\n! upkeep: store failed at /w/t/metadata/00000000-0000-0000-0000-000000000001.metadata.json\n",
        ),
        (
            2,
            true,
            "5 left draft-1 by create\n! upkeep: store failed at /w/t/metadata/00000000-0000-0000-0000-000000000001.metadata.json\n",
        ),
        (
            3,
            false,
            "5 left draft-1 by create\n! upkeep: store failed at /w/t/metadata/00000000-0000-0000-0000-000000000001.metadata.json\n",
        ),
        (
            3,
            true,
            "5 left draft-1 by create append\n! upkeep: store failed at /w/t/metadata/00000000-0000-0000-0000-000000000001.metadata.json\n",
        ),
        (
            4,
            false,
            "5 left draft-1 by create append\n! upkeep: store failed at /w/t/metadata/00000000-0000-0000-0000-000000000001.metadata.json\n",
        ),
        (
            4,
            true,
            "5 left draft-1 by create append seal\n! upkeep: store failed at /w/t/metadata/00000000-0000-0000-0000-000000000001.metadata.json\n",
        ),
        (
            5,
            false,
            "5 left draft-1 by create append seal\n! upkeep: store failed at /w/t\n",
        ),
        (
            5,
            true,
            "5 left draft-1 by create append seal sync\n! upkeep: store failed at /w/t\n",
        ),
        (
            6,
            false,
            "6 left draft-1 /w/t/metadata/v4.metadata.json by create append seal sync\n! upkeep: commit of version 4 is unknown\n",
        ),
        (
            6,
            true,
            "6 left draft-1 /w/t/metadata/v4.metadata.json by create append seal sync rename\n! upkeep: commit of version 4 is unknown\n",
        ),
        (
            7,
            false,
            "6 left draft-1 by create append seal sync rename\n! upkeep: commit of version 4 is unknown\n",
        ),
        (
            7,
            true,
            "6 left draft-1 by create append seal sync rename sync\n! upkeep: commit of version 4 is unknown\n",
        ),
    ]
}

// No event of ours follows a call that failed, and nothing is acknowledged.
#[test]
fn rollback_with_store_failures(rt: HostRuntime) -> Result<(), Fail> {
    for (call, took, want) in failures() {
        let left = outcome_failing(&rt, call, took, to_11())?;
        assert_eq!(rt; left.as_str(), want, "call {call}, taken: {took}");
    }
    Ok(())
}
