//! Tables that are refused, with their messages; nothing is written there.
use crate::fixtures::{
    file, no_failures, outcome, outcome_of, outcome_on, run_over, shown, sink, words_of,
};
use metadata_tests::three_snapshots;
use std::test::Fail;

fn to_11() -> &'static str {
    "CALL c.system.rollback_to_snapshot(table => '/w/t', snapshot_id => 11)"
}

fn procedures_on_n() -> [&'static str; 4] {
    [
        "CALL c.system.rollback_to_snapshot(table => '/w/n', snapshot_id => 11)",
        "CALL c.system.set_current_snapshot(table => '/w/n', ref => 'main')",
        "CALL c.system.fast_forward('/w/n', 'main', 'b')",
        "CALL c.system.ancestors_of('/w/n')",
    ]
}

fn procedures_on_t() -> [&'static str; 4] {
    [
        to_11(),
        "CALL c.system.set_current_snapshot(table => '/w/t', ref => 'main')",
        "CALL c.system.fast_forward('/w/t', 'main', 'b')",
        "CALL c.system.ancestors_of('/w/t')",
    ]
}

fn elsewhere() -> &'static str {
    "\"location\":\"/w/t\"=>\"location\":\"/w/other\""
}

#[test]
fn no_table_and_other_location(rt: HostRuntime) -> Result<(), Fail> {
    for line in procedures_on_n() {
        assert_eq!(rt;
            outcome_of(&rt, line)?.as_str(),
            "2\n! upkeep: no table at /w/n\n",
            "{line}"
        );
    }
    for line in procedures_on_t() {
        assert_eq!(rt;
            outcome_on(&rt, elsewhere(), line)?.as_str(),
            "2\n! upkeep: table at /w/t says location /w/other\n",
            "{line}"
        );
    }
    Ok(())
}

// What is changed in the table, and what the rollback to 11 is answered.
fn spoilt() -> [(&'static str, &'static str); 9] {
    [
        (
            "\"format-version\":2=>\"format-version\":1",
            "2\n! upkeep: unsupported FormatVersion in /w/t/metadata/v3.metadata.json\n",
        ),
        (
            "\"manifest-list\":\"/w/t/metadata/l22.avro\",=>",
            "2\n! upkeep: unsupported NoManifestList in /w/t/metadata/v3.metadata.json\n",
        ),
        (
            "\"last-updated-ms\":3000=>\"last-updated-ms\":3000.5",
            "2\n! upkeep: damaged /w/t/metadata/v3.metadata.json at field last-updated-ms\n",
        ),
        (
            "\"main\":{\"snapshot-id\":33=>\"main\":{\"snapshot-id\":22",
            "2\n! upkeep: damaged /w/t/metadata/v3.metadata.json at field refs.main\n",
        ),
        (
            "\"snapshot-id\":22,\"summary\"=>\"snapshot-id\":11,\"summary\"",
            "2\n! upkeep: damaged /w/t/metadata/v3.metadata.json at field snapshots[1].snapshot-id\n",
        ),
        (
            "\"table-uuid\":\"9c12d441=>\"table-uuid\":\"9c12d44",
            "2\n! upkeep: damaged /w/t/metadata/v3.metadata.json at field table-uuid\n",
        ),
        (
            "\"properties\":{}=>\"properties\":{\"write.metadata.previous-versions-max\":\"ten\"}",
            "2\n! upkeep: damaged /w/t/metadata/v3.metadata.json at field properties.write.metadata.previous-versions-max\n",
        ),
        // a fault of the file comes before its location
        (
            "\"location\":\"/w/t\"=>\"location\":\"/w/other\";;\"format-version\":2=>\"format-version\":3",
            "2\n! upkeep: unsupported FormatVersion in /w/t/metadata/v3.metadata.json\n",
        ),
        (
            "\"location\":\"/w/t\"=>\"location\":\"/w\\t\\\\o\"",
            "2\n! upkeep: table at /w/t says location /w\\t\\\\o\n",
        ),
    ]
}

#[test]
fn spoilt_metadata_is_refused(rt: HostRuntime) -> Result<(), Fail> {
    for (changes, want) in spoilt() {
        assert_eq!(rt;
            outcome_on(&rt, changes, to_11())?.as_str(),
            want,
            "{changes}"
        );
    }
    Ok(())
}

// A required field, and the field that is named where it lacks: the first one that is wrong, and an id of a schema or a spec
// is wrong where there are none.
fn required() -> [(&'static str, &'static str); 13] {
    [
        ("format-version", "format-version"),
        ("table-uuid", "table-uuid"),
        ("location", "location"),
        ("last-sequence-number", "last-sequence-number"),
        ("last-updated-ms", "last-updated-ms"),
        ("last-column-id", "last-column-id"),
        ("schemas", "current-schema-id"),
        ("current-schema-id", "current-schema-id"),
        ("partition-specs", "default-spec-id"),
        ("default-spec-id", "default-spec-id"),
        ("last-partition-id", "last-partition-id"),
        ("sort-orders", "sort-orders"),
        ("default-sort-order-id", "default-sort-order-id"),
    ]
}

// whether a table without this field is damaged at the other one
fn is_missed(rt: &HostRuntime, field: &str, at: &str) -> Result<bool, Fail> {
    let alloc = rt.alloc();
    let changes = format!(in alloc; "\"{field}\":=>\"no {field}\":")?;
    let want = format!(in alloc;
        "2\n! upkeep: damaged /w/t/metadata/v3.metadata.json at field {at}\n"
    )?;
    Ok(outcome_on(rt, changes.as_str(), to_11())?.as_str() == want.as_str())
}

#[test]
fn required_fields_are_missed(rt: HostRuntime) -> Result<(), Fail> {
    for (field, at) in required() {
        assert!(rt; is_missed(&rt, field, at)?, "{field}");
    }
    Ok(())
}

// whether the table is damaged as a whole where only this many bytes of its metadata are there
fn is_damaged_at(rt: &HostRuntime, len: usize) -> Result<bool, Fail> {
    let part = three_snapshots().as_bytes().get(..len).unwrap_or(b"");
    let left = outcome(rt, part, no_failures(rt.alloc()), to_11())?;
    Ok(left.as_str() == "2\n! upkeep: damaged /w/t/metadata/v3.metadata.json at field \n")
}

#[test]
fn cut_metadata_is_damaged(rt: HostRuntime) -> Result<(), Fail> {
    for len in 0..three_snapshots().len() {
        assert!(rt; is_damaged_at(&rt, len)?, "{len}");
    }
    Ok(())
}

// the rollback to 11 where the version file has this place
fn outcome_at(rt: &HostRuntime, at: &str) -> Result<String, Fail> {
    let alloc = rt.alloc();
    let words = words_of(alloc, to_11())?;
    let files = vec![in alloc; file(alloc, at, three_snapshots().as_bytes())?]?;
    let mut out = sink(alloc)?;
    let mut err = sink(alloc)?;
    let ran = run_over(rt, files, no_failures(alloc), &words, &mut out, &mut err)?;
    Ok(shown(alloc, &ran, &out, &err)?)
}

// The place of the version file, and what the rollback to 11 is answered.
fn numbered() -> [(&'static str, &'static str); 4] {
    [
        (
            "/w/t/metadata/v03.metadata.json",
            "2\n! upkeep: no table at /w/t\n",
        ),
        (
            "/w/t/metadata/old/v3.metadata.json",
            "2\n! upkeep: no table at /w/t\n",
        ),
        (
            "/w/t/metadata/v9223372036854775807.metadata.json",
            "2\n! upkeep: unsupported VersionNumber in /w/t/metadata/v9223372036854775807.metadata.json\n",
        ),
        (
            "/w/t/metadata/v9223372036854775806.metadata.json",
            "0 committed 9223372036854775807 by create append seal sync rename sync\nprevious_snapshot_id\tcurrent_snapshot_id\n33\t11\n",
        ),
    ]
}

#[test]
fn version_numbers_have_a_limit(rt: HostRuntime) -> Result<(), Fail> {
    for (at, want) in numbered() {
        assert_eq!(rt; outcome_at(&rt, at)?.as_str(), want, "{at}");
    }
    Ok(())
}
