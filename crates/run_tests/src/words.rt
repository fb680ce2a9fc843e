//! Lists of words, and the words that are refused before any store call.
use crate::fixtures::{outcome_failing, outcome_of};
use std::test::Fail;

fn to_22_and_11() -> &'static str {
    "CALL c.system.rollback_to_snapshot(table => '/w/t', snapshot_id => 22)\nCALL c.system.rollback_to_snapshot(table => '/w/t', snapshot_id => 11)"
}

fn lists() -> [(&'static str, &'static str); 5] {
    [
        (
            to_22_and_11(),
            "0 committed 4 5 by create append seal sync rename sync create append seal sync rename sync\nprevious_snapshot_id\tcurrent_snapshot_id\n33\t22\nprevious_snapshot_id\tcurrent_snapshot_id\n22\t11\n",
        ),
        (
            "CALL c.system.rollback_to_snapshot(table => '/w/t', snapshot_id => 22)\nCALL c.system.rollback_to_snapshot(table => '/w/u', snapshot_id => 11)",
            "1 without a store call\n! upkeep: statement 2: bad argument table\n",
        ),
        (
            "CALL c.system.ancestors_of('file:/w//t/', 11)\nCALL d.system.ancestors_of('/w/t', 11);",
            "0\nsnapshot_id\ttimestamp\n11\t1000\nsnapshot_id\ttimestamp\n11\t1000\n",
        ),
        // what follows a statement that is refused isn't run
        (
            "CALL c.system.rollback_to_snapshot('/w/t', 99)\nCALL c.system.rollback_to_snapshot('/w/t', 11)",
            "1\n! upkeep: unknown snapshot 99\n",
        ),
        // and what stands before it stays
        (
            "CALL c.system.rollback_to_snapshot('/w/t', 22)\nCALL c.system.rollback_to_snapshot('/w/t', 33)\nCALL c.system.rollback_to_snapshot('/w/t', 11)",
            "1 committed 4 by create append seal sync rename sync\nprevious_snapshot_id\tcurrent_snapshot_id\n33\t22\n! upkeep: snapshot 33 is not an ancestor of 22\n",
        ),
    ]
}

#[test]
fn two_words_in_one_run(rt: HostRuntime) -> Result<(), Fail> {
    for (lines, want) in lists() {
        assert_eq!(rt; outcome_of(&rt, lines)?.as_str(), want, "{lines}");
    }
    Ok(())
}

// The store call that fails, all of them of the second statement, whether its step is taken, and what is left.
fn failures() -> [(u64, bool, &'static str); 4] {
    [
        (
            8,
            false,
            "5 committed 4 by create append seal sync rename sync\nprevious_snapshot_id\tcurrent_snapshot_id\n33\t22\n! upkeep: store failed at /w/t/metadata\n",
        ),
        (
            11,
            true,
            "5 committed 4 left draft-2 by create append seal sync rename sync create append\nprevious_snapshot_id\tcurrent_snapshot_id\n33\t22\n! upkeep: store failed at /w/t/metadata/00000000-0000-0000-0000-000000000002.metadata.json\n",
        ),
        (
            14,
            false,
            "6 committed 4 left draft-2 /w/t/metadata/v5.metadata.json by create append seal sync rename sync create append seal sync\nprevious_snapshot_id\tcurrent_snapshot_id\n33\t22\n! upkeep: commit of version 5 is unknown\n",
        ),
        (
            15,
            true,
            "6 committed 4 left draft-2 by create append seal sync rename sync create append seal sync rename sync\nprevious_snapshot_id\tcurrent_snapshot_id\n33\t22\n! upkeep: commit of version 5 is unknown\n",
        ),
    ]
}

#[test]
fn a_store_failure_in_the_second_statement(rt: HostRuntime) -> Result<(), Fail> {
    for (call, took, want) in failures() {
        let left = outcome_failing(&rt, call, took, to_22_and_11())?;
        assert_eq!(rt; left.as_str(), want, "call {call}, taken: {took}");
    }
    Ok(())
}

// Words, and the message.
fn refused() -> [(&'static str, &'static str); 16] {
    [
        ("", "statement 1: syntax at byte 0"),
        (
            "CALL c.system.expire_snapshots('/w/t', retain_last => 1)",
            "statement 1: syntax at byte 39",
        ),
        (
            "CALL c.system.expire_snapshots(table => '/w/t', retain_last => 0)",
            "statement 1: bad argument retain_last",
        ),
        (
            "CALL c.system.ancestors_of('/w/t'",
            "statement 1: syntax at byte 33",
        ),
        (
            "CALL c.system.ancestors_of('/w/t')\nDROP",
            "statement 2: syntax at byte 0",
        ),
        // each word by its grammar and then by its arguments, then the next one, and the tables last
        (
            "CALL c.system.ancestors_of('/w/t')\nCALL c.system.ancestors_of('/w/u')\nDROP",
            "statement 3: syntax at byte 0",
        ),
        (
            "CALL c.system.ancestors_of()\nDROP",
            "statement 1: bad argument table",
        ),
        (
            "CALL c.system.ancestors_of('/w/t')\nCALL c.system.ancestors_of('/w/t', 1, 2)",
            "statement 2: bad argument #3",
        ),
        (
            "CALL c.system.rollback('/w/t', 1)",
            "statement 1: bad argument rollback",
        ),
        // the procedures that aren't built
        (
            "CALL hive_prod.system.expire_snapshots('/w/t', TIMESTAMP '2024-06-30 00:00:00.000', 100)",
            "statement 1: bad argument expire_snapshots",
        ),
        (
            "CALL c.system.remove_orphan_files('/w/t')",
            "statement 1: bad argument remove_orphan_files",
        ),
        (
            "CALL c.system.rewrite_data_files(table => '/w/t')",
            "statement 1: bad argument rewrite_data_files",
        ),
        (
            "CALL c.system.rewrite_manifests('/w/t')",
            "statement 1: bad argument rewrite_manifests",
        ),
        (
            "CALL c.system.REWRITE_position_delete_files('/w/t')",
            "statement 1: bad argument rewrite_position_delete_files",
        ),
        (
            "CALL c.system.rewrite_table_path('/w/t', '/w/t', '/new/t')",
            "statement 1: bad argument rewrite_table_path",
        ),
        (
            "CALL c.system.rollback_to_snapshot('/w/t', 11)\nCALL c.system.generate('/w/t', 7, 25000)",
            "statement 2: bad argument generate",
        ),
    ]
}

fn is_refused_with(rt: &HostRuntime, lines: &str, message: &str) -> Result<bool, Fail> {
    let want = format!(in rt.alloc(); "1 without a store call\n! upkeep: {message}\n")?;
    Ok(outcome_of(rt, lines)?.as_str() == want.as_str())
}

#[test]
fn statements_typed_and_refused(rt: HostRuntime) -> Result<(), Fail> {
    for (lines, message) in refused() {
        assert!(rt; is_refused_with(&rt, lines, message)?, "{lines}");
    }
    Ok(())
}
