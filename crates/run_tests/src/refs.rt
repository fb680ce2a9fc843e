//! The procedures that move or list refs, on tables with a branch beside or ahead of `main`.
use crate::fixtures::{outcome_of, outcome_on};
use std::test::Fail;

// A snapshot 44 of parent 11, and a branch `b` on it.
fn side() -> &'static str {
    "\"refs\":{=>\"refs\":{\"b\":{\"snapshot-id\":44,\"type\":\"branch\"},;;3000}],\"sort=>3000},{\"manifest-list\":\"/w/t/metadata/l44.avro\",\"parent-snapshot-id\":11,\"sequence-number\":4,\"snapshot-id\":44,\"summary\":{\"operation\":\"append\"},\"timestamp-ms\":4000}],\"sort"
}

// A snapshot 44 of parent 33, and a branch `b` on it.
fn ahead() -> &'static str {
    "\"refs\":{=>\"refs\":{\"b\":{\"snapshot-id\":44,\"type\":\"branch\"},;;3000}],\"sort=>3000},{\"manifest-list\":\"/w/t/metadata/l44.avro\",\"parent-snapshot-id\":33,\"sequence-number\":4,\"snapshot-id\":44,\"summary\":{\"operation\":\"append\"},\"timestamp-ms\":4000}],\"sort"
}

// No current snapshot.
fn empty() -> &'static str {
    "\"current-snapshot-id\":33,=>;;\"refs\":{\"main\":{\"snapshot-id\":33,\"type\":\"branch\"}},=>"
}

// A tag `t` on 22, and a branch on 11 whose name holds a tab.
fn named() -> &'static str {
    "\"refs\":{=>\"refs\":{\"t\":{\"snapshot-id\":22,\"type\":\"tag\"},\"x\\ty\":{\"snapshot-id\":11,\"type\":\"branch\"},"
}

fn on_side() -> [(&'static str, &'static str); 6] {
    [
        (
            "CALL c.system.rollback_to_snapshot(table => '/w/t', snapshot_id => 44)",
            "1\n! upkeep: snapshot 44 is not an ancestor of 33\n",
        ),
        (
            "CALL c.system.rollback_to_snapshot(table => '/w/t', snapshot_id => 99)",
            "1\n! upkeep: unknown snapshot 99\n",
        ),
        (
            "CALL c.system.set_current_snapshot(table => '/w/t', ref => 'b')",
            "0 committed 4 by create append seal sync rename sync\nprevious_snapshot_id\tcurrent_snapshot_id\n33\t44\n",
        ),
        (
            "CALL c.system.fast_forward('/w/t', 'b', 'main')",
            "1\n! upkeep: snapshot 44 is not an ancestor of 33\n",
        ),
        (
            "CALL c.system.set_current_snapshot(table => '/w/t', snapshot_id => 44)\nCALL c.system.ancestors_of('/w/t')",
            "0 committed 4 by create append seal sync rename sync\nprevious_snapshot_id\tcurrent_snapshot_id\n33\t44\nsnapshot_id\ttimestamp\n44\t4000\n11\t1000\n",
        ),
        (
            "CALL c.system.set_current_snapshot(table => '/w/t', snapshot_id => 99)",
            "1\n! upkeep: unknown snapshot 99\n",
        ),
    ]
}

#[test]
fn side_branch_is_no_ancestor(rt: HostRuntime) -> Result<(), Fail> {
    for (lines, want) in on_side() {
        assert_eq!(rt; outcome_on(&rt, side(), lines)?.as_str(), want, "{lines}");
    }
    Ok(())
}

fn forward() -> [(&'static str, &'static str); 2] {
    [
        (
            "CALL c.system.fast_forward('/w/t', 'main', 'b')",
            "0 committed 4 by create append seal sync rename sync\nbranch_updated\tprevious_ref\tupdated_ref\nmain\t33\t44\n",
        ),
        (
            "CALL c.system.fast_forward(to => 'b', branch => 'b', table => '/w/t')\nCALL c.system.ancestors_of('/w/t')",
            "0\nbranch_updated\tprevious_ref\tupdated_ref\nb\t44\t44\nsnapshot_id\ttimestamp\n33\t3000\n22\t2000\n11\t1000\n",
        ),
    ]
}

#[test]
fn main_fast_forwarded(rt: HostRuntime) -> Result<(), Fail> {
    for (lines, want) in forward() {
        assert_eq!(rt; outcome_on(&rt, ahead(), lines)?.as_str(), want, "{lines}");
    }
    Ok(())
}

fn listings() -> [(&'static str, &'static str); 4] {
    [
        (
            "CALL c.system.ancestors_of('/w/t')",
            "0\nsnapshot_id\ttimestamp\n33\t3000\n22\t2000\n11\t1000\n",
        ),
        (
            "CALL c.system.ancestors_of('/w/t', 22)",
            "0\nsnapshot_id\ttimestamp\n22\t2000\n11\t1000\n",
        ),
        (
            "CALL c.system.ancestors_of(snapshot_id => NULL, table => 'file:///w/t/')",
            "0\nsnapshot_id\ttimestamp\n33\t3000\n22\t2000\n11\t1000\n",
        ),
        (
            "CALL c.system.ancestors_of('/w/t', 99)",
            "1\n! upkeep: unknown snapshot 99\n",
        ),
    ]
}

#[test]
fn ancestors_listed(rt: HostRuntime) -> Result<(), Fail> {
    for (lines, want) in listings() {
        assert_eq!(rt; outcome_of(&rt, lines)?.as_str(), want, "{lines}");
    }
    Ok(())
}

fn on_empty() -> [(&'static str, &'static str); 3] {
    [
        (
            "CALL c.system.ancestors_of('/w/t')",
            "0\nsnapshot_id\ttimestamp\n",
        ),
        (
            "CALL c.system.rollback_to_snapshot('/w/t', 11)",
            "1\n! upkeep: snapshot 11 is not an ancestor of none\n",
        ),
        (
            "CALL c.system.set_current_snapshot('/w/t', 11)",
            "0 committed 4 by create append seal sync rename sync\nprevious_snapshot_id\tcurrent_snapshot_id\nnull\t11\n",
        ),
    ]
}

#[test]
fn a_table_without_a_current_snapshot(rt: HostRuntime) -> Result<(), Fail> {
    for (lines, want) in on_empty() {
        assert_eq!(rt; outcome_on(&rt, empty(), lines)?.as_str(), want, "{lines}");
    }
    Ok(())
}

fn on_named() -> [(&'static str, &'static str); 5] {
    [
        (
            "CALL c.system.fast_forward('/w/t', 't', 'main')",
            "1\n! upkeep: unknown ref t\n",
        ),
        (
            "CALL c.system.fast_forward('/w/t', 'none', 'nothing')",
            "1\n! upkeep: unknown ref none\n",
        ),
        (
            "CALL c.system.fast_forward('/w/t', 'main', 'no\\nthing')",
            "1\n! upkeep: unknown ref no\\nthing\n",
        ),
        (
            "CALL c.system.fast_forward('/w/t', 'x\\ty', 't')",
            "0 committed 4 by create append seal sync rename sync\nbranch_updated\tprevious_ref\tupdated_ref\nx\\ty\t11\t22\n",
        ),
        (
            "CALL c.system.set_current_snapshot(table => '/w/t', ref => 't')",
            "0 committed 4 by create append seal sync rename sync\nprevious_snapshot_id\tcurrent_snapshot_id\n33\t22\n",
        ),
    ]
}

#[test]
fn tags_and_names_with_escapes(rt: HostRuntime) -> Result<(), Fail> {
    for (lines, want) in on_named() {
        assert_eq!(rt; outcome_on(&rt, named(), lines)?.as_str(), want, "{lines}");
    }
    Ok(())
}
