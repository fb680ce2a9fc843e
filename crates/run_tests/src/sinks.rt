//! Output that fails.
use crate::fixtures::{no_failures, run_over, shown, sink, table, words_of};
use ice_store::Items;
use metadata_tests::three_snapshots;
use std::alloc::Global;
use std::test::Fail;
use store_memory::MemSink;

// a sink with this room, of which the put of this number, counted from 0, fails
fn failing_sink(alloc: Global, room: usize, put: u64) -> Result<MemSink, Fail> {
    Ok(MemSink::new(alloc, room, Items::new(vec![in alloc; put]?))?)
}

// no put of a run has this number
fn no_put() -> u64 {
    1000
}

fn outcome_into(
    rt: &HostRuntime,
    lines: &str,
    out: &mut MemSink,
    err: &mut MemSink,
) -> Result<String, Fail> {
    let alloc = rt.alloc();
    let words = words_of(alloc, lines)?;
    let files = table(alloc, three_snapshots().as_bytes())?;
    let ran = run_over(rt, files, no_failures(alloc), &words, out, err)?;
    Ok(shown(alloc, &ran, out, err)?)
}

fn with_out(rt: &HostRuntime, lines: &str, room: usize, put: u64) -> Result<String, Fail> {
    let alloc = rt.alloc();
    let mut out = failing_sink(alloc, room, put)?;
    let mut err = sink(alloc)?;
    outcome_into(rt, lines, &mut out, &mut err)
}

fn with_err(rt: &HostRuntime, lines: &str, room: usize, put: u64) -> Result<String, Fail> {
    let alloc = rt.alloc();
    let mut out = sink(alloc)?;
    let mut err = failing_sink(alloc, room, put)?;
    outcome_into(rt, lines, &mut out, &mut err)
}

fn to_11() -> &'static str {
    "CALL c.system.rollback_to_snapshot('/w/t', 11)"
}

fn to_22_and_11() -> &'static str {
    "CALL c.system.rollback_to_snapshot('/w/t', 22)\nCALL c.system.rollback_to_snapshot('/w/t', 11)"
}

// Words, the room of `out`, the number of its put that fails, and what is left.
fn untold() -> [(&'static str, usize, u64, &'static str); 6] {
    [
        (
            to_11(),
            1000,
            0,
            "7 committed 4 by create append seal sync rename sync\n! upkeep: output failed\n",
        ),
        (
            to_11(),
            10,
            no_put(),
            "7 committed 4 by create append seal sync rename sync\nprevious_s! upkeep: output failed\n",
        ),
        // what follows the statement isn't run
        (
            to_22_and_11(),
            1000,
            0,
            "7 committed 4 by create append seal sync rename sync\n! upkeep: output failed\n",
        ),
        (
            to_22_and_11(),
            1000,
            1,
            "7 committed 4 5 by create append seal sync rename sync create append seal sync rename sync\nprevious_snapshot_id\tcurrent_snapshot_id\n33\t22\n! upkeep: output failed\n",
        ),
        (
            "CALL c.system.ancestors_of('/w/t')",
            1000,
            0,
            "7\n! upkeep: output failed\n",
        ),
        // nothing is put where a statement is refused
        (
            "CALL c.system.ancestors_of('/w/t', 99)",
            0,
            0,
            "1\n! upkeep: unknown snapshot 99\n",
        ),
    ]
}

#[test]
fn a_report_that_is_not_put(rt: HostRuntime) -> Result<(), Fail> {
    for (lines, room, put, want) in untold() {
        assert_eq!(rt;
            with_out(&rt, lines, room, put)?.as_str(),
            want,
            "{room} {put} {lines}"
        );
    }
    Ok(())
}

fn on_n() -> &'static str {
    "CALL c.system.ancestors_of('/w/n')"
}

// whether the status is the same and `err` has a front of the message
fn is_front(rt: &HostRuntime, room: usize, put: u64) -> Result<bool, Fail> {
    let left = with_err(rt, on_n(), room, put)?;
    let left = left.as_str();
    Ok(left == "2\n" || left.len() > 4 && "2\n! upkeep: no table at /w/n\n".starts_with(left))
}

#[test]
fn a_message_that_is_not_put(rt: HostRuntime) -> Result<(), Fail> {
    for room in 0..30 {
        assert!(rt; is_front(&rt, room, no_put())?, "{room}");
        assert!(rt; is_front(&rt, 1000, room as u64)?, "{room}");
    }
    assert_eq!(rt; with_err(&rt, on_n(), 1000, 0)?.as_str(), "2\n");
    assert_eq!(rt;
        with_err(&rt, on_n(), 12, no_put())?.as_str(),
        "2\n! upkeep: no t"
    );
    Ok(())
}

// Nothing is put on `err` where the run is Done.
#[test]
fn no_message_of_a_run_that_is_done(rt: HostRuntime) -> Result<(), Fail> {
    assert_eq!(rt;
        with_err(&rt, to_11(), 0, 0)?.as_str(),
        "0 committed 4 by create append seal sync rename sync\nprevious_snapshot_id\tcurrent_snapshot_id\n33\t11\n"
    );
    Ok(())
}
