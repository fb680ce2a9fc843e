//! What a stop leaves, in all its images.
use crate::fixtures::{
    Ran, Solo, draft, place, run_over, second_draft, sink, table, text_of, words_of,
};
use commit_protocol::open_table;
use ice_store::{Alone, Bytes, Items, Place};
use metadata_tests::three_snapshots;
use std::alloc::Global;
use std::test::Fail;
use store_memory::{Choice, FailAt, Torn};

fn torn(alloc: Global, at: &str, content: &str) -> Result<Torn, Fail> {
    Ok(Torn {
        place: place(alloc, at)?,
        bytes: Bytes::copy_of(alloc, content.as_bytes())?,
    })
}

// which of two pending name changes are done, and what stands in an unsealed draft; its own bytes where nothing is said
fn choice(alloc: Global, done: (bool, bool), content: Option<&str>) -> Result<Choice, Fail> {
    let mut drafts = Vec::new(alloc);
    if let Some(content) = content {
        drafts.push(torn(alloc, draft(), content)?)?;
        drafts.push(torn(alloc, second_draft(), content)?)?;
    }
    let (first, second) = done;
    Ok(Choice {
        done: Items::new(vec![in alloc; first, second]?),
        torn: Items::new(drafts),
    })
}

// the version at which an image opens, or 0
fn opens_at(store: &Solo, choice: &Choice, at: &Place) -> Result<u64, Fail> {
    let mut image = store.image(choice, Alone)?;
    match open_table(store.alloc, &mut image, at) {
        Ok(opened) => Ok(opened.version),
        Err(_) => Ok(0),
    }
}

// the words stopped at a call, its step taken or not
fn stopped(rt: &HostRuntime, lines: &str, stop: (u64, bool)) -> Result<Ran, Fail> {
    let alloc = rt.alloc();
    let (call, took) = stop;
    let words = words_of(alloc, lines)?;
    let files = table(alloc, three_snapshots().as_bytes())?;
    let fails = vec![in alloc; FailAt { call, took }]?;
    let mut out = sink(alloc)?;
    let mut err = sink(alloc)?;
    run_over(rt, files, fails, &words, &mut out, &mut err)
}

// whether each image opens at the first version where no pending change was done, at the second where all were, and
// else at one of them
fn images_open(alloc: Global, ran: &Ran, none: u64, all: u64) -> Result<bool, Fail> {
    let at = place(alloc, "/w/t")?;
    let mut is_good = true;
    for content in [None, Some(""), Some("{")] {
        for done in [(false, false), (true, false), (false, true), (true, true)] {
            let version = opens_at(&ran.store, &choice(alloc, done, content)?, &at)?;
            let is_open = match done {
                (false, false) => version == none,
                (true, true) => version == all,
                _ => version == none || version == all,
            };
            is_good = is_good && is_open;
        }
    }
    Ok(is_good)
}

fn is_good_stop(
    rt: &HostRuntime,
    lines: &str,
    stop: (u64, bool),
    none: u64,
    all: u64,
) -> Result<bool, Fail> {
    let ran = stopped(rt, lines, stop)?;
    images_open(rt.alloc(), &ran, none, all)
}

fn to_11() -> &'static str {
    "CALL c.system.rollback_to_snapshot(table => '/w/t', snapshot_id => 11)"
}

// The call that is stopped at, whether its step is taken, and the versions. The eighth call is the last one of a rollback.
fn stops() -> [(u64, bool, u64, u64); 11] {
    [
        (2, false, 3, 3),
        (2, true, 3, 3),
        (3, true, 3, 3),
        (4, true, 3, 3),
        (5, false, 3, 3),
        (5, true, 3, 3),
        (6, false, 3, 3),
        (6, true, 3, 4),
        (7, false, 3, 4),
        (7, true, 4, 4),
        (9, true, 4, 4),
    ]
}

#[test]
fn stops_of_rollback_to_11(rt: HostRuntime) -> Result<(), Fail> {
    for (call, took, none, all) in stops() {
        assert!(rt;
            is_good_stop(&rt, to_11(), (call, took), none, all)?,
            "{call} {took}"
        );
    }
    Ok(())
}

fn to_22_and_11() -> &'static str {
    "CALL c.system.rollback_to_snapshot(table => '/w/t', snapshot_id => 22)\nCALL c.system.rollback_to_snapshot(table => '/w/t', snapshot_id => 11)"
}

// Between two statements, and in the second one.
fn later_stops() -> [(u64, bool, u64, u64); 10] {
    [
        (7, false, 3, 4),
        (7, true, 4, 4),
        (8, true, 4, 4),
        (10, true, 4, 4),
        (11, true, 4, 4),
        (13, true, 4, 4),
        (14, true, 4, 5),
        (15, false, 4, 5),
        (15, true, 5, 5),
        (17, true, 5, 5),
    ]
}

#[test]
fn stops_of_two_statements(rt: HostRuntime) -> Result<(), Fail> {
    for (call, took, none, all) in later_stops() {
        assert!(rt;
            is_good_stop(&rt, to_22_and_11(), (call, took), none, all)?,
            "{call} {took}"
        );
    }
    Ok(())
}
