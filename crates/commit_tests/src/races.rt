//! Commits beside another writer of the table.
ghost use Rattle.std.specs.Prelude.{◌≡◌};

use crate::changes::SetMain;
use crate::racer::Racer;
use crate::writers::Writers;
use commit_history::table_is_mannered;
use commit_protocol::{CommitErr, Committed, Log, Metadata, commit, open_table};
use ice_store::{Alone, Bytes, Event, FileRec, Items, Place, Step, Text, Who};
use metadata_tests::three_snapshots;
use std::alloc::{AllocError, Global};
use std::test::Fail;
use store_memory::{Choice, CountIds, MemStore, Neighbour, Quiet};

// the moment of each commit, in milliseconds since 1970
const NOW: u64 = 9000;

/// What a commit left.
#[derive(Drop)]
struct Raced<N> {
    answer: Result<Committed, CommitErr>,
    store: MemStore<N>,
    log: Log,
}

fn place(alloc: Global, text: &str) -> Result<Place, Fail> {
    Ok(Place::read(alloc, &Text::copy_of(alloc, text.as_bytes())?)?)
}

// a commit that sets `main` to 11, to the table of three snapshots at version 3
fn commit_beside<N: Neighbour<Writers> + Drop>(
    alloc: Global,
    table: &Place,
    neighbour: N,
) -> Result<Raced<N>, Fail>
    requires { (N.manners neighbour).table ≡ table.now }
{
    let base = FileRec {
        place: place(alloc, "/w/t/metadata/v3.metadata.json")?,
        bytes: Bytes::copy_of(alloc, three_snapshots().as_bytes())?,
        ms: 600,
    };
    let files = Items::new(vec![in alloc; base]?);
    let mut store = MemStore::new(alloc, files, 9000, neighbour, Items::empty(alloc))?;
    let mut log = Log {
        committed: Vec::new(alloc),
        left: Vec::new(alloc),
    };
    let mut ids = CountIds::new();
    let mut change = SetMain { id: 11, now: NOW };
    table_is_mannered::<Metadata>(table);
    let answer = commit::<Writers, MemStore<N>, CountIds, SetMain>(
        alloc,
        &mut store,
        &mut ids,
        NOW,
        table,
        &mut change,
        &mut log,
    );
    Ok(Raced { answer, store, log })
}

fn shown_answer(
    alloc: Global,
    answer: &Result<Committed, CommitErr>,
) -> Result<String, AllocError> {
    match answer {
        Ok(Committed::Published { version }) => format!(in alloc; "published {version}"),
        Ok(Committed::Same { version }) => format!(in alloc; "same {version}"),
        Err(CommitErr::Contended { version }) => format!(in alloc; "contended {version}"),
        Err(e) => format!(in alloc; "{e}"),
    }
}

fn shown_versions(alloc: Global, versions: &[u64]) -> Result<String, AllocError> {
    let mut shown = String::new(alloc);
    for version in versions {
        let before = shown.as_str();
        shown = format!(in alloc; "{before} {version}")?;
    }
    Ok(shown)
}

// in capitals where it is a step of another writer
fn word_of(event: &Event) -> &'static str {
    let (ours, theirs) = match event.step {
        Step::Create(_) => ("create", "CREATE"),
        Step::Append(_, _) => ("append", "APPEND"),
        Step::Seal(_) => ("seal", "SEAL"),
        Step::Rename(_, _) => ("rename", "RENAME"),
        Step::Remove(_) => ("remove", "REMOVE"),
        Step::SyncNames => ("sync", "SYNC"),
    };
    match event.who {
        Who::Us => ours,
        Who::Them => theirs,
    }
}

fn shown_steps(alloc: Global, events: &[Event]) -> Result<String, AllocError> {
    let mut shown = String::new(alloc);
    for event in events {
        let before = shown.as_str();
        let step = word_of(event);
        shown = format!(in alloc; "{before} {step}")?;
    }
    Ok(shown)
}

// how many files a stop leaves with each pending name change undone, and the table that it then opens as
fn shown_image<N>(store: &MemStore<N>, table: &Place) -> Result<String, Fail> {
    let alloc = store.alloc;
    let choice = Choice {
        done: Items::empty(alloc),
        torn: Items::empty(alloc),
    };
    let mut image = store.image(&choice, Alone)?;
    let count = image.past().base.len();
    match open_table(alloc, &mut image, table) {
        Ok(at) => {
            let version = at.version;
            let main = at.meta.current().unwrap_or(0);
            Ok(format!(in alloc; "{count} files, main at {main} in {version}")?)
        }
        Err(e) => Ok(format!(in alloc; "{count} files, {e}")?),
    }
}

// the answer, the versions that are told as committed, and how many places are left
fn shown_end<N>(alloc: Global, raced: &Raced<N>) -> Result<String, AllocError> {
    let answer = shown_answer(alloc, &raced.answer)?;
    let committed = shown_versions(alloc, &raced.log.committed)?;
    let left = raced.log.left.len();
    format!(in alloc; "{answer}: committed{committed}, left {left}")
}

// what a stop leaves, and all steps
fn shown_store<N>(store: &MemStore<N>, table: &Place) -> Result<String, Fail> {
    let image = shown_image(store, table)?;
    let steps = shown_steps(store.alloc, store.past().events.inner())?;
    Ok(format!(in store.alloc; "{image};{steps}")?)
}

fn shown<N>(alloc: Global, raced: &Raced<N>, table: &Place) -> Result<String, Fail> {
    let end = shown_end(alloc, raced)?;
    let left = shown_store(&raced.store, table)?;
    Ok(format!(in alloc; "{end}; {left}")?)
}

fn outcome<N: Neighbour<Writers> + Drop>(
    alloc: Global,
    table: &Place,
    neighbour: N,
) -> Result<String, Fail>
    requires { (N.manners neighbour).table ≡ table.now }
{
    let raced = commit_beside(alloc, table, neighbour)?;
    shown(alloc, &raced, table)
}

#[test]
fn beside_nobody(rt: HostRuntime) -> Result<(), Fail> {
    let alloc = rt.alloc();
    let table = place(alloc, "/w/t")?;
    let writers = Writers {
        table: table.copy()?,
    };
    let shown = outcome(alloc, &table, Quiet { manners: writers })?;
    assert_eq!(rt; shown.as_str(), unraced());
    Ok(())
}

// what a commit comes to beside a writer who does nothing
fn unraced() -> &'static str {
    "published 4: committed 4, left 0; 2 files, main at 11 in 4; create append seal sync rename sync"
}

// the text with the first `from` in it replaced, or an empty one where there is none
fn replaced(alloc: Global, text: &str, from: &str, to: &str) -> Result<String, AllocError> {
    match text.split_once(from) {
        Some((before, after)) => format!(in alloc; "{before}{to}{after}"),
        None => Ok(String::new(alloc)),
    }
}

// the table of three snapshots at this place, `main` being at 22
fn main_at_22(alloc: Global, location: &str) -> Result<String, AllocError> {
    let text = replaced(alloc, three_snapshots(), "33,\"type\"", "22,\"type\"")?;
    let text = replaced(alloc, text.as_str(), "snapshot-id\":33", "snapshot-id\":22")?;
    replaced(alloc, text.as_str(), "/w/t\",", location)
}

// beside a writer who publishes these bytes before the call with this number
fn outcome_beside_racer(alloc: Global, turn: u64, bytes: &[u8]) -> Result<String, Fail> {
    let table = place(alloc, "/w/t")?;
    let racer = Racer {
        writers: Writers {
            table: table.copy()?,
        },
        turn,
        bytes: Bytes::copy_of(alloc, bytes)?,
        calls: 0,
    };
    outcome(alloc, &table, racer)
}

// Before each call: the listing, the read, the six of a publish; the ninth never comes. Where the writer acts before the
// listing, the commit follows its version; before any call from there to the rename, its version is the one that the
// commit meant to publish; and behind the rename its version follows ours.
fn turns() -> [(u64, &'static str); 9] {
    [
        (
            0,
            "published 5: committed 5, left 0; 3 files, main at 11 in 5; CREATE APPEND SEAL RENAME create append seal sync rename sync",
        ),
        (
            1,
            "contended 4: committed, left 0; 2 files, main at 22 in 4; CREATE APPEND SEAL RENAME create append seal sync remove sync",
        ),
        (
            2,
            "contended 4: committed, left 0; 2 files, main at 22 in 4; CREATE APPEND SEAL RENAME create append seal sync remove sync",
        ),
        (
            3,
            "contended 4: committed, left 0; 2 files, main at 22 in 4; create CREATE APPEND SEAL RENAME append seal sync remove sync",
        ),
        (
            4,
            "contended 4: committed, left 0; 2 files, main at 22 in 4; create append CREATE APPEND SEAL RENAME seal sync remove sync",
        ),
        (
            5,
            "contended 4: committed, left 0; 2 files, main at 22 in 4; create append seal CREATE APPEND SEAL RENAME sync remove sync",
        ),
        (
            6,
            "contended 4: committed, left 0; 2 files, main at 22 in 4; create append seal sync CREATE APPEND SEAL RENAME remove sync",
        ),
        (
            7,
            "published 4: committed 4, left 0; 3 files, main at 22 in 5; create append seal sync rename CREATE APPEND SEAL RENAME sync",
        ),
        (8, unraced()),
    ]
}

#[test]
fn beside_a_racer(rt: HostRuntime) -> Result<(), Fail> {
    let alloc = rt.alloc();
    let text = main_at_22(alloc, "/w/t\",")?;
    for (turn, want) in turns() {
        let shown = outcome_beside_racer(alloc, turn, text.as_bytes())?;
        assert_eq!(rt; shown.as_str(), want, "{turn}");
    }
    Ok(())
}

#[test]
fn a_racer_publishes_only_the_table(rt: HostRuntime) -> Result<(), Fail> {
    let alloc = rt.alloc();
    let elsewhere = main_at_22(alloc, "/w/u\",")?;
    for text in [elsewhere.as_str(), "{"] {
        let shown = outcome_beside_racer(alloc, 6, text.as_bytes())?;
        assert_eq!(rt; shown.as_str(), unraced(), "{text}");
    }
    Ok(())
}
