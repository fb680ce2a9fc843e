//! A publish: the new metadata becomes the next version of its table.
ghost use Rattle.std.specs.Prelude.{◌≡◌, ◌≤◌, ◌+◌, ◌++◌, vec_len, vec_capacity};
ghost use Rattle.ice_store.specs.Others.{WhereTold};
ghost use Rattle.ice_store.specs.Since.{Since};
ghost use Rattle.commit_history.specs.Readings.{rules_of};
ghost use Rattle.commit_history.specs.Mannered.{IsMannered};
ghost use Rattle.commit_history.specs.Versions.{number_in};
ghost use Rattle.commit_publish.specs.Leaves.{PublishLeaves};
ghost use Rattle.commit_publish.specs.Logs.{DropsTaken, PublishCounts, PublishMarks, PublishNotes, published_by, left_at, left_by};
ghost use Rattle.commit_publish.specs.Stages.{IsNarrow, Creating, Aim, Stage, NoFile, InState};

use crate::steps::{PublishCall, Route, StepErr, drop_draft, fill_draft, make_draft, move_draft};
use commit_history::TableReading;
use ice_store::{Made, Manners, Moved, Place, Store, StoreErr};

/// What a run has published, and what files of its own it may have left behind.
#[derive(Debug, Drop)]
pub struct Log {
    /// The versions that were published and acknowledged, in order.
    pub committed: Vec<u64>,
    /// The places that were created and neither removed nor published; and those of a step that failed.
    pub left: Vec<Place>,
}

/// Why a publish did not end, or may not have been.
#[derive(Debug, Clone, Copy, PartialEq, Eq)]
pub enum PublishErr {
    /// The draft's name was taken.
    NameTaken,
    /// The target was taken, and the draft is removed.
    Contended,
    /// A store call failed, or lacked memory; no call follows it.
    Stopped(StepErr),
}

// the calls of a publish, one behind the other
fn publish_steps<R: TableReading, M: Manners, S: Store<M>>(
    store: &mut S,
    route: &Route,
    bytes: &[u8],
) -> Result<(), PublishErr>
    requires mannered { IsMannered (rules_of R.content route.now.table (M.allows (S.manners store.old))) }
    requires aim { Aim (number_in route.now.table) route.now }
    requires start { WhereTold (S.past store.old) (InState (Stage (number_in route.now.table) route.now Creating NoFile)) }
    requires narrow { IsNarrow (R.content route.now.table) bytes.now }
    ensures told { Since (S.past store.old) (S.past store.new) (PublishLeaves (rules_of R.content route.now.table (M.allows (S.manners store.old))) route.now bytes.now result) }
    ensures taken { DropsTaken route.now result (S.past store.new) }
    ensures manners { S.manners store.new ≡ S.manners store.old }
    ensures cause { PublishCounts result (S.faults store.old) (S.faults store.new) }
    ensures later { S.faults store.old ≤ S.faults store.new }
    ensures halted { PublishMarks route.now.draft route.now.target bytes.now result (S.halted store.old) (S.halted store.new) (S.past store.new) }
{
    match make_draft::<R, M, S>(store, route) {
        Ok(Made::New) => {}
        Ok(Made::Exists) => return Err(PublishErr::NameTaken),
        Err(e) => return Err(PublishErr::Stopped(e)),
    }
    if let Err(e) = fill_draft::<R, M, S>(store, route, bytes) {
        return Err(PublishErr::Stopped(e));
    }
    match move_draft::<R, M, S>(store, route, bytes) {
        Ok(Moved::Done) => return Ok(()),
        Ok(Moved::Exists) => {}
        Err(e) => return Err(PublishErr::Stopped(e)),
    }
    match drop_draft::<R, M, S>(store, route, bytes) {
        Ok(()) => Err(PublishErr::Contended),
        Err(e) => Err(PublishErr::Stopped(e)),
    }
}

// the log has what was committed, and what is left
fn note(log: &mut Log, outcome: &Result<(), PublishErr>, version: u64, draft: Place, target: Place)
    requires committed_room { vec_len log.old.committed + 1 ≤ vec_capacity log.old.committed }
    requires left_room { vec_len log.old.left + 2 ≤ vec_capacity log.old.left }
    ensures committed { log.new.committed.items ≡ log.old.committed.items ++ published_by version outcome.now }
    ensures left { log.new.left.items ≡ log.old.left.items ++ left_by draft target outcome.now }
{
    match outcome {
        Ok(()) => log.committed.push_reserved(version),
        Err(PublishErr::Stopped(e)) => note_left(log, *e, draft, target),
        Err(_) => {}
    }
}

// the places that stay where a publish stopped at this call
fn note_left(log: &mut Log, e: StepErr, draft: Place, target: Place)
    requires { vec_len log.old.left + 2 ≤ vec_capacity log.old.left }
    ensures left { log.new.left.items ≡ log.old.left.items ++ left_at draft target e.call e.cause }
    ensures committed { log.new.committed ≡ log.old.committed }
{
    match (e.call, e.cause) {
        (PublishCall::Create, StoreErr::Memory) | (PublishCall::SyncRemoval, _) => {}
        (PublishCall::Rename, StoreErr::Failed) => {
            log.left.push_reserved(draft);
            log.left.push_reserved(target);
        }
        _ => log.left.push_reserved(draft),
    }
}

/// Publishes these bytes as the next version, whose number is `version`. Room in the log is taken before the first step.
pub fn publish<R: TableReading, M: Manners, S: Store<M>>(
    store: &mut S,
    route: &Route,
    version: u64,
    bytes: &[u8],
    log: &mut Log,
) -> Result<(), PublishErr>
    requires mannered { IsMannered (rules_of R.content route.now.table (M.allows (S.manners store.old))) }
    requires aim { Aim (number_in route.now.table) route.now }
    requires number { number_in route.now.table route.now.target ≡ version }
    requires start { WhereTold (S.past store.old) (InState (Stage (number_in route.now.table) route.now Creating NoFile)) }
    requires narrow { IsNarrow (R.content route.now.table) bytes.now }
    ensures told { Since (S.past store.old) (S.past store.new) (PublishLeaves (rules_of R.content route.now.table (M.allows (S.manners store.old))) route.now bytes.now result) }
    ensures taken { DropsTaken route.now result (S.past store.new) }
    ensures manners { S.manners store.new ≡ S.manners store.old }
    ensures cause { PublishCounts result (S.faults store.old) (S.faults store.new) }
    ensures later { S.faults store.old ≤ S.faults store.new }
    ensures halted { PublishMarks route.now.draft route.now.target bytes.now result (S.halted store.old) (S.halted store.new) (S.past store.new) }
    ensures committed { log.new.committed.items ≡ log.old.committed.items ++ published_by version result }
    ensures left { log.new.left.items ≡ log.old.left.items ++ left_by route.now.draft route.now.target result }
    ensures noted { Since (S.past store.old) (S.past store.new) (PublishNotes route.now.draft route.now.target version result (S.faults store.old) (S.faults store.new) (S.halted store.new)) }
{
    let lacks = StepErr {
        call: PublishCall::Create,
        cause: StoreErr::Memory,
    };
    let (Ok(draft), Ok(target)) = (route.draft.copy(), route.target.copy()) else {
        return Err(PublishErr::Stopped(lacks));
    };
    if log.committed.reserve(1).is_err() || log.left.reserve(2).is_err() {
        return Err(PublishErr::Stopped(lacks));
    }
    let outcome = publish_steps::<R, M, S>(store, route, bytes);
    note(log, &outcome, version, draft, target);
    outcome
}
