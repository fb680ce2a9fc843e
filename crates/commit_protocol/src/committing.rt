//! A commit: the table is opened, the change asked, and what it built published as the next version.
ghost use Rattle.std.specs.Prelude.{◌≡◌, ◌≤◌, ◌<◌, ◌+◌, ◌^◌, ◌++◌, Ok, Err, IfOk, IfErr, IsUtf8};
ghost use Rattle.ice_store.specs.Given.{Gives};
ghost use Rattle.ice_store.specs.Others.{WhereTold};
ghost use Rattle.ice_store.specs.Places.{place_in};
ghost use Rattle.ice_store.specs.Since.{Since};
ghost use Rattle.serde_json.specs.View.{view};
ghost use Rattle.table_metadata.specs.Edits.{HasVersionLimit};
ghost use Rattle.metadata_view.specs.View.{location_of};
ghost use Rattle.commit_history.specs.Mannered.{IsMannered};
ghost use Rattle.commit_history.specs.Versions.{number_in};
ghost use Rattle.commit_publish.specs.Kinds.{Counts, Marks};
ghost use Rattle.commit_publish.specs.Stages.{Aim, Creating, InState};
ghost use Rattle.commit_versions.specs.Latest.{IsBaseNumber};
ghost use Rattle.commit_versions.specs.Opening.{OpenStage, OpenFaultAt, FileIs};
ghost use Rattle.commit_versions.specs.declared.types.OpenErr.{OpenErr as TheOpenErr};
ghost use Rattle.commit_protocol.specs.Attempts.{TellsLimit};
ghost use Rattle.commit_protocol.specs.Ends.{DrawsBy, DrawsOf, IsLeftOf, IsLeftPublished, IsRefusedBy, LeavesBy, PublishWorked, TellsFault};
ghost use Rattle.commit_protocol.specs.Kinds.{commit_end, kind_of};
ghost use Rattle.commit_protocol.specs.Meanings.{only_successor};
ghost use Rattle.commit_protocol.specs.Metadata.{IsMetadata, table_rules};
ghost use Rattle.commit_protocol.specs.Prepares.{GivesLast, IsSpareEnd, MakesNothing};
ghost use Rattle.commit_protocol.specs.Promises.{StopsHavePrefix, StopsHaveFiles, Succeeds};
ghost use Rattle.commit_protocol.specs.Rounds.{Asking, Trying, Committing, left_after};
ghost use Rattle.commit_protocol.specs.Verdicts.{IsNobody, IsCausedOf, IsExactlyOf};
ghost use Rattle.commit_protocol.specs.Withdraws.{lost_answer, lost_version};
ghost use Rattle.commit_protocol.specs.Written.{IsOn, IsWritten, IsUnwritten, PublishedLeaves, commit_error_by, stop_error, version_at};

use crate::change::{Built, Change};
use crate::errors::{AttemptErr, CommitErr, Committed, RemoveErr};
use crate::opening::{At, Metadata, open_table};
use commit_publish::{Log, PublishCall, PublishErr, Route, StepErr, publish_version};
use commit_versions::{FILE_LIMIT, draft_place, version_place, version_text};
use ice_store::{Bytes, Ids, Manners, Place, ReadErr, Store, StoreErr, Text, What, Where};
use std::alloc::{AllocError, Global};
use table_metadata::Meta;

/// What a commit needs of its base once the base's metadata is given to the change.
#[derive(Drop)]
pub(crate) struct Base {
    version: u64,
    place: Place,
    text: Bytes,
    // the base in a metadata log
    previous: Text,
}

/// A base and its metadata, apart.
#[derive(Drop)]
pub(crate) struct Parted {
    base: Base,
    meta: Meta,
}

fn take_apart(alloc: Global, at: At) -> Result<Parted, AllocError>
    ensures base { IfOk result (λ p. IsOn p.base at) }
    ensures utf8 { IfOk result (λ p. IsUtf8 p.base.previous) }
    ensures meta { IfOk result (λ p. p.meta ≡ at.meta) }
{
    let previous = version_text(alloc, at.meta.location(), at.version)?;
    let base = Base {
        version: at.version,
        place: at.place,
        text: at.text,
        previous,
    };
    Ok(Parted {
        base,
        meta: at.meta,
    })
}

fn route_of(alloc: Global, table: &Place, base: Base, draft: Place) -> Result<Route, AllocError>
    requires numbers { IsBaseNumber (number_in table.now) base.place base.version }
    requires plain { number_in table.now draft ≡ 0 }
    ensures table { IfOk result (λ r. r.table ≡ table.now) }
    ensures base { IfOk result (λ r. r.base ≡ base.place) }
    ensures text { IfOk result (λ r. r.text ≡ base.text) }
    ensures draft { IfOk result (λ r. r.draft ≡ draft) }
    ensures target { IfOk result (λ r. r.target ≡ version_at table.now (base.version + 1)) }
    ensures aim { IfOk result (λ r. Aim (number_in table.now) r) }
{
    let target = version_place(alloc, table, base.version + 1)?;
    let table = table.copy()?;
    Ok(Route {
        table,
        base: base.place,
        text: base.text,
        draft,
        target,
    })
}

/// A new metadata file that is drawn up: where it is to go, and its bytes.
#[derive(Drop)]
pub(crate) struct Written {
    route: Route,
    bytes: Bytes,
}

fn draw_up(
    alloc: Global,
    table: &Place,
    base: Base,
    meta: Meta,
    now: u64,
    id: u128,
) -> Result<Written, AttemptErr>
    requires numbers { IsBaseNumber (number_in table.now) base.place base.version }
    requires utf8 { IsUtf8 base.previous }
    requires here { place_in (location_of (view meta)) ≡ Ok table.now }
    requires limit { HasVersionLimit (view meta) }
    requires moment { now < 2 ^ 63 }
    ensures ok { IfOk result (λ w. IsWritten table.now base (view meta) now id w) }
    ensures err { IfErr result (λ e. IsUnwritten table.now base (view meta) now id e) }
{
    let bytes = meta.into_next_version_bytes(alloc, &base.previous, now)?;
    let draft = draft_place(alloc, table, id)?;
    if bytes.len() > FILE_LIMIT {
        return Err(AttemptErr::Read(ReadErr::Unsupported {
            place: draft,
            what: What::FileBytes,
        }));
    }
    let route = route_of(alloc, table, base, draft)?;
    Ok(Written { route, bytes })
}

// the error of a publish that stopped, at the commit
fn stop_error(e: StepErr, route: Route, version: u64) -> CommitErr
    ensures { result ≡ stop_error e.call e.cause route.draft route.table version }
{
    if e.cause == StoreErr::Memory {
        return CommitErr::Attempt(AttemptErr::Read(ReadErr::Memory));
    }
    let place = match e.call {
        PublishCall::Rename | PublishCall::SyncRename => {
            return CommitErr::CommitUnknown { version };
        }
        PublishCall::SyncDraft | PublishCall::SyncRemoval => route.table,
        PublishCall::Create | PublishCall::Append | PublishCall::Seal | PublishCall::Remove => {
            route.draft
        }
    };
    CommitErr::Attempt(AttemptErr::Read(ReadErr::StoreFault { place }))
}

// what a publish's error is at the commit
fn commit_error(e: PublishErr, route: Route, version: u64) -> CommitErr
    ensures { result ≡ commit_error_by e route.draft route.table version }
{
    match e {
        PublishErr::NameTaken => CommitErr::Attempt(AttemptErr::NameTaken { place: route.draft }),
        PublishErr::Contended => CommitErr::Contended { version },
        PublishErr::Stopped(e) => stop_error(e, route, version),
    }
}

fn publish_built<M: Manners, S: Store<M>, I: Ids>(
    alloc: Global,
    store: &mut S,
    ids: &mut I,
    now: u64,
    table: &Place,
    base: Base,
    meta: Meta,
    log: &mut Log,
) -> Result<Committed, CommitErr>
    requires mannered { IsMannered (table_rules table.now (M.allows (S.manners store.old))) }
    requires numbers { IsBaseNumber (number_in table.now) base.place base.version }
    requires utf8 { IsUtf8 base.previous }
    requires here { place_in (location_of (view meta)) ≡ Ok table.now }
    requires limit { HasVersionLimit (view meta) }
    requires moment { now < 2 ^ 63 }
    requires start { WhereTold (S.past store.old) (InState (OpenStage (number_in table.now) base.place)) }
    ensures told { Since (S.past store.old) (S.past store.new) (PublishedLeaves table.now (M.allows (S.manners store.old)) (Gives (I.given ids.old) (I.given ids.new)) now base (view meta) result) }
    ensures manners { S.manners store.new ≡ S.manners store.old }
    ensures cause { Counts (kind_of (commit_end result)) (S.faults store.old) (S.faults store.new) }
    ensures later { S.faults store.old ≤ S.faults store.new }
    ensures halted { Marks table.now (kind_of (commit_end result)) (S.halted store.old) (S.halted store.new) (S.past store.new) }
    ensures committed { log.new.committed.items ≡ log.old.committed.items ++ (commit_end result).versions }
    ensures left { LeavesBy (Gives (I.given ids.old) (I.given ids.new)) table.now (kind_of (commit_end result)) log.old.left.items log.new.left.items }
    ensures works { PublishWorked S.past store.old store.new table.now (I.given ids.old) (I.given ids.new) now base (view meta) result (S.halted store.new) log.old log.new }
    ensures drawn { DrawsBy (commit_end result).versions (commit_end result).error (I.given ids.old) (I.given ids.new) }
    ensures unspared { IsSpareEnd result → ⊥ }
    ensures refused { IsRefusedBy (only_successor (view meta)) result }
    ensures fault_place { TellsFault (only_successor (view meta)) (Gives (I.given ids.old) (I.given ids.new)) table.now result }
    ensures unopened { (e : TheOpenErr) → result ≡ Err (CommitErr.Open e) → ⊥ }
{
    let id = ids.next();
    let version = base.version + 1;
    let written = match draw_up(alloc, table, base, meta, now, id) {
        Ok(written) => written,
        Err(e) => return Err(CommitErr::Attempt(e)),
    };
    match publish_version::<Metadata, M, S>(
        store,
        &written.route,
        version,
        written.bytes.inner(),
        log,
    ) {
        Ok(()) => Ok(Committed::Published { version }),
        Err(e) => Err(commit_error(e, written.route, version)),
    }
}

fn unreadable_limit(alloc: Global, place: Place) -> CommitErr
    ensures { TellsLimit place result }
{
    let path = b"properties.write.metadata.previous-versions-max";
    CommitErr::Attempt(AttemptErr::Read(match Text::copy_of(alloc, path) {
        Ok(path) => ReadErr::Damaged {
            place,
            at: Where::Path(path),
        },
        Err(_) => ReadErr::Memory,
    }))
}

// takes the change's files out of the log where the version that names them was published
fn settle_left(log: &mut Log, count: usize, ended: &Result<Committed, CommitErr>)
    ensures left { log.new.left.items ≡ left_after ended.now count log.old.left.items }
    ensures committed { log.new.committed.items ≡ log.old.committed.items }
{
    if let Ok(Committed::Published { .. }) = ended {
        log.left.truncate(count);
    }
}

fn ask_and_publish<M: Manners, S: Store<M>, I: Ids, X: Change<M>>(
    alloc: Global,
    store: &mut S,
    ids: &mut I,
    now: u64,
    table: &Place,
    at: At,
    change: &mut X,
    log: &mut Log,
) -> Result<Committed, CommitErr>
    requires mannered { IsMannered (table_rules table.now (M.allows (S.manners store.old))) }
    requires numbers { IsBaseNumber (number_in table.now) at.place at.version }
    requires metadata { IsMetadata table.now at.text (view at.meta) }
    requires moment { now < 2 ^ 63 }
    requires start { WhereTold (S.past store.old) (InState (OpenStage (number_in table.now) at.place)) }
    requires read { WhereTold (S.past store.old) (InState (λ d. FileIs at.place at.text d.files)) }
    ensures told { Asking S.past store.old store.new table.now (M.allows (S.manners store.old)) (X.meanings change.old change.new) (I.given ids.old) (I.given ids.new) now at result (S.halted store.new) log.old log.new }
    ensures manners { S.manners store.new ≡ S.manners store.old }
    ensures cause { Counts (kind_of (commit_end result)) (S.faults store.old) (S.faults store.new) }
    ensures later { S.faults store.old ≤ S.faults store.new }
    ensures halted { Marks table.now (kind_of (commit_end result)) (S.halted store.old) (S.halted store.new) (S.past store.new) }
    ensures committed { log.new.committed.items ≡ log.old.committed.items ++ (commit_end result).versions }
    ensures left { IsLeftPublished (X.meanings change.old change.new) (I.given ids.old) (I.given ids.new) table.now (commit_end result) log.old log.new }
    ensures drawn { DrawsOf (X.meanings change.old change.new).draws (commit_end result).versions (commit_end result).error (I.given ids.old) (I.given ids.new) }
    ensures kept { (X.meanings change.new change.new).made ≡ (X.meanings change.old change.new).made }
    ensures spare { IsSpareEnd result → MakesNothing (X.meanings change.old change.new) }
    ensures refused { IsRefusedBy (X.meanings change.old change.new) result }
    ensures fault_place { TellsFault (X.meanings change.old change.new) (GivesLast (X.meanings change.old change.new).draws (I.given ids.old) (I.given ids.new)) table.now result }
    ensures unopened { (e : TheOpenErr) → result ≡ Err (CommitErr.Open e) → ⊥ }
{
    if !at.meta.has_version_limit() {
        return Err(unreadable_limit(alloc, at.place));
    }
    let Ok(parts) = take_apart(alloc, at) else {
        return Err(CommitErr::Attempt(AttemptErr::Read(ReadErr::Memory)));
    };
    let base = parts.base;
    let count = log.left.len();
    match change.attempt::<S, I>(alloc, store, ids, table, &base.place, parts.meta, log) {
        Ok(Built::Next(meta)) => {
            let ended = publish_built::<M, S, I>(alloc, store, ids, now, table, base, meta, log);
            settle_left(log, count, &ended);
            ended
        }
        Ok(Built::Same) => Ok(Committed::Same {
            version: base.version,
        }),
        Err(e) => Err(CommitErr::Attempt(e)),
    }
}

// the version for which the race was lost
fn lost_version(ended: &Result<Committed, CommitErr>) -> Option<u64>
    ensures { result ≡ lost_version ended.now }
{
    match ended {
        Err(CommitErr::Contended { version }) => Some(*version),
        _ => None,
    }
}

// what is answered once the files of a lost attempt are removed, or aren't
fn lost_answer(version: u64, removed: Result<(), RemoveErr>) -> Result<Committed, CommitErr>
    ensures { result ≡ lost_answer version removed }
{
    Err(match removed {
        Ok(()) => CommitErr::Contended { version },
        Err(RemoveErr::StoreFault { place }) => {
            CommitErr::Attempt(AttemptErr::Read(ReadErr::StoreFault { place }))
        }
        Err(RemoveErr::Memory) => CommitErr::Attempt(AttemptErr::Read(ReadErr::Memory)),
    })
}

fn attempt_on_base<M: Manners, S: Store<M>, I: Ids, X: Change<M>>(
    alloc: Global,
    store: &mut S,
    ids: &mut I,
    now: u64,
    table: &Place,
    at: At,
    change: &mut X,
    log: &mut Log,
) -> Result<Committed, CommitErr>
    requires mannered { IsMannered (table_rules table.now (M.allows (S.manners store.old))) }
    requires numbers { IsBaseNumber (number_in table.now) at.place at.version }
    requires metadata { IsMetadata table.now at.text (view at.meta) }
    requires moment { now < 2 ^ 63 }
    requires start { WhereTold (S.past store.old) (InState (OpenStage (number_in table.now) at.place)) }
    requires read { WhereTold (S.past store.old) (InState (λ d. FileIs at.place at.text d.files)) }
    ensures told { Trying S.past store.old store.new table.now (M.allows (S.manners store.old)) (X.meanings change.old change.new) (I.given ids.old) (I.given ids.new) now at result (S.halted store.new) log.old log.new }
    ensures manners { S.manners store.new ≡ S.manners store.old }
    ensures cause { Counts (kind_of (commit_end result)) (S.faults store.old) (S.faults store.new) }
    ensures later { S.faults store.old ≤ S.faults store.new }
    ensures halted { Marks table.now (kind_of (commit_end result)) (S.halted store.old) (S.halted store.new) (S.past store.new) }
    ensures committed { log.new.committed.items ≡ log.old.committed.items ++ (commit_end result).versions }
    ensures left { IsLeftOf (X.meanings change.old change.new) (I.given ids.old) (I.given ids.new) table.now (commit_end result) log.old log.new }
    ensures drawn { DrawsOf (X.meanings change.old change.new).draws (commit_end result).versions (commit_end result).error (I.given ids.old) (I.given ids.new) }
    ensures spare { IsSpareEnd result → MakesNothing (X.meanings change.old change.new) }
    ensures refused { IsRefusedBy (X.meanings change.old change.new) result }
    ensures fault_place { TellsFault (X.meanings change.old change.new) (GivesLast (X.meanings change.old change.new).draws (I.given ids.old) (I.given ids.new)) table.now result }
    ensures unopened { (e : TheOpenErr) → result ≡ Err (CommitErr.Open e) → ⊥ }
{
    let ended = ask_and_publish::<M, S, I, X>(alloc, store, ids, now, table, at, change, log);
    match lost_version(&ended) {
        None => ended,
        Some(version) => lost_answer(version, change.lost::<S>(store, table, log)),
    }
}

/// Commits a change: opens the table, asks the change, writes what it built under a name of its own, seals it, syncs the
/// names, renames it to the next version and syncs again. Nothing is published where there is nothing to change. Behind the
/// identifiers that the change draws for itself one more is drawn, which names the new metadata file. `Contended` comes
/// where the next version was taken: the new metadata file is then removed, and so are the files that the change made, by
/// its `lost`, with a sync of the names behind them. After a store failure no further store call is made.
///
/// `told` says by the end which steps were taken: first those of the change's attempt, as its meanings have them, and then
/// those of one publish of what it built; and which places the log's `left` has: the change's files, until a version names
/// them. `halted` says which call failed. Where nobody else acts, the answer's exact cause stands in the files at the entry
/// and in the change's meanings (`alone`), and no other answer has its there (`exactly`). Whatever a stop leaves, from a
/// whole table on, is whole and has the table after a prefix of the commits (`prefix`, `files`), and a published version is
/// a successor of the one before it (`successors`).
pub fn commit<M: Manners, S: Store<M>, I: Ids, X: Change<M>>(
    alloc: Global,
    store: &mut S,
    ids: &mut I,
    now: u64,
    table: &Place,
    change: &mut X,
    log: &mut Log,
) -> Result<Committed, CommitErr>
    requires mannered { IsMannered (table_rules table.now (M.allows (S.manners store.old))) }
    requires moment { now < 2 ^ 63 }
    requires start { WhereTold (S.past store.old) (InState (λ d. Creating d.pending)) }
    ensures told { Committing S.past store.old store.new table.now (M.allows (S.manners store.old)) (X.meanings change.old change.new) (I.given ids.old) (I.given ids.new) now result (S.halted store.new) log.old log.new }
    ensures manners { S.manners store.new ≡ S.manners store.old }
    ensures cause { Counts (kind_of (commit_end result)) (S.faults store.old) (S.faults store.new) }
    ensures later { S.faults store.old ≤ S.faults store.new }
    ensures halted { Marks table.now (kind_of (commit_end result)) (S.halted store.old) (S.halted store.new) (S.past store.new) }
    ensures committed { log.new.committed.items ≡ log.old.committed.items ++ (commit_end result).versions }
    ensures left { IsLeftOf (X.meanings change.old change.new) (I.given ids.old) (I.given ids.new) table.now (commit_end result) log.old log.new }
    ensures drawn { DrawsOf (X.meanings change.old change.new).draws (commit_end result).versions (commit_end result).error (I.given ids.old) (I.given ids.new) }
    ensures spare { IsSpareEnd result → MakesNothing (X.meanings change.old change.new) }
    ensures refused { IsRefusedBy (X.meanings change.old change.new) result }
    ensures fault_place { TellsFault (X.meanings change.old change.new) (GivesLast (X.meanings change.old change.new).draws (I.given ids.old) (I.given ids.new)) table.now result }
    ensures opening { (e : TheOpenErr) → result ≡ Err (CommitErr.Open e) → OpenFaultAt table.now e }
    ensures alone { IsNobody (M.allows (S.manners store.old)) → Since (S.past store.old) (S.past store.new) (IsCausedOf (X.meanings change.old change.new) (I.given ids.old) (I.given ids.new) table.now now result) }
    ensures exactly { Since (S.past store.old) (S.past store.new) (IsExactlyOf (M.allows (S.manners store.old)) (X.meanings change.old change.new) (I.given ids.old) (I.given ids.new) table.now now result) }
    ensures prefix { Since (S.past store.old) (S.past store.new) (StopsHavePrefix table.now) }
    ensures files { Since (S.past store.old) (S.past store.new) (StopsHaveFiles table.now) }
    ensures successors { IsNobody (M.allows (S.manners store.old)) → Since (S.past store.old) (S.past store.new) (Succeeds (X.meanings change.old change.new).successor table.now now result) }
{
    match open_table::<M, S>(alloc, store, table) {
        Ok(at) => attempt_on_base::<M, S, I, X>(alloc, store, ids, now, table, at, change, log),
        Err(e) => Err(CommitErr::Open(e)),
    }
}
