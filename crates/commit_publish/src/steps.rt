//! The pieces of a publish, each of a few store calls.
ghost use Rattle.std.specs.Prelude.{◌≡◌, ◌≤◌, true, false, [], List, ℕ, IfErr};
ghost use Rattle.ice_store.specs.Others.{WhereTold};
ghost use Rattle.ice_store.specs.Since.{Since};
ghost use Rattle.commit_history.specs.Readings.{rules_of};
ghost use Rattle.commit_history.specs.Mannered.{IsMannered};
ghost use Rattle.commit_history.specs.Versions.{number_in};
ghost use Rattle.commit_publish.specs.Stages.{IsNarrow, Creating, AtRest, Aim, Stage, NoFile, HasDraft, IsTaken, IsTargetTaken, InState};
ghost use Rattle.commit_publish.specs.Steps.{IsMaking, IsFilling, IsMoving, IsDropping};
ghost use Rattle.commit_publish.specs.Leaves.{MakeLeaves, FillLeaves, MoveLeaves, DropLeaves};
ghost use Rattle.commit_publish.specs.Logs.{CallCounts, CallMarks};

use commit_history::TableReading;
use ice_store::{Bytes, Made, Manners, Moved, Place, Store, StoreErr};

/// Where a publish works.
#[derive(Debug, Drop)]
pub struct Route {
    pub table: Place,
    /// The version file that the new one follows, and its bytes.
    pub base: Place,
    pub text: Bytes,
    /// The new metadata file's own name, before its rename.
    pub draft: Place,
    /// The next version place.
    pub target: Place,
}

/// A store call of a publish. `Remove` and `SyncRemoval` come in place of `SyncRename` where the rename met a taken target.
#[derive(Debug, Clone, Copy, PartialEq, Eq)]
pub enum PublishCall {
    Create,
    Append,
    Seal,
    SyncDraft,
    Rename,
    SyncRename,
    Remove,
    SyncRemoval,
}

/// A store call that did not do its work.
#[derive(Debug, Clone, Copy, PartialEq, Eq)]
pub struct StepErr {
    pub call: PublishCall,
    pub cause: StoreErr,
}

fn stopped(call: PublishCall, cause: StoreErr) -> StepErr
    ensures { result ≡ record { call = call; cause = cause } }
{
    StepErr { call, cause }
}

/// Creates the draft; `Exists` where its name is taken.
pub fn make_draft<R: TableReading, M: Manners, S: Store<M>>(
    store: &mut S,
    route: &Route,
) -> Result<Made, StepErr>
    requires mannered { IsMannered (rules_of R.content route.now.table (M.allows (S.manners store.old))) }
    requires aim { Aim (number_in route.now.table) route.now }
    requires start { WhereTold (S.past store.old) (InState (Stage (number_in route.now.table) route.now Creating NoFile)) }
    ensures told { Since (S.past store.old) (S.past store.new) (MakeLeaves (rules_of R.content route.now.table (M.allows (S.manners store.old))) route.now result) }
    ensures call { IfErr result (λ e. IsMaking e.call) }
    ensures manners { S.manners store.new ≡ S.manners store.old }
    ensures cause { CallCounts result (S.faults store.old) (S.faults store.new) }
    ensures later { S.faults store.old ≤ S.faults store.new }
    ensures halted { (bytes : List ℕ) → CallMarks route.now.draft route.now.target bytes result (S.halted store.old) (S.halted store.new) (S.past store.new) }
{
    match store.create(&route.draft) {
        Ok(made) => Ok(made),
        Err(cause) => Err(stopped(PublishCall::Create, cause)),
    }
}

/// Writes and seals the draft, and makes its name durable.
pub fn fill_draft<R: TableReading, M: Manners, S: Store<M>>(
    store: &mut S,
    route: &Route,
    bytes: &[u8],
) -> Result<(), StepErr>
    requires mannered { IsMannered (rules_of R.content route.now.table (M.allows (S.manners store.old))) }
    requires aim { Aim (number_in route.now.table) route.now }
    requires start { WhereTold (S.past store.old) (InState (Stage (number_in route.now.table) route.now Creating (HasDraft route.now.draft false []))) }
    ensures told { Since (S.past store.old) (S.past store.new) (FillLeaves (rules_of R.content route.now.table (M.allows (S.manners store.old))) route.now bytes.now result) }
    ensures call { IfErr result (λ e. IsFilling e.call) }
    ensures manners { S.manners store.new ≡ S.manners store.old }
    ensures cause { CallCounts result (S.faults store.old) (S.faults store.new) }
    ensures later { S.faults store.old ≤ S.faults store.new }
    ensures halted { CallMarks route.now.draft route.now.target bytes.now result (S.halted store.old) (S.halted store.new) (S.past store.new) }
{
    match store.append(&route.draft, bytes) {
        Ok(()) => {}
        Err(cause) => return Err(stopped(PublishCall::Append, cause)),
    }
    match store.seal(&route.draft) {
        Ok(()) => {}
        Err(cause) => return Err(stopped(PublishCall::Seal, cause)),
    }
    match store.sync_names() {
        Ok(()) => Ok(()),
        Err(cause) => Err(stopped(PublishCall::SyncDraft, cause)),
    }
}

/// Renames the draft to the target, and makes that durable; `Exists` where the target is taken.
pub fn move_draft<R: TableReading, M: Manners, S: Store<M>>(
    store: &mut S,
    route: &Route,
    bytes: &[u8],
) -> Result<Moved, StepErr>
    requires mannered { IsMannered (rules_of R.content route.now.table (M.allows (S.manners store.old))) }
    requires aim { Aim (number_in route.now.table) route.now }
    requires start { WhereTold (S.past store.old) (InState (Stage (number_in route.now.table) route.now AtRest (HasDraft route.now.draft true bytes.now))) }
    requires narrow { IsNarrow (R.content route.now.table) bytes.now }
    ensures told { Since (S.past store.old) (S.past store.new) (MoveLeaves (rules_of R.content route.now.table (M.allows (S.manners store.old))) route.now bytes.now result) }
    ensures call { IfErr result (λ e. IsMoving e.call) }
    ensures manners { S.manners store.new ≡ S.manners store.old }
    ensures cause { CallCounts result (S.faults store.old) (S.faults store.new) }
    ensures later { S.faults store.old ≤ S.faults store.new }
    ensures halted { CallMarks route.now.draft route.now.target bytes.now result (S.halted store.old) (S.halted store.new) (S.past store.new) }
{
    match store.rename_new(&route.draft, &route.target) {
        Ok(Moved::Done) => {}
        Ok(Moved::Exists) => return Ok(Moved::Exists),
        Err(cause) => return Err(stopped(PublishCall::Rename, cause)),
    }
    match store.sync_names() {
        Ok(()) => Ok(Moved::Done),
        Err(cause) => Err(stopped(PublishCall::SyncRename, cause)),
    }
}

/// Removes the draft of a publish that met a taken target, and makes that durable.
pub fn drop_draft<R: TableReading, M: Manners, S: Store<M>>(
    store: &mut S,
    route: &Route,
    bytes: &[u8],
) -> Result<(), StepErr>
    requires mannered { IsMannered (rules_of R.content route.now.table (M.allows (S.manners store.old))) }
    requires aim { Aim (number_in route.now.table) route.now }
    requires start { WhereTold (S.past store.old) (InState (Stage (number_in route.now.table) route.now AtRest (IsTaken route.now bytes.now))) }
    requires narrow { IsNarrow (R.content route.now.table) bytes.now }
    ensures told { Since (S.past store.old) (S.past store.new) (DropLeaves (rules_of R.content route.now.table (M.allows (S.manners store.old))) route.now bytes.now result) }
    ensures call { IfErr result (λ e. IsDropping e.call) }
    ensures taken { WhereTold (S.past store.new) (IsTargetTaken route.now) }
    ensures manners { S.manners store.new ≡ S.manners store.old }
    ensures cause { CallCounts result (S.faults store.old) (S.faults store.new) }
    ensures later { S.faults store.old ≤ S.faults store.new }
    ensures halted { CallMarks route.now.draft route.now.target bytes.now result (S.halted store.old) (S.halted store.new) (S.past store.new) }
{
    match store.remove(&route.draft) {
        Ok(_) => {}
        Err(cause) => return Err(stopped(PublishCall::Remove, cause)),
    }
    match store.sync_names() {
        Ok(()) => Ok(()),
        Err(cause) => Err(stopped(PublishCall::SyncRemoval, cause)),
    }
}
