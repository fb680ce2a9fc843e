//! A store in memory.
ghost use Rattle.std.specs.Prelude.{◌≡◌, ◌≤◌, [], true, IfOk, OnOk, OnErr, IsErrOf, Some, None};
ghost use Rattle.ice_store.specs.History.{replay, image};
ghost use Rattle.ice_store.specs.Others.{Acted, Answers, IsOurs};
ghost use Rattle.ice_store.specs.Calls.{StepAnswer, HasCause, MarksFailure, Rose, failure_of, CreateAnswer, AppendAnswer, PlainAnswer, RenameAnswer, RemoveAnswer, SizeAnswer, NamesAnswer, ReadAnswer};
ghost use Rattle.ice_store.specs.declared.store.StoreErr.TheVariants.{Failed};
ghost use Rattle.store_memory.specs.Neighbours.{next_moment, Asked, UnlessMemory};
ghost use Rattle.store_memory.specs.Took.{Took};
ghost use Rattle.store_memory.specs.Torn.{torn_at};
ghost use Rattle.store_memory.specs.Failing.{fail_at, AsPlanned, takes_step, IsStepOrNone, IfFailed, FailedCreate, FailedRename, FailedRemove, FailedStep};
ghost use Rattle.store_memory.specs.Moments.{Timed};

use crate::{Choice, History, Neighbour, Quiet};
use ice_store::{
    Bytes, Event, Failure, FileList, Gone, Items, ListedList, Made, Manners, Moved, Past, Place,
    Step, Store, StoreCall, StoreErr, Who,
};
use std::alloc::{AllocError, Global};

/// The store call with this number, counted from 0, answers `Failed`, and its step takes place or not. A step whose answer
/// would have been `Exists` or `Absent` doesn't take place.
#[derive(Debug, Clone, Copy)]
pub struct FailAt {
    pub call: u64,
    pub took: bool,
}

/// Planned failures. Of several of one call the first counts.
pub type FailList = Items<FailAt>;

/// A store in memory, with a neighbour who acts before each call.
#[derive(Debug, Drop)]
pub struct MemStore<N> {
    pub alloc: Global,
    pub history: History,
    /// The moment that the next event takes, in milliseconds since 1970. After the greatest 64-bit number it is that again.
    pub next_ms: u64,
    pub neighbour: N,
    pub fails: FailList,
    /// How many calls there were, up to the greatest 64-bit number.
    pub calls: u64,
    /// How often a call answered `Failed`, up to the greatest 64-bit number.
    pub faults: u64,
    /// The call that last answered `Failed`, and how many events then stood.
    pub halted: Option<Failure>,
}

impl<N: Drop> MemStore<N> {
    /// A store that starts with these files, durable and sealed. Its first event takes the moment `start_ms`, and each later
    /// one the next.
    pub fn new(
        alloc: Global,
        files: FileList,
        start_ms: u64,
        neighbour: N,
        fails: FailList,
    ) -> Result<MemStore<N>, AllocError>
        ensures history { IfOk result (λ s. s.history ≡ record { base = files; events = [] }) }
        ensures neighbour { IfOk result (λ s. s.neighbour ≡ neighbour) }
        ensures next { IfOk result (λ s. s.next_ms ≡ start_ms) }
        ensures fails { IfOk result (λ s. s.fails ≡ fails) }
        ensures calls { IfOk result (λ s. s.calls ≡ 0) }
        ensures faults { IfOk result (λ s. s.faults ≡ 0) }
        ensures halted { IfOk result (λ s. s.halted ≡ None) }
    {
        Ok(MemStore {
            alloc,
            history: History::new(alloc, files)?,
            next_ms: start_ms,
            neighbour,
            fails,
            calls: 0,
            faults: 0,
            halted: None,
        })
    }
}

impl<N> MemStore<N> {
    /// What has happened so far. Takes no memory.
    pub fn past(&self) -> &Past
        ensures { result.now ≡ self.now.history }
    {
        self.history.past()
    }

    /// The store after a crash, which keeps what the choice says: it starts with the image's files, no call of it fails, and
    /// nobody else acts. Its next moment is that of `self`.
    pub fn image<M: Manners + Drop>(
        &self,
        choice: &Choice,
        manners: M,
    ) -> Result<MemStore<Quiet<M>>, AllocError>
        ensures history { IfOk result (λ s. s.history ≡ record { base = image (replay self.now.history) choice.now.done (torn_at choice.now.torn); events = [] }) }
        ensures manners { IfOk result (λ s. s.neighbour.manners ≡ manners) }
        ensures next { IfOk result (λ s. s.next_ms ≡ self.now.next_ms) }
        ensures fails { IfOk result (λ s. s.fails ≡ []) }
        ensures calls { IfOk result (λ s. s.calls ≡ 0) }
        ensures faults { IfOk result (λ s. s.faults ≡ 0) }
        ensures halted { IfOk result (λ s. s.halted ≡ None) }
    {
        let done = choice.done.inner();
        let files = self.history.image(self.alloc, done, choice.torn.inner())?;
        Ok(MemStore {
            alloc: self.alloc,
            history: History::new(self.alloc, Items::new(files))?,
            next_ms: self.next_ms,
            neighbour: Quiet { manners },
            fails: Items::empty(self.alloc),
            calls: 0,
            faults: 0,
            halted: None,
        })
    }
}

// The neighbour acts.
fn others_act<M: Manners, N: Neighbour<M>>(
    alloc: Global,
    history: &mut History,
    neighbour: &mut N,
    next_ms: &mut u64,
) -> Result<(), AllocError>
    ensures acted { Acted (M.allows (N.manners neighbour.old)) history.old history.new }
    ensures manners { N.manners neighbour.new ≡ N.manners neighbour.old }
    ensures moments { Timed history.old history.new next_ms.old next_ms.new }
    ensures asked { IfOk result (λ _. Asked (N.does neighbour.old history.old) next_ms.old history.old history.new) }
{
    let steps = neighbour.act(alloc, history, *next_ms)?;
    for step in steps.inner() {
        let ms = *next_ms;
        history.add(
            alloc,
            Event {
                who: Who::Them,
                step: step.copy()?,
                ms,
            },
        )?;
        *next_ms = ms.saturating_add(1);
    }
    Ok(())
}

fn fail_for(fails: &[FailAt], call: u64) -> Option<bool>
    ensures { result ≡ fail_at fails.now call }
{
    for fail in fails {
        if fail.call == call {
            return Some(fail.took);
        }
    }
    None
}

// A call is counted, others act, and then it fails or not.
fn begin<M: Manners, N: Neighbour<M>>(store: &mut MemStore<N>) -> Result<Option<bool>, AllocError>
    ensures acted { Acted (M.allows (N.manners store.old.neighbour)) store.old.history store.new.history }
    ensures manners { N.manners store.new.neighbour ≡ N.manners store.old.neighbour }
    ensures fail { IfOk result (λ fail. fail ≡ fail_at store.old.fails store.old.calls) }
    ensures fails { store.new.fails ≡ store.old.fails }
    ensures calls { store.new.calls ≡ next_moment store.old.calls }
    ensures moments { Timed store.old.history store.new.history store.old.next_ms store.new.next_ms }
    ensures asked { IfOk result (λ _. Asked (N.does store.old.neighbour store.old.history) store.old.next_ms store.old.history store.new.history) }
    ensures faults { store.new.faults ≡ store.old.faults }
    ensures halted { store.new.halted ≡ store.old.halted }
{
    let call = store.calls;
    store.calls = call.saturating_add(1);
    others_act::<M, N>(
        store.alloc,
        &mut store.history,
        &mut store.neighbour,
        &mut store.next_ms,
    )?;
    Ok(fail_for(store.fails.inner(), call))
}

// The same for a call that looks at a place and changes nothing.
fn begin_reading<M: Manners, N: Neighbour<M>>(
    store: &mut MemStore<N>,
    place: &Place,
) -> Result<(), StoreErr>
    ensures acted { Acted (M.allows (N.manners store.old.neighbour)) store.old.history store.new.history }
    ensures manners { N.manners store.new.neighbour ≡ N.manners store.old.neighbour }
    ensures cause { HasCause store.old.faults store.new.faults result }
    ensures halted { MarksFailure (StoreCall.Look place.now) store.old.halted store.new.halted (Some store.new.history) result }
    ensures planned { AsPlanned (fail_at store.old.fails store.old.calls) result }
    ensures fails { store.new.fails ≡ store.old.fails }
    ensures calls { store.new.calls ≡ next_moment store.old.calls }
    ensures moments { Timed store.old.history store.new.history store.old.next_ms store.new.next_ms }
    ensures asked { UnlessMemory result (Asked (N.does store.old.neighbour store.old.history) store.old.next_ms store.old.history store.new.history) }
{
    if begin::<M, N>(store)?.is_none() {
        return Ok(());
    }
    let call = StoreCall::Look(place.copy()?);
    Err(store.failed(call))
}

impl<N> MemStore<N> {
    // Counts the failure of a call, and marks it.
    fn failed(&mut self, call: StoreCall) -> StoreErr
        ensures error { result ≡ Failed }
        ensures history { self.new.history ≡ self.old.history }
        ensures next { self.new.next_ms ≡ self.old.next_ms }
        ensures neighbour { self.new.neighbour ≡ self.old.neighbour }
        ensures fails { self.new.fails ≡ self.old.fails }
        ensures calls { self.new.calls ≡ self.old.calls }
        ensures later { self.old.faults ≤ self.new.faults }
        ensures rose { Rose self.old.faults self.new.faults }
        ensures halted { self.new.halted ≡ Some (failure_of call self.new.history) }
    {
        self.faults = self.faults.saturating_add(1);
        self.halted = Some(Failure {
            events: self.history.past().events.len(),
            call,
        });
        StoreErr::Failed
    }

    // Adds an event of ours. Without memory the history stays as it was.
    fn add(&mut self, step: Step) -> Result<(), AllocError>
        ensures ok { OnOk result (Took self.old.history self.new.history (IsOurs step)) }
        ensures err { OnErr result (self.new.history ≡ self.old.history) }
        ensures moments { Timed self.old.history self.new.history self.old.next_ms self.new.next_ms }
        ensures neighbour { self.new.neighbour ≡ self.old.neighbour }
        ensures fails { self.new.fails ≡ self.old.fails }
        ensures calls { self.new.calls ≡ self.old.calls }
        ensures faults { self.new.faults ≡ self.old.faults }
        ensures halted { self.new.halted ≡ self.old.halted }
    {
        let ms = self.next_ms;
        self.history.add(
            self.alloc,
            Event {
                who: Who::Us,
                step,
                ms,
            },
        )?;
        self.next_ms = ms.saturating_add(1);
        Ok(())
    }

    // Takes a step of ours, unless it fails. What is marked of a step that takes place is a copy, made before anything else.
    fn take(&mut self, step: Step, fail: Option<bool>) -> Result<(), StoreErr>
        ensures took { Took self.old.history self.new.history (StepAnswer step result) }
        ensures neighbour { self.new.neighbour ≡ self.old.neighbour }
        ensures cause { HasCause self.old.faults self.new.faults result }
        ensures halted { MarksFailure (StoreCall.Take step) self.old.halted self.new.halted (Some self.new.history) result }
        ensures planned { AsPlanned fail result }
        ensures failed { IsErrOf result Failed → Took self.old.history self.new.history (IsStepOrNone (takes_step fail true) step) }
        ensures moments { Timed self.old.history self.new.history self.old.next_ms self.new.next_ms }
        ensures fails { self.new.fails ≡ self.old.fails }
        ensures calls { self.new.calls ≡ self.old.calls }
    {
        match fail {
            None => Ok(self.add(step)?),
            Some(false) => Err(self.failed(StoreCall::Take(step))),
            Some(true) => {
                let call = StoreCall::Take(step.copy()?);
                self.add(step)?;
                Err(self.failed(call))
            }
        }
    }
}

impl<M: Manners, N: Neighbour<M>> Store<M> for MemStore<N> {
    ghost past = { λ s. Some s.history };

    ghost manners = { λ s. N.manners s.neighbour };

    ghost faults = { λ s. s.faults };

    ghost halted = { λ s. s.halted };

    fn names(&mut self, dir: &Place) -> Result<ListedList, StoreErr>
        ensures told { Answers (M.allows (N.manners self.old.neighbour)) (Some self.old.history) (Some self.new.history) (NamesAnswer dir.now result) }
        ensures manners { N.manners self.new.neighbour ≡ N.manners self.old.neighbour }
        ensures cause { HasCause self.old.faults self.new.faults result }
        ensures halted { MarksFailure (StoreCall.Look dir.now) self.old.halted self.new.halted (Some self.new.history) result }
        ensures planned { AsPlanned (fail_at self.old.fails self.old.calls) result }
        ensures moments { Timed self.old.history self.new.history self.old.next_ms self.new.next_ms }
        ensures asked { UnlessMemory result (Asked (N.does self.old.neighbour self.old.history) self.old.next_ms self.old.history self.new.history) }
        ensures calls { self.new.calls ≡ next_moment self.old.calls }
        ensures fails { self.new.fails ≡ self.old.fails }
    {
        begin_reading::<M, N>(self, dir)?;
        Ok(Items::new(self.history.list(self.alloc, dir)?))
    }

    fn size(&mut self, place: &Place) -> Result<Option<u64>, StoreErr>
        ensures told { Answers (M.allows (N.manners self.old.neighbour)) (Some self.old.history) (Some self.new.history) (SizeAnswer place.now result) }
        ensures manners { N.manners self.new.neighbour ≡ N.manners self.old.neighbour }
        ensures cause { HasCause self.old.faults self.new.faults result }
        ensures halted { MarksFailure (StoreCall.Look place.now) self.old.halted self.new.halted (Some self.new.history) result }
        ensures planned { AsPlanned (fail_at self.old.fails self.old.calls) result }
        ensures moments { Timed self.old.history self.new.history self.old.next_ms self.new.next_ms }
        ensures asked { UnlessMemory result (Asked (N.does self.old.neighbour self.old.history) self.old.next_ms self.old.history self.new.history) }
        ensures calls { self.new.calls ≡ next_moment self.old.calls }
        ensures fails { self.new.fails ≡ self.old.fails }
    {
        begin_reading::<M, N>(self, place)?;
        match self.history.find(place) {
            Some(held) => Ok(Some(held.bytes.len() as u64)),
            None => Ok(None),
        }
    }

    fn read_at(&mut self, place: &Place, from: u64, len: usize) -> Result<Option<Bytes>, StoreErr>
        ensures told { Answers (M.allows (N.manners self.old.neighbour)) (Some self.old.history) (Some self.new.history) (ReadAnswer place.now from len result) }
        ensures manners { N.manners self.new.neighbour ≡ N.manners self.old.neighbour }
        ensures cause { HasCause self.old.faults self.new.faults result }
        ensures halted { MarksFailure (StoreCall.Look place.now) self.old.halted self.new.halted (Some self.new.history) result }
        ensures planned { AsPlanned (fail_at self.old.fails self.old.calls) result }
        ensures moments { Timed self.old.history self.new.history self.old.next_ms self.new.next_ms }
        ensures asked { UnlessMemory result (Asked (N.does self.old.neighbour self.old.history) self.old.next_ms self.old.history self.new.history) }
        ensures calls { self.new.calls ≡ next_moment self.old.calls }
        ensures fails { self.new.fails ≡ self.old.fails }
    {
        begin_reading::<M, N>(self, place)?;
        match self.history.find(place) {
            Some(held) => Ok(Some(held.bytes.part(self.alloc, from, len)?)),
            None => Ok(None),
        }
    }

    fn create(&mut self, place: &Place) -> Result<Made, StoreErr>
        ensures told { Answers (M.allows (N.manners self.old.neighbour)) (Some self.old.history) (Some self.new.history) (CreateAnswer place.now result) }
        ensures manners { N.manners self.new.neighbour ≡ N.manners self.old.neighbour }
        ensures cause { HasCause self.old.faults self.new.faults result }
        ensures halted { MarksFailure (StoreCall.Take (Step.Create place.now)) self.old.halted self.new.halted (Some self.new.history) result }
        ensures planned { AsPlanned (fail_at self.old.fails self.old.calls) result }
        ensures took_as_planned { IfFailed result (M.allows (N.manners self.old.neighbour)) self.old.history self.new.history (FailedCreate (fail_at self.old.fails self.old.calls) place.now) }
        ensures moments { Timed self.old.history self.new.history self.old.next_ms self.new.next_ms }
        ensures asked { UnlessMemory result (Asked (N.does self.old.neighbour self.old.history) self.old.next_ms self.old.history self.new.history) }
        ensures calls { self.new.calls ≡ next_moment self.old.calls }
        ensures fails { self.new.fails ≡ self.old.fails }
    {
        let fail = begin::<M, N>(self)?;
        if self.history.find(place).is_some() {
            if fail.is_some() {
                let call = StoreCall::Take(Step::Create(place.copy()?));
                return Err(self.failed(call));
            }
            return Ok(Made::Exists);
        }
        match self.take(Step::Create(place.copy()?), fail) {
            Ok(()) => Ok(Made::New),
            Err(error) => Err(error),
        }
    }

    fn append(&mut self, place: &Place, bytes: &[u8]) -> Result<(), StoreErr>
        ensures told { Answers (M.allows (N.manners self.old.neighbour)) (Some self.old.history) (Some self.new.history) (AppendAnswer place.now bytes.now result) }
        ensures manners { N.manners self.new.neighbour ≡ N.manners self.old.neighbour }
        ensures cause { HasCause self.old.faults self.new.faults result }
        ensures halted { MarksFailure (StoreCall.Take (Step.Append place.now bytes.now)) self.old.halted self.new.halted (Some self.new.history) result }
        ensures planned { AsPlanned (fail_at self.old.fails self.old.calls) result }
        ensures took_as_planned { IfFailed result (M.allows (N.manners self.old.neighbour)) self.old.history self.new.history (FailedStep (fail_at self.old.fails self.old.calls) (Step.Append place.now bytes.now)) }
        ensures moments { Timed self.old.history self.new.history self.old.next_ms self.new.next_ms }
        ensures asked { UnlessMemory result (Asked (N.does self.old.neighbour self.old.history) self.old.next_ms self.old.history self.new.history) }
        ensures calls { self.new.calls ≡ next_moment self.old.calls }
        ensures fails { self.new.fails ≡ self.old.fails }
    {
        let fail = begin::<M, N>(self)?;
        let bytes = Bytes::copy_of(self.alloc, bytes)?;
        self.take(Step::Append(place.copy()?, bytes), fail)
    }

    fn seal(&mut self, place: &Place) -> Result<(), StoreErr>
        ensures told { Answers (M.allows (N.manners self.old.neighbour)) (Some self.old.history) (Some self.new.history) (PlainAnswer (Step.Seal place.now) result) }
        ensures manners { N.manners self.new.neighbour ≡ N.manners self.old.neighbour }
        ensures cause { HasCause self.old.faults self.new.faults result }
        ensures halted { MarksFailure (StoreCall.Take (Step.Seal place.now)) self.old.halted self.new.halted (Some self.new.history) result }
        ensures planned { AsPlanned (fail_at self.old.fails self.old.calls) result }
        ensures took_as_planned { IfFailed result (M.allows (N.manners self.old.neighbour)) self.old.history self.new.history (FailedStep (fail_at self.old.fails self.old.calls) (Step.Seal place.now)) }
        ensures moments { Timed self.old.history self.new.history self.old.next_ms self.new.next_ms }
        ensures asked { UnlessMemory result (Asked (N.does self.old.neighbour self.old.history) self.old.next_ms self.old.history self.new.history) }
        ensures calls { self.new.calls ≡ next_moment self.old.calls }
        ensures fails { self.new.fails ≡ self.old.fails }
    {
        let fail = begin::<M, N>(self)?;
        self.take(Step::Seal(place.copy()?), fail)
    }

    fn rename_new(&mut self, from: &Place, to: &Place) -> Result<Moved, StoreErr>
        ensures told { Answers (M.allows (N.manners self.old.neighbour)) (Some self.old.history) (Some self.new.history) (RenameAnswer from.now to.now result) }
        ensures manners { N.manners self.new.neighbour ≡ N.manners self.old.neighbour }
        ensures cause { HasCause self.old.faults self.new.faults result }
        ensures halted { MarksFailure (StoreCall.Take (Step.Rename from.now to.now)) self.old.halted self.new.halted (Some self.new.history) result }
        ensures planned { AsPlanned (fail_at self.old.fails self.old.calls) result }
        ensures took_as_planned { IfFailed result (M.allows (N.manners self.old.neighbour)) self.old.history self.new.history (FailedRename (fail_at self.old.fails self.old.calls) from.now to.now) }
        ensures moments { Timed self.old.history self.new.history self.old.next_ms self.new.next_ms }
        ensures asked { UnlessMemory result (Asked (N.does self.old.neighbour self.old.history) self.old.next_ms self.old.history self.new.history) }
        ensures calls { self.new.calls ≡ next_moment self.old.calls }
        ensures fails { self.new.fails ≡ self.old.fails }
    {
        let fail = begin::<M, N>(self)?;
        if self.history.find(to).is_some() {
            if fail.is_some() {
                let call = StoreCall::Take(Step::Rename(from.copy()?, to.copy()?));
                return Err(self.failed(call));
            }
            return Ok(Moved::Exists);
        }
        match self.take(Step::Rename(from.copy()?, to.copy()?), fail) {
            Ok(()) => Ok(Moved::Done),
            Err(error) => Err(error),
        }
    }

    fn remove(&mut self, place: &Place) -> Result<Gone, StoreErr>
        ensures told { Answers (M.allows (N.manners self.old.neighbour)) (Some self.old.history) (Some self.new.history) (RemoveAnswer place.now result) }
        ensures manners { N.manners self.new.neighbour ≡ N.manners self.old.neighbour }
        ensures cause { HasCause self.old.faults self.new.faults result }
        ensures halted { MarksFailure (StoreCall.Take (Step.Remove place.now)) self.old.halted self.new.halted (Some self.new.history) result }
        ensures planned { AsPlanned (fail_at self.old.fails self.old.calls) result }
        ensures took_as_planned { IfFailed result (M.allows (N.manners self.old.neighbour)) self.old.history self.new.history (FailedRemove (fail_at self.old.fails self.old.calls) place.now) }
        ensures moments { Timed self.old.history self.new.history self.old.next_ms self.new.next_ms }
        ensures asked { UnlessMemory result (Asked (N.does self.old.neighbour self.old.history) self.old.next_ms self.old.history self.new.history) }
        ensures calls { self.new.calls ≡ next_moment self.old.calls }
        ensures fails { self.new.fails ≡ self.old.fails }
    {
        let fail = begin::<M, N>(self)?;
        if self.history.find(place).is_none() {
            if fail.is_some() {
                let call = StoreCall::Take(Step::Remove(place.copy()?));
                return Err(self.failed(call));
            }
            return Ok(Gone::Absent);
        }
        match self.take(Step::Remove(place.copy()?), fail) {
            Ok(()) => Ok(Gone::Done),
            Err(error) => Err(error),
        }
    }

    fn sync_names(&mut self) -> Result<(), StoreErr>
        ensures told { Answers (M.allows (N.manners self.old.neighbour)) (Some self.old.history) (Some self.new.history) (PlainAnswer Step.SyncNames result) }
        ensures manners { N.manners self.new.neighbour ≡ N.manners self.old.neighbour }
        ensures cause { HasCause self.old.faults self.new.faults result }
        ensures halted { MarksFailure (StoreCall.Take Step.SyncNames) self.old.halted self.new.halted (Some self.new.history) result }
        ensures planned { AsPlanned (fail_at self.old.fails self.old.calls) result }
        ensures took_as_planned { IfFailed result (M.allows (N.manners self.old.neighbour)) self.old.history self.new.history (FailedStep (fail_at self.old.fails self.old.calls) Step.SyncNames) }
        ensures moments { Timed self.old.history self.new.history self.old.next_ms self.new.next_ms }
        ensures asked { UnlessMemory result (Asked (N.does self.old.neighbour self.old.history) self.old.next_ms self.old.history self.new.history) }
        ensures calls { self.new.calls ≡ next_moment self.old.calls }
        ensures fails { self.new.fails ≡ self.old.fails }
    {
        let fail = begin::<M, N>(self)?;
        self.take(Step::SyncNames, fail)
    }
}
