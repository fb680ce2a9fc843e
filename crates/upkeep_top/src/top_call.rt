//! The top call `run`: statements over a store, a clock, a source of identifiers and two sinks.
ghost use Rattle.std.specs.Prelude.{◌≡◌, ◌⊎◌, [], ℕ};
ghost use Rattle.ice_store.specs.Calls.{Rose};
ghost use Rattle.ice_store.specs.Others.{WhereTold};
ghost use Rattle.ice_store.specs.Places.{Parts};
ghost use Rattle.ice_store.specs.Since.{Since};
ghost use Rattle.commit_publish.specs.Kinds.{Counts};
ghost use Rattle.commit_publish.specs.Stages.{InState};
ghost use Rattle.run_answers.specs.Messages.{message_line};
ghost use Rattle.run_answers.specs.Puts.{TakesPrefix, TakesAll};
ghost use Rattle.run_answers.specs.declared.status.Status.{Status as TheStatus};
ghost use Rattle.upkeep_top.specs.Points.{Between, tells, at};
ghost use Rattle.upkeep_top.specs.Runs.{EndedIfAny, Told, TellsBadArgument, ComesWithCause, Complete, IsSafeRun, KeepsPrefix, KeepsFiles, EachSucceeds, TellsVersions, LeavesPlaces, TellsFaultAt, EndsUnknown, MarksRun, MayLeave};
ghost use Rattle.upkeep_top.specs.Statements.{OutputCounts};
ghost use Rattle.upkeep_top.specs.Verdicts.{status_kind};
ghost use Rattle.upkeep_top.specs.Words.{RefusesWords};

use crate::statement::run_task;
use crate::task::Task;
use crate::words::read_words;
use commit_protocol::Log;
use ice_store::{Alone, Clock, Ids, Items, Sink, Store, Text};
use run_answers::{Outcome, Status, put_message};
use std::alloc::Global;

// the statements in order, up to the first that isn't Done
fn run_tasks<S: Store<Alone>, C: Clock, I: Ids, O: Sink>(
    alloc: Global,
    tasks: &[Task],
    store: &mut S,
    clock: &mut C,
    ids: &mut I,
    out: &mut O,
    log: &mut Log,
) -> Status
    requires start { WhereTold (S.past store.old) (InState (λ d. d.pending ≡ [])) }
    ensures { Between (tells S.past S.faults S.halted C.given I.given O.contents O.faults) (at store.old clock.old ids.old out.old) (at store.new clock.new ids.new out.new) log.old log.new (EndedIfAny tasks.now result) }
{
    for task in tasks {
        let status = run_task::<S, C, I, O>(alloc, task, store, clock, ids, out, log);
        if !status.is_done() {
            return status;
        }
    }
    Status::Done
}

// reads the words and runs their statements
fn run_words<S: Store<Alone>, C: Clock, I: Ids, O: Sink>(
    alloc: Global,
    words: &[Text],
    store: &mut S,
    clock: &mut C,
    ids: &mut I,
    out: &mut O,
) -> Outcome
    requires start { WhereTold (S.past store.old) (InState (λ d. d.pending ≡ [])) }
    ensures told { Told (tells S.past S.faults S.halted C.given I.given O.contents O.faults) (at store.old clock.old ids.old out.old) (at store.new clock.new ids.new out.new) words.now result }
    ensures no_call { (status : TheStatus) → RefusesWords words.now status → store.new ≡ store.old }
{
    let mut log = Log {
        committed: Vec::new(alloc),
        left: Vec::new(alloc),
    };
    let status = match read_words(alloc, words) {
        Ok(tasks) => run_tasks::<S, C, I, O>(
            alloc,
            tasks.inner(),
            store,
            clock,
            ids,
            out,
            &mut log,
        ),
        Err(status) => status,
    };
    Outcome {
        status,
        committed: Items::new(log.committed),
        left: Items::new(log.left),
    }
}

/// Runs the statements that the words are, one a word, in order up to the first that isn't Done, and tells how that ended.
///
/// All words are read and typed before the first store call, and all name one table; refused words make no store call.
/// The clock is read once a statement. `out` gets the reports of the statements that are Done, and `err` one line where
/// the status isn't Done; what becomes of `err` changes nothing else.
pub fn run<R: AllocGlobal, S: Store<Alone>, C: Clock, I: Ids, O: Sink, X: Sink>(
    rt: &R,
    words: &[Text],
    store: &mut S,
    clock: &mut C,
    ids: &mut I,
    out: &mut O,
    err: &mut X,
) -> Outcome
    requires start { WhereTold (S.past store.old) (InState (λ d. d.pending ≡ [])) }
    ensures told { Told (tells S.past S.faults S.halted C.given I.given O.contents O.faults) (at store.old clock.old ids.old out.old) (at store.new clock.new ids.new out.new) words.now result }
    ensures refused { (status : TheStatus) → RefusesWords words.now status → (result.status ≡ status) ⊎ (result.status ≡ Status.OutOfMemory) }
    ensures no_call { (status : TheStatus) → RefusesWords words.now status → store.new ≡ store.old }
    ensures bad_statement { (word at : ℕ) → result.status ≡ Status.BadStatement word at → RefusesWords words.now result.status }
    ensures bad_argument { TellsBadArgument words.now result.status }
    ensures exactly { ComesWithCause (tells S.past S.faults S.halted C.given I.given O.contents O.faults) (at store.old clock.old ids.old out.old) (at store.new clock.new ids.new out.new) words.now result }
    ensures complete { Complete (tells S.past S.faults S.halted C.given I.given O.contents O.faults) (at store.old clock.old ids.old out.old) (at store.new clock.new ids.new out.new) words.now result }
    ensures faults { Counts (status_kind result.status) (S.faults store.old) (S.faults store.new) }
    ensures fault_place { (place : Parts) → result.status ≡ Status.StoreFault place → TellsFaultAt words.now place }
    ensures unknown { (version : ℕ) → result.status ≡ Status.CommitUnknown version → Since (S.past store.old) (S.past store.new) (EndsUnknown words.now version) }
    ensures out_faults { OutputCounts result.status (O.faults out.old) (O.faults out.new) }
    ensures safe { Since (S.past store.old) (S.past store.new) (IsSafeRun words.now) }
    ensures prefix { Since (S.past store.old) (S.past store.new) (KeepsPrefix words.now) }
    ensures files { Since (S.past store.old) (S.past store.new) (KeepsFiles words.now) }
    ensures successors { Since (S.past store.old) (S.past store.new) (EachSucceeds words.now result.committed) }
    ensures committed { Since (S.past store.old) (S.past store.new) (TellsVersions words.now (status_kind result.status) result.committed) }
    ensures left { Since (S.past store.old) (S.past store.new) (LeavesPlaces result.committed result.left (Rose (S.faults store.old) (S.faults store.new)) (S.halted store.new)) }
    ensures nothing_left { (MayLeave result.status → ⊥) → result.left ≡ [] }
    ensures rests { result.status ≡ Status.Done → WhereTold (S.past store.new) (InState (λ d. d.pending ≡ [])) }
    ensures halted { MarksRun words.now result.status (S.halted store.old) (S.halted store.new) (S.past store.new) }
    ensures message { TakesPrefix (X.contents err.old) (X.contents err.new) (message_line result.status) }
    ensures whole_message { (Rose (X.faults err.old) (X.faults err.new) → ⊥) → TakesAll (X.contents err.old) (X.contents err.new) (message_line result.status) }
{
    let outcome = run_words::<S, C, I, O>(rt.alloc(), words, store, clock, ids, out);
    let _ = put_message(err, &outcome.status);
    outcome
}
