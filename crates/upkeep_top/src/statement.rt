//! One statement: it is run at a moment that the clock gives, and its report is put.
ghost use Rattle.std.specs.Prelude.{◌≡◌, ◌≤◌, ◌<◌, ◌^◌, [], List, ℕ, Ok, IfOk, IfErr, OnErr, OnOk};
ghost use Rattle.ice_store.specs.Others.{WhereTold};
ghost use Rattle.serde_json.specs.View.{view};
ghost use Rattle.commit_publish.specs.Stages.{InState};
ghost use Rattle.upkeep_top.specs.Points.{Between, tells, at};
ghost use Rattle.upkeep_top.specs.Statements.{Ends, IsEndOfWork, OutputCounts, Reports, IsListedBy};
ghost use Rattle.upkeep_top.specs.declared.task.Task.{Task as TheTask};

use crate::task::{Task, Work};
use commit_protocol::{Log, commit, open_table};
use ice_store::{Alone, Clock, Ids, Place, Sink, Store, Text};
use run_answers::{Status, status_of_error, status_of_open};
use run_refs::{Goal, RefMove, list_ancestors, report_ancestors};
use std::alloc::{AllocError, Global};
use table_metadata::{EditErr, Meta};

// puts a report, where there was memory for it
fn put_report<O: Sink>(out: &mut O, report: Result<Text, AllocError>) -> Status
    ensures reports { (text : List ℕ) → IfOk report (λ t. t ≡ text) → Reports (O.contents out.old) (O.contents out.new) text result }
    ensures status { IsEndOfWork result }
    ensures cause { OutputCounts result (O.faults out.old) (O.faults out.new) }
{
    let Ok(report) = report else {
        return Status::OutOfMemory;
    };
    match out.put(report.inner()) {
        Ok(()) => Status::Done,
        Err(_) => Status::OutFault,
    }
}

// moves a ref
fn run_move<S: Store<Alone>, C: Clock, I: Ids, O: Sink>(
    alloc: Global,
    task: &Task,
    goal: &Goal,
    store: &mut S,
    clock: &mut C,
    ids: &mut I,
    out: &mut O,
    log: &mut Log,
) -> Status
    requires work { task.now.work ≡ Work.Move goal.now }
    requires start { WhereTold (S.past store.old) (InState (λ d. d.pending ≡ [])) }
    ensures { Between (tells S.past S.faults S.halted C.given I.given O.contents O.faults) (at store.old clock.old ids.old out.old) (at store.new clock.new ids.new out.new) log.old log.new (Ends task.now result) }
{
    let now = clock.now_ms();
    let Ok(copied) = goal.copy() else {
        return Status::OutOfMemory;
    };
    let mut change = RefMove::new(copied, now);
    match commit::<Alone, S, I, RefMove>(alloc, store, ids, now, &task.table, &mut change, log) {
        Ok(_) => put_report(out, change.report(alloc)),
        Err(e) => status_of_error(task.word, e),
    }
}

// lists the ancestors on opened metadata
fn list_on<O: Sink>(alloc: Global, meta: &Meta, given: Option<i64>, out: &mut O) -> Status
    ensures listed { IsListedBy given (view meta.now) (O.contents out.old) (O.contents out.new) result }
    ensures cause { OutputCounts result (O.faults out.old) (O.faults out.new) }
{
    match list_ancestors(alloc, meta, given) {
        Ok(ancestors) => put_report(out, report_ancestors(alloc, ancestors.inner())),
        Err(EditErr::UnknownSnapshot { id }) => Status::UnknownSnapshot { id },
        Err(EditErr::Memory) => Status::OutOfMemory,
    }
}

// lists the ancestors of a snapshot
fn run_list<S: Store<Alone>, C: Clock, I: Ids, O: Sink>(
    alloc: Global,
    task: &Task,
    given: Option<i64>,
    store: &mut S,
    clock: &mut C,
    ids: &I,
    out: &mut O,
    log: &Log,
) -> Status
    requires work { task.now.work ≡ Work.List given }
    requires start { WhereTold (S.past store.old) (InState (λ d. d.pending ≡ [])) }
    ensures { Between (tells S.past S.faults S.halted C.given I.given O.contents O.faults) (at store.old clock.old ids.now out.old) (at store.new clock.new ids.now out.new) log.now log.now (Ends task.now result) }
{
    let _ = clock.now_ms();
    match open_table::<Alone, S>(alloc, store, &task.table) {
        Ok(at) => list_on(alloc, &at.meta, given, out),
        Err(e) => status_of_open(e),
    }
}

/// Runs a statement, and tells how that ended.
pub(crate) fn run_task<S: Store<Alone>, C: Clock, I: Ids, O: Sink>(
    alloc: Global,
    task: &Task,
    store: &mut S,
    clock: &mut C,
    ids: &mut I,
    out: &mut O,
    log: &mut Log,
) -> Status
    requires start { WhereTold (S.past store.old) (InState (λ d. d.pending ≡ [])) }
    ensures { Between (tells S.past S.faults S.halted C.given I.given O.contents O.faults) (at store.old clock.old ids.old out.old) (at store.new clock.new ids.new out.new) log.old log.new (Ends task.now result) }
{
    match &task.work {
        Work::Move(goal) => run_move::<S, C, I, O>(alloc, task, goal, store, clock, ids, out, log),
        Work::List(given) => run_list::<S, C, I, O>(
            alloc, task, *given, store, clock, ids, out, log,
        ),
    }
}
