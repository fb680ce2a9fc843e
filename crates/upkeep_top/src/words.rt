//! The words of a run: each is read and typed before the first store call, and all name one table.
ghost use Rattle.std.specs.Prelude.{◌≡◌, ◌⊎◌, ◌∷◌, [], ℕ, List, Ok, Err, IfOk, IfErr, OnOk};
ghost use Rattle.ice_store.specs.Places.{Parts};
ghost use Rattle.upkeep_top.specs.Commands.{task_of, target_goal};
ghost use Rattle.upkeep_top.specs.Runs.{IsWordRefusal};
ghost use Rattle.call_text.specs.Statement.{Spells as IsCall};
ghost use Rattle.upkeep_top.specs.Words.{AsksFor, IsBadWord, AskFrom, HasBadWord, Ask, OtherAt, AreOfOneTable, TablesRefuse};
ghost use Rattle.upkeep_top.specs.declared.task.Task.{Task as TheTask};

use crate::task::{Task, Work};
use call_syntax::{ArgErr, Call, Command, SyntaxErr, Target, read_statement, typed};
use ice_store::{Items, Place, Text};
use run_answers::Status;
use run_refs::Goal;
use std::alloc::Global;

// an error of a word's name, or want of memory
fn refused(alloc: Global, word: usize, name: &str) -> Status
    ensures { (result ≡ Status.BadArgument word name.now) ⊎ (result ≡ Status.OutOfMemory) }
{
    match Text::copy_of(alloc, name.as_bytes()) {
        Ok(name) => Status::BadArgument { word, name },
        Err(_) => Status::OutOfMemory,
    }
}

fn goal_of(target: Target) -> Goal
    ensures { result ≡ target_goal target }
{
    match target {
        Target::Id(id) => Goal::SetCurrent { id },
        Target::Ref(name) => Goal::SetCurrentTo { name },
    }
}

// the statement of a command, which is refused by its procedure's name where it isn't built
fn task_of(alloc: Global, word: usize, command: Command) -> Result<Task, Status>
    ensures ok { IfOk result (λ task. task_of word command ≡ Ok task) }
    ensures refused { IfErr result (λ status. ((name : List ℕ) × (task_of word command ≡ Err name) × (status ≡ Status.BadArgument word name)) ⊎ (status ≡ Status.OutOfMemory)) }
{
    match command {
        Command::Rollback { table, snapshot_id } => Ok(Task {
            word,
            table,
            work: Work::Move(Goal::Rollback { id: snapshot_id }),
        }),
        Command::SetCurrent { table, target } => Ok(Task {
            word,
            table,
            work: Work::Move(goal_of(target)),
        }),
        Command::FastForward { table, branch, to } => Ok(Task {
            word,
            table,
            work: Work::Move(Goal::FastForward { branch, to }),
        }),
        Command::Ancestors { table, snapshot_id } => Ok(Task {
            word,
            table,
            work: Work::List(snapshot_id),
        }),
        other => Err(refused(alloc, word, other.procedure_name())),
    }
}

fn read_call(alloc: Global, word: usize, text: &Text) -> Result<Call, Status>
    ensures ok { IfOk result (λ call. IsCall text.now call) }
    ensures refused { IfErr result (λ status. IsBadWord text.now word status ⊎ (status ≡ Status.OutOfMemory)) }
{
    match read_statement(alloc, text) {
        Ok(call) => Ok(call),
        Err(SyntaxErr::Bad { at }) => Err(Status::BadStatement { word, at }),
        Err(SyntaxErr::Memory) => Err(Status::OutOfMemory),
    }
}

// the statement that a word asks for
fn read_word(alloc: Global, word: usize, text: &Text) -> Result<Task, Status>
    ensures ok { IfOk result (AsksFor text.now word) }
    ensures refused { IfErr result (λ status. IsBadWord text.now word status ⊎ (status ≡ Status.OutOfMemory)) }
{
    let call = read_call(alloc, word, text)?;
    match typed(alloc, &call) {
        Ok(command) => task_of(alloc, word, command),
        Err(ArgErr::Bad { name }) => Err(Status::BadArgument { word, name }),
        Err(ArgErr::Memory) => Err(Status::OutOfMemory),
    }
}

// each word's statement, in order
fn read_each(alloc: Global, words: &[Text]) -> Result<Items<Task>, Status>
    ensures ok { IfOk result (AskFrom 0 words.now) }
    ensures refused { IfErr result (λ status. HasBadWord words.now status ⊎ (status ≡ Status.OutOfMemory)) }
{
    let mut tasks = Items::empty(alloc);
    for word in 0..words.len() {
        let task = match read_word(alloc, word, &words[word]) {
            Ok(task) => task,
            Err(status) => return Err(status),
        };
        match tasks.push(task) {
            Ok(()) => {}
            Err(_) => return Err(Status::OutOfMemory),
        }
    }
    Ok(tasks)
}

// where the first statement stands that names another table
fn other_table(table: &Place, tasks: &[Task]) -> Option<usize>
    ensures { OtherAt table.now tasks.now result }
{
    for at in 0..tasks.len() {
        if !tasks[at].table.is(table) {
            return Some(at);
        }
    }
    None
}

// there are statements, and all name the first one's table
fn check_tables(alloc: Global, tasks: &[Task]) -> Result<(), Status>
    ensures ok { OnOk result (AreOfOneTable tasks.now) }
    ensures refused { IfErr result (TablesRefuse tasks.now) }
{
    match tasks {
        [] => Err(Status::BadStatement { word: 0, at: 0 }),
        [first, ..] => match other_table(&first.table, tasks) {
            Some(word) => Err(refused(alloc, word, "table")),
            None => Ok(()),
        },
    }
}

/// The statements that the words ask for: some, all of one table.
pub(crate) fn read_words(alloc: Global, words: &[Text]) -> Result<Items<Task>, Status>
    ensures ok { IfOk result (λ tasks. (table : Parts) × Ask words.now table tasks) }
    ensures refused { IfErr result (IsWordRefusal words.now) }
{
    let tasks = match read_each(alloc, words) {
        Ok(tasks) => tasks,
        Err(status) => return Err(status),
    };
    match check_tables(alloc, tasks.inner()) {
        Ok(()) => Ok(tasks),
        Err(status) => Err(status),
    }
}
