//! The command `upkeep`: maintains Iceberg tables that live in plain directories.
//!
//! One word `--help` or `--version` is answered here. Every other list of words goes to `run`, over the directories
//! of the machine, its clock, identifiers from the random source and the two output streams.
#![tactic(auto)]

ghost use Rattle.std.specs.Prelude.{◌≡◌};
ghost use Rattle.upkeep.specs.Numbers.{unstarted_number};

use ice_store::{Alone, Sink, Text};
use std::env;
use std::io::{self, ErrorKind};
use std::process::ExitCode;
use store_directory::{DirStore, MachineClock, RandomIds, StreamSink};
use upkeep_top::run;

#[cfg(test)]
mod tests;

const HELP: &str =
    "usage: upkeep STATEMENT ..\n\nMaintains an Apache Iceberg table that lives in a plain directory. Each STATEMENT is one word of the command line. All\nname one table, and they run in order, up to the first that fails.\n\n  CALL CATALOG.system.PROCEDURE(ARGUMENT => VALUE, ..)\n  CALL CATALOG.system.PROCEDURE(VALUE, ..)\n\nCATALOG is any name. The procedures, with their arguments in the order of their places:\n\n  rollback_to_snapshot(table, snapshot_id)        main goes back to an ancestor of the current snapshot\n  set_current_snapshot(table, snapshot_id | ref)  main goes to a snapshot, or to the one of a branch or tag\n  fast_forward(table, branch, to)                 a branch goes forward to the snapshot of a branch or tag\n  ancestors_of(table, snapshot_id)                lists a snapshot, or the current one, and its ancestors\n\ntable is an absolute path in quotes, snapshot_id a number, and ref, branch and to are names in quotes. Example:\n\n  upkeep \"CALL c.system.rollback_to_snapshot(table => '/path/of/table', snapshot_id => 11)\"\n\nExit statuses; from 1 to 9 a line on standard error says more:\n\n   0  done\n   1  a statement was refused: its form, an argument, a snapshot or a ref\n   2  the table was refused: there is none, or it is damaged or not supported\n   3  another writer changed what was to be replaced\n   4  other writers published first\n   5  the file system failed, and the statement published nothing\n   6  the commit is unknown: the version may be there\n   7  standard output failed; what was published stays\n   8  memory lacked\n   9  the name of a new file was taken\n  10  a word isn't UTF-8\n  11  the random source failed\n\n  --help     print this\n  --version  print the version\n";

const VERSION: &str = "upkeep 0.1.0\n";

/// Why nothing was run.
#[derive(Debug, Clone, Copy, PartialEq, Eq)]
enum Unstarted {
    /// Output failed.
    Output,
    Memory,
    /// A word isn't UTF-8.
    NotText,
    /// The random source failed.
    Random,
}

impl Unstarted {
    // the exit status of the program
    fn number(self) -> u8
        ensures { result ≡ unstarted_number self }
    {
        match self {
            Unstarted::Output => 7,
            Unstarted::Memory => 8,
            Unstarted::NotText => 10,
            Unstarted::Random => 11,
        }
    }
}

fn main(rt: HostRuntime) -> ExitCode {
    match answer(rt) {
        Ok(status) => ExitCode::from(status),
        Err(unstarted) => ExitCode::from(unstarted.number()),
    }
}

fn answer(rt: HostRuntime) -> Result<u8, Unstarted> {
    let words = words_of(&rt)?;
    match words.as_slice() {
        [word] if word.inner().as_slice() == b"--help".as_slice() => print(rt, HELP),
        [word] if word.inner().as_slice() == b"--version".as_slice() => print(rt, VERSION),
        _ => maintain(rt, &words),
    }
}

// the words behind the program's name
fn words_of(rt: &HostRuntime) -> Result<Vec<Text>, Unstarted> {
    let args = env::args(rt).map_err(|e| match e.kind() {
        ErrorKind::OutOfMemory => Unstarted::Memory,
        _ => Unstarted::NotText,
    })?;
    let mut words = Vec::new(rt.alloc());
    for arg in args.skip(1) {
        if words.push(Text::new(arg.into_bytes())).is_err() {
            return Err(Unstarted::Memory);
        }
    }
    Ok(words)
}

fn print(rt: HostRuntime, text: &str) -> Result<u8, Unstarted> {
    match StreamSink::new(rt.stdout()).put(text.as_bytes()) {
        Ok(()) => Ok(0),
        Err(_) => Err(Unstarted::Output),
    }
}

fn maintain(rt: HostRuntime, words: &[Text]) -> Result<u8, Unstarted> {
    let mut store = DirStore::new(rt, Alone);
    let mut ids = RandomIds::draw(&rt).map_err(|_| Unstarted::Random)?;
    let mut clock = MachineClock::new(rt);
    let mut out = StreamSink::new(rt.stdout());
    let mut err = StreamSink::new(rt.stderr());
    let outcome = run(
        &rt, words, &mut store, &mut clock, &mut ids, &mut out, &mut err,
    );
    Ok(outcome.status.number())
}
