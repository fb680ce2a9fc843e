//! The top call `run`: statements over a store, a clock, a source of identifiers and two sinks.
//!
//! - `words`: each word is read and typed as a statement, before the first store call; what words ask for and how they
//!   are refused is defined in `specs/Words.antt`.
//! - `task`: the statements that are built.
//! - `statement`: one statement is run; what it does is defined in `specs/Statements.antt`, over the meanings of its work
//!   (`specs/Procedures.antt`) and the kind of its end, and the cause of each of its statuses in `specs/Verdicts.antt`.
//! - `top_call`: all statements in order. What a run promises is defined in `specs/Runs.antt` and `specs/Promises.antt`.
#![tactic(auto)]

mod statement;
mod task;
mod top_call;
mod words;

pub use run_answers::{Outcome, PlaceList, Status, Versions};
pub use task::{Task, Work};
pub use top_call::run;
