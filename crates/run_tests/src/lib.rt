//! Tests of what statements answer and of the whole command `run`, over the store in memory. They stand apart from the crates
//! that they test, so that the program links no store in memory and no crate is proved a second time for its tests.
//!
//! - `fixtures`: the table with three snapshots, and runs over it.
//! - `answers`: messages and reports, with texts worked out by hand from the published table.
//! - `rollback`: rollbacks, on a quiet store and on one whose calls fail.
//! - `refs`: the other procedures.
//! - `words`: lists of words, and the words that are refused.
//! - `refusals`: tables that are refused, and the messages.
//! - `sinks`: output that fails.
//! - `stops`: what a stop leaves.
//! - `directory`: two statements over a real directory.
#![tactic(auto)]

#[cfg(test)]
mod answers;
#[cfg(test)]
mod directory;
#[cfg(test)]
mod fixtures;
#[cfg(test)]
mod refs;
#[cfg(test)]
mod refusals;
#[cfg(test)]
mod rollback;
#[cfg(test)]
mod sinks;
#[cfg(test)]
mod stops;
#[cfg(test)]
mod words;
