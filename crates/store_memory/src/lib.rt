//! The outside of the program in memory, for tests and for what is proved of the program.
//!
//! - `store`: a store in memory, which tells its history, lets a neighbour act and fails where it is told to. It stands
//!   on `history`, a history beside the files that it leaves, on `files` with their `index`, and on `image`, what a crash leaves.
//! - `sources`: a clock and a source of identifiers. `sink`: a sink.
#![tactic(auto)]

mod files;
mod history;
mod image;
mod index;
mod neighbour;
mod sink;
mod sources;
mod store;

pub use history::History;
pub use image::{BoolList, Choice, Torn, TornList};
pub use neighbour::{Neighbour, Quiet};
pub use sink::MemSink;
pub use sources::{CountIds, FixedClock, NumberList};
pub use store::{FailAt, FailList, MemStore};
