//! The outside of the program on a real machine: the directory, the clock, the random source and the output streams.
//!
//! No contract can say what a disk holds or a clock tells. What is proved here is what the interfaces of `ice_store` ask:
//! each failure of the system raises a count, and no other answer says more than the interface lets it.
//!
//! - `whole`: reading and writing over as many calls as a stream needs.
//! - `calls`: calls of the file system, and why one didn't do its work.
//! - `directories`: the directories that are to be made durable, and where symbolic links are refused.
//! - `open_files`: the files that are being written.
//! - `listing`: the regular files under a directory.
//! - `changes`: calls that create, rename and remove regular files.
//! - `store`: `DirStore`, a store over the real directory.
//! - `clock`, `identifiers`, `streams`: the machine's clock, identifiers from a random number, output streams as sinks.
#![tactic(auto)]

mod calls;
mod changes;
mod clock;
mod directories;
mod identifiers;
mod listing;
mod open_files;
mod store;
mod streams;
mod whole;

pub use clock::MachineClock;
pub use identifiers::RandomIds;
pub use store::DirStore;
pub use streams::StreamSink;
