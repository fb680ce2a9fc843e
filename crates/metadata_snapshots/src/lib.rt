//! Edits of the list of snapshots of table metadata (Iceberg table specification, format version 2), on the JSON tree and
//! in place: a snapshot that is added, and snapshots that are taken away with what tells of them. A field that an edit
//! doesn't name stays.
#![tactic(auto)]

mod added;
mod taken;

pub use added::{PairTexts, as_str, with_listed};
pub use taken::without_snapshots;
