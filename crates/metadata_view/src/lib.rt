//! What the fields of table metadata say (Iceberg table specification, format version 2): snapshots, refs, statistics files
//! and properties as typed values, walks from a snapshot to its parents by an index of the ids, and the first place where
//! what ties snapshots, refs and parents together is broken.
#![tactic(auto)]

mod index;
mod links;
mod steps;
mod typed;
mod types;
mod walks;

pub use index::{Index, Indexed, find, has, index_of};
pub use links::{double_id, links_fault};
pub use typed::{Typed, new_branch, typed_view};
pub use types::{
    IdList, Property, PropertyList, Ref, RefList, Snapshot, SnapshotList, Statistics,
    StatisticsList,
};
pub use walks::{on_walk, walk};
