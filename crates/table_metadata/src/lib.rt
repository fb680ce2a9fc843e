//! Table metadata of Apache Iceberg tables, format version 2: which bytes spell it, what it says, and the edits that
//! make the metadata of the next version. Metadata is kept as its JSON tree with a typed view beside it, so fields that
//! this crate doesn't know stay through each edit.
#![tactic(auto)]

mod cause;
mod conditions;
mod edits;
mod meta;

pub use cause::{EditErr, MetaErr};
pub use meta::{DEFAULT_VERSIONS, Meta, read_meta, write_meta};
pub use metadata_form::MetaCause;
pub use metadata_snapshots::PairTexts;
pub use metadata_view::{
    IdList, Property, PropertyList, Ref, RefList, Snapshot, SnapshotList, Statistics,
    StatisticsList,
};
