//! Manifests and manifest lists as files (Apache Iceberg specification, "Manifests" and "Manifest Lists"): container files
//! whose objects are records, each of which stands for an entry or a row.
#![tactic(auto)]

mod container;
mod fault;
mod keys;
mod lists;
mod manifest;
mod manifests;
mod objects;
mod schemas;

pub use fault::{ManifestCause, ManifestErr};
pub use lists::{RowList, lists_are_spelled, read_list, spelled_lists_are_read};
pub use manifest::{EntryList, Manifest};
pub use manifests::{manifests_are_spelled, read_manifest, spelled_manifests_are_read};
