//! Manifest lists and manifests written as files (Apache Iceberg specification, "Manifest Lists" and "Manifests").
#![tactic(auto)]

mod files;
mod lists;

pub use lists::{read_rows_are_writable, write_list};
pub use manifest_blocks::WriteErr;
