//! Data files and delete files of manifests (Apache Iceberg specification, "Manifests"): read out of a record of the file by
//! field id, and as the record that is written.
#![tactic(auto)]

mod content;
mod file;
mod partition;
mod reading;
mod writing;

pub use file::{Content, DataFile};
pub use partition::{PartSlot, PartSlotList};
pub use reading::file_of;
pub use writing::{file_fields, files_are_read_back};
