//! Entries of manifests (Apache Iceberg specification, "Manifests"): read out of a record of the file by field id, and as the
//! record that is written.
#![tactic(auto)]

mod entry;
mod reading;
mod slots;
mod writing;

pub use entry::{Entry, EntrySlots, EntryStatus};
pub use reading::entry_of;
pub use slots::entry_slots;
pub use writing::{entries_are_read_back, entry_fields};
