//! What a file's schema has of a partition (Apache Iceberg specification, "Manifests" and "Partition Transforms"): what is
//! wrong with it, where it has the fields of the partition type, and the fields that are written.
#![tactic(auto)]

mod faults;
mod slots;
mod written;

pub use faults::part_fault;
pub use slots::part_slots;
pub use written::{written_part_fields, written_parts_are_in_order, written_parts_have_no_fault};
