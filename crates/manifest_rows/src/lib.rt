//! Rows of a manifest list (Apache Iceberg specification, "Manifest Lists"): read out of a record of the file by field id,
//! and as the record that is written.
#![tactic(auto)]

mod reading;
mod row;
mod summaries;
mod writing;

pub use reading::{row_of, row_slots};
pub use row::{FieldSummary, FieldSummaryList, ManifestRow};
pub use writing::{row_fields, row_schema, rows_are_read_back};
