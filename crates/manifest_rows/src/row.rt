//! Rows.

use avro_schema::{Bytes, Text};
use sqlite_items::Items;

/// What the values of one partition field are in the files of a manifest.
#[derive(Debug, Drop)]
pub struct FieldSummary {
    pub contains_null: bool,
    /// None where it isn't told.
    pub contains_nan: Option<bool>,
    pub lower_bound: Option<Bytes>,
    pub upper_bound: Option<Bytes>,
}

/// Summaries, one for each field of the partition spec, in order.
pub type FieldSummaryList = Items<FieldSummary>;

/// A row of a manifest list: a manifest, and what is told of its files.
#[derive(Debug, Drop)]
pub struct ManifestRow {
    pub manifest_path: Text,
    /// Below 2^63.
    pub manifest_length: u64,
    pub partition_spec_id: i32,
    pub is_deletes: bool,
    pub sequence_number: i64,
    pub min_sequence_number: i64,
    pub added_snapshot_id: i64,
    pub added_files_count: i32,
    pub existing_files_count: i32,
    pub deleted_files_count: i32,
    pub added_rows_count: i64,
    pub existing_rows_count: i64,
    pub deleted_rows_count: i64,
    pub partitions: Option<FieldSummaryList>,
    pub key_metadata: Option<Bytes>,
    /// Where the row begins in its file. It isn't written.
    pub at: usize,
}
