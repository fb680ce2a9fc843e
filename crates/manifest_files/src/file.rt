//! Data files.

use avro_datum::Datum;
use avro_schema::{Bytes, Text};
use manifest_cells::{IdList, IntBytesList, IntList, IntLongList};

/// What a file holds.
#[derive(Clone, Copy, Debug, PartialEq, Eq)]
pub enum Content {
    /// Rows of the table.
    Rows,
    /// Deletes by path and position.
    Positions,
    /// Deletes by equal values.
    Equalities,
}

/// A data file or delete file, with what is told of it.
#[derive(Debug, Drop)]
pub struct DataFile {
    pub content: Content,
    pub path: Text,
    pub format: Text,
    /// A record of a value for each field of the partition type, in order, without unions: null, or of the field's type.
    pub partition: Datum,
    /// Below 2^63.
    pub record_count: u64,
    /// Below 2^63.
    pub file_size_in_bytes: u64,
    pub column_sizes: Option<IntLongList>,
    pub value_counts: Option<IntLongList>,
    pub null_value_counts: Option<IntLongList>,
    pub nan_value_counts: Option<IntLongList>,
    pub lower_bounds: Option<IntBytesList>,
    pub upper_bounds: Option<IntBytesList>,
    pub key_metadata: Option<Bytes>,
    pub split_offsets: Option<IdList>,
    pub equality_ids: Option<IntList>,
    pub sort_order_id: Option<i32>,
    pub referenced_data_file: Option<Text>,
}
