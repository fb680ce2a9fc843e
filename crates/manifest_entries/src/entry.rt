//! Entries.

use manifest_columns::SlotList;
use manifest_files::{DataFile, PartSlotList};

/// What a snapshot did to a file.
#[derive(Clone, Copy, Debug, PartialEq, Eq)]
pub enum EntryStatus {
    Existing,
    Added,
    Deleted,
}

/// An entry of a manifest. A number that lacks is none: it is taken from the manifest's row later.
#[derive(Debug, Drop)]
pub struct Entry {
    pub status: EntryStatus,
    pub snapshot_id: Option<i64>,
    pub sequence_number: Option<i64>,
    pub file_sequence_number: Option<i64>,
    pub data_file: DataFile,
    /// Where the entry begins in its file. It isn't written.
    pub at: usize,
}

/// Where the records of a file have the fields of an entry, the records of its data file their columns, and those of its
/// partition the fields of the partition type: once for a file.
#[derive(Debug, Drop)]
pub struct EntrySlots {
    pub status: Option<usize>,
    pub snapshot_id: Option<usize>,
    pub sequence_number: Option<usize>,
    pub file_sequence_number: Option<usize>,
    pub data_file: Option<usize>,
    /// Those of the columns of a data file, in the order of their ids.
    pub file: SlotList,
    pub parts: PartSlotList,
}
