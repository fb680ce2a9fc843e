//! The typed parts of metadata.
use ice_store::{Items, Text};

/// A snapshot of a table (Iceberg table specification, Snapshots).
#[derive(Debug, Drop, Clone)]
pub struct Snapshot {
    /// `snapshot-id`; never -1, which stands for no snapshot.
    pub id: i64,
    /// `parent-snapshot-id`; the parent need not be in the table.
    pub parent: Option<i64>,
    /// `sequence-number`.
    pub sequence: i64,
    /// `timestamp-ms`: milliseconds since 1970-01-01 UTC, at most 2^63 - 1.
    pub ms: u64,
    /// `manifest-list`: the text that names the file.
    pub list: Text,
    /// `operation` of the `summary`.
    pub operation: Text,
    /// `schema-id`; it fits an `i32`.
    pub schema_id: Option<i64>,
}

/// A ref of a table (Iceberg table specification, Snapshot References).
#[derive(Debug, Drop, Clone)]
pub struct Ref {
    pub name: Text,
    /// `snapshot-id`.
    pub id: i64,
    /// Whether it is a branch; else it is a tag.
    pub is_branch: bool,
    /// `max-ref-age-ms`.
    pub max_ref_age_ms: Option<u64>,
    /// `min-snapshots-to-keep`.
    pub min_keep: Option<u64>,
    /// `max-snapshot-age-ms`.
    pub max_snapshot_age_ms: Option<u64>,
}

/// A statistics file or a partition statistics file (Iceberg table specification, Table Statistics and Partition
/// Statistics).
#[derive(Debug, Drop, Clone)]
pub struct Statistics {
    pub snapshot_id: i64,
    /// `statistics-path`: the text that names the file.
    pub path: Text,
}

/// A property of a table.
#[derive(Debug, Drop, Clone)]
pub struct Property {
    pub name: Text,
    pub value: Text,
}

pub type SnapshotList = Items<Snapshot>;

pub type RefList = Items<Ref>;

pub type StatisticsList = Items<Statistics>;

pub type PropertyList = Items<Property>;

pub type IdList = Items<i64>;
