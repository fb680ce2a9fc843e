//! The keys of the objects in metadata.
ghost use Rattle.std.specs.Prelude.{◌≡◌};

/// A key of an object in metadata, named by the Iceberg table specification, Appendix C. They are in byte order.
#[derive(Clone, Copy)]
pub enum Key {
    BlobMetadata,
    CurrentSchemaId,
    CurrentSnapshotId,
    DefaultSortOrderId,
    DefaultSpecId,
    Fields,
    FileFooterSizeInBytes,
    FileSizeInBytes,
    FormatVersion,
    KeyMetadata,
    LastColumnId,
    LastPartitionId,
    LastSequenceNumber,
    LastUpdatedMs,
    Location,
    ManifestList,
    MaxRefAgeMs,
    MaxSnapshotAgeMs,
    MetadataFile,
    MetadataLog,
    MinSnapshotsToKeep,
    ParentSnapshotId,
    PartitionSpecs,
    PartitionStatistics,
    Properties,
    Refs,
    SchemaId,
    Schemas,
    SequenceNumber,
    SnapshotId,
    SnapshotLog,
    Snapshots,
    SortOrders,
    Statistics,
    StatisticsPath,
    Summary,
    TableUuid,
    TimestampMs,
    Kind,
}

impl Key {
    ghost use Rattle.metadata_form.specs.Key.{name_of};

    /// The key as it is written.
    pub fn name(self) -> &'static str
        ensures { result.now ≡ name_of self }
    {
        match self {
            Key::BlobMetadata => "blob-metadata",
            Key::CurrentSchemaId => "current-schema-id",
            Key::CurrentSnapshotId => "current-snapshot-id",
            Key::DefaultSortOrderId => "default-sort-order-id",
            Key::DefaultSpecId => "default-spec-id",
            Key::Fields => "fields",
            Key::FileFooterSizeInBytes => "file-footer-size-in-bytes",
            Key::FileSizeInBytes => "file-size-in-bytes",
            Key::FormatVersion => "format-version",
            Key::KeyMetadata => "key-metadata",
            Key::LastColumnId => "last-column-id",
            Key::LastPartitionId => "last-partition-id",
            Key::LastSequenceNumber => "last-sequence-number",
            Key::LastUpdatedMs => "last-updated-ms",
            Key::Location => "location",
            Key::ManifestList => "manifest-list",
            Key::MaxRefAgeMs => "max-ref-age-ms",
            Key::MaxSnapshotAgeMs => "max-snapshot-age-ms",
            Key::MetadataFile => "metadata-file",
            Key::MetadataLog => "metadata-log",
            Key::MinSnapshotsToKeep => "min-snapshots-to-keep",
            Key::ParentSnapshotId => "parent-snapshot-id",
            Key::PartitionSpecs => "partition-specs",
            Key::PartitionStatistics => "partition-statistics",
            Key::Properties => "properties",
            Key::Refs => "refs",
            Key::SchemaId => "schema-id",
            Key::Schemas => "schemas",
            Key::SequenceNumber => "sequence-number",
            Key::SnapshotId => "snapshot-id",
            Key::SnapshotLog => "snapshot-log",
            Key::Snapshots => "snapshots",
            Key::SortOrders => "sort-orders",
            Key::Statistics => "statistics",
            Key::StatisticsPath => "statistics-path",
            Key::Summary => "summary",
            Key::TableUuid => "table-uuid",
            Key::TimestampMs => "timestamp-ms",
            Key::Kind => "type",
        }
    }
}
