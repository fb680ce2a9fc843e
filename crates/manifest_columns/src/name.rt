//! The names in a written schema.

ghost use Rattle.std.specs.Prelude.{◌≡◌};

/// A name of a field or of a record in a written schema.
#[derive(Clone, Copy, Debug)]
pub enum Name {
    ManifestPath,
    ManifestLength,
    PartitionSpecId,
    AddedSnapshotId,
    AddedFilesCount,
    ExistingFilesCount,
    DeletedFilesCount,
    Partitions,
    AddedRowsCount,
    ExistingRowsCount,
    DeletedRowsCount,
    SequenceNumber,
    MinSequenceNumber,
    Content,
    KeyMetadata,
    ContainsNull,
    LowerBound,
    UpperBound,
    ContainsNan,
    Status,
    SnapshotId,
    DataFile,
    FileSequenceNumber,
    FilePath,
    FileFormat,
    Partition,
    RecordCount,
    FileSizeInBytes,
    ColumnSizes,
    ValueCounts,
    NullValueCounts,
    LowerBounds,
    UpperBounds,
    SplitOffsets,
    EqualityIds,
    NanValueCounts,
    SortOrderId,
    ReferencedDataFile,
    Key,
    Value,
}

impl Name {
    ghost use Rattle.manifest_columns.specs.Name.{name_of};

    /// The name as it is written.
    pub fn spelling(self) -> &'static str
        ensures { result.now ≡ name_of self }
    {
        match self {
            Name::ManifestPath => "manifest_path",
            Name::ManifestLength => "manifest_length",
            Name::PartitionSpecId => "partition_spec_id",
            Name::AddedSnapshotId => "added_snapshot_id",
            Name::AddedFilesCount => "added_files_count",
            Name::ExistingFilesCount => "existing_files_count",
            Name::DeletedFilesCount => "deleted_files_count",
            Name::Partitions => "partitions",
            Name::AddedRowsCount => "added_rows_count",
            Name::ExistingRowsCount => "existing_rows_count",
            Name::DeletedRowsCount => "deleted_rows_count",
            Name::SequenceNumber => "sequence_number",
            Name::MinSequenceNumber => "min_sequence_number",
            Name::Content => "content",
            Name::KeyMetadata => "key_metadata",
            Name::ContainsNull => "contains_null",
            Name::LowerBound => "lower_bound",
            Name::UpperBound => "upper_bound",
            Name::ContainsNan => "contains_nan",
            Name::Status => "status",
            Name::SnapshotId => "snapshot_id",
            Name::DataFile => "data_file",
            Name::FileSequenceNumber => "file_sequence_number",
            Name::FilePath => "file_path",
            Name::FileFormat => "file_format",
            Name::Partition => "partition",
            Name::RecordCount => "record_count",
            Name::FileSizeInBytes => "file_size_in_bytes",
            Name::ColumnSizes => "column_sizes",
            Name::ValueCounts => "value_counts",
            Name::NullValueCounts => "null_value_counts",
            Name::LowerBounds => "lower_bounds",
            Name::UpperBounds => "upper_bounds",
            Name::SplitOffsets => "split_offsets",
            Name::EqualityIds => "equality_ids",
            Name::NanValueCounts => "nan_value_counts",
            Name::SortOrderId => "sort_order_id",
            Name::ReferencedDataFile => "referenced_data_file",
            Name::Key => "key",
            Name::Value => "value",
        }
    }
}

/// A name of a record in a written schema, by what its values are.
#[derive(Clone, Copy, Debug)]
pub enum RecordName {
    ColumnSizes,
    ValueCounts,
    NullValueCounts,
    LowerBounds,
    UpperBounds,
    NanValueCounts,
    FieldSummary,
    DataFile,
    Partition,
    ManifestFile,
    ManifestEntry,
}

impl RecordName {
    ghost use Rattle.manifest_columns.specs.Name.{record_name_of};

    /// The name as it is written: an `r` and the id of the field that has the record, a `k` and a `v` with the ids of a key
    /// and a value, or that of a file's rows.
    pub fn spelling(self) -> &'static str
        ensures { result.now ≡ record_name_of self }
    {
        match self {
            RecordName::ColumnSizes => "k117_v118",
            RecordName::ValueCounts => "k119_v120",
            RecordName::NullValueCounts => "k121_v122",
            RecordName::LowerBounds => "k126_v127",
            RecordName::UpperBounds => "k129_v130",
            RecordName::NanValueCounts => "k138_v139",
            RecordName::FieldSummary => "r508",
            RecordName::DataFile => "r2",
            RecordName::Partition => "r102",
            RecordName::ManifestFile => "manifest_file",
            RecordName::ManifestEntry => "manifest_entry",
        }
    }
}
