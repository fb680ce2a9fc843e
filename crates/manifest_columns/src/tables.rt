//! The tables of columns: each in the order of the ids, and in the order in which it is written.

ghost use Rattle.std.specs.Prelude.{◌≡◌};
ghost use Rattle.manifest_columns.specs.Tables.{row_columns, summary_columns, entry_columns, data_file_columns, written_row_columns, written_summary_columns, written_entry_columns, written_data_file_columns};

use crate::column::{Column, Kind};
use crate::name::{Name, RecordName};

const ROW_COLUMNS: [Column; 15] = [
    Column {
        id: 500,
        name: Name::ManifestPath,
        kind: Kind::Text,
        may_lack: false,
    },
    Column {
        id: 501,
        name: Name::ManifestLength,
        kind: Kind::Long,
        may_lack: false,
    },
    Column {
        id: 502,
        name: Name::PartitionSpecId,
        kind: Kind::Int,
        may_lack: false,
    },
    Column {
        id: 503,
        name: Name::AddedSnapshotId,
        kind: Kind::Long,
        may_lack: false,
    },
    Column {
        id: 504,
        name: Name::AddedFilesCount,
        kind: Kind::Int,
        may_lack: false,
    },
    Column {
        id: 505,
        name: Name::ExistingFilesCount,
        kind: Kind::Int,
        may_lack: false,
    },
    Column {
        id: 506,
        name: Name::DeletedFilesCount,
        kind: Kind::Int,
        may_lack: false,
    },
    Column {
        id: 507,
        name: Name::Partitions,
        kind: Kind::Summaries {
            element: 508,
            record: RecordName::FieldSummary,
        },
        may_lack: true,
    },
    Column {
        id: 512,
        name: Name::AddedRowsCount,
        kind: Kind::Long,
        may_lack: false,
    },
    Column {
        id: 513,
        name: Name::ExistingRowsCount,
        kind: Kind::Long,
        may_lack: false,
    },
    Column {
        id: 514,
        name: Name::DeletedRowsCount,
        kind: Kind::Long,
        may_lack: false,
    },
    Column {
        id: 515,
        name: Name::SequenceNumber,
        kind: Kind::Long,
        may_lack: false,
    },
    Column {
        id: 516,
        name: Name::MinSequenceNumber,
        kind: Kind::Long,
        may_lack: false,
    },
    Column {
        id: 517,
        name: Name::Content,
        kind: Kind::Int,
        may_lack: false,
    },
    Column {
        id: 519,
        name: Name::KeyMetadata,
        kind: Kind::Bytes,
        may_lack: true,
    },
];

/// The columns of a row of a manifest list (Apache Iceberg specification, "Manifest Lists"), in the order of their ids.
pub fn row_columns() -> [Column; 15]
    ensures { result ≡ row_columns }
{
    ROW_COLUMNS
}

/// The same in the order in which they are written.
pub fn written_row_columns() -> [Column; 15]
    ensures { result ≡ written_row_columns }
{
    let columns = ROW_COLUMNS;
    [
        columns[0],
        columns[1],
        columns[2],
        columns[13],
        columns[11],
        columns[12],
        columns[3],
        columns[4],
        columns[5],
        columns[6],
        columns[8],
        columns[9],
        columns[10],
        columns[7],
        columns[14],
    ]
}

const SUMMARY_COLUMNS: [Column; 4] = [
    Column {
        id: 509,
        name: Name::ContainsNull,
        kind: Kind::Bool,
        may_lack: false,
    },
    Column {
        id: 510,
        name: Name::LowerBound,
        kind: Kind::Bytes,
        may_lack: true,
    },
    Column {
        id: 511,
        name: Name::UpperBound,
        kind: Kind::Bytes,
        may_lack: true,
    },
    Column {
        id: 518,
        name: Name::ContainsNan,
        kind: Kind::Bool,
        may_lack: true,
    },
];

/// The columns of the summary of a partition field in such a row (Apache Iceberg specification, "Manifest Lists"), in the order of their ids.
pub fn summary_columns() -> [Column; 4]
    ensures { result ≡ summary_columns }
{
    SUMMARY_COLUMNS
}

/// The same in the order in which they are written.
pub fn written_summary_columns() -> [Column; 4]
    ensures { result ≡ written_summary_columns }
{
    let columns = SUMMARY_COLUMNS;
    [columns[0], columns[3], columns[1], columns[2]]
}

const ENTRY_COLUMNS: [Column; 5] = [
    Column {
        id: 0,
        name: Name::Status,
        kind: Kind::Int,
        may_lack: false,
    },
    Column {
        id: 1,
        name: Name::SnapshotId,
        kind: Kind::Long,
        may_lack: true,
    },
    Column {
        id: 2,
        name: Name::DataFile,
        kind: Kind::Record {
            record: RecordName::DataFile,
        },
        may_lack: false,
    },
    Column {
        id: 3,
        name: Name::SequenceNumber,
        kind: Kind::Long,
        may_lack: true,
    },
    Column {
        id: 4,
        name: Name::FileSequenceNumber,
        kind: Kind::Long,
        may_lack: true,
    },
];

/// The columns of an entry of a manifest (Apache Iceberg specification, "Manifests"), in the order of their ids.
pub fn entry_columns() -> [Column; 5]
    ensures { result ≡ entry_columns }
{
    ENTRY_COLUMNS
}

/// The same in the order in which they are written.
pub fn written_entry_columns() -> [Column; 5]
    ensures { result ≡ written_entry_columns }
{
    let columns = ENTRY_COLUMNS;
    [columns[0], columns[1], columns[3], columns[4], columns[2]]
}

const DATA_FILE_COLUMNS: [Column; 17] = [
    Column {
        id: 100,
        name: Name::FilePath,
        kind: Kind::Text,
        may_lack: false,
    },
    Column {
        id: 101,
        name: Name::FileFormat,
        kind: Kind::Text,
        may_lack: false,
    },
    Column {
        id: 102,
        name: Name::Partition,
        kind: Kind::Record {
            record: RecordName::Partition,
        },
        may_lack: false,
    },
    Column {
        id: 103,
        name: Name::RecordCount,
        kind: Kind::Long,
        may_lack: false,
    },
    Column {
        id: 104,
        name: Name::FileSizeInBytes,
        kind: Kind::Long,
        may_lack: false,
    },
    Column {
        id: 108,
        name: Name::ColumnSizes,
        kind: Kind::IntLongs {
            key: 117,
            value: 118,
            record: RecordName::ColumnSizes,
        },
        may_lack: true,
    },
    Column {
        id: 109,
        name: Name::ValueCounts,
        kind: Kind::IntLongs {
            key: 119,
            value: 120,
            record: RecordName::ValueCounts,
        },
        may_lack: true,
    },
    Column {
        id: 110,
        name: Name::NullValueCounts,
        kind: Kind::IntLongs {
            key: 121,
            value: 122,
            record: RecordName::NullValueCounts,
        },
        may_lack: true,
    },
    Column {
        id: 125,
        name: Name::LowerBounds,
        kind: Kind::IntBytes {
            key: 126,
            value: 127,
            record: RecordName::LowerBounds,
        },
        may_lack: true,
    },
    Column {
        id: 128,
        name: Name::UpperBounds,
        kind: Kind::IntBytes {
            key: 129,
            value: 130,
            record: RecordName::UpperBounds,
        },
        may_lack: true,
    },
    Column {
        id: 131,
        name: Name::KeyMetadata,
        kind: Kind::Bytes,
        may_lack: true,
    },
    Column {
        id: 132,
        name: Name::SplitOffsets,
        kind: Kind::Longs { element: 133 },
        may_lack: true,
    },
    Column {
        id: 134,
        name: Name::Content,
        kind: Kind::Int,
        may_lack: false,
    },
    Column {
        id: 135,
        name: Name::EqualityIds,
        kind: Kind::Ints { element: 136 },
        may_lack: true,
    },
    Column {
        id: 137,
        name: Name::NanValueCounts,
        kind: Kind::IntLongs {
            key: 138,
            value: 139,
            record: RecordName::NanValueCounts,
        },
        may_lack: true,
    },
    Column {
        id: 140,
        name: Name::SortOrderId,
        kind: Kind::Int,
        may_lack: true,
    },
    Column {
        id: 143,
        name: Name::ReferencedDataFile,
        kind: Kind::Text,
        may_lack: true,
    },
];

/// The columns of a data file in an entry (Apache Iceberg specification, "Manifests"), in the order of their ids.
pub fn data_file_columns() -> [Column; 17]
    ensures { result ≡ data_file_columns }
{
    DATA_FILE_COLUMNS
}

/// The same in the order in which they are written.
pub fn written_data_file_columns() -> [Column; 17]
    ensures { result ≡ written_data_file_columns }
{
    let columns = DATA_FILE_COLUMNS;
    [
        columns[12],
        columns[0],
        columns[1],
        columns[2],
        columns[3],
        columns[4],
        columns[5],
        columns[6],
        columns[7],
        columns[14],
        columns[8],
        columns[9],
        columns[10],
        columns[11],
        columns[13],
        columns[15],
        columns[16],
    ]
}
