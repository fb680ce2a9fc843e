//! The record of a row.

ghost use Rattle.std.specs.Prelude.{◌≡◌, ◌<◌, ◌^◌, Some, IfOk};
ghost use Rattle.std.specs.List.{slice_get};
ghost use Rattle.manifest_columns.specs.declared.name.RecordName.TheVariants.{ManifestFile};
ghost use Rattle.manifest_columns.specs.Tables.{written_row_columns};
ghost use Rattle.manifest_columns.specs.Written.{written_record};
ghost use Rattle.manifest_rows.specs.Written.{row_fields, RowsAreReadBack};

use crate::row::ManifestRow;
use crate::summaries::summary_list;
use avro_datum::{Datum, DatumList};
use avro_schema::Schema;
use manifest_cells::{content, count, optional_bytes};
use manifest_columns::{RecordName, written_record, written_row_columns};
use sqlite_items::Items;
use std::alloc::{AllocError, Global};

// The field that is this one in the order in which they are written.
#[tactic(auto, unfolding(crate::specs::Written::row_fields))]
fn field_of(alloc: Global, place: usize, row: &ManifestRow) -> Result<Datum, AllocError>
    requires place { place < 15 }
    requires length { row.now.manifest_length < 2 ^ 63 }
    ensures { IfOk result (λ d. slice_get (row_fields row.now) place ≡ Some d) }
{
    Ok(match place {
        0 => Datum::Str(row.manifest_path.copy()?),
        1 => count(row.manifest_length),
        2 => Datum::Int(row.partition_spec_id),
        3 => content(row.is_deletes),
        4 => Datum::Long(row.sequence_number),
        5 => Datum::Long(row.min_sequence_number),
        6 => Datum::Long(row.added_snapshot_id),
        7 => Datum::Int(row.added_files_count),
        8 => Datum::Int(row.existing_files_count),
        9 => Datum::Int(row.deleted_files_count),
        10 => Datum::Long(row.added_rows_count),
        11 => Datum::Long(row.existing_rows_count),
        12 => Datum::Long(row.deleted_rows_count),
        13 => summary_list(alloc, &row.partitions)?,
        14 => optional_bytes(alloc, &row.key_metadata)?,
        _ => unreachable!(),
    })
}

/// The schema of a written row's record.
pub fn row_schema(alloc: Global) -> Result<Schema, AllocError>
    ensures { IfOk result (λ s. s ≡ written_record ManifestFile written_row_columns) }
{
    written_record(alloc, RecordName::ManifestFile, &written_row_columns())
}

/// The fields of a row's record, in the order in which they are written.
#[tactic(auto, using(crate::proofs::Order::field_count))]
pub fn row_fields(alloc: Global, row: &ManifestRow) -> Result<DatumList, AllocError>
    requires { row.now.manifest_length < 2 ^ 63 }
    ensures { IfOk result (λ ds. ds ≡ row_fields row.now) }
{
    let mut items = Items::new(alloc);
    for place in 0..15usize {
        items.push(field_of(alloc, place, row)?)?;
    }
    Ok(items)
}

/// A row's record, under the written schema, stands for that row.
#[tactic(auto, using(crate::proofs::Back::read_back))]
pub fn rows_are_read_back()
    ensures { RowsAreReadBack }
{}
