//! The record of a data file.

ghost use Rattle.std.specs.Prelude.{◌≡◌, ◌<◌, Some, IfOk};
ghost use Rattle.std.specs.List.{slice_get};
ghost use Rattle.manifest_files.specs.Files.{CountsFit};
ghost use Rattle.manifest_files.specs.Written.{file_fields, FilesAreReadBack};

use crate::content::file_content;
use crate::file::DataFile;
use crate::partition::written_partition;
use avro_datum::{Datum, DatumList};
use manifest_cells::{
    count, optional_bytes, optional_int, optional_int_bytes, optional_int_longs, optional_ints,
    optional_longs, optional_text,
};
use sqlite_items::Items;
use std::alloc::{AllocError, Global};

// The field that is this one in the order in which they are written.
#[tactic(auto, unfolding(crate::specs::Written::file_fields))]
fn field_of(alloc: Global, place: usize, file: &DataFile) -> Result<Datum, AllocError>
    requires place { place < 17 }
    requires counts { CountsFit file.now }
    ensures { IfOk result (λ d. slice_get (file_fields file.now) place ≡ Some d) }
{
    Ok(match place {
        0 => file_content(file.content),
        1 => Datum::Str(file.path.copy()?),
        2 => Datum::Str(file.format.copy()?),
        3 => written_partition(alloc, &file.partition)?,
        4 => count(file.record_count),
        5 => count(file.file_size_in_bytes),
        6 => optional_int_longs(alloc, &file.column_sizes)?,
        7 => optional_int_longs(alloc, &file.value_counts)?,
        8 => optional_int_longs(alloc, &file.null_value_counts)?,
        9 => optional_int_longs(alloc, &file.nan_value_counts)?,
        10 => optional_int_bytes(alloc, &file.lower_bounds)?,
        11 => optional_int_bytes(alloc, &file.upper_bounds)?,
        12 => optional_bytes(alloc, &file.key_metadata)?,
        13 => optional_longs(alloc, &file.split_offsets)?,
        14 => optional_ints(alloc, &file.equality_ids)?,
        15 => optional_int(alloc, file.sort_order_id)?,
        16 => optional_text(alloc, &file.referenced_data_file)?,
        _ => unreachable!(),
    })
}

/// The fields of a data file's record, in the order in which they are written.
pub fn file_fields(alloc: Global, file: &DataFile) -> Result<DatumList, AllocError>
    requires { CountsFit file.now }
    ensures { IfOk result (λ ds. ds ≡ file_fields file.now) }
{
    let mut items = Items::new(alloc);
    for place in 0..17usize {
        items.push(field_of(alloc, place, file)?)?;
    }
    Ok(items)
}

/// The record of a data file that was read, under the written schema, stands for that data file.

pub fn files_are_read_back()
    ensures { FilesAreReadBack }
{}
