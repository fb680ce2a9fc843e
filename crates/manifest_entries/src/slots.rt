//! Where the records of a file have the fields of an entry.

ghost use Rattle.std.specs.Prelude.{◌≡◌, IfOk};
ghost use Rattle.manifest_entries.specs.Entries.{entry_slots};

use crate::entry::EntrySlots;
use avro_schema::Field;
use manifest_columns::{data_file_columns, place_of, slots_of};
use manifest_files::PartSlotList;
use std::alloc::{AllocError, Global};

/// Where records with these fields have those of an entry, and their data file, which has `file_fields`, the columns of one.
/// `parts` are the slots of the partition type's fields in the data file's partition.
pub fn entry_slots(
    alloc: Global,
    fields: &[Field],
    file_fields: &[Field],
    parts: PartSlotList,
) -> Result<EntrySlots, AllocError>
    ensures { IfOk result (λ slots. slots ≡ entry_slots fields.now file_fields.now parts) }
{
    Ok(EntrySlots {
        status: place_of(fields, 0),
        snapshot_id: place_of(fields, 1),
        sequence_number: place_of(fields, 3),
        file_sequence_number: place_of(fields, 4),
        data_file: place_of(fields, 2),
        file: slots_of(alloc, file_fields, &data_file_columns())?,
        parts,
    })
}
