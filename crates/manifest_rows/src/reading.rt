//! A row out of a record of the file.

ghost use Rattle.std.specs.Prelude.{◌≡◌, ◌<◌, ◌^◌, Some, IfOk, get_or, length};
ghost use Rattle.std.specs.Bool.{OnTrue};
ghost use Rattle.std.specs.List.{slice_get};
ghost use Rattle.manifest_columns.specs.declared.column.Kind.TheVariants as kinds;
ghost use Rattle.manifest_cells.specs.Cells.{cell};
ghost use Rattle.manifest_cells.specs.FieldErrors.{OnBadField};
ghost use Rattle.manifest_rows.specs.Rows.{Fills, NoRow, Reads, row_ids, row_kinds, row_slots};

use crate::row::ManifestRow;
use crate::summaries::set_summaries;
use avro_datum::Datum;
use avro_schema::{Field, Text};
use manifest_cells::{
    FieldErr, held, set_content, set_count, set_int, set_long, set_optional_bytes, set_text,
};
use manifest_columns::{Slot, SlotList, row_columns, slots_of};
use std::alloc::{AllocError, Global};

// A row without anything in it.
fn empty_row(alloc: Global) -> ManifestRow
    ensures { result.manifest_length ≡ 0 }
{
    ManifestRow {
        manifest_path: Text::new(String::new(alloc)),
        manifest_length: 0,
        partition_spec_id: 0,
        is_deletes: false,
        sequence_number: 0,
        min_sequence_number: 0,
        added_snapshot_id: 0,
        added_files_count: 0,
        existing_files_count: 0,
        deleted_files_count: 0,
        added_rows_count: 0,
        existing_rows_count: 0,
        deleted_rows_count: 0,
        partitions: None,
        key_metadata: None,
        at: 0,
    }
}

// Sets the field of a row that is this one in the order of the ids.
#[tactic(auto, using(manifest_cells::proofs::InOrder::stays), unfolding(crate::specs::Rows::cells))]
fn fill(
    alloc: Global,
    place: usize,
    slot: &Slot,
    items: &[Datum],
    row: &mut ManifestRow,
) -> Result<bool, AllocError>
    requires place { place < 15 }
    requires length { row.now.manifest_length < 2 ^ 63 }
    ensures fills { IfOk result (λ fits. Fills place (cell (get_or row_kinds place kinds.Bool) slot.now items.now) row.old fits row.new) }
    ensures length { IfOk result (λ fits. OnTrue fits (row.new.manifest_length < 2 ^ 63)) }
{
    let found = held(items, slot.place);
    match place {
        0 => set_text(found, &mut row.manifest_path),
        1 => Ok(set_count(found, &mut row.manifest_length)),
        2 => Ok(set_int(found, &mut row.partition_spec_id)),
        3 => Ok(set_long(found, &mut row.added_snapshot_id)),
        4 => Ok(set_int(found, &mut row.added_files_count)),
        5 => Ok(set_int(found, &mut row.existing_files_count)),
        6 => Ok(set_int(found, &mut row.deleted_files_count)),
        7 => set_summaries(alloc, found, &slot.within, &mut row.partitions),
        8 => Ok(set_long(found, &mut row.added_rows_count)),
        9 => Ok(set_long(found, &mut row.existing_rows_count)),
        10 => Ok(set_long(found, &mut row.deleted_rows_count)),
        11 => Ok(set_long(found, &mut row.sequence_number)),
        12 => Ok(set_long(found, &mut row.min_sequence_number)),
        13 => Ok(set_content(found, &mut row.is_deletes)),
        14 => set_optional_bytes(found, &mut row.key_metadata),
        _ => unreachable!(),
    }
}

fn id_at(place: usize) -> i32
    requires { place < 15 }
    ensures { slice_get row_ids place ≡ Some result }
{
    row_columns()[place].id
}

fn filled(alloc: Global, slots: &[Slot], items: &[Datum]) -> Result<ManifestRow, FieldErr>
    requires { length slots.now ≡ 15 }
    ensures exact { Reads slots.now items.now result }
    ensures length { IfOk result (λ row. row.manifest_length < 2 ^ 63) }
{
    let mut row = empty_row(alloc);
    for place in 0..slots.len() {
        let fits = fill(alloc, place, &slots[place], items, &mut row)?;
        if !fits {
            return Err(FieldErr::BadField(id_at(place)));
        }
    }
    Ok(row)
}

/// Where records with these fields have the columns of a row: once for a file.
#[tactic(auto, using(crate::proofs::Order::slots_width))]
pub fn row_slots(alloc: Global, fields: &[Field]) -> Result<SlotList, AllocError>
    ensures slots { IfOk result (λ slots. slots ≡ row_slots fields.now) }
    ensures width { IfOk result (λ slots. length slots ≡ 15) }
{
    slots_of(alloc, fields, &row_columns())
}

/// The row that a record of the file stands for, which begins at `at`. The slots are those of the columns of a row, in the
/// order of their ids. `BadField` has the smallest id that holds no value of the row's field, as a content other than 0 and 1
/// or a negative length.
#[tactic(auto, using(crate::proofs::Order::no_row), unfolding(crate::specs::Rows::cells))]
pub fn row_of(
    alloc: Global,
    slots: &[Slot],
    items: &[Datum],
    at: usize,
) -> Result<ManifestRow, FieldErr>
    requires { length slots.now ≡ 15 }
    // Exactly the row whose fields the record holds, or the first column that holds none.
    ensures exact { Reads slots.now items.now result }
    ensures at { IfOk result (λ row. row.at ≡ at) }
    // So the row may be written.
    ensures length { IfOk result (λ row. row.manifest_length < 2 ^ 63) }
    // A column is refused only where the record stands for no row.
    ensures none { OnBadField result (NoRow slots.now items.now) }
{
    let mut row = filled(alloc, slots, items)?;
    row.at = at;
    Ok(row)
}
