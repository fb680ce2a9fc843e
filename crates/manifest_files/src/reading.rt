//! A data file out of a record of the file.

ghost use Rattle.std.specs.Prelude.{◌≡◌, ◌<◌, Some, IfOk, get_or, length};
ghost use Rattle.std.specs.Bool.{OnTrue};
ghost use Rattle.std.specs.List.{slice_get};
ghost use Rattle.manifest_columns.specs.declared.column.Kind.TheVariants as kinds;
ghost use Rattle.manifest_cells.specs.Cells.{Sets, held, int_bytes_cells, int_long_cells, listed_as, records_in};
ghost use Rattle.manifest_files.specs.Files.{CountsFit, FillsFile, ReadsFile, file_cell, file_ids, file_kinds};

use crate::content::set_file_content;
use crate::file::{Content, DataFile};
use crate::partition::{PartSlot, set_partition};
use avro_datum::Datum;
use avro_schema::Text;
use manifest_cells::{
    FieldErr, IntBytesList, IntLongList, held, set_count, set_int_bytes, set_int_longs, set_ints,
    set_longs, set_optional_bytes, set_optional_int, set_optional_text, set_text,
};
use manifest_columns::{Slot, data_file_columns};
use std::alloc::{AllocError, Global};

// A data file without anything in it.
fn empty_file(alloc: Global) -> DataFile
    ensures { CountsFit result }
{
    DataFile {
        content: Content::Rows,
        path: Text::new(String::new(alloc)),
        format: Text::new(String::new(alloc)),
        partition: Datum::Null,
        record_count: 0,
        file_size_in_bytes: 0,
        column_sizes: None,
        value_counts: None,
        null_value_counts: None,
        nan_value_counts: None,
        lower_bounds: None,
        upper_bounds: None,
        key_metadata: None,
        split_offsets: None,
        equality_ids: None,
        sort_order_id: None,
        referenced_data_file: None,
    }
}

fn set_int_longs_at(
    alloc: Global,
    slot: &Slot,
    items: &[Datum],
    to: &mut Option<IntLongList>,
) -> Result<bool, AllocError>
    ensures { IfOk result (λ fits. Sets (listed_as int_long_cells) (records_in slot.now.within (held items.now slot.now.place)) fits to.new) }
{
    let found = held(items, slot.place);
    let within = slot.within.as_slice();
    set_int_longs(alloc, found, within, to)
}

fn set_int_bytes_at(
    alloc: Global,
    slot: &Slot,
    items: &[Datum],
    to: &mut Option<IntBytesList>,
) -> Result<bool, AllocError>
    ensures { IfOk result (λ fits. Sets (listed_as int_bytes_cells) (records_in slot.now.within (held items.now slot.now.place)) fits to.new) }
{
    let found = held(items, slot.place);
    let within = slot.within.as_slice();
    set_int_bytes(alloc, found, within, to)
}

// Sets the field of a data file that is this one in the order of the ids.
#[tactic(auto, using(manifest_cells::proofs::InOrder::stays), unfolding(crate::specs::Files::file_cells))]
fn fill(
    alloc: Global,
    place: usize,
    slot: &Slot,
    parts: &[PartSlot],
    items: &[Datum],
    file: &mut DataFile,
) -> Result<bool, AllocError>
    requires place { place < 17 }
    requires counts { CountsFit file.now }
    ensures fills { IfOk result (λ fits. FillsFile place (file_cell parts.now items.now (get_or file_kinds place kinds.Bool) slot.now) file.old fits file.new) }
    ensures counts { IfOk result (λ fits. OnTrue fits (CountsFit file.new)) }
{
    let found = held(items, slot.place);
    match place {
        0 => set_text(found, &mut file.path),
        1 => set_text(found, &mut file.format),
        2 => set_partition(alloc, found, parts, &mut file.partition),
        3 => Ok(set_count(found, &mut file.record_count)),
        4 => Ok(set_count(found, &mut file.file_size_in_bytes)),
        5 => set_int_longs_at(alloc, slot, items, &mut file.column_sizes),
        6 => set_int_longs_at(alloc, slot, items, &mut file.value_counts),
        7 => set_int_longs_at(alloc, slot, items, &mut file.null_value_counts),
        8 => set_int_bytes_at(alloc, slot, items, &mut file.lower_bounds),
        9 => set_int_bytes_at(alloc, slot, items, &mut file.upper_bounds),
        10 => set_optional_bytes(found, &mut file.key_metadata),
        11 => set_longs(alloc, found, &mut file.split_offsets),
        12 => Ok(set_file_content(found, &mut file.content)),
        13 => set_ints(alloc, found, &mut file.equality_ids),
        14 => set_int_longs_at(alloc, slot, items, &mut file.nan_value_counts),
        15 => Ok(set_optional_int(found, &mut file.sort_order_id)),
        16 => set_optional_text(found, &mut file.referenced_data_file),
        _ => unreachable!(),
    }
}

fn id_at(place: usize) -> i32
    requires { place < 17 }
    ensures { slice_get file_ids place ≡ Some result }
{
    data_file_columns()[place].id
}

/// The data file that a record of the file stands for. The slots are those of the columns of a data file, in the order of
/// their ids, and those of the partition type's fields. `BadField` has the smallest id that holds no value of its field, as a
/// negative count or a content outside its numbers.
pub fn file_of(
    alloc: Global,
    slots: &[Slot],
    parts: &[PartSlot],
    items: &[Datum],
) -> Result<DataFile, FieldErr>
    requires { length slots.now ≡ 17 }
    // Exactly the data file whose fields the record holds, or the first column that holds none.
    ensures exact { ReadsFile slots.now parts.now items.now result }
    // So the data file may be written.
    ensures counts { IfOk result CountsFit }
{
    let mut file = empty_file(alloc);
    for place in 0..slots.len() {
        let fits = fill(alloc, place, &slots[place], parts, items, &mut file)?;
        if !fits {
            return Err(FieldErr::BadField(id_at(place)));
        }
    }
    Ok(file)
}
