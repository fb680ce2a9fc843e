//! An entry out of a record of the file.

ghost use Rattle.std.specs.Prelude.{◌≡◌, Some, IfOk, length};
ghost use Rattle.std.specs.Option.{option_copied, option_map};
ghost use Rattle.avro_datum.specs.declared.datum.Datum.TheVariants.{Int as of_int, Long as of_long};
ghost use Rattle.manifest_cells.specs.Cells.{Reads, held};
ghost use Rattle.manifest_cells.specs.FieldErrors.{OnBadField};
ghost use Rattle.manifest_files.specs.Files.{CountsFit, ReadsFile};
ghost use Rattle.manifest_entries.specs.Entries.{NoEntry, ReadsEntry, found_fields, status_number};

use crate::entry::{Entry, EntrySlots, EntryStatus};
use avro_datum::Datum;
use manifest_cells::{FieldErr, fields_in, held, optional_long_of};
use manifest_files::{DataFile, file_of};
use std::alloc::Global;

fn status_of(found: Option<&Datum>) -> Option<EntryStatus>
    ensures { Reads (λ x. Some (of_int (status_number x))) (option_copied found.entry) result }
{
    match found {
        Some(Datum::Int(0)) => Some(EntryStatus::Existing),
        Some(Datum::Int(1)) => Some(EntryStatus::Added),
        Some(Datum::Int(2)) => Some(EntryStatus::Deleted),
        _ => None,
    }
}

fn status_at(items: &[Datum], place: Option<usize>) -> Option<EntryStatus>
    ensures { Reads (λ x. Some (of_int (status_number x))) (held items.now place) result }
{
    let found = held(items, place);
    status_of(found)
}

fn number_at(items: &[Datum], place: Option<usize>) -> Option<Option<i64>>
    ensures { Reads (option_map of_long) (held items.now place) result }
{
    let found = held(items, place);
    optional_long_of(found)
}

fn found_fields(found: Option<&Datum>) -> &[Datum]
    ensures { result.now ≡ found_fields (option_copied found.entry) }
{
    match found {
        None => &[],
        Some(datum) => fields_in(datum),
    }
}

fn file_at(alloc: Global, slots: &EntrySlots, items: &[Datum]) -> Result<DataFile, FieldErr>
    requires { length slots.now.file ≡ 17 }
    ensures exact { ReadsFile slots.now.file slots.now.parts (found_fields (held items.now slots.now.data_file)) result }
    ensures counts { IfOk result CountsFit }
{
    let found = held(items, slots.data_file);
    let fields = found_fields(found);
    let file = slots.file.as_slice();
    let parts = slots.parts.as_slice();
    file_of(alloc, file, parts, fields)
}

#[tactic(auto, using(crate::proofs::Order::no_status, crate::proofs::Order::no_snapshot, crate::proofs::Order::no_number, crate::proofs::Order::no_file_number, crate::proofs::Order::all_fit))]
fn entry_in(alloc: Global, slots: &EntrySlots, items: &[Datum]) -> Result<Entry, FieldErr>
    requires { length slots.now.file ≡ 17 }
    ensures exact { ReadsEntry slots.now items.now result }
    ensures counts { IfOk result (λ entry. CountsFit entry.data_file) }
{
    let Some(status) = status_at(items, slots.status) else {
        return Err(FieldErr::BadField(0));
    };
    let Some(snapshot_id) = number_at(items, slots.snapshot_id) else {
        return Err(FieldErr::BadField(1));
    };
    let Some(sequence_number) = number_at(items, slots.sequence_number) else {
        return Err(FieldErr::BadField(3));
    };
    let Some(file_sequence_number) = number_at(items, slots.file_sequence_number) else {
        return Err(FieldErr::BadField(4));
    };
    let data_file = file_at(alloc, slots, items)?;
    Ok(Entry {
        status,
        snapshot_id,
        sequence_number,
        file_sequence_number,
        data_file,
        at: 0,
    })
}

/// The entry that a record of the file stands for, which begins at `at`. `BadField` has the smallest id that holds no value of
/// its field, as a status or content outside its numbers or a negative count.
#[tactic(auto, using(crate::proofs::Order::no_entry))]
pub fn entry_of(
    alloc: Global,
    slots: &EntrySlots,
    items: &[Datum],
    at: usize,
) -> Result<Entry, FieldErr>
    requires { length slots.now.file ≡ 17 }
    // Exactly the entry whose fields the record holds, or the first one that holds none.
    ensures exact { ReadsEntry slots.now items.now result }
    ensures at { IfOk result (λ entry. entry.at ≡ at) }
    // So the entry may be written.
    ensures counts { IfOk result (λ entry. CountsFit entry.data_file) }
    // A field is refused only where the record stands for no entry.
    ensures none { OnBadField result (NoEntry slots.now items.now) }
{
    let mut entry = entry_in(alloc, slots, items)?;
    entry.at = at;
    Ok(entry)
}
