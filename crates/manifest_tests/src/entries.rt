//! Entries.

use avro_datum::{Datum, decode};
use avro_schema::Schema;
use manifest_cells::{FieldErr, optional_long};
use manifest_columns::{
    RecordName, written_data_file_columns, written_entry_columns, written_fields, written_record,
};
use manifest_entries::{
    Entry, EntrySlots, EntryStatus, entries_are_read_back, entry_fields, entry_of, entry_slots,
};
use sqlite_items::Items;
use std::alloc::{AllocError, Global};
use std::test::Fail;

/// Rows at /a in avro, 3 records, 100 bytes, and nothing more; the same with -1 records.
const FILE: &[u8] = b"\x00\x04/a\x08avro\x06\xc8\x01\x00\x00\x00\x00\x00\x00\x00\x00\x00\x00\x00";

const BAD_FILE: &[u8] =
    b"\x00\x04/a\x08avro\x01\xc8\x01\x00\x00\x00\x00\x00\x00\x00\x00\x00\x00\x00";

fn file(alloc: Global, bytes: &[u8]) -> Result<Datum, FieldErr> {
    let schema: Schema = written_record(alloc, RecordName::DataFile, &written_data_file_columns())?;
    match decode(alloc, &schema, bytes, 0) {
        Ok((datum, _)) => Ok(datum),
        Err(_) => Err(FieldErr::Memory),
    }
}

/// The record of a written entry with these numbers.
fn record(
    alloc: Global,
    status: i32,
    number: Option<i64>,
    bytes: &[u8],
) -> Result<Datum, FieldErr> {
    let mut items = Items::new(alloc);
    items.push(Datum::Int(status))?;
    items.push(optional_long(alloc, number)?)?;
    items.push(optional_long(alloc, number)?)?;
    items.push(optional_long(alloc, number)?)?;
    items.push(file(alloc, bytes)?)?;
    Ok(Datum::Fields(items))
}

fn slots(alloc: Global) -> Result<EntrySlots, AllocError> {
    let fields = written_fields(alloc, &written_entry_columns())?;
    let file = written_fields(alloc, &written_data_file_columns())?;
    entry_slots(alloc, fields.as_slice(), file.as_slice(), Items::new(alloc))
}

/// The entry that the record stands for, as if it began at 9.
fn entry(alloc: Global, record: &Datum) -> Result<Entry, FieldErr> {
    let slots = slots(alloc)?;
    match record {
        Datum::Fields(items) if slots.file.len() == 17 => {
            entry_of(alloc, &slots, items.as_slice(), 9)
        }
        _ => Err(FieldErr::Memory),
    }
}

#[test]
fn entries_both_ways(rt: HostRuntime) -> Result<(), Fail> {
    let rows = [
        (0, EntryStatus::Existing, Some(3)),
        (1, EntryStatus::Added, None),
        (2, EntryStatus::Deleted, Some(2)),
    ];
    for (number, status, sequence) in rows {
        let record = record(rt.alloc(), number, sequence, FILE)?;
        let entry = entry(rt.alloc(), &record)?;
        assert_eq!(rt; (entry.status, entry.at), (status, 9));
        assert_eq!(rt; entry.snapshot_id, sequence);
        assert_eq!(rt; entry.sequence_number, sequence);
        assert_eq!(rt; entry.file_sequence_number, sequence);
        assert!(rt; entry.data_file.record_count == 3 && entry.data_file.file_size_in_bytes == 100);
        let written = Datum::Fields(entry_fields(rt.alloc(), &entry)?);
        let written = format!(in rt.alloc(); "{written:?}")?;
        let wanted = format!(in rt.alloc(); "{record:?}")?;
        assert_eq!(rt; written.as_str(), wanted.as_str());
    }
    entries_are_read_back();
    Ok(())
}

#[test]
fn entries_with_a_bad_field(rt: HostRuntime) -> Result<(), Fail> {
    for (status, bytes, id) in [(3, FILE, 0), (1, BAD_FILE, 103), (-1, BAD_FILE, 0)] {
        let record = record(rt.alloc(), status, None, bytes)?;
        let found = match entry(rt.alloc(), &record) {
            Err(FieldErr::BadField(id)) => Some(id),
            _ => None,
        };
        assert_eq!(rt; found, Some(id));
    }
    Ok(())
}
