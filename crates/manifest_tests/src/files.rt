//! Data files.

use avro_datum::{Datum, DatumList, decode};
use avro_schema::Schema;
use manifest_cells::{FieldErr, null, some};
use manifest_columns::{
    RecordName, SlotList, data_file_columns, slots_of, written_data_file_columns, written_fields,
    written_record,
};
use manifest_files::{DataFile, PartSlot, file_fields, file_of, files_are_read_back};
use sqlite_items::Items;
use std::alloc::{AllocError, Global};
use std::process::Abort;
use std::test::Fail;

/// Equality deletes at /d in avro, 3 records, 100 bytes, with sizes, counts and bounds of column 1, key metadata k, a split
/// at 4, the id 1, the sort order 0 and the data file /d.
const FULL: &[u8] =
    b"\x04\x04/d\x08avro\x06\xc8\x01\x02\x02\x02\x50\x00\x02\x02\x02\x06\x00\x02\x02\x02\x02\x00\x02\x02\x02\x00\x00\x02\x02\x02\x02a\x00\x02\x02\x02\x02z\x00\x02\x02k\x02\x02\x08\x00\x02\x02\x02\x00\x02\x00\x02\x04/d";

/// Rows at /a in avro, 3 records, 100 bytes, and nothing more.
const BARE: &[u8] = b"\x00\x04/a\x08avro\x06\xc8\x01\x00\x00\x00\x00\x00\x00\x00\x00\x00\x00\x00";

/// A content of 3, -1 records, -1 bytes, and all of these.
const BAD: [(&[u8], i32); 4] = [
    (
        b"\x06\x00\x00\x00\x00\x00\x00\x00\x00\x00\x00\x00\x00\x00\x00\x00",
        134,
    ),
    (
        b"\x00\x00\x00\x01\x00\x00\x00\x00\x00\x00\x00\x00\x00\x00\x00\x00",
        103,
    ),
    (
        b"\x00\x00\x00\x00\x01\x00\x00\x00\x00\x00\x00\x00\x00\x00\x00\x00",
        104,
    ),
    (
        b"\x06\x00\x00\x01\x01\x00\x00\x00\x00\x00\x00\x00\x00\x00\x00\x00",
        103,
    ),
];

fn schema(alloc: Global) -> Result<Schema, AllocError> {
    written_record(alloc, RecordName::DataFile, &written_data_file_columns())
}

fn slots(alloc: Global) -> Result<SlotList, AllocError> {
    let fields = written_fields(alloc, &written_data_file_columns())?;
    slots_of(alloc, fields.as_slice(), &data_file_columns())
}

/// The fields that the bytes of a written data file spell.
fn items(alloc: Global, bytes: &[u8]) -> Result<DatumList, FieldErr> {
    match decode(alloc, &schema(alloc)?, bytes, 0) {
        Ok((Datum::Fields(items), _)) => Ok(items),
        _ => Err(FieldErr::BadField(-2)),
    }
}

/// The data file of these fields, with these of the partition type.
fn file(alloc: Global, parts: &[PartSlot], items: &[Datum]) -> Result<DataFile, FieldErr> {
    let slots = slots(alloc)?;
    if slots.len() != 17 {
        return Err(FieldErr::BadField(-1));
    }
    file_of(alloc, slots.as_slice(), parts, items)
}

fn is_written_again(rt: &impl Abort, alloc: Global, bytes: &[u8]) -> Result<(), Fail> {
    let items = items(alloc, bytes)?;
    let file = file(alloc, &[], items.as_slice())?;
    assert!(rt; file.record_count == 3 && file.file_size_in_bytes == 100);
    let written = Datum::Fields(file_fields(alloc, &file)?);
    let spelled = Datum::Fields(items);
    assert_eq!(rt;
        format!(in alloc; "{written:?}")?.as_str(),
        format!(in alloc; "{spelled:?}")?.as_str()
    );
    Ok(())
}

#[test]
fn files_both_ways(rt: HostRuntime) -> Result<(), Fail> {
    is_written_again(&rt, rt.alloc(), FULL)?;
    is_written_again(&rt, rt.alloc(), BARE)?;
    files_are_read_back();
    Ok(())
}

/// The id of the field that makes the bytes no data file.
fn bad(alloc: Global, bytes: &[u8]) -> Result<Option<i32>, Fail> {
    let items = items(alloc, bytes)?;
    match file(alloc, &[], items.as_slice()) {
        Err(FieldErr::BadField(id)) => Ok(Some(id)),
        _ => Ok(None),
    }
}

#[test]
fn files_with_a_bad_field(rt: HostRuntime) -> Result<(), Fail> {
    for (bytes, id) in BAD {
        assert_eq!(rt; bad(rt.alloc(), bytes)?, Some(id));
    }
    Ok(())
}

/// 5, 7 in a union, and null in one.
fn partition(alloc: Global) -> Result<DatumList, AllocError> {
    let mut fields = Items::new(alloc);
    fields.push(Datum::Int(5))?;
    fields.push(some(alloc, Datum::Int(7))?)?;
    fields.push(null(alloc)?)?;
    Ok(fields)
}

fn part(place: Option<usize>, is_void: bool, is_long: bool) -> PartSlot {
    PartSlot {
        place,
        is_void,
        is_long,
    }
}

/// What is read of that partition for one field.
fn projected(alloc: Global, slot: PartSlot) -> Result<Datum, FieldErr> {
    let mut items = items(alloc, BARE)?;
    if items.len() != 17 {
        return Err(FieldErr::BadField(-3));
    }
    items.set(3, Datum::Fields(partition(alloc)?));
    Ok(file(alloc, &[slot], items.as_slice())?.partition)
}

/// The kind of a field, and its number.
fn told(field: &Datum) -> (&'static str, i64) {
    match field {
        Datum::Long(n) => ("long", *n),
        Datum::Int(n) => ("int", i64::from(*n)),
        Datum::Null => ("null", 0),
        _ => ("another", 0),
    }
}

/// The same of the only field of a partition.
fn only(read: &Datum) -> (&'static str, i64) {
    match read {
        Datum::Fields(fields) if fields.len() == 1 => told(&fields.as_slice()[0]),
        _ => ("none", 0),
    }
}

#[test]
fn partitions(rt: HostRuntime) -> Result<(), Fail> {
    for (slot, wanted) in [
        (part(Some(1), false, true), ("long", 7)),
        (part(Some(0), true, false), ("null", 0)),
        (part(Some(0), false, false), ("int", 5)),
        (part(Some(2), false, false), ("null", 0)),
        (part(None, false, true), ("null", 0)),
    ] {
        assert_eq!(rt; only(&projected(rt.alloc(), slot)?), wanted);
    }
    Ok(())
}
