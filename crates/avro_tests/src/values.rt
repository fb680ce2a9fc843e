//! The worked rows, a value of every kind, and one table of faults. The bytes are put together by hand from the Avro
//! specification's grammar.

use avro_datum::{Datum, DatumCause, DatumErr, DatumList, PairList, SkipErr, decode, encode, skip};
use avro_schema::{Field, Logical, Schema, Text, TextList};
use sqlite_items::{Boxed, Items};
use std::alloc::{AllocError, Global};
use std::test::Fail;

fn name(alloc: Global, of: &str) -> Result<Text, AllocError> {
    Ok(Text::new(String::from_str(alloc, of)?))
}

fn long() -> Schema {
    Schema::Long(Logical::Plain)
}

fn int() -> Schema {
    Schema::Int(Logical::Plain)
}

fn string() -> Schema {
    Schema::Str(Logical::Plain)
}

fn array_of(alloc: Global, item: Schema) -> Result<Schema, AllocError> {
    Ok(Schema::List {
        item: Boxed::new(alloc, item)?,
        element_id: None,
        is_map: false,
    })
}

fn map_of(alloc: Global, value: Schema) -> Result<Schema, AllocError> {
    Ok(Schema::Pairs {
        value: Boxed::new(alloc, value)?,
        key_id: None,
        value_id: None,
    })
}

fn null_or_int(alloc: Global) -> Result<Schema, AllocError> {
    let mut branches = Items::new(alloc);
    branches.push(Schema::Null)?;
    branches.push(int())?;
    Ok(Schema::Union { branches })
}

fn fixed(alloc: Global, size: u32) -> Result<Schema, AllocError> {
    Ok(Schema::Fix {
        name: name(alloc, "f")?,
        size,
        logical: Logical::Plain,
    })
}

fn two_symbols(alloc: Global) -> Result<Schema, AllocError> {
    let mut symbols = Vec::new(alloc);
    symbols.push(name(alloc, "a")?)?;
    symbols.push(name(alloc, "b")?)?;
    Ok(Schema::Choice {
        name: name(alloc, "e")?,
        symbols: TextList::new(symbols),
    })
}

/// A record with a field of each of these schemas.
fn record_of(alloc: Global, schemas: Items<Schema>) -> Result<Schema, AllocError> {
    let mut schemas = schemas;
    let mut fields = Vec::new(alloc);
    for _ in 0..64u32 {
        let Some(schema) = schemas.pop() else {
            break;
        };
        fields.push(Field {
            name: name(alloc, "x")?,
            schema,
            field_id: None,
        })?;
    }
    fields.reverse();
    Ok(Schema::Fields {
        name: name(alloc, "r")?,
        fields: Items::from_vec(fields),
    })
}

fn every_kind(alloc: Global) -> Result<Schema, AllocError> {
    let mut schemas = Items::new(alloc);
    schemas.push(Schema::Null)?;
    schemas.push(Schema::Bool)?;
    schemas.push(int())?;
    schemas.push(long())?;
    schemas.push(Schema::Float4)?;
    schemas.push(Schema::Float8)?;
    schemas.push(Schema::Blob(Logical::Plain))?;
    schemas.push(string())?;
    schemas.push(fixed(alloc, 2)?)?;
    schemas.push(two_symbols(alloc)?)?;
    schemas.push(array_of(alloc, long())?)?;
    schemas.push(map_of(alloc, int())?)?;
    schemas.push(null_or_int(alloc)?)?;
    record_of(alloc, schemas)
}

/// What is written for the value that the bytes spell, all of the bytes, and whether `skip` ends where `decode` does.
fn written_again(alloc: Global, schema: &Schema, of: &[u8]) -> Result<(Vec<u8>, bool), Fail> {
    let (value, end) = decode(alloc, schema, of, 0)?;
    let passed = skip(schema, of, 0) == Ok(end) && end == of.len();
    let mut to = Vec::new(alloc);
    encode(schema, &value, &mut to)?;
    Ok((to, passed))
}

/// The fault of `decode`, where `skip` has the same.
fn fault(alloc: Global, schema: &Schema, of: &[u8], from: usize) -> Option<(usize, DatumCause)> {
    let passed = match skip(schema, of, from) {
        Ok(_) => None,
        Err(SkipErr { at, cause }) => Some((at, cause)),
    };
    let read = match decode(alloc, schema, of, from) {
        Err(DatumErr::Bad { at, cause }) => Some((at, cause)),
        _ => None,
    };
    if passed == read { read } else { None }
}

#[test]
fn long_numbers_and_array_blocks(rt: HostRuntime) -> Result<(), Fail> {
    let alloc = rt.alloc();
    let least = b"\xff\xff\xff\xff\xff\xff\xff\xff\xff\x01";
    let (to, passed) = written_again(alloc, &long(), least)?;
    assert_eq!(rt; to.as_slice(), least.as_slice());
    assert!(rt; passed);
    let too_long = b"\x80\x80\x80\x80\x80\x80\x80\x80\x80\x80\x01";
    assert_eq!(rt;
        fault(alloc, &long(), too_long, 0),
        Some((0, DatumCause::NumberTooLong))
    );

    let array = array_of(alloc, long())?;
    let written = b"\x06\x02\x04\x06\x00";
    let (to, passed) = written_again(alloc, &array, written)?;
    assert_eq!(rt; to.as_slice(), written.as_slice());
    assert!(rt; passed);
    let (to, passed) = written_again(alloc, &array, b"\x02\x02\x03\x04\x04\x06\x00")?;
    assert_eq!(rt; to.as_slice(), written.as_slice());
    assert!(rt; passed);
    Ok(())
}

#[test]
fn union_of_null_and_int(rt: HostRuntime) -> Result<(), Fail> {
    let alloc = rt.alloc();
    let schema = null_or_int(alloc)?;
    let (null, end) = decode(alloc, &schema, b"\x00", 0)?;
    assert_eq!(rt; end, 1);
    match &null {
        Datum::Branch(branch, inner) => {
            assert_eq!(rt; *branch, 0);
            assert!(rt; matches!(inner.get(), Datum::Null));
        }
        _ => assert!(rt; false, "no branch"),
    }
    let (three, end) = decode(alloc, &schema, b"\x02\x06", 0)?;
    assert_eq!(rt; end, 2);
    match &three {
        Datum::Branch(branch, inner) => {
            assert_eq!(rt; *branch, 1);
            assert!(rt; matches!(inner.get(), Datum::Int(3)));
        }
        _ => assert!(rt; false, "no branch"),
    }
    assert_eq!(rt;
        fault(alloc, &schema, b"\x04", 0),
        Some((0, DatumCause::BadBranch))
    );
    Ok(())
}

#[test]
fn every_kind_of_value(rt: HostRuntime) -> Result<(), Fail> {
    let alloc = rt.alloc();
    let spelling =
        b"\x01\x02\x03\x00\x00\x80\x3f\x00\x00\x00\x00\x00\x00\xf0\x3f\x04\xaa\xbb\x02a\x01\x02\x02\x02\x04\x00\x02\x02k\x06\x00\x02\x06";
    let (to, passed) = written_again(alloc, &every_kind(alloc)?, spelling)?;
    assert_eq!(rt; to.as_slice(), spelling.as_slice());
    assert!(rt; passed);
    Ok(())
}

#[test]
fn faults_of_values(rt: HostRuntime) -> Result<(), Fail> {
    let alloc = rt.alloc();
    let long = long();
    let string = string();
    let longs = array_of(alloc, Schema::Long(Logical::Plain))?;
    let nulls = array_of(alloc, Schema::Null)?;
    let ints = map_of(alloc, int())?;
    let union = null_or_int(alloc)?;
    let table: [(&str, &Schema, &[u8], usize, DatumCause); 17] = [
        ("cut_number", &long, b"\x80", 1, DatumCause::Short),
        (
            "int_of_33_bits",
            &int(),
            b"\x80\x80\x80\x80\x10",
            0,
            DatumCause::NumberTooLong,
        ),
        (
            "string_not_utf8",
            &string,
            b"\x02\xff",
            0,
            DatumCause::BadUtf8,
        ),
        (
            "short_before_bad_utf8",
            &string,
            b"\x04\xff",
            2,
            DatumCause::Short,
        ),
        (
            "negative_string_length",
            &string,
            b"\x01",
            0,
            DatumCause::NegativeLength,
        ),
        (
            "branch_not_there",
            &union,
            b"\x04",
            0,
            DatumCause::BadBranch,
        ),
        ("branch_below_0", &union, b"\x01", 0, DatumCause::BadBranch),
        (
            "byte_no_boolean",
            &Schema::Bool,
            b"\x02",
            0,
            DatumCause::BadBool,
        ),
        (
            "symbol_not_there",
            &two_symbols(alloc)?,
            b"\x04",
            0,
            DatumCause::BadEnum,
        ),
        (
            "cut_fixed",
            &fixed(alloc, 4)?,
            b"\x00\x00",
            2,
            DatumCause::Short,
        ),
        ("cut_double", &Schema::Float8, b"\x00", 1, DatumCause::Short),
        ("cut_array", &longs, b"\x02", 1, DatumCause::Short),
        (
            "item_block_of_wrong_size",
            &longs,
            b"\x01\x04\x02\x00",
            2,
            DatumCause::BadSize,
        ),
        (
            "least_number_as_count",
            &longs,
            b"\xff\xff\xff\xff\xff\xff\xff\xff\xff\x01",
            0,
            DatumCause::TooMany,
        ),
        (
            "one_item_too_many",
            &nulls,
            b"\x82\x80\x80\x10\x00",
            0,
            DatumCause::TooMany,
        ),
        (
            "too_many_in_two_blocks",
            &nulls,
            b"\x02\x80\x80\x80\x10\x00",
            1,
            DatumCause::TooMany,
        ),
        (
            "key_not_utf8",
            &ints,
            b"\x02\x02\xff\x00",
            1,
            DatumCause::BadUtf8,
        ),
    ];
    for (row, schema, of, at, cause) in table {
        assert_eq!(rt; fault(alloc, schema, of, 0), Some((at, cause)), "{row}");
    }
    assert_eq!(rt;
        fault(alloc, &long, b"\x02", 9),
        Some((1, DatumCause::Short)),
        "past the end"
    );
    Ok(())
}

/// A record of a null, a fixed of no bytes and a last field.
fn nothing_and(alloc: Global, last: Schema) -> Result<Schema, AllocError> {
    let mut schemas = Items::new(alloc);
    schemas.push(Schema::Null)?;
    schemas.push(fixed(alloc, 0)?)?;
    schemas.push(last)?;
    record_of(alloc, schemas)
}

/// Where `skip` ends in an array of such items.
fn array_end(alloc: Global, item: Schema, of: &[u8]) -> Result<Option<usize>, AllocError> {
    let array = array_of(alloc, item)?;
    match skip(&array, of, 0) {
        Ok(end) => Ok(Some(end)),
        Err(_) => Ok(None),
    }
}

/// An array of 10,000 arrays of 16,777,216 items each that are spelled by no bytes.
fn many_arrays(alloc: Global) -> Result<Vec<u8>, AllocError> {
    let mut of = Vec::new(alloc);
    of.extend_from_slice(b"\xa0\x9c\x01")?;
    for _ in 0..10000u32 {
        of.extend_from_slice(b"\x80\x80\x80\x10\x00")?;
    }
    of.push(0)?;
    Ok(of)
}

#[test]
fn items_of_no_bytes_are_passed_at_once(rt: HostRuntime) -> Result<(), Fail> {
    let alloc = rt.alloc();
    let most = b"\x80\x80\x80\x10\x00";
    assert_eq!(rt; array_end(alloc, Schema::Null, most)?, Some(5));
    let of_a_size = b"\xff\xff\xff\x0f\x00\x00";
    assert_eq!(rt; array_end(alloc, Schema::Null, of_a_size)?, Some(6));
    let record = nothing_and(alloc, Schema::Null)?;
    assert_eq!(rt; array_end(alloc, record, most)?, Some(5));
    let with_boolean = nothing_and(alloc, Schema::Bool)?;
    assert_eq!(rt;
        array_end(alloc, with_boolean, b"\x04\x01\x00\x00")?,
        Some(4)
    );
    let many = many_arrays(alloc)?;
    let nulls = array_of(alloc, Schema::Null)?;
    assert_eq!(rt; array_end(alloc, nulls, many.as_slice())?, Some(50004));
    Ok(())
}
