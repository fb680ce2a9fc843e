//! Lists that may lack, to be written.

ghost use Rattle.std.specs.Prelude.{◌≡◌, IfOk, map};
ghost use Rattle.std.specs.Option.{option_map};
ghost use Rattle.avro_datum.specs.declared.datum.Datum.TheVariants.{Int as of_int, Long as of_long};
ghost use Rattle.manifest_cells.specs.Cells.{int_array, long_array};
ghost use Rattle.manifest_cells.specs.Written.{array_of, int_bytes_record, int_long_record, optional};

use crate::lists::{IdList, IntList};
use crate::pairs::{IntBytesList, IntLongList};
use crate::writing::{null, some};
use avro_datum::{Datum, DatumList};
use avro_schema::Bytes;
use sqlite_items::Items;
use std::alloc::{AllocError, Global};

fn int_long(alloc: Global, pair: (i32, i64)) -> Result<Datum, AllocError>
    ensures { IfOk result (λ d. d ≡ int_long_record pair) }
{
    let (key, value) = pair;
    let mut fields = Items::new(alloc);
    fields.push(Datum::Int(key))?;
    fields.push(Datum::Long(value))?;
    Ok(Datum::Fields(fields))
}

fn int_bytes(alloc: Global, pair: &(i32, Bytes)) -> Result<Datum, AllocError>
    ensures { IfOk result (λ d. d ≡ int_bytes_record pair.now) }
{
    let mut fields = Items::new(alloc);
    fields.push(Datum::Int(pair.0))?;
    fields.push(Datum::Blob(pair.1.copy()?))?;
    Ok(Datum::Fields(fields))
}

fn int_longs(alloc: Global, pairs: &[(i32, i64)]) -> Result<DatumList, AllocError>
    ensures { IfOk result (λ ds. ds ≡ map int_long_record pairs.now) }
{
    let mut items = Items::new(alloc);
    for pair in pairs {
        items.push(int_long(alloc, *pair)?)?;
    }
    Ok(items)
}

fn int_bytes_items(alloc: Global, pairs: &[(i32, Bytes)]) -> Result<DatumList, AllocError>
    ensures { IfOk result (λ ds. ds ≡ map int_bytes_record pairs.now) }
{
    let mut items = Items::new(alloc);
    for pair in pairs {
        items.push(int_bytes(alloc, pair)?)?;
    }
    Ok(items)
}

fn longs(alloc: Global, numbers: &[i64]) -> Result<DatumList, AllocError>
    ensures { IfOk result (λ ds. ds ≡ map of_long numbers.now) }
{
    let mut items = Items::new(alloc);
    for n in numbers {
        items.push(Datum::Long(*n))?;
    }
    Ok(items)
}

fn ints(alloc: Global, numbers: &[i32]) -> Result<DatumList, AllocError>
    ensures { IfOk result (λ ds. ds ≡ map of_int numbers.now) }
{
    let mut items = Items::new(alloc);
    for n in numbers {
        items.push(Datum::Int(*n))?;
    }
    Ok(items)
}

/// Ints with longs, which may lack.
pub fn optional_int_longs(alloc: Global, pairs: &Option<IntLongList>) -> Result<Datum, AllocError>
    ensures { IfOk result (λ d. d ≡ optional (option_map (array_of int_long_record) pairs.now)) }
{
    match pairs {
        None => null(alloc),
        Some(pairs) => some(alloc, Datum::List(int_longs(alloc, pairs.as_slice())?)),
    }
}

/// Ints with bytes, which may lack.
pub fn optional_int_bytes(alloc: Global, pairs: &Option<IntBytesList>) -> Result<Datum, AllocError>
    ensures { IfOk result (λ d. d ≡ optional (option_map (array_of int_bytes_record) pairs.now)) }
{
    match pairs {
        None => null(alloc),
        Some(pairs) => some(
            alloc,
            Datum::List(int_bytes_items(alloc, pairs.as_slice())?),
        ),
    }
}

/// Longs, which may lack.
pub fn optional_longs(alloc: Global, numbers: &Option<IdList>) -> Result<Datum, AllocError>
    ensures { IfOk result (λ d. d ≡ optional (option_map long_array numbers.now)) }
{
    match numbers {
        None => null(alloc),
        Some(numbers) => some(alloc, Datum::List(longs(alloc, numbers.as_slice())?)),
    }
}

/// Ints, which may lack.
pub fn optional_ints(alloc: Global, numbers: &Option<IntList>) -> Result<Datum, AllocError>
    ensures { IfOk result (λ d. d ≡ optional (option_map int_array numbers.now)) }
{
    match numbers {
        None => null(alloc),
        Some(numbers) => some(alloc, Datum::List(ints(alloc, numbers.as_slice())?)),
    }
}
