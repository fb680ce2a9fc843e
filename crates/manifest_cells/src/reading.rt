//! Values read out of what a record holds.

ghost use Rattle.std.specs.Prelude.{◌≡◌, Some, IfOk};
ghost use Rattle.std.specs.Option.{option_copied, option_map};
ghost use Rattle.avro_datum.specs.declared.datum.Datum.TheVariants.{Bool as of_bool, Int as of_int, Long as of_long, Blob as of_blob};
ghost use Rattle.manifest_cells.specs.Cells.{Reads};

use avro_datum::Datum;
use avro_schema::Bytes;
use std::alloc::AllocError;

/// A boolean, if it is one.
pub fn bool_of(found: Option<&Datum>) -> Option<bool>
    ensures { Reads (λ x. Some (of_bool x)) (option_copied found.entry) result }
{
    match found {
        Some(Datum::Bool(b)) => Some(*b),
        _ => None,
    }
}

/// An int, if it is one.
pub fn int_of(found: Option<&Datum>) -> Option<i32>
    ensures { Reads (λ x. Some (of_int x)) (option_copied found.entry) result }
{
    match found {
        Some(Datum::Int(n)) => Some(*n),
        _ => None,
    }
}

/// A long, if it is one.
pub fn long_of(found: Option<&Datum>) -> Option<i64>
    ensures { Reads (λ x. Some (of_long x)) (option_copied found.entry) result }
{
    match found {
        Some(Datum::Long(n)) => Some(*n),
        _ => None,
    }
}

/// Bytes, if these are some.
pub fn bytes_of(found: Option<&Datum>) -> Result<Option<Bytes>, AllocError>
    ensures { IfOk result (λ r. Reads (λ x. Some (of_blob x)) (option_copied found.entry) r) }
{
    match found {
        Some(Datum::Blob(bytes)) => Ok(Some(bytes.copy()?)),
        _ => Ok(None),
    }
}

/// A boolean that may lack, if it is one.
pub fn optional_bool_of(found: Option<&Datum>) -> Option<Option<bool>>
    ensures { Reads (option_map of_bool) (option_copied found.entry) result }
{
    match found {
        None => Some(None),
        Some(Datum::Bool(b)) => Some(Some(*b)),
        _ => None,
    }
}

/// A long that may lack, if it is one.
pub fn optional_long_of(found: Option<&Datum>) -> Option<Option<i64>>
    ensures { Reads (option_map of_long) (option_copied found.entry) result }
{
    match found {
        None => Some(None),
        Some(Datum::Long(n)) => Some(Some(*n)),
        _ => None,
    }
}

/// Bytes that may lack, if these are some.
pub fn optional_bytes_of(found: Option<&Datum>) -> Result<Option<Option<Bytes>>, AllocError>
    ensures { IfOk result (λ r. Reads (option_map of_blob) (option_copied found.entry) r) }
{
    match found {
        None => Ok(Some(None)),
        Some(Datum::Blob(bytes)) => Ok(Some(Some(bytes.copy()?))),
        _ => Ok(None),
    }
}
