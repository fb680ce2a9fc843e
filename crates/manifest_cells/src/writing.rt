//! Values of columns, to be written.

ghost use Rattle.std.specs.Prelude.{◌≡◌, ◌<◌, ◌^◌, pos, Some, None, IfOk};
ghost use Rattle.std.specs.Option.{option_map};
ghost use Rattle.avro_datum.specs.declared.datum.Datum.TheVariants.{Bool as of_bool, Int as of_int, Long as of_long, Blob as of_blob, Str as of_str};
ghost use Rattle.manifest_cells.specs.Cells.{content_number};
ghost use Rattle.manifest_cells.specs.Written.{optional};

use avro_datum::Datum;
use avro_schema::{Bytes, Text};
use sqlite_items::Boxed;
use std::alloc::{AllocError, Global};

/// Null in a union that begins with null.
pub fn null(alloc: Global) -> Result<Datum, AllocError>
    ensures { IfOk result (λ d. d ≡ optional None) }
{
    Ok(Datum::Branch(0, Boxed::new(alloc, Datum::Null)?))
}

/// A value in a union that begins with null.
pub fn some(alloc: Global, datum: Datum) -> Result<Datum, AllocError>
    ensures { IfOk result (λ d. d ≡ optional (Some datum)) }
{
    Ok(Datum::Branch(1, Boxed::new(alloc, datum)?))
}

/// A number that isn't negative.
pub fn count(n: u64) -> Datum
    requires { n < 2 ^ 63 }
    ensures { result ≡ of_long (pos n) }
{
    Datum::Long(n as i64)
}

/// Whether a manifest is of delete files: 0 for data and 1 for deletes.
pub fn content(is_deletes: bool) -> Datum
    ensures { result ≡ of_int (content_number is_deletes) }
{
    Datum::Int(if is_deletes { 1 } else { 0 })
}

/// A boolean that may lack.
pub fn optional_bool(alloc: Global, value: Option<bool>) -> Result<Datum, AllocError>
    ensures { IfOk result (λ d. d ≡ optional (option_map of_bool value)) }
{
    match value {
        None => null(alloc),
        Some(b) => some(alloc, Datum::Bool(b)),
    }
}

/// An int that may lack.
pub fn optional_int(alloc: Global, value: Option<i32>) -> Result<Datum, AllocError>
    ensures { IfOk result (λ d. d ≡ optional (option_map of_int value)) }
{
    match value {
        None => null(alloc),
        Some(n) => some(alloc, Datum::Int(n)),
    }
}

/// A long that may lack.
pub fn optional_long(alloc: Global, value: Option<i64>) -> Result<Datum, AllocError>
    ensures { IfOk result (λ d. d ≡ optional (option_map of_long value)) }
{
    match value {
        None => null(alloc),
        Some(n) => some(alloc, Datum::Long(n)),
    }
}

/// A string that may lack.
pub fn optional_text(alloc: Global, value: &Option<Text>) -> Result<Datum, AllocError>
    ensures { IfOk result (λ d. d ≡ optional (option_map of_str value.now)) }
{
    match value {
        None => null(alloc),
        Some(text) => some(alloc, Datum::Str(text.copy()?)),
    }
}

/// Bytes that may lack.
pub fn optional_bytes(alloc: Global, value: &Option<Bytes>) -> Result<Datum, AllocError>
    ensures { IfOk result (λ d. d ≡ optional (option_map of_blob value.now)) }
{
    match value {
        None => null(alloc),
        Some(bytes) => some(alloc, Datum::Blob(bytes.copy()?)),
    }
}
