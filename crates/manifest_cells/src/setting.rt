//! Fields set from what a record holds. A field that doesn't fit is left, and `false` says so.

ghost use Rattle.std.specs.Prelude.{◌≡◌, ◌<◌, ◌^◌, Some, pos, IfOk};
ghost use Rattle.std.specs.Bool.{OnTrue};
ghost use Rattle.std.specs.Option.{option_copied, option_map};
ghost use Rattle.avro_datum.specs.declared.datum.Datum.TheVariants.{Int as of_int, Long as of_long, Blob as of_blob, Str as of_str};
ghost use Rattle.manifest_cells.specs.Cells.{SetsValue, content_number};

use avro_datum::Datum;
use avro_schema::{Bytes, Text};
use std::alloc::AllocError;

/// A string.
pub fn set_text(found: Option<&Datum>, to: &mut Text) -> Result<bool, AllocError>
    ensures { IfOk result (λ fits. SetsValue (λ x. Some (of_str x)) (option_copied found.entry) fits to.new) }
{
    match found {
        Some(Datum::Str(x)) => {
            *to = x.copy()?;
            Ok(true)
        }
        _ => Ok(false),
    }
}

/// A long that isn't negative.
pub fn set_count(found: Option<&Datum>, to: &mut u64) -> bool
    ensures set { SetsValue (λ x. Some (of_long (pos x))) (option_copied found.entry) result to.new }
    ensures below { OnTrue result (to.new < 2 ^ 63) }
{
    match found {
        Some(Datum::Long(n)) => {
            let Ok(count) = u64::try_from(*n) else {
                return false;
            };
            *to = count;
            true
        }
        _ => false,
    }
}

/// An int.
pub fn set_int(found: Option<&Datum>, to: &mut i32) -> bool
    ensures { SetsValue (λ x. Some (of_int x)) (option_copied found.entry) result to.new }
{
    match found {
        Some(Datum::Int(n)) => {
            *to = *n;
            true
        }
        _ => false,
    }
}

/// A long.
pub fn set_long(found: Option<&Datum>, to: &mut i64) -> bool
    ensures { SetsValue (λ x. Some (of_long x)) (option_copied found.entry) result to.new }
{
    match found {
        Some(Datum::Long(n)) => {
            *to = *n;
            true
        }
        _ => false,
    }
}

/// Whether a manifest is of delete files: its content is 0 for data and 1 for deletes.
pub fn set_content(found: Option<&Datum>, to: &mut bool) -> bool
    ensures { SetsValue (λ x. Some (of_int (content_number x))) (option_copied found.entry) result to.new }
{
    match found {
        Some(Datum::Int(0)) => {
            *to = false;
            true
        }
        Some(Datum::Int(1)) => {
            *to = true;
            true
        }
        _ => false,
    }
}

/// An int that may lack.
pub fn set_optional_int(found: Option<&Datum>, to: &mut Option<i32>) -> bool
    ensures { SetsValue (option_map of_int) (option_copied found.entry) result to.new }
{
    match found {
        None => {
            *to = None;
            true
        }
        Some(Datum::Int(n)) => {
            *to = Some(*n);
            true
        }
        _ => false,
    }
}

/// A string that may lack.
pub fn set_optional_text(found: Option<&Datum>, to: &mut Option<Text>) -> Result<bool, AllocError>
    ensures { IfOk result (λ fits. SetsValue (option_map of_str) (option_copied found.entry) fits to.new) }
{
    match found {
        None => {
            *to = None;
            Ok(true)
        }
        Some(Datum::Str(x)) => {
            *to = Some(x.copy()?);
            Ok(true)
        }
        _ => Ok(false),
    }
}

/// Bytes that may lack.
pub fn set_optional_bytes(found: Option<&Datum>, to: &mut Option<Bytes>) -> Result<bool, AllocError>
    ensures { IfOk result (λ fits. SetsValue (option_map of_blob) (option_copied found.entry) fits to.new) }
{
    match found {
        None => {
            *to = None;
            Ok(true)
        }
        Some(Datum::Blob(x)) => {
            *to = Some(x.copy()?);
            Ok(true)
        }
        _ => Ok(false),
    }
}
