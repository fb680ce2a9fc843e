//! Lists of numbers.

ghost use Rattle.std.specs.Prelude.{◌≡◌, Some, IfOk, map};
ghost use Rattle.std.specs.Option.{option_copied, option_map};
ghost use Rattle.avro_datum.specs.declared.datum.Datum.TheVariants.{Int as of_int, Long as of_long, List as of_list};
ghost use Rattle.manifest_cells.specs.Cells.{Reads, SetsValue, int_array, long_array};

use avro_datum::Datum;
use sqlite_items::Items;
use std::alloc::{AllocError, Global};

/// Longs in order.
pub type IdList = Items<i64>;

/// Ints in order.
pub type IntList = Items<i32>;

fn long_item(item: &Datum) -> Option<i64>
    ensures { Reads of_long item.now result }
{
    match item {
        Datum::Long(n) => Some(*n),
        _ => None,
    }
}

fn int_item(item: &Datum) -> Option<i32>
    ensures { Reads of_int item.now result }
{
    match item {
        Datum::Int(n) => Some(*n),
        _ => None,
    }
}

fn longs_of(alloc: Global, items: &[Datum]) -> Result<Option<IdList>, AllocError>
    ensures { IfOk result (λ r. Reads (map of_long) items.now r) }
{
    let mut longs = Items::new(alloc);
    for item in items {
        let Some(n) = long_item(item) else {
            return Ok(None);
        };
        longs.push(n)?;
    }
    Ok(Some(longs))
}

fn ints_of(alloc: Global, items: &[Datum]) -> Result<Option<IntList>, AllocError>
    ensures { IfOk result (λ r. Reads (map of_int) items.now r) }
{
    let mut ints = Items::new(alloc);
    for item in items {
        let Some(n) = int_item(item) else {
            return Ok(None);
        };
        ints.push(n)?;
    }
    Ok(Some(ints))
}

fn set_long_items(
    alloc: Global,
    items: &[Datum],
    to: &mut Option<IdList>,
) -> Result<bool, AllocError>
    ensures { IfOk result (λ fits. SetsValue (option_map long_array) (Some (of_list items.now)) fits to.new) }
{
    let Some(longs) = longs_of(alloc, items)? else {
        return Ok(false);
    };
    *to = Some(longs);
    Ok(true)
}

fn set_int_items(
    alloc: Global,
    items: &[Datum],
    to: &mut Option<IntList>,
) -> Result<bool, AllocError>
    ensures { IfOk result (λ fits. SetsValue (option_map int_array) (Some (of_list items.now)) fits to.new) }
{
    let Some(ints) = ints_of(alloc, items)? else {
        return Ok(false);
    };
    *to = Some(ints);
    Ok(true)
}

/// A list of longs that may lack.
pub fn set_longs(
    alloc: Global,
    found: Option<&Datum>,
    to: &mut Option<IdList>,
) -> Result<bool, AllocError>
    ensures { IfOk result (λ fits. SetsValue (option_map long_array) (option_copied found.entry) fits to.new) }
{
    match found {
        None => {
            *to = None;
            Ok(true)
        }
        Some(Datum::List(items)) => set_long_items(alloc, items.as_slice(), to),
        _ => Ok(false),
    }
}

/// A list of ints that may lack.
pub fn set_ints(
    alloc: Global,
    found: Option<&Datum>,
    to: &mut Option<IntList>,
) -> Result<bool, AllocError>
    ensures { IfOk result (λ fits. SetsValue (option_map int_array) (option_copied found.entry) fits to.new) }
{
    match found {
        None => {
            *to = None;
            Ok(true)
        }
        Some(Datum::List(items)) => set_int_items(alloc, items.as_slice(), to),
        _ => Ok(false),
    }
}
