//! Lists of pairs, whose records have a key and a value in any order, with other fields between.

ghost use Rattle.std.specs.Prelude.{◌≡◌, [], ◌∷◌, IfOk, map};
ghost use Rattle.std.specs.Option.{option_copied};
ghost use Rattle.manifest_cells.specs.Cells.{Reads, Sets, record_cells, records_in, listed_as, int_long_cells, int_bytes_cells};

use crate::places::{fields_in, held, items_in};
use crate::reading::{bytes_of, int_of, long_of};
use avro_datum::Datum;
use avro_schema::Bytes;
use sqlite_items::Items;
use std::alloc::{AllocError, Global};

/// Ints, each with a long, in order.
pub type IntLongList = Items<(i32, i64)>;

/// Ints, each with bytes, in order.
pub type IntBytesList = Items<(i32, Bytes)>;

fn int_long(key: Option<&Datum>, value: Option<&Datum>) -> Option<(i32, i64)>
    ensures { Reads int_long_cells (option_copied key.entry ∷ option_copied value.entry ∷ []) result }
{
    let Some(key) = int_of(key) else {
        return None;
    };
    let Some(value) = long_of(value) else {
        return None;
    };
    Some((key, value))
}

fn int_bytes(key: Option<&Datum>, value: Option<&Datum>) -> Result<Option<(i32, Bytes)>, AllocError>
    ensures { IfOk result (λ r. Reads int_bytes_cells (option_copied key.entry ∷ option_copied value.entry ∷ []) r) }
{
    let Some(key) = int_of(key) else {
        return Ok(None);
    };
    let Some(value) = bytes_of(value)? else {
        return Ok(None);
    };
    Ok(Some((key, value)))
}

fn int_long_of(item: &Datum, places: &[Option<usize>]) -> Option<(i32, i64)>
    ensures { Reads int_long_cells (record_cells places.now item.now) result }
{
    let fields = fields_in(item);
    match places {
        [key, value] => int_long(held(fields, *key), held(fields, *value)),
        _ => None,
    }
}

fn int_bytes_of(item: &Datum, places: &[Option<usize>]) -> Result<Option<(i32, Bytes)>, AllocError>
    ensures { IfOk result (λ r. Reads int_bytes_cells (record_cells places.now item.now) r) }
{
    let fields = fields_in(item);
    match places {
        [key, value] => int_bytes(held(fields, *key), held(fields, *value)),
        _ => Ok(None),
    }
}

fn int_longs_of(
    alloc: Global,
    items: &[Datum],
    places: &[Option<usize>],
) -> Result<Option<IntLongList>, AllocError>
    ensures { IfOk result (λ r. Reads (map int_long_cells) (map (record_cells places.now) items.now) r) }
{
    let mut pairs = Items::new(alloc);
    for item in items {
        let Some(pair) = int_long_of(item, places) else {
            return Ok(None);
        };
        pairs.push(pair)?;
    }
    Ok(Some(pairs))
}

fn int_bytes_list_of(
    alloc: Global,
    items: &[Datum],
    places: &[Option<usize>],
) -> Result<Option<IntBytesList>, AllocError>
    ensures { IfOk result (λ r. Reads (map int_bytes_cells) (map (record_cells places.now) items.now) r) }
{
    let mut pairs = Items::new(alloc);
    for item in items {
        let Some(pair) = int_bytes_of(item, places)? else {
            return Ok(None);
        };
        pairs.push(pair)?;
    }
    Ok(Some(pairs))
}

/// Ints with longs, which may lack. `places` are those of the key and the value in a record.
#[tactic(auto, using(crate::proofs::Whole::no_records, crate::proofs::Whole::no_single))]
pub fn set_int_longs(
    alloc: Global,
    found: Option<&Datum>,
    places: &[Option<usize>],
    to: &mut Option<IntLongList>,
) -> Result<bool, AllocError>
    ensures { IfOk result (λ fits. Sets (listed_as int_long_cells) (records_in places.now (option_copied found.entry)) fits to.new) }
{
    let Some(list) = found else {
        *to = None;
        return Ok(true);
    };
    let Some(items) = items_in(list) else {
        return Ok(false);
    };
    let Some(pairs) = int_longs_of(alloc, items, places)? else {
        return Ok(false);
    };
    *to = Some(pairs);
    Ok(true)
}

/// Ints with bytes, which may lack. `places` are those of the key and the value in a record.
#[tactic(auto, using(crate::proofs::Whole::no_records, crate::proofs::Whole::no_single))]
pub fn set_int_bytes(
    alloc: Global,
    found: Option<&Datum>,
    places: &[Option<usize>],
    to: &mut Option<IntBytesList>,
) -> Result<bool, AllocError>
    ensures { IfOk result (λ fits. Sets (listed_as int_bytes_cells) (records_in places.now (option_copied found.entry)) fits to.new) }
{
    let Some(list) = found else {
        *to = None;
        return Ok(true);
    };
    let Some(items) = items_in(list) else {
        return Ok(false);
    };
    let Some(pairs) = int_bytes_list_of(alloc, items, places)? else {
        return Ok(false);
    };
    *to = Some(pairs);
    Ok(true)
}
