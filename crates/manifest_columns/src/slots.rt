//! Where the records of a file have the columns.

ghost use Rattle.std.specs.Prelude.{◌≡◌, IfOk, map};
ghost use Rattle.std.specs.Option.{option_copied};
ghost use Rattle.manifest_columns.specs.Slots.{inner_ids, inner_fields, places_of, slot_of};
ghost use Rattle.manifest_columns.specs.Tables.{summary_columns};

use crate::column::{Column, Kind};
use crate::places::{place_of, schema_of};
use crate::shapes::{item_fields, type_of};
use crate::tables::summary_columns;
use avro_schema::{Field, Schema};
use sqlite_items::Items;
use std::alloc::{AllocError, Global};

/// Places of fields in a record, none where it lacks one.
pub type PlaceList = Items<Option<usize>>;

/// Where the records of a file have a column, and where the records in the column's list have their fields.
#[derive(Debug, Drop)]
pub struct Slot {
    pub place: Option<usize>,
    pub within: PlaceList,
}

/// Slots of the columns of a table, in its order.
pub type SlotList = Items<Slot>;

fn summary_ids() -> [i32; 4]
    ensures { result ≡ map (λ c. c.id) summary_columns }
{
    let columns = summary_columns();
    [columns[0].id, columns[1].id, columns[2].id, columns[3].id]
}

fn places_of(alloc: Global, ids: &[i32], fields: &[Field]) -> Result<PlaceList, AllocError>
    ensures { IfOk result (λ places. places ≡ places_of ids.now fields.now) }
{
    let mut places = Items::new(alloc);
    for id in ids {
        places.push(place_of(fields, *id))?;
    }
    Ok(places)
}

fn inner_fields(values: Option<&Schema>) -> &[Field]
    ensures { result.now ≡ inner_fields (option_copied values.entry) }
{
    match values {
        None => &[],
        Some(schema) => match item_fields(schema) {
            None => &[],
            Some(fields) => fields,
        },
    }
}

fn places_within(alloc: Global, kind: Kind, fields: &[Field]) -> Result<PlaceList, AllocError>
    ensures { IfOk result (λ places. places ≡ places_of (inner_ids kind) fields.now) }
{
    match kind {
        Kind::IntLongs { key, value, .. } => places_of(alloc, &[key, value], fields),
        Kind::IntBytes { key, value, .. } => places_of(alloc, &[key, value], fields),
        Kind::Summaries { .. } => places_of(alloc, &summary_ids(), fields),
        Kind::Bool
        | Kind::Int
        | Kind::Long
        | Kind::Text
        | Kind::Bytes
        | Kind::Longs { .. }
        | Kind::Ints { .. }
        | Kind::Record { .. } => Ok(Items::new(alloc)),
    }
}

/// Where records with these fields have the column.
pub fn slot_of(alloc: Global, fields: &[Field], column: Column) -> Result<Slot, AllocError>
    ensures { IfOk result (λ slot. slot ≡ slot_of fields.now column) }
{
    let values = match schema_of(fields, column.id) {
        None => None,
        Some(schema) => type_of(column.may_lack, schema),
    };
    Ok(Slot {
        place: place_of(fields, column.id),
        within: places_within(alloc, column.kind, inner_fields(values))?,
    })
}

/// Where records with these fields have each of the columns: once for a file.
pub fn slots_of(alloc: Global, fields: &[Field], columns: &[Column]) -> Result<SlotList, AllocError>
    ensures { IfOk result (λ slots. slots ≡ map (slot_of fields.now) columns.now) }
{
    let mut slots = Items::new(alloc);
    for column in columns {
        slots.push(slot_of(alloc, fields, *column)?)?;
    }
    Ok(slots)
}
