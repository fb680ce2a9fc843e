//! Manifest lists.

ghost use Rattle.std.specs.Prelude.{◌≡◌, ◌≤◌, length, IfOk, Ok};
ghost use Rattle.avro_datum.specs.declared.datum.Datum.{out-Datum};
ghost use Rattle.manifest_cells.specs.Cells.{fields_in};
ghost use Rattle.manifest_columns.specs.Tables.{row_columns};
ghost use Rattle.manifest_columns.specs.Shapes.{fields_of};
ghost use Rattle.manifest_rows.specs.Rows.{row_slots};
ghost use Rattle.avro_schema.specs.declared.schema.Schema.{out-Schema};
ghost use Rattle.manifest_codec.specs.Faults.{OnFault};
ghost use Rattle.manifest_codec.specs.Objects.{objects_from, IsWithin};
ghost use Rattle.manifest_codec.specs.Schemas.{checked, file_at};
ghost use Rattle.manifest_columns.specs.Slots.{known_fields};
ghost use Rattle.manifest_codec.specs.Spelling.{ListsAreSpelled};
ghost use Rattle.manifest_codec.specs.Whole.{SpelledListsAreRead};
ghost use Rattle.manifest_codec.specs.Lists.{GivesList, GivesRow, GivesRows, IsList, NoList};

use crate::container::Container;
use crate::fault::{ManifestCause, ManifestErr};
use crate::objects::{Progress, first_place, next_object};
use crate::schemas::{checked, open};
use avro_datum::Datum;
use manifest_cells::{FieldErr, fields_in};
use manifest_columns::{Slot, row_columns};
use manifest_rows::{ManifestRow, row_of, row_slots};
use sqlite_items::Items;
use std::alloc::Global;

/// Rows of a manifest list, in order.
pub type RowList = Items<ManifestRow>;

// The row that an object stands for.
fn row_in(
    alloc: Global,
    slots: &[Slot],
    datum: &Datum,
    at: usize,
) -> Result<ManifestRow, ManifestErr>
    requires { length slots.now ≡ 15 }
    ensures { GivesRow slots.now at datum.now result }
{
    match row_of(alloc, slots, fields_in(datum), at) {
        Ok(row) => Ok(row),
        Err(FieldErr::Memory) => Err(ManifestErr::Memory),
        Err(FieldErr::BadField(id)) => {
            Err(ManifestErr::Bad {
                at,
                cause: ManifestCause::BadField(id),
            })
        }
    }
}

// The rows from a place on.
fn rows_from(
    alloc: Global,
    file: &Container,
    slots: &[Slot],
    bytes: &[u8],
    mut place: Progress,
) -> Result<RowList, ManifestErr>
    requires width { length slots.now ≡ 15 }
    requires within { IsWithin bytes.now place }
    ensures { GivesRows slots.now (objects_from file.now bytes.now place) result }
{
    let mut rows = Items::new(alloc);
    while let Some((at, datum)) = next_object(alloc, file, bytes, &mut place)? {
        rows.push(row_in(alloc, slots, &datum, at)?)?;
    }
    Ok(rows)
}

/// The rows of a manifest list, each with the place where it begins, in order.
pub fn read_list(alloc: Global, bytes: &[u8]) -> Result<RowList, ManifestErr>
    // Exactly the rows of the file, or its first fault.
    ensures exact { GivesList (file_at (checked row_columns) bytes.now) result }
    // A fault comes only where the bytes are no list of rows.
    ensures none { OnFault result (NoList bytes.now) }
{
    let file = open(alloc, bytes)?;
    let fields = checked(&row_columns(), &file.schema)?;
    let slots = row_slots(alloc, fields)?;
    let place = first_place(bytes, file.header.end);
    rows_from(alloc, &file, slots.as_slice(), bytes, place)
}

/// What is read as a list is spelled as one: a header whose schema is a record with the columns of a row, and blocks of
/// records that stand for the rows.
#[tactic(auto, using(crate::proofs::Spelled::lists_spelled))]
pub fn lists_are_spelled()
    ensures { ListsAreSpelled }
{}

/// What spells a list of rows is read as these rows, each with the place where it begins.
#[tactic(auto, using(crate::proofs::Whole::lists_read))]
pub fn spelled_lists_are_read()
    ensures { SpelledListsAreRead }
{}
