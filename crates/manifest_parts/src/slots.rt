//! Where the partition records of a file have the fields of the partition type.

ghost use Rattle.std.specs.Prelude.{◌≡◌, IfOk, map};
ghost use Rattle.schema_types.specs.declared.types.ColType.{out-ColType};
ghost use Rattle.manifest_parts.specs.Parts.{is_void, is_long, part_slot};

use avro_schema::Field;
use ice_schema::{ColType, PartField, PartType, Transform};
use manifest_columns::place_of;
use manifest_files::{PartSlot, PartSlotList};
use sqlite_items::Items;
use std::alloc::{AllocError, Global};

fn is_void(transform: Transform) -> bool
    ensures { result ≡ is_void transform }
{
    match transform {
        Transform::Void => true,
        _ => false,
    }
}

fn is_long(ty: &ColType) -> bool
    ensures { result ≡ is_long (out-ColType ty.now) }
{
    match ty {
        ColType::Long => true,
        _ => false,
    }
}

fn part_slot(fields: &[Field], field: &PartField) -> PartSlot
    ensures { result ≡ part_slot fields.now field.now }
{
    PartSlot {
        place: place_of(fields, field.field_id),
        is_void: is_void(field.transform),
        is_long: is_long(&field.ty),
    }
}

/// Where records with these fields have those of the partition type, and how their values count: once for a file.
pub fn part_slots(
    alloc: Global,
    fields: &[Field],
    part: &PartType,
) -> Result<PartSlotList, AllocError>
    ensures { IfOk result (λ slots. slots ≡ map (part_slot fields.now) part.now.fields) }
{
    let mut slots = Items::new(alloc);
    for field in part.fields.as_slice() {
        slots.push(part_slot(fields, field))?;
    }
    Ok(slots)
}
