// The types of partition values (Iceberg table specification, "Partition Transforms").
ghost use Rattle.std.specs.Prelude.{◌≡◌, IfOk, IfErr};
ghost use Rattle.ice_schema.specs.declared.fault.PartErr.{PartErr};
ghost use Rattle.ice_schema.specs.Partitions.{result_type, IsPartField, ArePartFields, IsUntyped, SomeUntyped, OnTransform};

use crate::fault::PartErr;
use crate::sources::source_type;
use schema_types::{
    ColType, PartField, PartFieldList, PartType, Schema, SchemaList, Spec, SpecField, Transform,
};
use sqlite_items::Items;
use std::alloc::{AllocError, Global};

/// The type of a spec's partition values: its fields in order, each with its transform and the type that this
/// gives of its source column's type. That column is taken from the schema with the greatest id that has it.
///
/// `Transform` comes exactly where a transform is unknown, or a source column is in no schema.
pub fn partition_type(alloc: Global, spec: &Spec, schemas: &SchemaList) -> Result<PartType, PartErr>
    ensures typed { IfOk result (λ p. ArePartFields schemas.now spec.now.fields p.fields) }
    ensures untyped { OnTransform result (SomeUntyped schemas.now spec.now.fields) }
{
    Ok(PartType {
        fields: part_fields(alloc, spec.fields.as_slice(), schemas.as_slice())?,
    })
}

fn part_fields(
    alloc: Global,
    fields: &[SpecField],
    schemas: &[Schema],
) -> Result<PartFieldList, PartErr>
    ensures typed { IfOk result (ArePartFields schemas.now fields.now) }
    ensures untyped { OnTransform result (SomeUntyped schemas.now fields.now) }
{
    let mut typed = Items::new(alloc);
    for field in fields {
        typed.push(part_field(alloc, field, schemas)?)?;
    }
    Ok(typed)
}

fn part_field(alloc: Global, field: &SpecField, schemas: &[Schema]) -> Result<PartField, PartErr>
    ensures typed { IfOk result (IsPartField schemas.now field.now) }
    ensures untyped { OnTransform result (IsUntyped schemas.now field.now) }
{
    let Some(source) = source_type(schemas, field.source_id) else {
        return Err(PartErr::Transform);
    };
    let Some(ty) = result_type(alloc, field.transform, source)? else {
        return Err(PartErr::Transform);
    };
    Ok(PartField {
        field_id: field.field_id,
        name: field.name.copy()?,
        ty,
        transform: field.transform,
    })
}

// The type that a transform gives of a source's type.
fn result_type(
    alloc: Global,
    transform: Transform,
    source: &ColType,
) -> Result<Option<ColType>, AllocError>
    ensures { IfOk result (λ t. t ≡ result_type transform source.now) }
{
    Ok(match transform {
        Transform::Identity | Transform::Truncate(_) | Transform::Void => Some(source.copy(alloc)?),
        Transform::Bucket(_) | Transform::Year | Transform::Month | Transform::Hour => Some(
            ColType::Int,
        ),
        Transform::Day => Some(ColType::Date),
        Transform::Unknown => None,
    })
}
