//! What is wrong with the record of partitions in a file's schema.

ghost use Rattle.std.specs.Prelude.{◌≡◌, None, IfOk};
ghost use Rattle.std.specs.Option.{option_copied};
ghost use Rattle.manifest_parts.specs.Parts.{takes_int, fits_type, fits, own_fault, part_fault};

use avro_schema::{Field, Schema};
use ice_schema::{ColType, PartField, PartType, Transform, project_type};
use manifest_columns::{schema_of, smaller, type_of};
use std::alloc::{AllocError, Global};

// Whether an int is taken whatever the type is: a day is one, and in place of what is always null there may be one.
fn takes_int(transform: Transform) -> bool
    ensures { result ≡ takes_int transform }
{
    match transform {
        Transform::Day | Transform::Void => true,
        Transform::Identity
        | Transform::Bucket(_)
        | Transform::Truncate(_)
        | Transform::Year
        | Transform::Month
        | Transform::Hour
        | Transform::Unknown => false,
    }
}

fn fits_type(alloc: Global, ty: &ColType, schema: &Schema) -> Result<bool, AllocError>
    ensures { IfOk result (λ b. b ≡ fits_type ty.now schema.now) }
{
    Ok(project_type(alloc, ty, schema)?.is_some())
}

fn fits(alloc: Global, field: &PartField, values: Option<&Schema>) -> Result<bool, AllocError>
    ensures { IfOk result (λ b. b ≡ fits field.now (option_copied values.entry)) }
{
    let Some(schema) = values else {
        return Ok(false);
    };
    if fits_type(alloc, &field.ty, schema)? {
        return Ok(true);
    }
    if takes_int(field.transform) {
        let int = ColType::Int;
        fits_type(alloc, &int, schema)
    } else {
        Ok(false)
    }
}

fn own_fault(
    alloc: Global,
    field: &PartField,
    found: Option<&Schema>,
) -> Result<Option<i32>, AllocError>
    ensures { IfOk result (λ id. id ≡ own_fault field.now (option_copied found.entry)) }
{
    let Some(schema) = found else {
        return Ok(None);
    };
    if fits(alloc, field, type_of(true, schema))? {
        Ok(None)
    } else {
        Ok(Some(field.field_id))
    }
}

/// The smallest id of the partition type's fields that has another type in a record with these fields. One that the record
/// lacks is null, as each field of a partition may be.
pub fn part_fault(
    alloc: Global,
    fields: &[Field],
    part: &PartType,
) -> Result<Option<i32>, AllocError>
    ensures { IfOk result (λ id. id ≡ part_fault None part.now.fields fields.now) }
{
    let mut least = None;
    for field in part.fields.as_slice() {
        let own = own_fault(alloc, field, schema_of(fields, field.field_id))?;
        least = smaller(least, own);
    }
    Ok(least)
}
