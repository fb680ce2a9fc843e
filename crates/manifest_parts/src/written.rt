//! The fields of a written partition.

ghost use Rattle.std.specs.Prelude.{◌≡◌, IfOk, map};
ghost use Rattle.manifest_parts.specs.Parts.{written_part_field};
ghost use Rattle.manifest_parts.specs.Laws.{WrittenPartsHaveNoFault, WrittenPartsAreInOrder};

use avro_schema::FieldList;
use ice_schema::{PartType, optional_field};
use sqlite_items::Items;
use std::alloc::{AllocError, Global};

/// The fields that a written record of partitions has, in the order of the partition type: each may be null, and is named as
/// a column of its id and name is.
pub fn written_part_fields(alloc: Global, part: &PartType) -> Result<FieldList, AllocError>
    ensures { IfOk result (λ fs. fs ≡ map written_part_field part.now.fields) }
{
    let mut fields = Items::new(alloc);
    for field in part.fields.as_slice() {
        fields.push(optional_field(alloc, field.field_id, &field.name, &field.ty)?)?;
    }
    Ok(fields)
}

/// The fields that are written for a partition type have no fault, where its ids are distinct and its types have none
/// within them.
pub fn written_parts_have_no_fault()
    ensures { WrittenPartsHaveNoFault }
{}

/// The fields that are written for a partition type are found in their order, where its ids are distinct.
pub fn written_parts_are_in_order()
    ensures { WrittenPartsAreInOrder }
{}
