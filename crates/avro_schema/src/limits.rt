ghost use Rattle.std.specs.Prelude.{◌≡◌, ◌≤◌, ◌↔◌, IsTrue, map};
ghost use Rattle.avro_schema.specs.Form.{form_of, field_form, forms_of, depth, deepest, width, field_widths, branch_widths, room_behind};

use crate::schema::{Field, Schema};

/// Whether at most `most` types of the schema lie within one another.
#[cycle(limits)]
pub fn is_within(schema: &Schema, most: u32) -> bool
    ensures { IsTrue result ↔ (depth (form_of schema.now) ≤ most) }
{
    if most == 0 {
        return false;
    }
    match schema {
        Schema::List { item, .. } => is_within(item.get(), most - 1),
        Schema::Pairs { value, .. } => is_within(value.get(), most - 1),
        Schema::Fields { fields, .. } => are_fields_within(fields.as_slice(), most - 1),
        Schema::Union { branches } => are_branches_within(branches.as_slice(), most - 1),
        _ => true,
    }
}

#[cycle(limits)]
fn are_fields_within(fields: &[Field], most: u32) -> bool
    ensures { IsTrue result ↔ (deepest (forms_of (map field_form fields.now)) ≤ most) }
{
    for field in fields {
        if !is_within(&field.schema, most) {
            return false;
        }
    }
    true
}

#[cycle(limits)]
fn are_branches_within(branches: &[Schema], most: u32) -> bool
    ensures { IsTrue result ↔ (deepest (forms_of (map form_of branches.now)) ≤ most) }
{
    for branch in branches {
        if !is_within(branch, most) {
            return false;
        }
    }
    true
}

/// What is left of a room for record fields behind those of the schema, where they have room.
#[cycle(room)]
pub(crate) fn room_behind(schema: &Schema, room: u32) -> Option<u32>
    ensures { result ≡ room_behind (width (form_of schema.now)) room }
{
    match schema {
        Schema::List { item, .. } => room_behind(item.get(), room),
        Schema::Pairs { value, .. } => room_behind(value.get(), room),
        Schema::Fields { fields, .. } => room_behind_fields(fields.as_slice(), room),
        Schema::Union { branches } => room_behind_branches(branches.as_slice(), room),
        _ => Some(room),
    }
}

#[cycle(room)]
fn room_behind_fields(fields: &[Field], room: u32) -> Option<u32>
    ensures { result ≡ room_behind (field_widths (forms_of (map field_form fields.now))) room }
{
    let mut left = room;
    for field in fields {
        left = room_behind(&field.schema, left.checked_sub(1)?)?;
    }
    Some(left)
}

#[cycle(room)]
fn room_behind_branches(branches: &[Schema], room: u32) -> Option<u32>
    ensures { result ≡ room_behind (branch_widths (forms_of (map form_of branches.now))) room }
{
    let mut left = room;
    for branch in branches {
        left = room_behind(branch, left)?;
    }
    Some(left)
}
