//! Fields of a file's schema, found by id.

ghost use Rattle.std.specs.Prelude.{◌≡◌};
ghost use Rattle.std.specs.Option.{option_copied};
ghost use Rattle.manifest_columns.specs.Places.{is_id, place_of, schema_of};

use avro_schema::{Field, Schema};

pub(crate) fn is_id(id: i32, found: Option<i32>) -> bool
    ensures { result ≡ is_id id found }
{
    match found {
        Some(x) => x == id,
        None => false,
    }
}

/// The place of the first field with the id (Apache Iceberg specification, "Column Projection").
pub fn place_of(fields: &[Field], id: i32) -> Option<usize>
    ensures { result ≡ place_of id fields.now }
{
    for place in 0..fields.len() {
        if is_id(id, fields[place].field_id) {
            return Some(place);
        }
    }
    None
}

/// The schema of the first field with the id.
pub fn schema_of(fields: &[Field], id: i32) -> Option<&Schema>
    ensures { option_copied result ≡ schema_of id fields.now }
{
    for field in fields {
        if is_id(id, field.field_id) {
            return Some(&field.schema);
        }
    }
    None
}
