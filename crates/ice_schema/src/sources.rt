// The columns that partition values are made from.
ghost use Rattle.std.specs.Prelude.{◌≡◌, map, is_some};
ghost use Rattle.std.specs.Option.{option_copied};
ghost use Rattle.ice_schema.specs.Sources.{looked_type, looked_column, type_in, has_column, later_of, source_type};

use schema_types::{ColType, Column, Schema};

// The type of the first column with this id within a type.
#[cycle(sources)]
fn find_in_type(ty: &ColType, id: i32) -> Option<&ColType>
    ensures { option_copied result ≡ (looked_type id ty.now).1 }
{
    match ty {
        ColType::Struct(columns) => find_in_columns(columns.as_slice(), id),
        ColType::List { element, .. } => find_in_type(element.get(), id),
        ColType::Map { key, value, .. } => match find_in_type(key.get(), id) {
            Some(found) => Some(found),
            None => find_in_type(value.get(), id),
        },
        _ => None,
    }
}

// The same of a column, itself first.
#[cycle(sources)]
#[tactic(auto, using(crate::proofs::Looking::found_in))]
fn find_in_column(column: &Column, id: i32) -> Option<&ColType>
    ensures { option_copied result ≡ (looked_column id column.now).1 }
{
    if column.id == id {
        Some(&column.ty)
    } else {
        find_in_type(&column.ty, id)
    }
}

// The type of the first column with this id, at any depth.
#[cycle(sources)]
fn find_in_columns(columns: &[Column], id: i32) -> Option<&ColType>
    ensures { option_copied result ≡ type_in id columns.now }
{
    for column in columns {
        if let Some(found) = find_in_column(column, id) {
            return Some(found);
        }
    }
    None
}

fn has_column(schema: &Schema, id: i32) -> bool
    ensures { result ≡ has_column id schema.now }
{
    find_in_columns(schema.columns.as_slice(), id).is_some()
}

// The schema with the greater id.
fn later_of<'a>(best: Option<&'a Schema>, schema: &'a Schema) -> &'a Schema
    ensures { result.now ≡ later_of (option_copied best.entry) schema.now }
{
    match best {
        Some(best) if best.id >= schema.id => best,
        _ => schema,
    }
}

/// The type of a source column, from the schema with the greatest id that has it.
pub(crate) fn source_type(schemas: &[Schema], id: i32) -> Option<&ColType>
    ensures { option_copied result ≡ source_type id schemas.now }
{
    let mut best = None;
    for schema in schemas {
        if has_column(schema, id) {
            best = Some(later_of(best, schema));
        }
    }
    find_in_columns(best?.columns.as_slice(), id)
}
