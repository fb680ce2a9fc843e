// How the rows of a file become rows of a schema.
ghost use Rattle.std.specs.Prelude.{◌≡◌, map, if◌then◌else◌, Option, Some, None, IfOk, option_map};
ghost use Rattle.ice_schema.specs.declared.projection.Source.{Source};
ghost use Rattle.ice_schema.specs.declared.projection.Projection.TheVariants.{Array};
ghost use Rattle.ice_schema.specs.Kinds.{null_branch, type_within, fields_of, element_id_of, item_of, value_of};
ghost use Rattle.ice_schema.specs.Projections.{kept, long_projection, decimal_projection, uuid_projection, fixed_projection, nullness, present, absent, source_of, field_source, each_source, record_projection, array_projection, map_projection, entries_from, type_projection, column_source, projection_of};

use crate::kinds;
use crate::kinds::{NullBranch, is_id, null_branch, place_of, type_within};
use crate::projection::{Nullness, Projection, Source, SourceList};
use crate::sizes::decimal_size;
use avro_schema::{Field, Logical, Schema};
use schema_types::{ColType, Column};
use sqlite_items::{Boxed, Items, at};
use std::alloc::{AllocError, Global};

/// How the rows of a file become rows of the current schema (Iceberg table specification, "Schema Evolution").
///
/// Columns, elements, keys and values are found by their ids. None comes exactly where one of them is
/// neither in the file with the same type, nor an int that is wanted as a long, nor lacking and not
/// required, or where it is required and may be null in the file.
pub fn projects(
    alloc: Global,
    file: &Schema,
    current: &schema_types::Schema,
) -> Result<Option<Projection>, AllocError>
    ensures projected { IfOk result (λ p. p ≡ projection_of file.now current.now) }
{
    let fields = kinds::fields_of(file).unwrap_or(&[]);
    match project_columns(alloc, current.columns.as_slice(), fields)? {
        Some(sources) => Ok(Some(Projection::Record(sources))),
        None => Ok(None),
    }
}

fn kept(is_same: bool) -> Option<Projection>
    ensures { result ≡ kept is_same }
{
    if is_same {
        Some(Projection::Kept)
    } else {
        None
    }
}

fn long_projection(file: &Schema) -> Option<Projection>
    ensures { result ≡ long_projection file.now }
{
    if kinds::is_plain(kinds::long_of(file)) {
        Some(Projection::Kept)
    } else if kinds::is_plain(kinds::int_of(file)) {
        Some(Projection::Widened)
    } else {
        None
    }
}

fn decimal_projection(file: &Schema, precision: u32, scale: u32) -> Option<Projection>
    ensures { result ≡ decimal_projection precision scale file.now }
{
    let is_same = kinds::is_decimal(precision, scale, kinds::fixed_of(file));
    kept(is_same && kinds::size_of(file) == decimal_size(precision))
}

fn uuid_projection(file: &Schema) -> Option<Projection>
    ensures { result ≡ uuid_projection file.now }
{
    kept(kinds::is_uuid(kinds::fixed_of(file)) && kinds::size_of(file) == 16)
}

fn fixed_projection(file: &Schema, size: u32) -> Option<Projection>
    ensures { result ≡ fixed_projection size file.now }
{
    kept(kinds::is_plain(kinds::fixed_of(file)) && kinds::size_of(file) == size)
}

// How null is taken over: what is required may not be null in the file.
fn nullness(required: bool, null: NullBranch) -> Option<Nullness>
    ensures { result ≡ nullness required null }
{
    match null {
        NullBranch::Nowhere => Some(if required {
            Nullness::Required
        } else {
            Nullness::Wrapped
        }),
        NullBranch::First => if required {
            None
        } else {
            Some(Nullness::NullFirst)
        },
        NullBranch::Second => if required {
            None
        } else {
            Some(Nullness::NullSecond)
        },
    }
}

fn absent(required: bool) -> Option<Source>
    ensures { result ≡ absent required }
{
    if required { None } else { Some(Source::Absent) }
}

fn array_of(alloc: Global, item: Option<Source>) -> Result<Option<Projection>, AllocError>
    ensures { IfOk result (λ p. p ≡ option_map Array item) }
{
    match item {
        Some(item) => Ok(Some(Projection::Array(Boxed::new(alloc, item)?))),
        None => Ok(None),
    }
}

// An array of records of a key and a value.
fn entries_of(
    alloc: Global,
    key: Option<Source>,
    value: Option<Source>,
) -> Result<Option<Projection>, AllocError>
    ensures { IfOk result (λ p. p ≡ entries_from key value) }
{
    let (Some(key), Some(value)) = (key, value) else {
        return Ok(None);
    };
    let mut sources = Items::new(alloc);
    sources.push(key)?;
    sources.push(value)?;
    let entry = Source::Present {
        place: 0,
        nullness: Nullness::Required,
        value: Projection::Record(sources),
    };
    array_of(alloc, Some(entry))
}

/// How a value of a file's type becomes one of a wanted type, apart from null: it stays, or an int becomes a long, and within
/// records, arrays and maps the same holds of what has an id. None comes exactly where it doesn't.
#[cycle(projecting)]
pub fn project_type(
    alloc: Global,
    ty: &ColType,
    file: &Schema,
) -> Result<Option<Projection>, AllocError>
    ensures { IfOk result (λ p. p ≡ type_projection ty.now file.now) }
{
    match ty {
        ColType::Boolean => Ok(kept(kinds::is_boolean(file))),
        ColType::Int => Ok(kept(kinds::is_plain(kinds::int_of(file)))),
        ColType::Long => Ok(long_projection(file)),
        ColType::Float => Ok(kept(kinds::is_float(file))),
        ColType::Double => Ok(kept(kinds::is_double(file))),
        ColType::Decimal { precision, scale } => Ok(decimal_projection(file, *precision, *scale)),
        ColType::Date => Ok(kept(kinds::is_date(kinds::int_of(file)))),
        ColType::Time => Ok(kept(kinds::is_time(kinds::long_of(file)))),
        ColType::Timestamp => Ok(kept(kinds::is_timestamp(kinds::long_of(file)))),
        ColType::Timestamptz => Ok(kept(kinds::is_timestamptz(kinds::long_of(file)))),
        ColType::Str => Ok(kept(kinds::is_plain(kinds::string_of(file)))),
        ColType::Uuid => Ok(uuid_projection(file)),
        ColType::Fixed(length) => Ok(fixed_projection(file, *length)),
        ColType::Binary => Ok(kept(kinds::is_plain(kinds::bytes_of(file)))),
        ColType::Struct(columns) => project_record(alloc, columns.as_slice(), file),
        ColType::List {
            element_id,
            required,
            element,
        } => project_list(alloc, element.get(), *element_id, *required, file),
        ColType::Map {
            key_id,
            key,
            value_id,
            required,
            value,
        } => {
            let strings = Schema::Str(Logical::Plain);
            if project_type(alloc, key.get(), &strings)?.is_some() {
                return project_map(alloc, value.get(), *key_id, *value_id, *required, file);
            }
            let Some(fields) = kinds::entries_of(file) else {
                return Ok(None);
            };
            let key = project_field(alloc, key.get(), *key_id, true, fields)?;
            let value = project_field(alloc, value.get(), *value_id, *required, fields)?;
            entries_of(alloc, key, value)
        }
    }
}

#[cycle(projecting)]
fn project_list(
    alloc: Global,
    element: &ColType,
    element_id: i32,
    required: bool,
    file: &Schema,
) -> Result<Option<Projection>, AllocError>
    ensures { IfOk result (λ p. p ≡ array_projection element_id required (type_projection element.now) (element_id_of file.now) (item_of file.now)) }
{
    let Some(item) = kinds::item_of(file) else {
        return Ok(None);
    };
    let is_there = is_id(element_id, kinds::element_id_of(file));
    let item = project_lone(alloc, element, required, is_there, item)?;
    array_of(alloc, item)
}

// An Avro map, whose keys are strings.
#[cycle(projecting)]
fn project_map(
    alloc: Global,
    value: &ColType,
    key_id: i32,
    value_id: i32,
    required: bool,
    file: &Schema,
) -> Result<Option<Projection>, AllocError>
    ensures { IfOk result (λ p. p ≡ map_projection key_id value_id required (type_projection value.now) file.now (value_of file.now)) }
{
    let Some(values) = kinds::value_of(file) else {
        return Ok(None);
    };
    if !is_id(key_id, kinds::key_id_of(file)) {
        return Ok(None);
    }
    let is_there = is_id(value_id, kinds::value_id_of(file));
    match project_lone(alloc, value, required, is_there, values)? {
        Some(value) => Ok(Some(Projection::Map(Boxed::new(alloc, value)?))),
        None => Ok(None),
    }
}

// Where the one item of an array or value of a map comes from.
#[cycle(projecting)]
fn project_lone(
    alloc: Global,
    ty: &ColType,
    required: bool,
    is_there: bool,
    schema: &Schema,
) -> Result<Option<Source>, AllocError>
    ensures { IfOk result (λ s. s ≡ source_of required (type_projection ty.now) 0 (if is_there then Some schema.now else None)) }
{
    if is_there {
        project_present(alloc, ty, required, 0, schema)
    } else {
        Ok(absent(required))
    }
}

// Where a value comes from that is at a place of the file.
#[cycle(projecting)]
fn project_present(
    alloc: Global,
    ty: &ColType,
    required: bool,
    place: usize,
    schema: &Schema,
) -> Result<Option<Source>, AllocError>
    ensures { IfOk result (λ s. s ≡ present place (nullness required (null_branch schema.now)) (type_projection ty.now (type_within schema.now))) }
{
    let Some(nullness) = nullness(required, null_branch(schema)) else {
        return Ok(None);
    };
    let Some(value) = project_type(alloc, ty, type_within(schema))? else {
        return Ok(None);
    };
    Ok(Some(Source::Present {
        place,
        nullness,
        value,
    }))
}

// Where a value comes from among the fields of a record.
#[cycle(projecting)]
fn project_field(
    alloc: Global,
    ty: &ColType,
    id: i32,
    required: bool,
    fields: &[Field],
) -> Result<Option<Source>, AllocError>
    ensures { IfOk result (λ s. s ≡ field_source id required (type_projection ty.now) fields.now) }
{
    let place = place_of(fields, id);
    match at(fields, place) {
        Some(field) => project_present(alloc, ty, required, place, &field.schema),
        None => Ok(absent(required)),
    }
}

#[cycle(projecting)]
fn project_column(
    alloc: Global,
    column: &Column,
    fields: &[Field],
) -> Result<Option<Source>, AllocError>
    ensures { IfOk result (λ s. s ≡ column_source column.now fields.now) }
{
    project_field(alloc, &column.ty, column.id, column.required, fields)
}

// Where the value of each column comes from among the fields of a record.
#[cycle(projecting)]
fn project_columns(
    alloc: Global,
    columns: &[Column],
    fields: &[Field],
) -> Result<Option<SourceList>, AllocError>
    ensures { IfOk result (λ s. s ≡ each_source fields.now (map column_source columns.now)) }
{
    let mut sources = Items::new(alloc);
    for column in columns {
        let Some(source) = project_column(alloc, column, fields)? else {
            return Ok(None);
        };
        sources.push(source)?;
    }
    Ok(Some(sources))
}

#[cycle(projecting)]
fn project_record(
    alloc: Global,
    columns: &[Column],
    file: &Schema,
) -> Result<Option<Projection>, AllocError>
    ensures { IfOk result (λ p. p ≡ record_projection (map column_source columns.now) (fields_of file.now)) }
{
    let Some(fields) = kinds::fields_of(file) else {
        return Ok(None);
    };
    match project_columns(alloc, columns, fields)? {
        Some(sources) => Ok(Some(Projection::Record(sources))),
        None => Ok(None),
    }
}
