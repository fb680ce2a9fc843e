// The Avro schema of a table's rows (Iceberg table specification, Appendix A, "Avro").
ghost use Rattle.std.specs.Prelude.{◌≡◌, map, Option, IfOk, codes, string_bytes};
ghost use Rattle.avro_schema.specs.declared.schema.Logical.TheVariants.{TimestampMicros, Decimal};
ghost use Rattle.avro_schema.specs.declared.schema.Schema.TheVariants.{Long, Fix, List as Array};
ghost use Rattle.ice_schema.specs.Names.{fixed_name};
ghost use Rattle.ice_schema.specs.Mapping.{decimal_size, optional, field_of, entries_of, map_of, avro_type, avro_field, optional_field, rows_schema};

use crate::names::{entry_name, field_name, fixed_name, record_name};
use crate::sizes::decimal_size;
use avro_schema::{Field, FieldList, Logical, Schema, Text};
use schema_types::{ColType, Column};
use sqlite_items::{Boxed, Items};
use std::alloc::{AllocError, Global};

/// The Avro schema of a table's rows: a record, named `table`, of the columns' fields in order.
pub fn to_avro(alloc: Global, schema: &schema_types::Schema) -> Result<Schema, AllocError>
    ensures mapped { IfOk result (λ s. s ≡ rows_schema schema.now) }
{
    Ok(Schema::Fields {
        name: text(alloc, "table")?,
        fields: avro_fields(alloc, schema.columns.as_slice())?,
    })
}

/// The field of values of this type that may be null, under an id, and named as a column of this id and name is.
pub fn optional_field(
    alloc: Global,
    id: i32,
    name: &Text,
    ty: &ColType,
) -> Result<Field, AllocError>
    ensures { IfOk result (λ f. f ≡ optional_field id name.now ty.now) }
{
    let schema = avro_type(alloc, ty, id)?;
    Ok(Field {
        name: field_name(alloc, id, name)?,
        schema: optional(alloc, false, schema)?,
        field_id: Some(id),
    })
}

fn text(alloc: Global, text: &str) -> Result<Text, AllocError>
    ensures { IfOk result (λ t. t ≡ text.now) }
{
    Ok(Text::new(String::from_str(alloc, text)?))
}

// What may be null is a union that begins with null.
fn optional(alloc: Global, required: bool, schema: Schema) -> Result<Schema, AllocError>
    ensures { IfOk result (λ s. s ≡ optional required schema) }
{
    if required {
        return Ok(schema);
    }
    let mut branches = Items::new(alloc);
    branches.push(Schema::Null)?;
    branches.push(schema)?;
    Ok(Schema::Union { branches })
}

fn fixed(alloc: Global, id: i32, size: u32, logical: Logical) -> Result<Schema, AllocError>
    ensures { IfOk result (λ s. s ≡ Fix (fixed_name id) size logical) }
{
    Ok(Schema::Fix {
        name: fixed_name(alloc, id)?,
        size,
        logical,
    })
}

fn decimal(alloc: Global, id: i32, precision: u32, scale: u32) -> Result<Schema, AllocError>
    ensures { IfOk result (λ s. s ≡ Fix (fixed_name id) (decimal_size precision) (Decimal precision scale)) }
{
    let size = decimal_size(precision);
    fixed(alloc, id, size, Logical::Decimal { precision, scale })
}

// Microseconds since 1970.
fn moment(adjust_to_utc: bool) -> Schema
    ensures { result ≡ Long (TimestampMicros adjust_to_utc) }
{
    Schema::Long(Logical::TimestampMicros { adjust_to_utc })
}

fn array(
    alloc: Global,
    item: Schema,
    element_id: Option<i32>,
    is_map: bool,
) -> Result<Schema, AllocError>
    ensures { IfOk result (λ s. s ≡ Array item element_id is_map) }
{
    Ok(Schema::List {
        item: Boxed::new(alloc, item)?,
        element_id,
        is_map,
    })
}

fn entries_of(
    alloc: Global,
    key_id: i32,
    key: Schema,
    value_id: i32,
    value: Schema,
) -> Result<Schema, AllocError>
    ensures { IfOk result (λ s. s ≡ entries_of key_id key value_id value) }
{
    let mut fields = Items::new(alloc);
    fields.push(Field {
        name: text(alloc, "key")?,
        schema: key,
        field_id: Some(key_id),
    })?;
    fields.push(Field {
        name: text(alloc, "value")?,
        schema: value,
        field_id: Some(value_id),
    })?;
    let entry = Schema::Fields {
        name: entry_name(alloc, key_id, value_id)?,
        fields,
    };
    array(alloc, entry, None, true)
}

// A map: an Avro map where its keys are strings.
fn map_of(
    alloc: Global,
    key_id: i32,
    key: Schema,
    value_id: i32,
    value: Schema,
) -> Result<Schema, AllocError>
    ensures { IfOk result (λ s. s ≡ map_of key_id key value_id value) }
{
    if let Schema::Str(_) = &key {
        return Ok(Schema::Pairs {
            value: Boxed::new(alloc, value)?,
            key_id: Some(key_id),
            value_id: Some(value_id),
        });
    }
    entries_of(alloc, key_id, key, value_id, value)
}

#[cycle(mapping)]
fn avro_type(alloc: Global, ty: &ColType, id: i32) -> Result<Schema, AllocError>
    ensures { IfOk result (λ s. s ≡ avro_type ty.now id) }
{
    match ty {
        ColType::Boolean => Ok(Schema::Bool),
        ColType::Int => Ok(Schema::Int(Logical::Plain)),
        ColType::Long => Ok(Schema::Long(Logical::Plain)),
        ColType::Float => Ok(Schema::Float4),
        ColType::Double => Ok(Schema::Float8),
        ColType::Decimal { precision, scale } => decimal(alloc, id, *precision, *scale),
        ColType::Date => Ok(Schema::Int(Logical::Date)),
        ColType::Time => Ok(Schema::Long(Logical::TimeMicros)),
        ColType::Timestamp => Ok(moment(false)),
        ColType::Timestamptz => Ok(moment(true)),
        ColType::Str => Ok(Schema::Str(Logical::Plain)),
        ColType::Uuid => fixed(alloc, id, 16, Logical::Uuid),
        ColType::Fixed(length) => fixed(alloc, id, *length, Logical::Plain),
        ColType::Binary => Ok(Schema::Blob(Logical::Plain)),
        ColType::Struct(columns) => Ok(Schema::Fields {
            name: record_name(alloc, id)?,
            fields: avro_fields(alloc, columns.as_slice())?,
        }),
        ColType::List {
            element_id,
            required,
            element,
        } => {
            let item = avro_type(alloc, element.get(), *element_id)?;
            let item = optional(alloc, *required, item)?;
            array(alloc, item, Some(*element_id), false)
        }
        ColType::Map {
            key_id,
            key,
            value_id,
            required,
            value,
        } => {
            let key = avro_type(alloc, key.get(), *key_id)?;
            let value = avro_type(alloc, value.get(), *value_id)?;
            let value = optional(alloc, *required, value)?;
            map_of(alloc, *key_id, key, *value_id, value)
        }
    }
}

#[cycle(mapping)]
fn avro_field(alloc: Global, column: &Column) -> Result<Field, AllocError>
    ensures { IfOk result (λ f. f ≡ avro_field column.now) }
{
    let schema = avro_type(alloc, &column.ty, column.id)?;
    let schema = optional(alloc, column.required, schema)?;
    Ok(Field {
        name: field_name(alloc, column.id, &column.name)?,
        schema,
        field_id: Some(column.id),
    })
}

#[cycle(mapping)]
fn avro_fields(alloc: Global, columns: &[Column]) -> Result<FieldList, AllocError>
    ensures { IfOk result (λ fs. fs ≡ map avro_field columns.now) }
{
    let mut fields = Items::new(alloc);
    for column in columns {
        fields.push(avro_field(alloc, column)?)?;
    }
    Ok(fields)
}
