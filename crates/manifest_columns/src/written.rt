//! The schema that is written.

ghost use Rattle.std.specs.Prelude.{◌≡◌, [], ◌∷◌, IfOk, map};
ghost use Rattle.avro_schema.specs.declared.schema.Schema.TheVariants as types;
ghost use Rattle.avro_schema.specs.declared.schema.Logical.TheVariants.{Plain};
ghost use Rattle.manifest_columns.specs.Name.{name_of, record_name_of};
ghost use Rattle.manifest_columns.specs.Tables.{written_summary_columns};
ghost use Rattle.manifest_columns.specs.Written.{plain_type, nullable, field, plain_field, pair_type, written_type, written_field, written_record};

use crate::column::{Column, Kind};
use crate::name::{Name, RecordName};
use crate::tables::written_summary_columns;
use avro_schema::{Field, FieldList, Logical, Schema, Text};
use sqlite_items::{Boxed, Items};
use std::alloc::{AllocError, Global};

fn plain_type(kind: Kind) -> Schema
    ensures { result ≡ plain_type kind }
{
    match kind {
        Kind::Bool => Schema::Bool,
        Kind::Int => Schema::Int(Logical::Plain),
        Kind::Long => Schema::Long(Logical::Plain),
        Kind::Text => Schema::Str(Logical::Plain),
        Kind::Bytes => Schema::Blob(Logical::Plain),
        Kind::Longs { .. }
        | Kind::Ints { .. }
        | Kind::IntLongs { .. }
        | Kind::IntBytes { .. }
        | Kind::Summaries { .. }
        | Kind::Record { .. } => Schema::Null,
    }
}

fn nullable(alloc: Global, may_lack: bool, schema: Schema) -> Result<Schema, AllocError>
    ensures { IfOk result (λ s. s ≡ nullable may_lack schema) }
{
    if !may_lack {
        return Ok(schema);
    }
    let mut branches = Items::new(alloc);
    branches.push(Schema::Null)?;
    branches.push(schema)?;
    Ok(Schema::Union { branches })
}

fn text_of(alloc: Global, name: &str) -> Result<Text, AllocError>
    ensures { IfOk result (λ t. t ≡ name.now) }
{
    Ok(Text::new(String::from_str(alloc, name)?))
}

fn field(alloc: Global, name: Name, id: i32, schema: Schema) -> Result<Field, AllocError>
    ensures { IfOk result (λ f. f ≡ field name id schema) }
{
    Ok(Field {
        name: text_of(alloc, name.spelling())?,
        schema,
        field_id: Some(id),
    })
}

fn plain_field(alloc: Global, column: Column) -> Result<Field, AllocError>
    ensures { IfOk result (λ f. f ≡ plain_field column) }
{
    let schema = nullable(alloc, column.may_lack, plain_type(column.kind))?;
    field(alloc, column.name, column.id, schema)
}

fn record_of(alloc: Global, name: RecordName, fields: FieldList) -> Result<Schema, AllocError>
    ensures { IfOk result (λ s. s ≡ types.Fields (record_name_of name) fields) }
{
    Ok(Schema::Fields {
        name: text_of(alloc, name.spelling())?,
        fields,
    })
}

fn list_of(
    alloc: Global,
    item: Schema,
    element_id: Option<i32>,
    is_map: bool,
) -> Result<Schema, AllocError>
    ensures { IfOk result (λ s. s ≡ types.List item element_id is_map) }
{
    Ok(Schema::List {
        item: Boxed::new(alloc, item)?,
        element_id,
        is_map,
    })
}

fn pair_type(
    alloc: Global,
    key: i32,
    value: i32,
    kind: Kind,
    name: RecordName,
) -> Result<Schema, AllocError>
    ensures { IfOk result (λ s. s ≡ pair_type key value kind name) }
{
    let mut fields = Items::new(alloc);
    fields.push(field(alloc, Name::Key, key, Schema::Int(Logical::Plain))?)?;
    fields.push(field(alloc, Name::Value, value, plain_type(kind))?)?;
    list_of(alloc, record_of(alloc, name, fields)?, None, true)
}

fn summary_fields(alloc: Global) -> Result<FieldList, AllocError>
    ensures { IfOk result (λ fs. fs ≡ map plain_field written_summary_columns) }
{
    let mut fields = Items::new(alloc);
    for column in &written_summary_columns() {
        fields.push(plain_field(alloc, *column)?)?;
    }
    Ok(fields)
}

fn written_type(alloc: Global, kind: Kind) -> Result<Schema, AllocError>
    ensures { IfOk result (λ s. s ≡ written_type kind) }
{
    match kind {
        Kind::Longs { element } => { list_of(alloc, plain_type(Kind::Long), Some(element), false) }
        Kind::Ints { element } => list_of(alloc, plain_type(Kind::Int), Some(element), false),
        Kind::IntLongs { key, value, record } => {
            pair_type(alloc, key, value, Kind::Long, record)
        }
        Kind::IntBytes { key, value, record } => {
            pair_type(alloc, key, value, Kind::Bytes, record)
        }
        Kind::Summaries { element, record } => {
            let item = record_of(alloc, record, summary_fields(alloc)?)?;
            list_of(alloc, item, Some(element), false)
        }
        Kind::Record { record } => record_of(alloc, record, Items::new(alloc)),
        Kind::Bool | Kind::Int | Kind::Long | Kind::Text | Kind::Bytes => Ok(plain_type(kind)),
    }
}

/// The field that is written for a column: a union with null first where it may lack (Apache Iceberg specification,
/// Appendix A, "Avro"). A record has no fields here.
pub fn written_field(alloc: Global, column: Column) -> Result<Field, AllocError>
    ensures { IfOk result (λ f. f ≡ written_field column) }
{
    let schema = nullable(alloc, column.may_lack, written_type(alloc, column.kind)?)?;
    field(alloc, column.name, column.id, schema)
}

/// The fields that are written for these columns.
pub fn written_fields(alloc: Global, columns: &[Column]) -> Result<FieldList, AllocError>
    ensures { IfOk result (λ fs. fs ≡ map written_field columns.now) }
{
    let mut fields = Items::new(alloc);
    for column in columns {
        fields.push(written_field(alloc, *column)?)?;
    }
    Ok(fields)
}

/// The record that is written for these columns.
pub fn written_record(
    alloc: Global,
    name: RecordName,
    columns: &[Column],
) -> Result<Schema, AllocError>
    ensures { IfOk result (λ s. s ≡ written_record name columns.now) }
{
    record_of(alloc, name, written_fields(alloc, columns)?)
}
