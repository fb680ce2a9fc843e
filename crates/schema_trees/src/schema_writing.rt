// The tree that is written for a schema.
ghost use Rattle.std.specs.Prelude.{◌≡◌, map, IfOk, OnOk};
ghost use Rattle.serde_json.specs.Data.{boolean, put, string};
ghost use Rattle.serde_json.specs.View.{view, members_view};
ghost use Rattle.schema_trees.specs.TypeWriting.{fixed_text, decimal_text, struct_tree, list_tree, map_tree, column_object, type_tree, column_tree, written_schema};

use crate::spec_writing::put_int;
use avro_schema::{put_text, string};
use schema_types::{ColType, Column, Schema};
use serde_json::{Map, Value};
use std::alloc::{AllocError, Global};

#[tactic(auto, unfolding(crate::specs::TypeWriting::fixed_text))]
fn fixed_text(alloc: Global, length: u32) -> Result<Value, AllocError>
    ensures { IfOk result (λ v. view v ≡ string (fixed_text length)) }
{
    Ok(Value::String(format!(in alloc; "fixed[{length}]")?))
}

#[tactic(auto, unfolding(crate::specs::TypeWriting::decimal_text))]
fn decimal_text(alloc: Global, precision: u32, scale: u32) -> Result<Value, AllocError>
    ensures { IfOk result (λ v. view v ≡ string (decimal_text precision scale)) }
{
    Ok(Value::String(format!(in alloc; "decimal({precision},{scale})")?))
}

fn put_flag(
    members: &mut Map<String, Value>,
    alloc: Global,
    key: &str,
    flag: bool,
) -> Result<(), AllocError>
    ensures { OnOk result (members_view members.new.entries ≡ put key.now (boolean flag) (members_view members.old.entries)) }
{
    serde_json::put(members, alloc, key, Value::from(flag))
}

#[tactic(auto, unfolding(crate::specs::TypeWriting::struct_tree))]
fn struct_tree(alloc: Global, fields: Vec<Value>) -> Result<Value, AllocError>
    ensures { IfOk result (λ v. view v ≡ struct_tree (map view fields.items)) }
{
    let mut members = Map::new(alloc);
    put_text(&mut members, alloc, "type", "struct")?;
    serde_json::put(&mut members, alloc, "fields", Value::Array(fields))?;
    Ok(Value::Object(members))
}

#[tactic(auto, unfolding(crate::specs::TypeWriting::list_tree))]
fn list_tree(
    alloc: Global,
    element_id: i32,
    required: bool,
    element: Value,
) -> Result<Value, AllocError>
    ensures { IfOk result (λ v. view v ≡ list_tree element_id required (view element)) }
{
    let mut members = Map::new(alloc);
    put_text(&mut members, alloc, "type", "list")?;
    serde_json::put(&mut members, alloc, "element", element)?;
    put_int(&mut members, alloc, "element-id", element_id)?;
    put_flag(&mut members, alloc, "element-required", required)?;
    Ok(Value::Object(members))
}

#[tactic(auto, unfolding(crate::specs::TypeWriting::map_tree))]
fn map_tree(
    alloc: Global,
    key_id: i32,
    key: Value,
    value_id: i32,
    required: bool,
    value: Value,
) -> Result<Value, AllocError>
    ensures { IfOk result (λ v. view v ≡ map_tree key_id (view key) value_id required (view value)) }
{
    let mut members = Map::new(alloc);
    put_text(&mut members, alloc, "type", "map")?;
    serde_json::put(&mut members, alloc, "key", key)?;
    put_int(&mut members, alloc, "key-id", key_id)?;
    serde_json::put(&mut members, alloc, "value", value)?;
    put_int(&mut members, alloc, "value-id", value_id)?;
    put_flag(&mut members, alloc, "value-required", required)?;
    Ok(Value::Object(members))
}

#[tactic(auto, unfolding(crate::specs::TypeWriting::column_object))]
fn column_object(
    alloc: Global,
    id: i32,
    name: &str,
    required: bool,
    ty: Value,
) -> Result<Value, AllocError>
    ensures { IfOk result (λ v. view v ≡ column_object id name.now required (view ty)) }
{
    let mut members = Map::new(alloc);
    put_int(&mut members, alloc, "id", id)?;
    put_text(&mut members, alloc, "name", name)?;
    put_flag(&mut members, alloc, "required", required)?;
    serde_json::put(&mut members, alloc, "type", ty)?;
    Ok(Value::Object(members))
}

#[cycle(write)]
fn write_type(alloc: Global, ty: &ColType) -> Result<Value, AllocError>
    ensures { IfOk result (λ v. view v ≡ type_tree ty.now) }
{
    match ty {
        ColType::Boolean => string(alloc, "boolean"),
        ColType::Int => string(alloc, "int"),
        ColType::Long => string(alloc, "long"),
        ColType::Float => string(alloc, "float"),
        ColType::Double => string(alloc, "double"),
        ColType::Decimal { precision, scale } => decimal_text(alloc, *precision, *scale),
        ColType::Date => string(alloc, "date"),
        ColType::Time => string(alloc, "time"),
        ColType::Timestamp => string(alloc, "timestamp"),
        ColType::Timestamptz => string(alloc, "timestamptz"),
        ColType::Str => string(alloc, "string"),
        ColType::Uuid => string(alloc, "uuid"),
        ColType::Fixed(length) => fixed_text(alloc, *length),
        ColType::Binary => string(alloc, "binary"),
        ColType::Struct(columns) => {
            let fields = write_columns(alloc, columns.as_slice())?;
            struct_tree(alloc, fields)
        }
        ColType::List {
            element_id,
            required,
            element,
        } => {
            let element = write_type(alloc, element.get())?;
            list_tree(alloc, *element_id, *required, element)
        }
        ColType::Map {
            key_id,
            key,
            value_id,
            required,
            value,
        } => {
            let key = write_type(alloc, key.get())?;
            let value = write_type(alloc, value.get())?;
            map_tree(alloc, *key_id, key, *value_id, *required, value)
        }
    }
}

#[cycle(write)]
fn write_columns(alloc: Global, columns: &[Column]) -> Result<Vec<Value>, AllocError>
    ensures { IfOk result (λ v. map view v.items ≡ map column_tree columns.now) }
{
    let mut trees = Vec::with_capacity(alloc, columns.len())?;
    for column in columns {
        let ty = write_type(alloc, &column.ty)?;
        trees.push(column_object(alloc, column.id, column.name.as_str(), column.required, ty)?)?;
    }
    Ok(trees)
}

#[tactic(auto, unfolding(crate::specs::TypeWriting::written_schema))]
pub(crate) fn tree_of(alloc: Global, schema: &Schema) -> Result<Value, AllocError>
    ensures { IfOk result (λ v. view v ≡ written_schema schema.now) }
{
    let fields = write_columns(alloc, schema.columns.as_slice())?;
    let mut members = Map::new(alloc);
    serde_json::put(&mut members, alloc, "fields", Value::Array(fields))?;
    put_int(&mut members, alloc, "schema-id", schema.id)?;
    put_text(&mut members, alloc, "type", "struct")?;
    Ok(Value::Object(members))
}
