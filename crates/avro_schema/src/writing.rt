// The written spelling of a schema.
ghost use Rattle.std.specs.Prelude.{◌≡◌, ℕ, List, [], ◌∷◌, ◌++◌, map, IfOk, OnOk, Option, option_map, codes, string_bytes};
ghost use Rattle.serde_json.specs.Data.{array, object, string, put, no_members};
ghost use Rattle.serde_json.specs.View.{view, items_view, members_view};
ghost use Rattle.avro_schema.specs.Spelling.{strings};
ghost use Rattle.avro_schema.specs.Writing.{put_id, put_word, put_logical, typed, primitive_tree, fixed_tree, choice_tree, put_map, array_tree, map_tree, record_tree, begins_with_null, put_default, field_tree, once, written_each, written_type, written_field};

use crate::schema::{Field, Logical, Schema};
use crate::text::Text;
use crate::written::WrittenNames;
use serde_json::{Map, Value};
use std::alloc::{AllocError, Global};

/// A text as a JSON value.
pub fn string(alloc: Global, text: &str) -> Result<Value, AllocError>
    ensures { IfOk result (λ v. view v ≡ string text.now) }
{
    Ok(Value::String(String::from_str(alloc, text)?))
}

/// Puts a text under a key of an object.
pub fn put_text(
    members: &mut Map<String, Value>,
    alloc: Global,
    key: &str,
    text: &str,
) -> Result<(), AllocError>
    ensures { OnOk result (members_view members.new.entries ≡ put key.now (string text.now) (members_view members.old.entries)) }
{
    let value = string(alloc, text)?;
    serde_json::put(members, alloc, key, value)
}

#[tactic(auto, unfolding(crate::specs::Writing::put_id))]
fn put_id(
    members: &mut Map<String, Value>,
    alloc: Global,
    key: &str,
    id: Option<i32>,
) -> Result<(), AllocError>
    ensures { OnOk result (members_view members.new.entries ≡ put_id key.now id (members_view members.old.entries)) }
{
    match id {
        Some(id) => serde_json::put(members, alloc, key, Value::from(id)),
        None => Ok(()),
    }
}

#[tactic(auto, unfolding(crate::specs::Writing::put_logical))]
fn put_logical(
    members: &mut Map<String, Value>,
    alloc: Global,
    logical: Logical,
) -> Result<(), AllocError>
    ensures { OnOk result (members_view members.new.entries ≡ put_logical logical (members_view members.old.entries)) }
{
    match logical {
        Logical::Plain => Ok(()),
        Logical::Date => put_text(members, alloc, "logicalType", "date"),
        Logical::TimeMicros => put_text(members, alloc, "logicalType", "time-micros"),
        Logical::TimestampMicros { adjust_to_utc } => {
            put_text(members, alloc, "logicalType", "timestamp-micros")?;
            serde_json::put(members, alloc, "adjust-to-utc", Value::from(adjust_to_utc))
        }
        Logical::Decimal { precision, scale } => {
            put_text(members, alloc, "logicalType", "decimal")?;
            serde_json::put(members, alloc, "precision", Value::from(precision))?;
            serde_json::put(members, alloc, "scale", Value::from(scale))
        }
        Logical::Uuid => put_text(members, alloc, "logicalType", "uuid"),
    }
}

// The members of an object of this type, so far.
fn typed(alloc: Global, word: &str) -> Result<Map<String, Value>, AllocError>
    ensures { IfOk result (λ m. members_view m.entries ≡ typed word.now) }
{
    let mut members = Map::new(alloc);
    put_text(&mut members, alloc, "type", word)?;
    Ok(members)
}

#[tactic(auto, unfolding(crate::specs::Writing::primitive_tree))]
fn primitive_tree(alloc: Global, word: &str, logical: Logical) -> Result<Value, AllocError>
    ensures { IfOk result (λ v. view v ≡ primitive_tree word.now logical) }
{
    if let Logical::Plain = logical {
        return string(alloc, word);
    }
    let mut members = typed(alloc, word)?;
    put_logical(&mut members, alloc, logical)?;
    Ok(Value::Object(members))
}

#[tactic(auto, unfolding(crate::specs::Writing::fixed_tree))]
fn fixed_tree(alloc: Global, name: &str, size: u32, logical: Logical) -> Result<Value, AllocError>
    ensures { IfOk result (λ v. view v ≡ fixed_tree name.now size logical) }
{
    let mut members = typed(alloc, "fixed")?;
    put_text(&mut members, alloc, "name", name)?;
    serde_json::put(&mut members, alloc, "size", Value::from(size))?;
    put_logical(&mut members, alloc, logical)?;
    Ok(Value::Object(members))
}

fn symbol_trees(alloc: Global, symbols: &[Text]) -> Result<Vec<Value>, AllocError>
    ensures { IfOk result (λ v. items_view v.items ≡ strings symbols.now) }
{
    let mut trees = Vec::with_capacity(alloc, symbols.len())?;
    for symbol in symbols {
        trees.push(string(alloc, symbol.as_str())?)?;
    }
    Ok(trees)
}

#[tactic(auto, unfolding(crate::specs::Writing::choice_tree))]
fn choice_tree(alloc: Global, name: &str, symbols: &[Text]) -> Result<Value, AllocError>
    ensures { IfOk result (λ v. view v ≡ choice_tree name.now symbols.now) }
{
    let mut members = typed(alloc, "enum")?;
    put_text(&mut members, alloc, "name", name)?;
    let trees = Value::Array(symbol_trees(alloc, symbols)?);
    serde_json::put(&mut members, alloc, "symbols", trees)?;
    Ok(Value::Object(members))
}

#[tactic(auto, unfolding(crate::specs::Writing::put_map))]
fn put_map(members: &mut Map<String, Value>, alloc: Global, is_map: bool) -> Result<(), AllocError>
    ensures { OnOk result (members_view members.new.entries ≡ put_map is_map (members_view members.old.entries)) }
{
    if is_map {
        put_text(members, alloc, "logicalType", "map")
    } else {
        Ok(())
    }
}

#[tactic(auto, unfolding(crate::specs::Writing::array_tree))]
fn array_tree(
    alloc: Global,
    item: Value,
    element_id: Option<i32>,
    is_map: bool,
) -> Result<Value, AllocError>
    ensures { IfOk result (λ v. view v ≡ array_tree (view item) element_id is_map) }
{
    let mut members = typed(alloc, "array")?;
    serde_json::put(&mut members, alloc, "items", item)?;
    put_map(&mut members, alloc, is_map)?;
    put_id(&mut members, alloc, "element-id", element_id)?;
    Ok(Value::Object(members))
}

#[tactic(auto, unfolding(crate::specs::Writing::map_tree))]
fn map_tree(
    alloc: Global,
    value: Value,
    key_id: Option<i32>,
    value_id: Option<i32>,
) -> Result<Value, AllocError>
    ensures { IfOk result (λ v. view v ≡ map_tree (view value) key_id value_id) }
{
    let mut members = typed(alloc, "map")?;
    serde_json::put(&mut members, alloc, "values", value)?;
    put_id(&mut members, alloc, "key-id", key_id)?;
    put_id(&mut members, alloc, "value-id", value_id)?;
    Ok(Value::Object(members))
}

#[tactic(auto, unfolding(crate::specs::Writing::record_tree))]
fn record_tree(alloc: Global, name: &str, fields: Vec<Value>) -> Result<Value, AllocError>
    ensures { IfOk result (λ v. view v ≡ record_tree name.now (map view fields.items)) }
{
    let mut members = typed(alloc, "record")?;
    put_text(&mut members, alloc, "name", name)?;
    serde_json::put(&mut members, alloc, "fields", Value::Array(fields))?;
    Ok(Value::Object(members))
}

// Whether the tree is of a union that begins with null.
#[tactic(auto, unfolding(crate::specs::Writing::begins_with_null))]
fn begins_with_null(tree: &Value) -> bool
    ensures { result ≡ begins_with_null (view tree.now) }
{
    match tree.get(0usize).and_then(Value::as_str) {
        Some(name) => name == "null",
        None => false,
    }
}

#[tactic(auto, unfolding(crate::specs::Writing::field_tree, crate::specs::Writing::put_default))]
fn field_tree(
    alloc: Global,
    name: &str,
    tree: Value,
    field_id: Option<i32>,
) -> Result<Value, AllocError>
    ensures { IfOk result (λ v. view v ≡ field_tree name.now (view tree) field_id) }
{
    let has_default = begins_with_null(&tree);
    let mut members = Map::new(alloc);
    serde_json::put(&mut members, alloc, "type", tree)?;
    put_text(&mut members, alloc, "name", name)?;
    put_id(&mut members, alloc, "field-id", field_id)?;
    if has_default {
        serde_json::put(&mut members, alloc, "default", Value::Null)?;
    }
    Ok(Value::Object(members))
}

fn write_fixed(
    alloc: Global,
    name: &Text,
    size: u32,
    logical: Logical,
    written: &mut WrittenNames,
) -> Result<Value, AllocError>
    ensures { IfOk result (λ v. once name.now (λ ns. (fixed_tree name.now size logical, ns)) written.old ≡ (view v, written.new)) }
{
    if written.contains(name.as_str()) {
        return string(alloc, name.as_str());
    }
    let tree = fixed_tree(alloc, name.as_str(), size, logical)?;
    written.add(name.copy()?.into_inner())?;
    Ok(tree)
}

fn write_choice(
    alloc: Global,
    name: &Text,
    symbols: &[Text],
    written: &mut WrittenNames,
) -> Result<Value, AllocError>
    ensures { IfOk result (λ v. once name.now (λ ns. (choice_tree name.now symbols.now, ns)) written.old ≡ (view v, written.new)) }
{
    if written.contains(name.as_str()) {
        return string(alloc, name.as_str());
    }
    let tree = choice_tree(alloc, name.as_str(), symbols)?;
    written.add(name.copy()?.into_inner())?;
    Ok(tree)
}

/// The tree of a type, in which a type whose name was written before is that name alone.
#[cycle(write)]
pub(crate) fn write_type(
    alloc: Global,
    schema: &Schema,
    written: &mut WrittenNames,
) -> Result<Value, AllocError>
    ensures { IfOk result (λ v. written_type schema.now written.old ≡ (view v, written.new)) }
{
    match schema {
        Schema::Null => string(alloc, "null"),
        Schema::Bool => string(alloc, "boolean"),
        Schema::Int(logical) => primitive_tree(alloc, "int", *logical),
        Schema::Long(logical) => primitive_tree(alloc, "long", *logical),
        Schema::Float4 => string(alloc, "float"),
        Schema::Float8 => string(alloc, "double"),
        Schema::Blob(logical) => primitive_tree(alloc, "bytes", *logical),
        Schema::Str(logical) => primitive_tree(alloc, "string", *logical),
        Schema::Fix {
            name,
            size,
            logical,
        } => write_fixed(alloc, name, *size, *logical, written),
        Schema::Choice { name, symbols } => write_choice(alloc, name, symbols.as_slice(), written),
        Schema::List {
            item,
            element_id,
            is_map,
        } => {
            let tree = write_type(alloc, item.get(), written)?;
            array_tree(alloc, tree, *element_id, *is_map)
        }
        Schema::Pairs {
            value,
            key_id,
            value_id,
        } => {
            let tree = write_type(alloc, value.get(), written)?;
            map_tree(alloc, tree, *key_id, *value_id)
        }
        Schema::Fields { name, fields } => write_record(alloc, name, fields.as_slice(), written),
        Schema::Union { branches } => Ok(Value::Array(write_branches(
            alloc,
            branches.as_slice(),
            written,
        )?)),
    }
}

#[cycle(write)]
fn write_record(
    alloc: Global,
    name: &Text,
    fields: &[Field],
    written: &mut WrittenNames,
) -> Result<Value, AllocError>
    ensures { IfOk result (λ v. once name.now (λ ns. (record_tree name.now (written_each (map written_field fields.now) ns).0, (written_each (map written_field fields.now) ns).1)) written.old ≡ (view v, written.new)) }
{
    if written.contains(name.as_str()) {
        return string(alloc, name.as_str());
    }
    let trees = write_fields(alloc, fields, written)?;
    let tree = record_tree(alloc, name.as_str(), trees)?;
    written.add(name.copy()?.into_inner())?;
    Ok(tree)
}

#[cycle(write)]
fn write_fields(
    alloc: Global,
    fields: &[Field],
    written: &mut WrittenNames,
) -> Result<Vec<Value>, AllocError>
    ensures { IfOk result (λ v. written_each (map written_field fields.now) written.old ≡ (map view v.items, written.new)) }
{
    let mut trees = Vec::with_capacity(alloc, fields.len())?;
    for field in fields {
        let tree = write_type(alloc, &field.schema, written)?;
        trees.push(field_tree(alloc, field.name.as_str(), tree, field.field_id)?)?;
    }
    Ok(trees)
}

#[cycle(write)]
fn write_branches(
    alloc: Global,
    branches: &[Schema],
    written: &mut WrittenNames,
) -> Result<Vec<Value>, AllocError>
    ensures { IfOk result (λ v. written_each (map written_type branches.now) written.old ≡ (map view v.items, written.new)) }
{
    let mut trees = Vec::with_capacity(alloc, branches.len())?;
    for branch in branches {
        trees.push(write_type(alloc, branch, written)?)?;
    }
    Ok(trees)
}
