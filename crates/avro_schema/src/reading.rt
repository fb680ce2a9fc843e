// Reading a schema from its tree.
ghost use Rattle.std.specs.Prelude.{◌≡◌, ◌-◌, ◌<◌, ◌≤◌, ◌^◌, string_bytes, option_map, map};
ghost use Rattle.serde_json.specs.View.{view, items_view, items_of};
ghost use Rattle.serde_json.specs.Find.{as_str};
ghost use Rattle.avro_schema.specs.Reading.{Reads, Gives, reference, named, new_name, fixed_at, symbol_at, symbols_at, symbols_from, choice_at, each, inner_at, array_at, map_at, field_at, fields_from, record_at, object_at, union_at, level, read};

use crate::attribute::{array_at, id_at, text_at, u32_of};
use crate::fault::{SchemaCause, SchemaErr};
use crate::known::Known;
use crate::limits::{is_within, room_behind};
use crate::logical::{fixed_logical, has_logical};
use crate::names::{Names, last_part};
use crate::path::{fault, fault_at, index_path, key_path};
use crate::primitive::{is_primitive, primitive};
use crate::schema::{Field, FieldList, Schema, SchemaList};
use crate::scope::Scope;
use crate::text::{Text, TextList};
use serde_json::Value;
use sqlite_items::{Boxed, Items};
use std::alloc::Global;

#[tactic(auto, unfolding(crate::specs::Reading::reference))]
fn reference(
    alloc: Global,
    name: &str,
    path: &str,
    most: u32,
    scope: &mut Scope,
) -> Result<Schema, SchemaErr>
    ensures { Reads result scope.new (reference most path.now name.now scope.old) }
{
    match scope.names.find(name) {
        None => Err(fault(alloc, path, SchemaCause::UnknownName)),
        Some(Known::Open) => Err(fault(alloc, path, SchemaCause::Recursive)),
        Some(Known::Defined(schema)) => {
            if !is_within(schema, most) {
                return Err(fault(alloc, path, SchemaCause::TooDeep));
            }
            let Some(room) = room_behind(schema, scope.room) else {
                return Err(fault(alloc, path, SchemaCause::TooWide));
            };
            let copied = schema.copy(alloc)?;
            scope.room = room;
            Ok(copied)
        }
    }
}

// A primitive type with the attributes of the tree, or a type that was defined before.
#[tactic(auto, unfolding(crate::specs::Reading::named))]
fn named(
    alloc: Global,
    name: &str,
    tree: &Value,
    path: &str,
    most: u32,
    scope: &mut Scope,
) -> Result<Schema, SchemaErr>
    ensures { Reads result scope.new (named most path.now name.now (view tree.now) scope.old) }
{
    match primitive(name, tree) {
        Some(schema) => Ok(schema),
        None => reference(alloc, last_part(name), path, most, scope),
    }
}

// The name of a definition.
#[tactic(auto, unfolding(crate::specs::Reading::new_name))]
fn new_name(alloc: Global, tree: &Value, path: &str, names: &Names) -> Result<Text, SchemaErr>
    ensures { Gives result (new_name path.now (view tree.now) names.now) }
{
    let Some(full) = text_at(tree, "name") else {
        return Err(fault_at(alloc, path, "name", SchemaCause::BadForm));
    };
    let name = last_part(full);
    if is_primitive(name) || names.find(name).is_some() {
        return Err(fault_at(alloc, path, "name", SchemaCause::BadForm));
    }
    Ok(Text::new(String::from_str(alloc, name)?))
}

#[tactic(auto, unfolding(crate::specs::Reading::fixed_at))]
fn read_fixed(
    alloc: Global,
    tree: &Value,
    path: &str,
    scope: &mut Scope,
) -> Result<Schema, SchemaErr>
    ensures { Reads result scope.new (fixed_at path.now (view tree.now) scope.old) }
{
    let name = new_name(alloc, tree, path, &scope.names)?;
    let Some(size) = tree.get("size").and_then(u32_of) else {
        return Err(fault_at(alloc, path, "size", SchemaCause::BadForm));
    };
    let schema = Schema::Fix {
        name: name.copy()?,
        size,
        logical: fixed_logical(size, tree),
    };
    scope.define(&name, Known::Defined(schema.copy(alloc)?))?;
    Ok(schema)
}

#[tactic(auto, unfolding(crate::specs::Reading::symbol_at))]
fn read_symbol(alloc: Global, tree: &Value, path: &str) -> Result<Text, SchemaErr>
    ensures { Gives result (symbol_at path.now (view tree.now)) }
{
    match tree.as_str() {
        Some(symbol) => Ok(Text::new(String::from_str(alloc, symbol)?)),
        None => Err(fault(alloc, path, SchemaCause::BadForm)),
    }
}

fn read_symbols(alloc: Global, trees: &[Value], path: &str) -> Result<TextList, SchemaErr>
    ensures { Gives result (symbols_at path.now 0 (items_view trees.now)) }
{
    let mut symbols = Vec::new(alloc);
    for (index, tree) in trees.iter().enumerate() {
        let place = index_path(alloc, path, index)?;
        symbols.push(read_symbol(alloc, tree, place.as_str())?)?;
    }
    Ok(TextList::new(symbols))
}

#[tactic(auto, unfolding(crate::specs::Reading::choice_at))]
fn read_choice(
    alloc: Global,
    tree: &Value,
    path: &str,
    scope: &mut Scope,
) -> Result<Schema, SchemaErr>
    ensures { Reads result scope.new (choice_at path.now (view tree.now) scope.old) }
{
    let name = new_name(alloc, tree, path, &scope.names)?;
    let place = key_path(alloc, path, "symbols")?;
    let Some(trees) = array_at(tree, "symbols") else {
        return Err(fault(alloc, place.as_str(), SchemaCause::BadForm));
    };
    let schema = Schema::Choice {
        name: name.copy()?,
        symbols: read_symbols(alloc, trees.as_slice(), place.as_str())?,
    };
    scope.define(&name, Known::Defined(schema.copy(alloc)?))?;
    Ok(schema)
}

/// A type in which at most `most` types lie within one another.
#[cycle(read)]
pub(crate) fn read_type(
    alloc: Global,
    tree: &Value,
    path: &str,
    most: u32,
    scope: &mut Scope,
) -> Result<Schema, SchemaErr>
    ensures { Reads result scope.new (read most path.now (view tree.now) scope.old) }
{
    if most == 0 {
        return Err(fault(alloc, path, SchemaCause::TooDeep));
    }
    read_level(alloc, tree, path, most, scope)
}

#[cycle(read)]
#[tactic(auto, unfolding(crate::specs::Reading::level))]
fn read_level(
    alloc: Global,
    tree: &Value,
    path: &str,
    most: u32,
    scope: &mut Scope,
) -> Result<Schema, SchemaErr>
    requires { 0 < most }
    ensures { Reads result scope.new (level (read (most - 1)) most path.now (view tree.now) scope.old) }
{
    match tree {
        Value::String(name) => named(alloc, name.as_str(), tree, path, most, scope),
        Value::Array(trees) => read_union(alloc, trees.as_slice(), path, most - 1, scope),
        Value::Object(_) => read_object(alloc, tree, path, most, scope),
        _ => Err(fault(alloc, path, SchemaCause::BadForm)),
    }
}

#[cycle(read)]
#[tactic(auto, unfolding(crate::specs::Reading::object_at))]
fn read_object(
    alloc: Global,
    tree: &Value,
    path: &str,
    most: u32,
    scope: &mut Scope,
) -> Result<Schema, SchemaErr>
    requires { 0 < most }
    ensures { Reads result scope.new (object_at (read (most - 1)) most path.now (view tree.now) scope.old) }
{
    let Some(word) = text_at(tree, "type") else {
        return Err(fault_at(alloc, path, "type", SchemaCause::BadForm));
    };
    if word == "array" {
        read_array(alloc, tree, path, most - 1, scope)
    } else if word == "map" {
        read_map(alloc, tree, path, most - 1, scope)
    } else if word == "record" {
        read_record(alloc, tree, path, most - 1, scope)
    } else if word == "enum" {
        read_choice(alloc, tree, path, scope)
    } else if word == "fixed" {
        read_fixed(alloc, tree, path, scope)
    } else {
        let place = key_path(alloc, path, "type")?;
        named(alloc, word, tree, place.as_str(), most, scope)
    }
}

#[cycle(read)]
#[tactic(auto, unfolding(crate::specs::Reading::inner_at))]
fn read_inner(
    alloc: Global,
    tree: &Value,
    path: &str,
    key: &str,
    left: u32,
    scope: &mut Scope,
) -> Result<Schema, SchemaErr>
    ensures { Reads result scope.new (inner_at (read left) path.now key.now (view tree.now) scope.old) }
{
    let place = key_path(alloc, path, key)?;
    match tree.get(key) {
        Some(inner) => read_type(alloc, inner, place.as_str(), left, scope),
        None => Err(fault(alloc, place.as_str(), SchemaCause::BadForm)),
    }
}

#[cycle(read)]
#[tactic(auto, unfolding(crate::specs::Reading::array_at))]
fn read_array(
    alloc: Global,
    tree: &Value,
    path: &str,
    left: u32,
    scope: &mut Scope,
) -> Result<Schema, SchemaErr>
    ensures { Reads result scope.new (array_at (read left) path.now (view tree.now) scope.old) }
{
    let item = read_inner(alloc, tree, path, "items", left, scope)?;
    Ok(Schema::List {
        item: Boxed::new(alloc, item)?,
        element_id: id_at(tree, "element-id"),
        is_map: has_logical(tree, "map"),
    })
}

#[cycle(read)]
#[tactic(auto, unfolding(crate::specs::Reading::map_at))]
fn read_map(
    alloc: Global,
    tree: &Value,
    path: &str,
    left: u32,
    scope: &mut Scope,
) -> Result<Schema, SchemaErr>
    ensures { Reads result scope.new (map_at (read left) path.now (view tree.now) scope.old) }
{
    let value = read_inner(alloc, tree, path, "values", left, scope)?;
    Ok(Schema::Pairs {
        value: Boxed::new(alloc, value)?,
        key_id: id_at(tree, "key-id"),
        value_id: id_at(tree, "value-id"),
    })
}

#[cycle(read)]
#[tactic(auto, unfolding(crate::specs::Reading::record_at))]
fn read_record(
    alloc: Global,
    tree: &Value,
    path: &str,
    left: u32,
    scope: &mut Scope,
) -> Result<Schema, SchemaErr>
    ensures { Reads result scope.new (record_at (read left) path.now (view tree.now) scope.old) }
{
    let name = new_name(alloc, tree, path, &scope.names)?;
    scope.define(&name, Known::Open)?;
    let place = key_path(alloc, path, "fields")?;
    let Some(trees) = array_at(tree, "fields") else {
        return Err(fault(alloc, place.as_str(), SchemaCause::BadForm));
    };
    let schema = Schema::Fields {
        name: name.copy()?,
        fields: read_fields(alloc, trees.as_slice(), place.as_str(), left, scope)?,
    };
    scope.define(&name, Known::Defined(schema.copy(alloc)?))?;
    Ok(schema)
}

#[cycle(read)]
fn read_fields(
    alloc: Global,
    trees: &[Value],
    path: &str,
    left: u32,
    scope: &mut Scope,
) -> Result<FieldList, SchemaErr>
    ensures { Reads result scope.new (each (field_at (read left)) path.now 0 (items_view trees.now) scope.old) }
{
    let mut fields = Items::new(alloc);
    for (index, tree) in trees.iter().enumerate() {
        let place = index_path(alloc, path, index)?;
        fields.push(read_field(alloc, tree, place.as_str(), left, scope)?)?;
    }
    Ok(fields)
}

#[cycle(read)]
#[tactic(auto, unfolding(crate::specs::Reading::field_at))]
fn read_field(
    alloc: Global,
    tree: &Value,
    path: &str,
    left: u32,
    scope: &mut Scope,
) -> Result<Field, SchemaErr>
    ensures { Reads result scope.new (field_at (read left) path.now (view tree.now) scope.old) }
{
    if scope.room == 0 {
        return Err(fault(alloc, path, SchemaCause::TooWide));
    }
    let Some(name) = text_at(tree, "name") else {
        return Err(fault_at(alloc, path, "name", SchemaCause::BadForm));
    };
    let name = Text::new(String::from_str(alloc, name)?);
    scope.room -= 1;
    let schema = read_inner(alloc, tree, path, "type", left, scope)?;
    Ok(Field {
        name,
        schema,
        field_id: id_at(tree, "field-id"),
    })
}

#[cycle(read)]
#[tactic(auto, unfolding(crate::specs::Reading::union_at))]
fn read_union(
    alloc: Global,
    trees: &[Value],
    path: &str,
    left: u32,
    scope: &mut Scope,
) -> Result<Schema, SchemaErr>
    ensures { Reads result scope.new (union_at (read left) path.now (items_view trees.now) scope.old) }
{
    Ok(Schema::Union {
        branches: read_branches(alloc, trees, path, left, scope)?,
    })
}

#[cycle(read)]
fn read_branches(
    alloc: Global,
    trees: &[Value],
    path: &str,
    left: u32,
    scope: &mut Scope,
) -> Result<SchemaList, SchemaErr>
    ensures { Reads result scope.new (each (read left) path.now 0 (items_view trees.now) scope.old) }
{
    let mut branches = Items::new(alloc);
    for (index, tree) in trees.iter().enumerate() {
        let place = index_path(alloc, path, index)?;
        branches.push(read_type(alloc, tree, place.as_str(), left, scope)?)?;
    }
    Ok(branches)
}
