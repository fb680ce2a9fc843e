//! Types of a file's schema.

ghost use Rattle.std.specs.Prelude.{◌≡◌, option_map};
ghost use Rattle.std.specs.Option.{option_copied};
ghost use Rattle.avro_schema.specs.declared.schema.Schema.{out-Schema};
ghost use Rattle.manifest_columns.specs.Shapes.{is_plain, is_null, other_branch, beside_null, in_union, type_of, item_of, item_under, fields_of, item_fields, is_bool, is_int, is_long, is_text, is_bytes, has_kind};

use crate::column::Kind;
use crate::places::is_id;
use avro_schema::{Field, Logical, Schema};

fn is_plain(logical: Logical) -> bool
    ensures { result ≡ is_plain logical }
{
    match logical {
        Logical::Plain => true,
        _ => false,
    }
}

fn is_null(schema: &Schema) -> bool
    ensures { result ≡ is_null (out-Schema schema.now) }
{
    match schema {
        Schema::Null => true,
        _ => false,
    }
}

fn other_branch<'a>(first: &'a Schema, second: &'a Schema) -> Option<&'a Schema>
    ensures { option_copied result ≡ other_branch first.now second.now }
{
    if is_null(first) {
        return Some(second);
    }
    if is_null(second) { Some(first) } else { None }
}

fn beside_null(branches: &[Schema]) -> Option<&Schema>
    ensures { option_copied result ≡ beside_null branches.now }
{
    match branches {
        [first, second] => other_branch(first, second),
        _ => None,
    }
}

fn in_union(schema: &Schema) -> Option<&Schema>
    ensures { option_copied result ≡ in_union (out-Schema schema.now) }
{
    match schema {
        Schema::Union { branches } => beside_null(branches.as_slice()),
        _ => None,
    }
}

/// The type of a field's values that aren't null: a field that may lack is a union with null, in either order.
pub fn type_of(may_lack: bool, schema: &Schema) -> Option<&Schema>
    ensures { option_copied result ≡ type_of may_lack schema.now }
{
    if may_lack {
        in_union(schema)
    } else {
        Some(schema)
    }
}

fn item_of(schema: &Schema) -> Option<&Schema>
    ensures { option_copied result ≡ item_of (out-Schema schema.now) }
{
    match schema {
        Schema::List { item, .. } => Some(item.get()),
        _ => None,
    }
}

/// The items of an array, where they have the id.
pub(crate) fn item_under(id: i32, schema: &Schema) -> Option<&Schema>
    ensures { option_copied result ≡ item_under id (out-Schema schema.now) }
{
    match schema {
        Schema::List {
            item,
            element_id,
            ..
        } => {
            if is_id(id, *element_id) {
                Some(item.get())
            } else {
                None
            }
        }
        _ => None,
    }
}

/// The fields of a record.
pub fn fields_of(schema: &Schema) -> Option<&[Field]>
    ensures { option_map (λ fields. fields.now) result ≡ fields_of (out-Schema schema.now) }
{
    match schema {
        Schema::Fields { fields, .. } => Some(fields.as_slice()),
        _ => None,
    }
}

/// The fields of an array's items, where these are records.
pub(crate) fn item_fields(schema: &Schema) -> Option<&[Field]>
    ensures { option_map (λ fields. fields.now) result ≡ item_fields (out-Schema schema.now) }
{
    match schema {
        Schema::List { item, .. } => fields_of(item.get()),
        _ => None,
    }
}

fn is_bool(schema: &Schema) -> bool
    ensures { result ≡ is_bool (out-Schema schema.now) }
{
    match schema {
        Schema::Bool => true,
        _ => false,
    }
}

fn is_int(schema: &Schema) -> bool
    ensures { result ≡ is_int (out-Schema schema.now) }
{
    match schema {
        Schema::Int(logical) => is_plain(*logical),
        _ => false,
    }
}

fn is_long(schema: &Schema) -> bool
    ensures { result ≡ is_long (out-Schema schema.now) }
{
    match schema {
        Schema::Long(logical) => is_plain(*logical),
        _ => false,
    }
}

fn is_text(schema: &Schema) -> bool
    ensures { result ≡ is_text (out-Schema schema.now) }
{
    match schema {
        Schema::Str(logical) => is_plain(*logical),
        _ => false,
    }
}

fn is_bytes(schema: &Schema) -> bool
    ensures { result ≡ is_bytes (out-Schema schema.now) }
{
    match schema {
        Schema::Blob(logical) => is_plain(*logical),
        _ => false,
    }
}

/// Whether a type is of the kind, apart from what lies within it.
pub(crate) fn has_kind(kind: Kind, schema: &Schema) -> bool
    ensures { result ≡ has_kind kind (out-Schema schema.now) }
{
    match kind {
        Kind::Bool => is_bool(schema),
        Kind::Int => is_int(schema),
        Kind::Long => is_long(schema),
        Kind::Text => is_text(schema),
        Kind::Bytes => is_bytes(schema),
        Kind::Longs { .. } => item_of(schema).is_some(),
        Kind::Ints { .. } => item_of(schema).is_some(),
        Kind::IntLongs { .. } => item_fields(schema).is_some(),
        Kind::IntBytes { .. } => item_fields(schema).is_some(),
        Kind::Summaries { .. } => item_of(schema).is_some(),
        Kind::Record { .. } => fields_of(schema).is_some(),
    }
}
