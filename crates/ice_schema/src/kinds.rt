// What an Avro schema of a file is (Iceberg table specification, Appendix A, "Avro").
ghost use Rattle.std.specs.Prelude.{◌≡◌, ℕ};
ghost use Rattle.std.specs.Option.{option_copied};
ghost use Rattle.std.specs.List.{position_or_len};
ghost use Rattle.ice_schema.specs.Kinds as kinds;

use avro_schema::{Field, Logical, Schema};

/// Where null stands in a union of null and another type.
#[derive(Clone, Copy, Debug, PartialEq, Eq)]
pub enum NullBranch {
    /// The schema isn't such a union.
    Nowhere,
    First,
    Second,
}

pub(crate) fn is_null(schema: &Schema) -> bool
    ensures { result ≡ kinds.is_null schema.now }
{
    matches!(schema, Schema::Null)
}

pub(crate) fn is_boolean(schema: &Schema) -> bool
    ensures { result ≡ kinds.is_boolean schema.now }
{
    matches!(schema, Schema::Bool)
}

pub(crate) fn is_float(schema: &Schema) -> bool
    ensures { result ≡ kinds.is_float schema.now }
{
    matches!(schema, Schema::Float4)
}

pub(crate) fn is_double(schema: &Schema) -> bool
    ensures { result ≡ kinds.is_double schema.now }
{
    matches!(schema, Schema::Float8)
}

// The logical type of an int.
pub(crate) fn int_of(schema: &Schema) -> Option<Logical>
    ensures { result ≡ kinds.int_of schema.now }
{
    match schema {
        Schema::Int(logical) => Some(*logical),
        _ => None,
    }
}

// The logical type of a long.
pub(crate) fn long_of(schema: &Schema) -> Option<Logical>
    ensures { result ≡ kinds.long_of schema.now }
{
    match schema {
        Schema::Long(logical) => Some(*logical),
        _ => None,
    }
}

// The logical type of bytes.
pub(crate) fn bytes_of(schema: &Schema) -> Option<Logical>
    ensures { result ≡ kinds.bytes_of schema.now }
{
    match schema {
        Schema::Blob(logical) => Some(*logical),
        _ => None,
    }
}

// The logical type of a string.
pub(crate) fn string_of(schema: &Schema) -> Option<Logical>
    ensures { result ≡ kinds.string_of schema.now }
{
    match schema {
        Schema::Str(logical) => Some(*logical),
        _ => None,
    }
}

// The logical type of a fixed.
pub(crate) fn fixed_of(schema: &Schema) -> Option<Logical>
    ensures { result ≡ kinds.fixed_of schema.now }
{
    match schema {
        Schema::Fix { logical, .. } => Some(*logical),
        _ => None,
    }
}

// How many bytes a fixed has, and 0 of another.
pub(crate) fn size_of(schema: &Schema) -> u32
    ensures { result ≡ kinds.size_of schema.now }
{
    match schema {
        Schema::Fix { size, .. } => *size,
        _ => 0,
    }
}

// The fields of a record.
pub(crate) fn fields_of(schema: &Schema) -> Option<&[Field]>
    ensures { option_copied result ≡ kinds.fields_of schema.now }
{
    match schema {
        Schema::Fields { fields, .. } => Some(fields.as_slice()),
        _ => None,
    }
}

// The items of an array that stands for no map.
pub(crate) fn item_of(schema: &Schema) -> Option<&Schema>
    ensures { option_copied result ≡ kinds.item_of schema.now }
{
    match schema {
        Schema::List { item, is_map, .. } => { if *is_map { None } else { Some(item.get()) } }
        _ => None,
    }
}

// The id of an array's items.
pub(crate) fn element_id_of(schema: &Schema) -> Option<i32>
    ensures { result ≡ kinds.element_id_of schema.now }
{
    match schema {
        Schema::List { element_id, .. } => *element_id,
        _ => None,
    }
}

// The fields of the records of an array that stands for a map.
pub(crate) fn entries_of(schema: &Schema) -> Option<&[Field]>
    ensures { option_copied result ≡ kinds.entries_of schema.now }
{
    match schema {
        Schema::List { item, is_map, .. } => { if *is_map { fields_of(item.get()) } else { None } }
        _ => None,
    }
}

// The values of a map with string keys.
pub(crate) fn value_of(schema: &Schema) -> Option<&Schema>
    ensures { option_copied result ≡ kinds.value_of schema.now }
{
    match schema {
        Schema::Pairs { value, .. } => Some(value.get()),
        _ => None,
    }
}

// The id of such a map's keys.
pub(crate) fn key_id_of(schema: &Schema) -> Option<i32>
    ensures { result ≡ kinds.key_id_of schema.now }
{
    match schema {
        Schema::Pairs { key_id, .. } => *key_id,
        _ => None,
    }
}

// The id of its values.
pub(crate) fn value_id_of(schema: &Schema) -> Option<i32>
    ensures { result ≡ kinds.value_id_of schema.now }
{
    match schema {
        Schema::Pairs { value_id, .. } => *value_id,
        _ => None,
    }
}

pub(crate) fn is_plain(logical: Option<Logical>) -> bool
    ensures { result ≡ kinds.is_plain logical }
{
    match logical {
        Some(Logical::Plain) => true,
        _ => false,
    }
}

pub(crate) fn is_date(logical: Option<Logical>) -> bool
    ensures { result ≡ kinds.is_date logical }
{
    match logical {
        Some(Logical::Date) => true,
        _ => false,
    }
}

pub(crate) fn is_time(logical: Option<Logical>) -> bool
    ensures { result ≡ kinds.is_time logical }
{
    match logical {
        Some(Logical::TimeMicros) => true,
        _ => false,
    }
}

pub(crate) fn is_uuid(logical: Option<Logical>) -> bool
    ensures { result ≡ kinds.is_uuid logical }
{
    match logical {
        Some(Logical::Uuid) => true,
        _ => false,
    }
}

pub(crate) fn is_timestamp(logical: Option<Logical>) -> bool
    ensures { result ≡ kinds.is_timestamp logical }
{
    match logical {
        Some(Logical::TimestampMicros { adjust_to_utc }) => !adjust_to_utc,
        _ => false,
    }
}

pub(crate) fn is_timestamptz(logical: Option<Logical>) -> bool
    ensures { result ≡ kinds.is_timestamptz logical }
{
    match logical {
        Some(Logical::TimestampMicros { adjust_to_utc }) => adjust_to_utc,
        _ => false,
    }
}

pub(crate) fn is_decimal(precision: u32, scale: u32, logical: Option<Logical>) -> bool
    ensures { result ≡ kinds.is_decimal precision scale logical }
{
    match logical {
        Some(
            Logical::Decimal {
                precision: p,
                scale: s,
            },
        ) => p == precision && s == scale,
        _ => false,
    }
}

// Whether and where a schema has null beside its type.
pub(crate) fn null_branch(schema: &Schema) -> NullBranch
    ensures { result ≡ kinds.null_branch schema.now }
{
    match schema {
        Schema::Union { branches } => null_in(branches.as_slice()),
        _ => NullBranch::Nowhere,
    }
}

fn null_in(branches: &[Schema]) -> NullBranch
    ensures { result ≡ kinds.null_in branches.now }
{
    match branches {
        [first, second] => {
            if is_null(first) {
                NullBranch::First
            } else if is_null(second) {
                NullBranch::Second
            } else {
                NullBranch::Nowhere
            }
        }
        _ => NullBranch::Nowhere,
    }
}

// The type, apart from null.
pub(crate) fn type_within(schema: &Schema) -> &Schema
    ensures { result.now ≡ kinds.type_within schema.now }
{
    match schema {
        Schema::Union { branches } => beside_null(schema, branches.as_slice()),
        _ => schema,
    }
}

fn beside_null<'a>(whole: &'a Schema, branches: &'a [Schema]) -> &'a Schema
    ensures { result.now ≡ kinds.beside_null whole.now branches.now }
{
    match branches {
        [first, second] => {
            if is_null(first) {
                second
            } else if is_null(second) {
                first
            } else {
                whole
            }
        }
        _ => whole,
    }
}

pub(crate) fn is_id(id: i32, own: Option<i32>) -> bool
    ensures { result ≡ kinds.is_id id own }
{
    match own {
        Some(own) => own == id,
        None => false,
    }
}

// The place of the first field with this id, or the number of fields.
pub(crate) fn place_of(fields: &[Field], id: i32) -> usize
    ensures { result ≡ position_or_len (kinds.has_id id) fields.now }
{
    for (place, field) in fields.iter().enumerate() {
        if is_id(id, field.field_id) {
            return place;
        }
    }
    fields.len()
}
