// Names in a written Avro schema.
ghost use Rattle.std.specs.Prelude.{◌≡◌, IfOk};
ghost use Rattle.std.specs.List.{list_all};
ghost use Rattle.ice_schema.specs.Names.{record_name, fixed_name, entry_name, begins_name, continues_name, is_plain_name, field_name};

use avro_schema::Text;
use std::alloc::{AllocError, Global};

pub(crate) fn record_name(alloc: Global, id: i32) -> Result<Text, AllocError>
    ensures { IfOk result (λ t. t ≡ record_name id) }
{
    Ok(Text::new(format!(in alloc; "r{id}")?))
}

pub(crate) fn fixed_name(alloc: Global, id: i32) -> Result<Text, AllocError>
    ensures { IfOk result (λ t. t ≡ fixed_name id) }
{
    Ok(Text::new(format!(in alloc; "f{id}")?))
}

pub(crate) fn entry_name(alloc: Global, key_id: i32, value_id: i32) -> Result<Text, AllocError>
    ensures { IfOk result (λ t. t ≡ entry_name key_id value_id) }
{
    Ok(Text::new(format!(in alloc; "k{key_id}_v{value_id}")?))
}

// A letter or `_`.
fn begins_name(byte: u8) -> bool
    ensures { result ≡ begins_name byte }
{
    byte.is_ascii_alphabetic() || byte == b'_'
}

// A letter, a digit or `_`.
fn continues_name(byte: u8) -> bool
    ensures { result ≡ continues_name byte }
{
    byte.is_ascii_alphanumeric() || byte == b'_'
}

// Letters, digits and `_` alone.
fn all_continue(bytes: &[u8]) -> bool
    ensures { result ≡ list_all continues_name bytes.now }
{
    bytes.iter().all(|byte| continues_name(*byte))
}

// A letter or `_`, followed by letters, digits and `_`.
fn is_plain_name(name: &[u8]) -> bool
    ensures { result ≡ is_plain_name name.now }
{
    match name {
        [] => false,
        [first, rest @ ..] => begins_name(*first) && all_continue(rest),
    }
}

/// The name of a column's field.
pub(crate) fn field_name(alloc: Global, id: i32, name: &Text) -> Result<Text, AllocError>
    ensures { IfOk result (λ t. t ≡ field_name id name.now) }
{
    if is_plain_name(name.as_str().as_bytes()) {
        name.copy()
    } else {
        Ok(Text::new(format!(in alloc; "_{id}")?))
    }
}
