// Paths from the root of a JSON tree.
ghost use Rattle.std.specs.Prelude.{◌≡◌, IfOk, string_bytes};
ghost use Rattle.avro_schema.specs.Path.{key_path, index_path};
ghost use Rattle.avro_schema.specs.Reading.{IsFault};

use crate::fault::{SchemaCause, SchemaErr};
use crate::text::Text;
use std::alloc::{AllocError, Global};

/// The path of a member of the object at a path.
pub fn key_path(alloc: Global, path: &str, key: &str) -> Result<String, AllocError>
    ensures { IfOk result (λ p. string_bytes p ≡ key_path path.now key.now) }
{
    if path.is_empty() {
        String::from_str(alloc, key)
    } else {
        format!(in alloc; "{path}.{key}")
    }
}

/// The path of an item of the array at a path.
pub fn index_path(alloc: Global, path: &str, index: usize) -> Result<String, AllocError>
    ensures { IfOk result (λ p. string_bytes p ≡ index_path path.now index) }
{
    format!(in alloc; "{path}[{index}]")
}

pub(crate) fn fault(alloc: Global, path: &str, cause: SchemaCause) -> SchemaErr
    ensures { IsFault path.now cause result }
{
    match String::from_str(alloc, path) {
        Ok(path) => SchemaErr::Bad {
            path: Text::new(path),
            cause,
        },
        Err(_) => SchemaErr::Memory,
    }
}

/// A fault at a member of the object at a path.
pub(crate) fn fault_at(alloc: Global, path: &str, key: &str, cause: SchemaCause) -> SchemaErr
    ensures { IsFault (key_path path.now key.now) cause result }
{
    match key_path(alloc, path, key) {
        Ok(path) => SchemaErr::Bad {
            path: Text::new(path),
            cause,
        },
        Err(_) => SchemaErr::Memory,
    }
}
