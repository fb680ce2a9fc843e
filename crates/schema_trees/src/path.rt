// Faults at paths from the root of a JSON tree.
ghost use Rattle.avro_schema.specs.Path.{key_path};
ghost use Rattle.schema_trees.specs.Reading.{IsFault};

use crate::fault::JsonErr;
use avro_schema::{Text, key_path};
use std::alloc::Global;

/// A fault at a path.
pub(crate) fn fault(alloc: Global, path: &str) -> JsonErr
    ensures { IsFault path.now result }
{
    match String::from_str(alloc, path) {
        Ok(path) => JsonErr::Bad {
            path: Text::new(path),
        },
        Err(_) => JsonErr::Memory,
    }
}

/// A fault at a member of the object at a path.
pub(crate) fn fault_at(alloc: Global, path: &str, key: &str) -> JsonErr
    ensures { IsFault (key_path path.now key.now) result }
{
    match key_path(alloc, path, key) {
        Ok(path) => JsonErr::Bad {
            path: Text::new(path),
        },
        Err(_) => JsonErr::Memory,
    }
}
