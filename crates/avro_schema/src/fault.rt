ghost use Rattle.std.specs.Prelude.{◌≡◌};
ghost use Rattle.avro_schema.specs.declared.fault.SchemaErr.TheVariants.{Memory};

use crate::text::Text;
use std::alloc::{AllocError, AllocFailed};

/// Why a JSON tree is no Avro schema within the limits.
#[derive(Clone, Copy, Debug, PartialEq, Eq)]
pub enum SchemaCause {
    /// It has none of the forms of a schema, or defines a name that is taken.
    BadForm,
    /// A name stands for no type that was defined before.
    UnknownName,
    /// A record's name stands for a type within that record.
    Recursive,
    /// More than 32 types lie within one another.
    TooDeep,
    /// There are more than 4,096 record fields.
    TooWide,
}

/// Why a JSON tree could not be read as a schema.
#[derive(Debug, Drop)]
pub enum SchemaErr {
    Memory,
    /// The path leads from the tree's root to the fault, as `fields[2].type.items`.
    Bad { path: Text, cause: SchemaCause },
}

impl From<AllocError> for SchemaErr {
    ghost from_gives = { λ _ e. e ≡ Memory };

    fn from(_e: AllocError) -> SchemaErr {
        SchemaErr::Memory
    }
}

impl<T: Drop> From<AllocFailed<T>> for SchemaErr {
    ghost from_gives = { λ _ e. e ≡ Memory };

    fn from(_e: AllocFailed<T>) -> SchemaErr {
        SchemaErr::Memory
    }
}
