ghost use Rattle.std.specs.Prelude.{◌≡◌};
ghost use Rattle.schema_trees.specs.declared.fault.JsonErr.TheVariants.{Memory};

use avro_schema::Text;
use std::alloc::{AllocError, AllocFailed};

/// Why a JSON tree could not be read.
#[derive(Debug, Drop)]
pub enum JsonErr {
    Memory,
    /// The path leads from the tree's root to the first fault, as `fields[2].type.element`. It is empty for the root.
    Bad { path: Text },
}

impl From<AllocError> for JsonErr {
    ghost from_gives = { λ _ e. e ≡ Memory };

    fn from(_e: AllocError) -> JsonErr {
        JsonErr::Memory
    }
}

impl<T: Drop> From<AllocFailed<T>> for JsonErr {
    ghost from_gives = { λ _ e. e ≡ Memory };

    fn from(_e: AllocFailed<T>) -> JsonErr {
        JsonErr::Memory
    }
}
