//! Why a record is none of what was wanted.

ghost use Rattle.std.specs.Prelude.{◌≡◌};
ghost use Rattle.manifest_cells.specs.declared.field_err.FieldErr.TheVariants.{Memory};

use std::alloc::{AllocError, AllocFailed};

/// Why a record is no row, no data file or no entry.
#[derive(Debug, Drop)]
pub enum FieldErr {
    Memory,
    /// The smallest id of a column whose value is no value of its field.
    BadField(i32),
}

impl From<AllocError> for FieldErr {
    ghost from_gives = { λ _ e. e ≡ Memory };

    fn from(_e: AllocError) -> FieldErr {
        FieldErr::Memory
    }
}

impl<T: Drop> From<AllocFailed<T>> for FieldErr {
    ghost from_gives = { λ _ e. e ≡ Memory };

    fn from(_e: AllocFailed<T>) -> FieldErr {
        FieldErr::Memory
    }
}
