ghost use Rattle.std.specs.Prelude.{◌≡◌};
ghost use Rattle.ice_schema.specs.declared.fault.PartErr.TheVariants.{Memory};

use std::alloc::{AllocError, AllocFailed};

/// Why a partition spec has no partition type.
#[derive(Debug, Drop)]
pub enum PartErr {
    Memory,
    /// A transform is unknown, or a source column is in no schema.
    Transform,
}

impl From<AllocError> for PartErr {
    ghost from_gives = { λ _ e. e ≡ Memory };

    fn from(_e: AllocError) -> PartErr {
        PartErr::Memory
    }
}

impl<T: Drop> From<AllocFailed<T>> for PartErr {
    ghost from_gives = { λ _ e. e ≡ Memory };

    fn from(_e: AllocFailed<T>) -> PartErr {
        PartErr::Memory
    }
}
