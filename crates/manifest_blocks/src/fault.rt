//! Why a container isn't written.

ghost use Rattle.std.specs.Prelude.{◌≡◌};
ghost use Rattle.manifest_blocks.specs.declared.fault.WriteErr.TheVariants.{Memory};

use std::alloc::{AllocError, AllocFailed};

/// Why a container isn't written.
#[derive(Debug, Drop)]
pub enum WriteErr {
    Memory,
    /// A block would have more than 67,108,864 bytes, which no reader takes.
    TooLarge,
}

impl From<AllocError> for WriteErr {
    ghost from_gives = { λ _ e. e ≡ Memory };

    fn from(_e: AllocError) -> WriteErr {
        WriteErr::Memory
    }
}

impl<T: Drop> From<AllocFailed<T>> for WriteErr {
    ghost from_gives = { λ _ e. e ≡ Memory };

    fn from(_e: AllocFailed<T>) -> WriteErr {
        WriteErr::Memory
    }
}
