//! Why no value is read.

ghost use Rattle.std.specs.Prelude.{◌≡◌};
ghost use Rattle.avro_datum.specs.declared.fault.DatumErr.TheVariants.{Memory, Bad};

use avro_pieces::{DatumCause, SkipErr};
use std::alloc::{AllocError, AllocFailed};

/// Why no value was read.
#[derive(Debug, Drop)]
pub enum DatumErr {
    Memory,
    Bad { at: usize, cause: DatumCause },
}

impl From<SkipErr> for DatumErr {
    ghost from_gives = { λ s e. e ≡ Bad s.at s.cause };

    fn from(e: SkipErr) -> DatumErr {
        DatumErr::Bad {
            at: e.at,
            cause: e.cause,
        }
    }
}

impl From<AllocError> for DatumErr {
    ghost from_gives = { λ _ e. e ≡ Memory };

    fn from(_e: AllocError) -> DatumErr {
        DatumErr::Memory
    }
}

impl<T: Drop> From<AllocFailed<T>> for DatumErr {
    ghost from_gives = { λ _ e. e ≡ Memory };

    fn from(_e: AllocFailed<T>) -> DatumErr {
        DatumErr::Memory
    }
}
