//! Why a file is no manifest and no manifest list.

ghost use Rattle.std.specs.Prelude.{◌≡◌};
ghost use Rattle.manifest_codec.specs.declared.fault.ManifestCause.TheVariants as causes;
ghost use Rattle.manifest_codec.specs.declared.fault.ManifestErr.TheVariants.{Bad, Memory};
ghost use Rattle.manifest_codec.specs.Faults.{told};

use avro_container::{BlockErr, ContainerCause, ContainerErr};
use avro_datum::DatumCause;
use std::alloc::{AllocError, AllocFailed};

/// What is wrong with a file.
#[derive(Clone, Copy, Debug, PartialEq, Eq)]
pub enum ManifestCause {
    /// The file is no container file, or a block's objects don't fill it: `BadSize`, at the first of them.
    Container(ContainerCause),
    /// An object of a block isn't a value of the file's schema.
    Value(DatumCause),
    /// The file's schema spells no Avro schema, or one that isn't a record; at place 4, as are `SchemaSize`,
    /// `LacksField` and a `BadField` of the schema.
    BadSchema,
    /// The file's schema is over the limits of Avro schemas.
    SchemaSize,
    /// The schema lacks the field of this id.
    LacksField(i32),
    /// The field of this id has another type, or, at a record, another value than a row's or an entry's.
    BadField(i32),
}

/// Why a manifest or a manifest list wasn't read.
#[derive(Debug, Drop)]
pub enum ManifestErr {
    Memory,
    Bad { at: usize, cause: ManifestCause },
}

impl From<AllocError> for ManifestErr {
    ghost from_gives = { λ _ e. e ≡ Memory };

    fn from(_e: AllocError) -> ManifestErr {
        ManifestErr::Memory
    }
}

impl<T: Drop> From<AllocFailed<T>> for ManifestErr {
    ghost from_gives = { λ _ e. e ≡ Memory };

    fn from(_e: AllocFailed<T>) -> ManifestErr {
        ManifestErr::Memory
    }
}

impl From<BlockErr> for ManifestErr {
    ghost from_gives = { λ s e. e ≡ Bad s.at (causes.Container s.cause) };

    fn from(e: BlockErr) -> ManifestErr {
        ManifestErr::Bad {
            at: e.at,
            cause: ManifestCause::Container(e.cause),
        }
    }
}

impl From<ContainerErr> for ManifestErr {
    ghost from_gives = { λ c e. e ≡ told c };

    fn from(e: ContainerErr) -> ManifestErr {
        match e {
            ContainerErr::Memory => ManifestErr::Memory,
            ContainerErr::Bad { at, cause } => {
                ManifestErr::Bad {
                    at,
                    cause: ManifestCause::Container(cause),
                }
            }
        }
    }
}
