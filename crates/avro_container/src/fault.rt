//! What can be wrong with the bytes of a container, and where.

ghost use Rattle.std.specs.Prelude.{◌≡◌};
ghost use Rattle.avro_container.specs.declared.fault.ContainerErr.TheVariants.{Memory, Bad};

use std::alloc::{AllocError, AllocFailed};

/// Why no number stands in a place.
#[derive(Clone, Copy, Debug, PartialEq, Eq)]
pub enum NumErr {
    /// The bytes end within it.
    Short,
    /// It has more than ten bytes, or isn't a number of 64 bits.
    TooLong,
}

/// What is wrong with a header or a block (Apache Avro 1.11, "Object Container Files").
///
/// The place of a fault is the first byte of the number, length, value or marker that is wrong.
#[derive(Clone, Copy, Debug, PartialEq, Eq)]
pub enum ContainerCause {
    /// The bytes don't begin with `Obj` and 1; in place 0.
    BadMagic,
    /// The bytes end too early; the place is their length.
    Short,
    /// A number has more than ten bytes, or isn't one of 64 bits.
    TooLong,
    /// A key of the metadata, or the schema's text, isn't UTF-8.
    BadUtf8,
    /// The bytes behind a block aren't the header's marker.
    BadSync,
    /// A block's count or size is below 0.
    NegativeCount,
    /// The length of a key or a value of the metadata is below 0.
    NegativeLength,
    /// The pairs of a block of the metadata aren't of the stated size; at the first pair.
    BadSize,
    /// The metadata name a codec other than `null`; at that value.
    Codec,
    /// A block states more than 67,108,864 bytes.
    BlockTooLarge,
    /// A block states more than 16,777,216 objects, or the metadata more than so many pairs.
    TooMany,
    /// The metadata lack a schema; in place 4.
    NoSchema,
}

/// Why no block stands in a place.
#[derive(Clone, Copy, Debug, PartialEq, Eq)]
pub struct BlockErr {
    pub at: usize,
    pub cause: ContainerCause,
}

/// Why no header was read.
#[derive(Debug, Drop)]
pub enum ContainerErr {
    Memory,
    Bad { at: usize, cause: ContainerCause },
}

impl From<BlockErr> for ContainerErr {
    ghost from_gives = { λ s e. e ≡ Bad s.at s.cause };

    fn from(e: BlockErr) -> ContainerErr {
        ContainerErr::Bad {
            at: e.at,
            cause: e.cause,
        }
    }
}

impl From<AllocError> for ContainerErr {
    ghost from_gives = { λ _ e. e ≡ Memory };

    fn from(_e: AllocError) -> ContainerErr {
        ContainerErr::Memory
    }
}

impl<T: Drop> From<AllocFailed<T>> for ContainerErr {
    ghost from_gives = { λ _ e. e ≡ Memory };

    fn from(_e: AllocFailed<T>) -> ContainerErr {
        ContainerErr::Memory
    }
}
