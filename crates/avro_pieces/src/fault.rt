//! What can be wrong with the bytes of a value, and where.

ghost use Rattle.std.specs.Prelude.{◌≡◌};
ghost use Rattle.avro_pieces.specs.Pieces.{of_head};

use avro_container::{BlockErr, ContainerCause};

/// What is wrong with the bytes of a value (Apache Avro 1.11, "Binary Encoding").
///
/// The place of a fault is the first byte of the number, length, position or string that is wrong.
#[derive(Clone, Copy, Debug, PartialEq, Eq)]
pub enum DatumCause {
    /// The bytes end too early; the place is their length.
    Short,
    /// A number has more than ten bytes, or isn't one of 64 bits, or an int isn't one of 32 bits.
    NumberTooLong,
    /// A string isn't UTF-8; at its length.
    BadUtf8,
    /// The schema's union has no branch in this position.
    BadBranch,
    /// A boolean's byte is neither 0 nor 1.
    BadBool,
    /// The schema's enum has no symbol in this position.
    BadEnum,
    /// The length of a string or of bytes is below 0.
    NegativeLength,
    /// The items of a block aren't of the stated size; at the first item.
    BadSize,
    /// An array or a map has more than 16,777,216 items; at the count that passes this number.
    TooMany,
}

/// Why no value could be passed over.
#[derive(Clone, Copy, Debug, PartialEq, Eq)]
pub struct SkipErr {
    pub at: usize,
    pub cause: DatumCause,
}

/// Of a fault of the head of a block of items, which has no other causes than these.
fn cause_of(cause: ContainerCause) -> DatumCause
    ensures { result ≡ of_head cause }
{
    match cause {
        ContainerCause::TooLong => DatumCause::NumberTooLong,
        ContainerCause::TooMany => DatumCause::TooMany,
        _ => DatumCause::Short,
    }
}

impl From<BlockErr> for SkipErr {
    ghost from_gives = { λ s e. (e.at ≡ s.at) × (e.cause ≡ of_head s.cause) };

    fn from(e: BlockErr) -> SkipErr {
        SkipErr {
            at: e.at,
            cause: cause_of(e.cause),
        }
    }
}
