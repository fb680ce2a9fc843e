//! The faults of reading a table's files.
ghost use Rattle.std.specs.Prelude.{◌≡◌};
ghost use Rattle.ice_store.specs.declared.faults.ReadErr.TheVariants.{Memory};

use crate::{Place, Text};
use std::alloc::AllocError;

/// Where in a file a fault is.
#[derive(Debug, Drop)]
pub enum Where {
    /// At this byte offset.
    Byte(u64),
    /// At this path of a JSON tree; an empty path is the whole file.
    Path(Text),
}

/// What of a file isn't supported.
#[derive(Debug, Clone, Copy, PartialEq, Eq)]
pub enum What {
    Codec,
    FormatVersion,
    Transform,
    SchemaSize,
    BlockBytes,
    ItemCount,
    FileBytes,
    GroupBytes,
    NoManifestList,
    VersionNumber,
    Sequence,
}

/// Why a file of a table couldn't be read.
#[derive(Debug, Drop)]
pub enum ReadErr {
    /// A needed place isn't named.
    Missing { place: Place },
    /// The bytes aren't in the file's grammar.
    Damaged { place: Place, at: Where },
    /// A stated limit is passed, or a codec or version isn't read.
    Unsupported { place: Place, what: What },
    /// The store failed at this place.
    StoreFault { place: Place },
    Memory,
}

impl From<AllocError> for ReadErr {
    ghost from_gives = { λ _ e. e ≡ Memory };

    fn from(_: AllocError) -> Self {
        ReadErr::Memory
    }
}
