//! What opening finds.
use ice_store::{Bytes, Place, ReadErr, Text};
use thiserror::Error;

/// The most bytes that a metadata file may have.
pub const FILE_LIMIT: usize = 67_108_864;

/// A base's version number is below this.
pub const VERSION_LIMIT: u64 = 9_223_372_036_854_775_807;

/// The last version of a table: its file's place, its number and its bytes.
#[derive(Debug, Drop)]
pub struct Opened {
    pub place: Place,
    pub version: u64,
    pub text: Bytes,
}

/// Why a table couldn't be opened.
#[derive(Debug, Drop, Error)]
pub enum OpenErr {
    /// The directory has no version.
    #[error("no table")]
    NoTable { place: Place },
    /// The metadata's location isn't the table's place.
    #[error("the table says another location")]
    LocationDiffers { table: Place, location: Text },
    #[error("a file can't be read")]
    Read(ReadErr),
}

/// What a listing finds of the last version.
#[derive(Debug, Drop)]
pub enum Found {
    NoVersion,
    Base(Place, u64),
    /// A version file whose number is beyond the limit.
    Beyond(Place),
}

/// What a read finds of a version file.
#[derive(Debug, Drop)]
pub enum VersionFile {
    Whole(Bytes),
    TooLong,
    Absent,
}

// the greatest number in a listing, and where it stands if it isn't 0
#[derive(Debug, Clone, Copy)]
pub struct Latest {
    pub index: usize,
    pub version: u64,
}
