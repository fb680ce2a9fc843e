//! How a run ended.
ghost use Rattle.std.specs.Prelude.{◌≡◌};
ghost use Rattle.run_answers.specs.Messages.{is_done};
ghost use Rattle.run_answers.specs.Numbers.{number_of};

use commit_protocol::Other;
use ice_store::{Items, Place, Text, What, Where};

/// How a run ended; each status has a number.
#[derive(Debug, Drop)]
pub enum Status {
    /// The statements ran to their end and their reports were put.
    Done,
    /// The word with this number is no statement, at this byte; with no words both are 0.
    BadStatement { word: usize, at: usize },
    BadArgument { word: usize, name: Text },
    UnknownSnapshot { id: i64 },
    UnknownRef { name: Text },
    NotAncestor { id: i64, of: Option<i64> },
    StillReferenced { id: i64, name: Text },
    GcDisabled,
    TooRecent { older_than: u64, limit: u64 },
    NoTable { place: Place },
    LocationDiffers { table: Place, location: Text },
    Missing { place: Place },
    Damaged { place: Place, at: Where },
    Unsupported { place: Place, what: What },
    OutsidePrefix { path: Text },
    UnreadableDelete { place: Place },
    SamePrefix,
    UnknownVersion { name: Text },
    Conflict { place: Place, other: Other },
    Contended { version: u64 },
    StoreFault { place: Place },
    CommitUnknown { version: u64 },
    OutFault,
    OutOfMemory,
    NameTaken { place: Place },
}

/// The versions of a run, in order.
pub type Versions = Items<u64>;

/// A list of places.
pub type PlaceList = Items<Place>;

/// What a run did.
#[derive(Debug, Drop)]
pub struct Outcome {
    pub status: Status,
    /// The versions that it published and acknowledged.
    pub committed: Versions,
    /// The places that it created and neither removed nor published; and those of a step that failed.
    pub left: PlaceList,
}

impl Status {
    /// The exit status of the program.
    pub fn number(&self) -> u8
        ensures { result ≡ number_of self.now }
    {
        match self {
            Status::Done => 0,
            Status::BadStatement { .. } | Status::BadArgument { .. } => 1,
            Status::UnknownSnapshot { .. }
            | Status::UnknownRef { .. }
            | Status::NotAncestor { .. } => 1,
            Status::StillReferenced { .. } | Status::GcDisabled | Status::TooRecent { .. } => 1,
            Status::NoTable { .. } | Status::LocationDiffers { .. } | Status::Missing { .. } => 2,
            Status::Damaged { .. } | Status::Unsupported { .. } | Status::OutsidePrefix { .. } => 2,
            Status::UnreadableDelete { .. } | Status::SamePrefix | Status::UnknownVersion { .. } =>
                2,
            Status::Conflict { .. } => 3,
            Status::Contended { .. } => 4,
            Status::StoreFault { .. } => 5,
            Status::CommitUnknown { .. } => 6,
            Status::OutFault => 7,
            Status::OutOfMemory => 8,
            Status::NameTaken { .. } => 9,
        }
    }

    /// Whether the statements ran to their end and their reports were put.
    pub fn is_done(&self) -> bool
        ensures { result ≡ is_done self.now }
    {
        matches!(self, Status::Done)
    }
}
