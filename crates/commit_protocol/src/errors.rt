//! Why a commit was refused, failed, or may not have been published.
use commit_versions::OpenErr;
use ice_store::{Place, ReadErr, Text};
use std::alloc::AllocError;
use thiserror::Error;

/// What stands against a file that was to be replaced.
#[derive(Debug, Drop)]
pub enum Other {
    Gone,
    Schema,
    Manifest,
    Delete(Place),
}

/// Why a statement is refused on a table, or for its arguments.
#[derive(Debug, Drop)]
pub enum Refusal {
    /// The table has no such snapshot.
    UnknownSnapshot { id: i64 },
    UnknownRef { name: Text },
    /// The snapshot `id` isn't an ancestor of `of`, or there is no `of`.
    NotAncestor { id: i64, of: Option<i64> },
    StillReferenced { id: i64, name: Text },
    GcDisabled,
    TooRecent { older_than: u64, limit: u64 },
    OutsidePrefix { path: Text },
    UnreadableDelete { place: Place },
    SamePrefix,
    UnknownVersion { name: Text },
    BadArgument { name: Text },
}

/// Why an attempt did not publish.
#[derive(Debug, Drop, Error)]
pub enum AttemptErr {
    #[error("the statement is refused")]
    Refused(Refusal),
    #[error("a file was changed meanwhile")]
    Conflict { place: Place, other: Other },
    #[error("a new file's name is taken")]
    NameTaken { place: Place },
    #[error("a file can't be read or written")]
    Read(ReadErr),
}

impl From<AllocError> for AttemptErr {
    ghost use Rattle.std.specs.Prelude.{◌≡◌};
    ghost use Rattle.commit_protocol.specs.declared.errors.AttemptErr.TheVariants.{Read};
    ghost use Rattle.ice_store.specs.declared.faults.ReadErr.TheVariants.{Memory};

    ghost from_gives = { λ _ e. e ≡ Read Memory };

    fn from(_: AllocError) -> Self {
        AttemptErr::Read(ReadErr::Memory)
    }
}

/// Why files that an attempt made were not all removed.
#[derive(Debug, Drop, Error)]
pub enum RemoveErr {
    /// A store call failed, which is told at its place, a sync of names at the table.
    #[error("a file can't be removed")]
    StoreFault { place: Place },
    #[error("there is no memory")]
    Memory,
}

/// Why a commit did not end.
#[derive(Debug, Drop, Error)]
pub enum CommitErr {
    #[error("the table can't be opened")]
    Open(OpenErr),
    #[error("the attempt failed")]
    Attempt(AttemptErr),
    /// The version that others published first.
    #[error("lost the race up to version {version}")]
    Contended { version: u64 },
    /// The rename to this version, or the sync behind it, failed.
    #[error("commit of version {version} is unknown")]
    CommitUnknown { version: u64 },
}

/// How a commit ended.
#[derive(Debug, Clone, Copy, PartialEq, Eq)]
pub enum Committed {
    /// Nothing was to be changed.
    Same { version: u64 },
    Published { version: u64 },
}
