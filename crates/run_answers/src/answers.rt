//! The status of an error of an opening or a commit.
ghost use Rattle.std.specs.Prelude.{◌≡◌};
ghost use Rattle.run_answers.specs.Answers.{read_status, refusal_status, open_status, attempt_status, status_of};

use crate::status::Status;
use commit_protocol::{AttemptErr, CommitErr, OpenErr, Refusal};
use ice_store::ReadErr;

/// The status of a fault of reading a table's files.
pub fn status_of_read(e: ReadErr) -> Status
    ensures { result ≡ read_status e }
{
    match e {
        ReadErr::Missing { place } => Status::Missing { place },
        ReadErr::Damaged { place, at } => Status::Damaged { place, at },
        ReadErr::Unsupported { place, what } => Status::Unsupported { place, what },
        ReadErr::StoreFault { place } => Status::StoreFault { place },
        ReadErr::Memory => Status::OutOfMemory,
    }
}

/// The status of a refusal of the statement that is the word with this number, counted from 0.
pub fn status_of_refusal(word: usize, refusal: Refusal) -> Status
    ensures { result ≡ refusal_status word refusal }
{
    match refusal {
        Refusal::UnknownSnapshot { id } => Status::UnknownSnapshot { id },
        Refusal::UnknownRef { name } => Status::UnknownRef { name },
        Refusal::NotAncestor { id, of } => Status::NotAncestor { id, of },
        Refusal::StillReferenced { id, name } => Status::StillReferenced { id, name },
        Refusal::GcDisabled => Status::GcDisabled,
        Refusal::TooRecent { older_than, limit } => Status::TooRecent { older_than, limit },
        Refusal::OutsidePrefix { path } => Status::OutsidePrefix { path },
        Refusal::UnreadableDelete { place } => Status::UnreadableDelete { place },
        Refusal::SamePrefix => Status::SamePrefix,
        Refusal::UnknownVersion { name } => Status::UnknownVersion { name },
        Refusal::BadArgument { name } => Status::BadArgument { word, name },
    }
}

/// The status of a table that could not be opened.
pub fn status_of_open(e: OpenErr) -> Status
    ensures { result ≡ open_status e }
{
    match e {
        OpenErr::NoTable { place } => Status::NoTable { place },
        OpenErr::LocationDiffers { table, location } => Status::LocationDiffers { table, location },
        OpenErr::Read(e) => status_of_read(e),
    }
}

fn status_of_attempt(word: usize, e: AttemptErr) -> Status
    ensures { result ≡ attempt_status word e }
{
    match e {
        AttemptErr::Refused(refusal) => status_of_refusal(word, refusal),
        AttemptErr::Conflict { place, other } => Status::Conflict { place, other },
        AttemptErr::NameTaken { place } => Status::NameTaken { place },
        AttemptErr::Read(e) => status_of_read(e),
    }
}

/// The status of a commit that did not end, of the statement that is the word with this number, counted from 0.
pub fn status_of_error(word: usize, e: CommitErr) -> Status
    ensures { result ≡ status_of word e }
{
    match e {
        CommitErr::Open(e) => status_of_open(e),
        CommitErr::Attempt(e) => status_of_attempt(word, e),
        CommitErr::Contended { version } => Status::Contended { version },
        CommitErr::CommitUnknown { version } => Status::CommitUnknown { version },
    }
}
