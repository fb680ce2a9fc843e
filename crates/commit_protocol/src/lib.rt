//! How a change is committed to a table: the last version is opened, the change is asked, and what it built is published
//! as the next version. Other writers may act between any two store calls, as their manners allow.
//!
//! A table is read here by its metadata alone (`table_rules`, in `specs/Metadata.antt`): a version file is good where its
//! bytes are metadata of the table, and it reaches nothing. The crates below stand over any reading of a table.
//!
//! - `opening`: `open_table`; what it tells is defined in `specs/Metadata.antt`.
//! - `change`: the trait of changes; what a change means is one record, in `specs/Meanings.antt`.
//! - `committing`: one attempt; what it tells is defined in `specs/Attempts.antt` and, by the kind of its end, in
//!   `specs/Kinds.antt` and `specs/Ends.antt`.
//! - `verdict`: the law that each answer has a cause of its own where nobody else acts (`specs/Verdicts.antt`), and the law
//!   of reopening.
//! - `errors`: the refusals and errors of all of them.
#![tactic(auto)]

mod change;
mod committing;
mod errors;
mod opening;
mod verdict;

pub use change::{Built, Change};
pub use commit_publish::Log;
pub use commit_versions::OpenErr;
pub use committing::commit;
pub use errors::{AttemptErr, CommitErr, Committed, Other, Refusal, RemoveErr};
pub use opening::{At, Metadata, open_table};
pub use verdict::{one_commit, one_opening, stops_are_reopened};
