//! The versions of a table: the names of its metadata files, and opening the last one, while others may act between the
//! listing and the read (Iceberg table specification, "File System Tables"). Opening stands over any reading
//! of a table: it asks for no more than that a version file is sealed where the table is whole.
//!
//! - `numbers`: which version a place names.
//! - `names`: the places and the text of versions and drafts; they are defined in `specs/Names.antt`.
//! - `open`: the last version, found and read; what each call leaves, by its answer, is defined in `specs/Opening.antt`.
#![tactic(auto)]

mod names;
mod numbers;
mod open;
#[cfg(test)]
mod tests;
mod types;

pub use names::{draft_place, metadata_folder, version_place, version_text};
pub use numbers::version_number;
pub use open::{find_version, open_version, read_version};
pub use types::{FILE_LIMIT, Found, Latest, OpenErr, Opened, VERSION_LIMIT, VersionFile};
