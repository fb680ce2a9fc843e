//! Causes for which metadata is refused.
use ice_store::Text;

/// What is wrong with metadata. Of several causes the first one in the order of the variants counts.
#[derive(Clone, Copy, Debug, Drop, PartialEq, Eq)]
pub enum MetaCause {
    /// The bytes are no JSON.
    NotJson,
    /// A number is no whole number of 64 bits.
    Fraction,
    /// `format-version` is this number and not 2.
    Version(i128),
    /// A field lacks or isn't of its form.
    Field,
    /// A snapshot has no `manifest-list`.
    NoManifestList,
    /// Two snapshots have one id.
    DoubleId,
    /// A ref names no snapshot, or `main` differs from the current snapshot.
    BrokenRef,
    /// A walk of parents comes back.
    BrokenParent,
}

/// A cause, at the first place that shows it.
#[derive(Debug, Drop)]
pub struct Fault {
    /// The place, as `snapshots[2].sequence-number`; empty for the whole tree.
    pub path: Text,
    pub cause: MetaCause,
}
