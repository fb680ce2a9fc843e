use sqlite_items::{Boxed, Items};

/// How null is taken over where a value may be null. Written, null is the first branch of a union.
#[derive(Clone, Copy, Debug, PartialEq, Eq)]
pub enum Nullness {
    /// Neither in the file nor where it is wanted.
    Required,
    /// The file's value is never null: it becomes the second branch of a union.
    Wrapped,
    /// The file's union begins with null: its branches stay.
    NullFirst,
    /// The file's union ends with null: its branches are exchanged.
    NullSecond,
}

/// Where each value of a record comes from, in the order that is wanted.
pub type SourceList = Items<Source>;

/// How a value of a file becomes a value that is wanted.
#[cycle(projection)]
#[derive(Debug, Drop)]
pub enum Projection {
    /// It stays as it is.
    Kept,
    /// An int becomes a long, which is written with the same bytes.
    Widened,
    /// A record: where each value comes from among the values of the file's record.
    Record(SourceList),
    /// An array: where each item comes from, the file's item being at place 0.
    Array(Boxed<Source>),
    /// A map: where the value under each key comes from, the file's value being at place 0.
    Map(Boxed<Source>),
}

/// Where a value comes from.
#[cycle(projection)]
#[derive(Debug, Drop)]
pub enum Source {
    /// The file doesn't have it: null.
    Absent,
    /// The file's value at this place.
    Present {
        place: usize,
        nullness: Nullness,
        value: Projection,
    },
}
