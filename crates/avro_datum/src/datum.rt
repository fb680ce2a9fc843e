//! Values.

use avro_schema::{Bytes, Text};
use sqlite_items::{Boxed, Items};

/// Items of an array, or fields of a record, in order.
pub type DatumList = Items<Datum>;

/// Keys of a map, each with its value, in order.
pub type PairList = Items<(Text, Datum)>;

/// A value under a schema (Apache Avro 1.11, "Primitive Types" and "Complex Types").
#[derive(Debug, Drop)]
pub enum Datum {
    Null,
    Bool(bool),
    Int(i32),
    Long(i64),
    /// A float, as its bytes, the lowest first.
    Float4([u8; 4]),
    /// A double, as its bytes, the lowest first.
    Float8([u8; 8]),
    /// Bytes.
    Blob(Bytes),
    /// A string.
    Str(Text),
    /// A fixed.
    Fix(Bytes),
    /// An enum: the position of its symbol.
    Choice(u32),
    /// An array.
    List(DatumList),
    /// A map. Equal keys all stay, in order.
    Pairs(PairList),
    /// A record.
    Fields(DatumList),
    /// A union: the position of its branch, and the value.
    Branch(u32, Boxed<Datum>),
}
