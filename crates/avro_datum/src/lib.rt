//! Avro values under a schema (Apache Avro 1.11, "Binary Encoding"): read, passed over and written.
//!
//! What is read is exactly what `specs/` says is spelled so, in both directions; a fault has its cause and its place.
#![tactic(auto)]

mod calls;
mod datum;
mod decoding;
mod encoding;
mod fault;
mod limits;
mod no_bytes;
mod skipping;

pub use avro_pieces::{DatumCause, SkipErr};
pub use calls::{decode, encode, skip, values_are_apart};
pub use datum::{Datum, DatumList, PairList};
pub use fault::DatumErr;
