//! The parts of which Avro values are made (Apache Avro 1.11, "Binary Encoding"), read without taking memory; and what can
//! be wrong with the bytes of a value.
#![tactic(auto)]

mod fault;
mod pieces;

pub use avro_container::{Head, is_sized};
pub use fault::{DatumCause, SkipErr};
pub use pieces::{
    blob, block_head, int, number, part, position, short_blob, short_position, text_of, truth,
};
