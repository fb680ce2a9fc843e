//! Avro object container files (Apache Avro 1.11, "Object Container Files"): numbers, headers and blocks.
//!
//! What is read is exactly what `specs/` says is spelled so, in both directions; a fault has its cause and its place.
#![tactic(auto)]

mod blocks;
mod fault;
mod header;
mod long;
mod metadata;
mod parts;
mod text;
mod writing;

pub use blocks::{Block, blocks_are_apart, next_block, write_block};
pub use fault::{BlockErr, ContainerCause, ContainerErr, NumErr};
pub use header::{Header, headers_are_apart, read_header};
pub use long::{
    longs_are_apart, read_long, write_long, written_long_is_shortest, written_long_spells,
};
pub use parts::{Head, block_head, is_sized};
pub use text::{Bytes, MetaList, Text};
pub use writing::{keys_are_text, write_header};
