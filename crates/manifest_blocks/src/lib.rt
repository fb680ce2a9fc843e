//! Objects put into the blocks of a container file (Apache Avro 1.11, "Object Container Files"): a block is closed with the
//! object with which its bytes or its objects reach 64,000.
#![tactic(auto)]

mod blocks;
mod fault;

pub use blocks::{Blocks, begin, count_object, finish};
pub use fault::WriteErr;
