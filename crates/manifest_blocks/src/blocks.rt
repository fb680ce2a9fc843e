//! Blocks, opened and closed.

ghost use Rattle.std.specs.Prelude.{◌≡◌, ◌≤◌, ◌<◌, [], map, codes, All, IsSomeAnd, IfSome, IfOk, OnOk, length};
ghost use Rattle.std.specs.List.{IsDistinct};
ghost use Rattle.std.specs.Str.{IsUtf8, bytes_eq};
ghost use Rattle.avro_container.specs.Container.{value_of};
ghost use Rattle.avro_container.specs.ContainerWriting.{AppendsHeader};
ghost use Rattle.manifest_blocks.specs.Steps.{Closes, Counts, Finishes, open_in};
ghost use Rattle.manifest_blocks.specs.Blocks.{is_full, no_objects};

use crate::fault::WriteErr;
use avro_container::{Bytes, MetaList, write_block, write_header};
use std::alloc::{AllocError, Global};

/// A block is closed with the object with which its bytes, or its objects, reach this number.
const FULL: usize = 64_000;

/// How many bytes a block may have.
const LARGEST: usize = 67_108_864;

/// A container that is being written.
#[derive(Drop)]
pub struct Blocks {
    /// The header and the closed blocks.
    pub file: Vec<u8>,
    /// The objects of the open block.
    pub body: Vec<u8>,
    /// How many these are.
    pub count: u64,
}

/// A container with a header and no objects. Its header has the metadata, and the codec `null`, in the byte order of the keys.
pub fn begin(alloc: Global, meta: &MetaList, sync: &[u8; 16]) -> Result<Blocks, AllocError>
    requires keys { IsDistinct bytes_eq (map (λ e. e.0) meta.now) }
    requires utf8 { All (λ e. IsUtf8 e.0) meta.now }
    requires schema { IsSomeAnd (value_of (codes "avro.schema") meta.now) IsUtf8 }
    requires codec { IfSome (value_of (codes "avro.codec") meta.now) (λ c. c ≡ codes "null") }
    requires few { length meta.now ≤ 16777215 }
    ensures header { IfOk result (λ b. AppendsHeader meta.now sync.now [] b.file.items) }
    ensures empty { IfOk result (λ b. open_in b ≡ no_objects) }
{
    let mut file = Vec::new(alloc);
    write_header(meta, sync, &mut file)?;
    Ok(Blocks {
        file,
        body: Vec::new(alloc),
        count: 0,
    })
}

// Closes the open block.
fn close(blocks: &mut Blocks, sync: &[u8; 16]) -> Result<(), WriteErr>
    requires { blocks.old.count ≤ 64000 }
    ensures { Closes sync.now blocks.old blocks.new result }
{
    if blocks.body.len() > LARGEST {
        return Err(WriteErr::TooLarge);
    }
    write_block(blocks.count, blocks.body.as_slice(), sync, &mut blocks.file)?;
    blocks.body.clear();
    blocks.count = 0;
    Ok(())
}

// Whether the open block is full.
fn is_full(blocks: &Blocks) -> bool
    ensures { result ≡ is_full (open_in blocks.now) }
{
    blocks.count >= FULL as u64 || blocks.body.len() >= FULL
}

/// Counts an object whose bytes were put behind those of the open block, which is closed where it is full with it.
pub fn count_object(blocks: &mut Blocks, sync: &[u8; 16]) -> Result<(), WriteErr>
    requires room { blocks.old.count < 64000 }
    // The objects that were written and this one stand in their blocks, or one of these is too large.
    ensures counts { Counts sync.now blocks.old blocks.new result }
    ensures room { OnOk result (blocks.new.count < 64000) }
{
    blocks.count += 1;
    if is_full(blocks) {
        close(blocks, sync)?;
    }
    Ok(())
}

/// The bytes of the container.
pub fn finish(mut blocks: Blocks, sync: &[u8; 16]) -> Result<Bytes, WriteErr>
    requires room { blocks.count < 64000 }
    // The whole container of the objects that were counted, unless one of its blocks is too large.
    ensures finishes { Finishes sync.now blocks result }
{
    if blocks.count > 0 {
        close(&mut blocks, sync)?;
    }
    let Blocks {
        file,
        body: _,
        count: _,
    } = blocks;
    Ok(Bytes::new(file))
}
