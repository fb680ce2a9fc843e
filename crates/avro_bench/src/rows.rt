//! The rows of an object container file.

ghost use Rattle.std.specs.Prelude.{◌≡◌, ◌<◌, [], length, OnOk};
ghost use Rattle.avro_schema.specs.Form.{form_of};
ghost use Rattle.avro_datum.specs.Writing.{IsOf};

use anyhow::{Result, anyhow, bail};
use avro_container::{Block, Header, next_block, read_header, write_block};
use avro_datum::{Datum, DatumErr, decode, encode, skip};
use avro_schema::{Schema, read_schema};
use serde_json::Value;
use std::alloc::{AllocError, Global};
use std::fmt::Debug;

/// A block is closed after the row with which its bytes, or its rows, reach this number.
const BLOCK: usize = 64_000;

/// The largest body that a block may have, in bytes.
const LARGEST: usize = 67_108_864;

/// The head of a container, and the schema of its rows.
#[derive(Drop)]
pub struct Container {
    header: Header,
    schema: Schema,
}

// An error with no text of its own, as anyhow's.
fn told<T, E: Debug + Drop>(answer: std::result::Result<T, E>) -> Result<T> {
    match answer {
        Ok(value) => Ok(value),
        Err(e) => Err(anyhow!("{e:?}")),
    }
}

pub fn open(alloc: Global, bytes: &[u8]) -> Result<Container> {
    let header = told(read_header(alloc, bytes))?;
    let tree = told(Value::from_str(alloc, header.schema_text.as_str()))?;
    let schema = told(read_schema(alloc, &tree))?;
    Ok(Container { header, schema })
}

// The bytes up to the end of a block's body.
fn front<'b>(bytes: &'b [u8], block: &Block) -> Result<&'b [u8]> {
    match bytes.get(..block.to) {
        Some(front) => Ok(front),
        None => bail!("a block ends past the file"),
    }
}

// The error of a row that isn't read, apart so that its text takes no room where rows are read.
#[cold]
#[inline(never)]
fn unread(e: &DatumErr) -> anyhow::Error {
    anyhow!("{e:?}")
}

// The same for want of memory.
#[cold]
#[inline(never)]
fn no_memory() -> anyhow::Error {
    anyhow::Error::from(AllocError)
}

fn decoded_in(alloc: Global, schema: &Schema, body: &[u8], block: &Block) -> Result<()> {
    let mut at = block.from;
    for _ in 0..block.count {
        let found = decode(alloc, schema, body, at);
        match &found {
            Ok((_row, end)) => at = *end,
            Err(e) => return Err(unread(e)),
        }
    }
    Ok(())
}

/// Decodes each row, and counts them.
pub fn decoded(alloc: Global, file: &Container, bytes: &[u8]) -> Result<u64> {
    let mut at = file.header.end;
    let mut count = 0u64;
    for _ in 0..bytes.len() {
        let Some(block) = told(next_block(&file.header, bytes, at))? else {
            break;
        };
        decoded_in(alloc, &file.schema, front(bytes, &block)?, &block)?;
        count = count.saturating_add(block.count);
        at = block.next;
    }
    Ok(count)
}

fn skipped_in(schema: &Schema, body: &[u8], block: &Block) -> Result<()> {
    let mut at = block.from;
    for _ in 0..block.count {
        match skip(schema, body, at) {
            Ok(end) => at = end,
            Err(e) => return Err(unread(&DatumErr::from(e))),
        }
    }
    Ok(())
}

/// Passes over each row, and counts them.
pub fn skipped(file: &Container, bytes: &[u8]) -> Result<u64> {
    let mut at = file.header.end;
    let mut count = 0u64;
    for _ in 0..bytes.len() {
        let Some(block) = told(next_block(&file.header, bytes, at))? else {
            break;
        };
        skipped_in(&file.schema, front(bytes, &block)?, &block)?;
        count = count.saturating_add(block.count);
        at = block.next;
    }
    Ok(count)
}

/// Rows that are written into blocks: those of the closed ones, and those of the one that is open.
#[derive(Drop)]
struct Blocks {
    written: Vec<u8>,
    body: Vec<u8>,
    count: u64,
}

// Closes the open block.
fn close(blocks: &mut Blocks, sync: &[u8; 16]) -> Result<()>
    requires rows { blocks.old.count < 64001 }
    ensures no_bytes { OnOk result (blocks.new.body.items ≡ []) }
    ensures no_rows { OnOk result (blocks.new.count ≡ 0) }
{
    if blocks.body.len() > LARGEST {
        bail!("a block is too large");
    }
    write_block(
        blocks.count,
        blocks.body.as_slice(),
        sync,
        &mut blocks.written,
    )?;
    blocks.body.clear();
    blocks.count = 0;
    Ok(())
}

// Puts each row into the open block, which is closed with the row with which its bytes or its rows reach 64,000.
fn recoded_in(
    alloc: Global,
    file: &Container,
    body: &[u8],
    block: &Block,
    blocks: &mut Blocks,
) -> Result<()>
    requires bytes { length blocks.old.body.items < 64000 }
    requires rows { blocks.old.count < 64000 }
    ensures bytes { OnOk result (length blocks.new.body.items < 64000) }
    ensures rows { OnOk result (blocks.new.count < 64000) }
{
    let mut at = block.from;
    for _ in 0..block.count {
        // The row stays where it was made: it is slow to move.
        let found = decode(alloc, &file.schema, body, at);
        match &found {
            Ok((row, end)) => {
                if encode(&file.schema, row, &mut blocks.body).is_err() {
                    return Err(no_memory());
                }
                at = *end;
            }
            Err(e) => return Err(unread(e)),
        }
        blocks.count += 1;
        if blocks.body.len() >= BLOCK || blocks.count >= BLOCK as u64 {
            close(blocks, &file.header.sync)?;
        }
    }
    Ok(())
}

/// Decodes and encodes each row. Gives their number, and the bytes of a container of them with the same head.
pub fn recoded(alloc: Global, file: &Container, bytes: &[u8]) -> Result<(u64, Vec<u8>)> {
    let Some(head) = bytes.get(..file.header.end) else {
        bail!("the header ends past the file");
    };
    let mut blocks = Blocks {
        written: Vec::from_slice(alloc, head)?,
        body: Vec::new(alloc),
        count: 0,
    };
    let mut at = file.header.end;
    let mut count = 0u64;
    for _ in 0..bytes.len() {
        let Some(block) = told(next_block(&file.header, bytes, at))? else {
            break;
        };
        recoded_in(alloc, file, front(bytes, &block)?, &block, &mut blocks)?;
        count = count.saturating_add(block.count);
        at = block.next;
    }
    if blocks.count > 0 {
        close(&mut blocks, &file.header.sync)?;
    }
    let Blocks {
        written,
        body: _,
        count: _,
    } = blocks;
    Ok((count, written))
}
