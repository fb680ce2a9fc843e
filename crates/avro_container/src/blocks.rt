//! Blocks (Apache Avro 1.11, "Object Container Files"): a count, a size, the objects and the marker.

ghost use Rattle.std.specs.Prelude.{◌≡◌, ◌≤◌, ◌+◌, ◌-◌, ◌++◌, length, drop, IfOk, IfSome, IsNone, OnOk, OnErr, ◌↔◌, ◌≢◌, slice_range};
ghost use Rattle.avro_container.specs.Growth.{Grows};
ghost use Rattle.avro_container.specs.Container.{IsBlockAt, NoBlockAt, SpellsBlock, BlocksAreApart};
ghost use Rattle.avro_container.specs.ContainerReading.{Gives, GivesBlock, count_at, size_at, marker_at, container_block_at};
ghost use Rattle.avro_container.specs.ContainerWriting.{written_block};
ghost use Rattle.avro_container.specs.declared.blocks.Block.{Block};

use crate::fault::{BlockErr, ContainerCause};
use crate::header::Header;
use crate::long::put_long;
use crate::parts::{number, part};
use std::alloc::AllocError;

const MOST_OBJECTS: i64 = 16777216;

const MOST_BYTES: i64 = 67108864;

/// A block of a container.
#[derive(Clone, Copy, Debug, PartialEq, Eq)]
pub struct Block {
    /// How many objects it has.
    pub count: u64,
    /// Where its objects begin.
    pub from: usize,
    /// Where they end, and the marker begins.
    pub to: usize,
    /// Where the marker ends.
    pub next: usize,
}

#[tactic(auto, unfolding(crate::specs::ContainerReading::count_at))]
fn count(bytes: &[u8], at: usize) -> Result<(u64, usize), BlockErr>
    requires { at ≤ length bytes.now }
    ensures { Gives (λ n. n) bytes.now result (count_at (drop at bytes.now)) }
{
    let (n, end) = number(bytes, at)?;
    if n < 0 {
        return Err(BlockErr {
            at,
            cause: ContainerCause::NegativeCount,
        });
    }
    if n > MOST_OBJECTS {
        return Err(BlockErr {
            at,
            cause: ContainerCause::TooMany,
        });
    }
    Ok((n as u64, end))
}

#[tactic(auto, unfolding(crate::specs::ContainerReading::size_at))]
fn size(bytes: &[u8], at: usize) -> Result<(usize, usize), BlockErr>
    requires { at ≤ length bytes.now }
    ensures { Gives (λ n. n) bytes.now result (size_at (drop at bytes.now)) }
{
    let (n, end) = number(bytes, at)?;
    if n < 0 {
        return Err(BlockErr {
            at,
            cause: ContainerCause::NegativeCount,
        });
    }
    if n > MOST_BYTES {
        return Err(BlockErr {
            at,
            cause: ContainerCause::BlockTooLarge,
        });
    }
    Ok((n as usize, end))
}

#[tactic(auto, unfolding(crate::specs::ContainerReading::marker_at))]
fn marker(bytes: &[u8], at: usize, sync: &[u8]) -> Result<((), usize), BlockErr>
    requires { at ≤ length bytes.now }
    ensures value { Gives (λ x. x) bytes.now result (marker_at sync.now (drop at bytes.now)) }
    ensures end { IfOk result (λ x. x.1 ≡ at + length sync.now) }
{
    let (found, end) = part(bytes, at, sync.len())?;
    if found != sync {
        return Err(BlockErr {
            at,
            cause: ContainerCause::BadSync,
        });
    }
    Ok(((), end))
}

#[tactic(auto, unfolding(crate::specs::ContainerReading::container_block_at))]
fn whole_block(bytes: &[u8], at: usize, sync: &[u8]) -> Result<(Block, usize), BlockErr>
    requires { at ≤ length bytes.now }
    ensures value { Gives (λ (b : Block). (b.count, slice_range bytes.now b.from b.to)) bytes.now result (container_block_at sync.now (drop at bytes.now)) }
    ensures next { IfOk result (λ x. x.0.next ≡ x.1) }
    ensures marker { IfOk result (λ x. x.0.to + length sync.now ≡ x.1) }
    ensures body { IfOk result (λ x. x.0.from ≤ x.0.to) }
{
    let (count, from) = count(bytes, at)?;
    let (size, from) = size(bytes, from)?;
    let (_body, to) = part(bytes, from, size)?;
    let (_, next) = marker(bytes, to, sync)?;
    Ok((
        Block {
            count,
            from,
            to,
            next,
        },
        next,
    ))
}

/// The block that begins at `at`. None at the end of the bytes. An `at` past their end is `Short`.
pub fn next_block(header: &Header, bytes: &[u8], at: usize) -> Result<Option<Block>, BlockErr>
    ensures end { IfOk result (λ b. IsNone b ↔ (at ≡ length bytes.now)) }
    ensures found { IfOk result (λ b. IfSome b (λ x. IsBlockAt header.now.sync bytes.now at x.count x.from x.to x.next)) }
    ensures marker { IfOk result (λ b. IfSome b (λ x. x.to + 16 ≡ x.next)) }
    ensures body { IfOk result (λ b. IfSome b (λ x. x.from ≤ x.to)) }
    ensures none { OnErr result (NoBlockAt header.now.sync bytes.now at × (at ≢ length bytes.now)) }
    // Which fault it is, and where.
    ensures exact { GivesBlock header.now.sync bytes.now at result }
{
    if at == bytes.len() {
        return Ok(None);
    }
    if at > bytes.len() {
        return Err(BlockErr {
            at: bytes.len(),
            cause: ContainerCause::Short,
        });
    }
    let (found, _next) = whole_block(bytes, at, &header.sync)?;
    Ok(Some(found))
}

fn put_block(count: u64, body: &[u8], sync: &[u8; 16], to: &mut Vec<u8>) -> Result<(), AllocError>
    requires few { count ≤ 16777216 }
    requires small { length body.now ≤ 67108864 }
    ensures ok { OnOk result (to.new.items ≡ to.old.items ++ written_block sync.now count body.now) }
    ensures grows { Grows to.old.items to.new.items }
{
    put_long(count as i64, to)?;
    put_long(body.len() as i64, to)?;
    to.extend_from_slice(body)?;
    to.extend_from_slice(sync)
}

/// Writes a block of `count` objects at the end.
pub fn write_block(
    count: u64,
    body: &[u8],
    sync: &[u8; 16],
    to: &mut Vec<u8>,
) -> Result<(), AllocError>
    requires few { count ≤ 16777216 }
    requires small { length body.now ≤ 67108864 }
    ensures written { OnOk result (to.new.items ≡ to.old.items ++ written_block sync.now count body.now) }
    ensures err { OnErr result (to.new.items ≡ to.old.items) }
    ensures spells { SpellsBlock sync.now count body.now (written_block sync.now count body.now) }
{
    let len = to.len();
    match put_block(count, body, sync, to) {
        Ok(()) => Ok(()),
        Err(e) => {
            to.truncate(len);
            Err(e)
        }
    }
}

/// No block begins another, so what was written is read again, whatever follows it.
pub fn blocks_are_apart()
    ensures { BlocksAreApart }
{}
