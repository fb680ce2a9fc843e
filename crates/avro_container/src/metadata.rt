//! The metadata of a header: a map of bytes (Apache Avro 1.11, "Object Container Files" and "Maps").

ghost use Rattle.std.specs.Prelude.{◌≡◌, ◌≤◌, ◌-◌, suc, length, drop, map, IfOk};
ghost use Rattle.std.specs.Option.{option_copied};
ghost use Rattle.std.specs.Str.{is_utf8};
ghost use Rattle.avro_container.specs.Container.{most_items};
ghost use Rattle.avro_container.specs.Reading.{string_at, items_at, blocks_at};
ghost use Rattle.avro_container.specs.ContainerReading.{Makes, Adds, Judges, causes, entry_at, entries_at, last_of, pair_of, text_of, schema_of};
ghost use Rattle.avro_container.specs.declared.metadata.Entry.{Entry};

use crate::fault::{BlockErr, ContainerCause, ContainerErr};
use crate::parts::{blob, block_head, is_sized, text_of};
use crate::text::{Bytes, MetaList, Text};
use std::alloc::{AllocError, Global};

const SCHEMA: &[u8] = b"avro.schema";

const CODEC: &[u8] = b"avro.codec";

const NO_CODEC: &[u8] = b"null";

/// A pair of the metadata, and the place where its value begins.
#[derive(Debug, Drop)]
pub(crate) struct Entry {
    pub key: Text,
    pub value: Bytes,
    pub at: usize,
}

#[tactic(auto, unfolding(crate::specs::Reading::string_at))]
fn read_string(alloc: Global, bytes: &[u8], at: usize) -> Result<(Text, usize), ContainerErr>
    requires { at ≤ length bytes.now }
    ensures { Makes (λ t. t) bytes.now result (string_at causes (drop at bytes.now)) }
{
    let (found, end) = blob(bytes, at)?;
    let Some(text) = text_of(found) else {
        return Err(ContainerErr::Bad {
            at,
            cause: ContainerCause::BadUtf8,
        });
    };
    Ok((Text::new(String::from_str(alloc, text)?), end))
}

#[tactic(auto, using(crate::proofs::Entries::place_is), unfolding(crate::specs::ContainerReading::entry_at))]
fn read_entry(alloc: Global, bytes: &[u8], at: usize) -> Result<(Entry, usize), ContainerErr>
    requires { at ≤ length bytes.now }
    ensures { Makes (λ e. e) bytes.now result (entry_at (length bytes.now) (drop at bytes.now)) }
{
    let (key, from) = read_string(alloc, bytes, at)?;
    let (value, end) = blob(bytes, from)?;
    let value = Bytes::new(Vec::from_slice(alloc, value)?);
    Ok((
        Entry {
            key,
            value,
            at: from,
        },
        end,
    ))
}

#[tactic(auto, using(crate::proofs::Loops::items_next, crate::proofs::Loops::items_done))]
fn read_block(
    alloc: Global,
    count: u64,
    bytes: &[u8],
    at: usize,
    to: &mut Vec<Entry>,
) -> Result<usize, ContainerErr>
    requires { at ≤ length bytes.now }
    ensures { Adds bytes.now to.old.items to.new.items result (items_at (entry_at (length bytes.now)) count (drop at bytes.now)) }
{
    let mut end = at;
    for _ in 0..count {
        let (found, after) = read_entry(alloc, bytes, end)?;
        to.push(found)?;
        end = after;
    }
    Ok(end)
}

fn read_blocks(alloc: Global, bytes: &[u8], at: usize) -> Result<(Vec<Entry>, usize), ContainerErr>
    requires { at ≤ length bytes.now }
    ensures { Makes (λ v. v.items) bytes.now result (blocks_at causes (entry_at (length bytes.now)) (suc (length (drop at bytes.now))) most_items (drop at bytes.now)) }
{
    let mut entries = Vec::new(alloc);
    let mut end = at;
    let mut room = 16777216u64;
    // Each block has a byte at least, so these turns are enough.
    let turns = bytes.len() - at + 1;
    for _ in 0..turns {
        let (head, from) = block_head(bytes, end, room)?;
        if head.count == 0 {
            return Ok((entries, from));
        }
        let after = read_block(alloc, head.count, bytes, from, &mut entries)?;
        if !is_sized(head.size, after.saturating_sub(from)) {
            return Err(ContainerErr::Bad {
                at: from,
                cause: ContainerCause::BadSize,
            });
        }
        room -= head.count;
        end = after;
    }
    Err(ContainerErr::Bad {
        at: bytes.len(),
        cause: ContainerCause::Short,
    })
}

/// The pairs that begin at `at`, in their order, and where they end.
#[tactic(auto, unfolding(crate::specs::ContainerReading::entries_at))]
pub(crate) fn read_entries(
    alloc: Global,
    bytes: &[u8],
    at: usize,
) -> Result<(Vec<Entry>, usize), ContainerErr>
    requires { at ≤ length bytes.now }
    ensures { Makes (λ v. v.items) bytes.now result (entries_at (length bytes.now) (drop at bytes.now)) }
{
    read_blocks(alloc, bytes, at)
}

impl Entry {
    fn into_pair(self) -> (Text, Bytes)
        ensures { result ≡ pair_of self }
    {
        let Entry { key, value, at: _ } = self;
        (key, value)
    }
}

/// The pairs without their places.
pub(crate) fn pairs_of(alloc: Global, entries: Vec<Entry>) -> Result<MetaList, AllocError>
    ensures { IfOk result (λ m. m ≡ map pair_of entries.items) }
{
    let pairs = entries
        .into_iter()
        .map(|entry| entry.into_pair())
        .collect(alloc)?;
    Ok(MetaList::new(pairs))
}

/// The last entry of a key.
fn last_of<'a>(entries: &'a [Entry], key: &[u8]) -> Option<&'a Entry>
    ensures { option_copied result ≡ last_of key.now entries.now }
{
    entries
        .iter()
        .rev()
        .find(|entry| entry.key.as_str().as_bytes() == key)
}

/// What is wrong with an entry's value. Its place lies within the bytes, of which there are `len`.
fn fault_of(entry: &Entry, len: usize, cause: ContainerCause) -> BlockErr
    ensures cause { result.cause ≡ cause }
    ensures place { len - result.at ≡ len - entry.now.at }
    ensures within { result.at ≤ len }
{
    BlockErr {
        at: entry.at.min(len),
        cause,
    }
}

/// The schema's text. What is wrong with codec and schema is looked at once the whole map was read.
#[tactic(auto, unfolding(crate::specs::ContainerReading::schema_of))]
pub(crate) fn schema_of(entries: &[Entry], len: usize) -> Result<&str, BlockErr>
    requires { 4 ≤ len }
    ensures { Judges len result (schema_of len entries.now) }
{
    let Some(schema) = last_of(entries, SCHEMA) else {
        return Err(BlockErr {
            at: 4,
            cause: ContainerCause::NoSchema,
        });
    };
    let text = text_of(schema.value.inner().as_slice());
    if let Some(codec) = last_of(entries, CODEC) {
        if codec.value.inner().as_slice() != NO_CODEC && (text.is_some() || codec.at < schema.at) {
            return Err(fault_of(codec, len, ContainerCause::Codec));
        }
    }
    let Some(text) = text else {
        return Err(fault_of(schema, len, ContainerCause::BadUtf8));
    };
    Ok(text)
}
