//! The objects of a file, one by one.

ghost use Rattle.std.specs.Prelude.{◌≡◌, ◌≤◌, ◌-◌, length};
ghost use Rattle.manifest_codec.specs.Objects.{Enters, IsWithin, Steps, objects_from, Reaches};

use crate::container::Container;
use crate::fault::{ManifestCause, ManifestErr};
use avro_container::{Block, ContainerCause, next_block};
use avro_datum::{Datum, DatumErr, decode};
use std::alloc::Global;

/// How far reading has come.
#[derive(Clone, Copy)]
pub(crate) struct Progress {
    /// Where the objects of the block begin in the file.
    pub(crate) from: usize,
    /// Where they end.
    pub(crate) to: usize,
    /// How many of their bytes are read.
    pub(crate) at: usize,
    /// How many of them are still to come.
    pub(crate) count: u64,
    /// Where the next block begins.
    pub(crate) next: usize,
    /// How many blocks may follow at most. It begins as the number of bytes behind the header; no file has as many blocks.
    pub(crate) blocks: usize,
}

/// The place behind the header, which ends at `end`.
pub(crate) fn first_place(bytes: &[u8], end: usize) -> Progress
    requires { end ≤ length bytes.now }
    ensures within { IsWithin bytes.now result }
    ensures is { result ≡ record { from = end; to = end; at = 0; count = 0; next = end; blocks = length bytes.now - end } }
{
    Progress {
        from: end,
        to: end,
        at: 0,
        count: 0,
        next: end,
        blocks: bytes.len() - end,
    }
}

fn container_fault(at: usize, cause: ContainerCause) -> ManifestErr
    ensures { result ≡ ManifestErr.Bad at (ManifestCause.Container cause) }
{
    ManifestErr::Bad {
        at,
        cause: ManifestCause::Container(cause),
    }
}

// The first place of a block, behind which at most so many follow.
fn place_in(block: &Block, blocks: usize) -> Progress
    ensures { result ≡ record { from = block.now.from; to = block.now.to; at = 0; count = block.now.count; next = block.now.next; blocks = blocks } }
{
    Progress {
        from: block.from,
        to: block.to,
        at: 0,
        count: block.count,
        next: block.next,
        blocks,
    }
}

// The first place of the next block, from the end of this one's objects. None at the end of the file.
fn entered(
    file: &Container,
    bytes: &[u8],
    place: &Progress,
) -> Result<Option<Progress>, ManifestErr>
    requires within { IsWithin bytes.now place.now }
    requires over { place.now.count ≡ 0 }
    ensures { Enters file.now bytes.now place.now result }
{
    if place.at != place.to - place.from {
        return Err(container_fault(place.from, ContainerCause::BadSize));
    }
    if place.next == bytes.len() {
        return Ok(None);
    }
    if place.blocks == 0 {
        return Err(container_fault(bytes.len(), ContainerCause::Short));
    }
    match next_block(&file.header, bytes, place.next)? {
        None => Ok(None),
        Some(block) => Ok(Some(place_in(&block, place.blocks - 1))),
    }
}

// Goes on to the next object, over the ends of blocks. False at the end of the file.
fn reach(file: &Container, bytes: &[u8], place: &mut Progress) -> Result<bool, ManifestErr>
    requires { IsWithin bytes.now place.old }
    ensures reaches { Reaches file.now bytes.now place.old place.new result }
    ensures within { IsWithin bytes.now place.new }
{
    while place.count == 0 {
        match entered(file, bytes, place)? {
            None => return Ok(false),
            Some(first) => *place = first,
        }
    }
    Ok(true)
}

/// The next object and the place where it begins. None at the end of the file.
pub(crate) fn next_object(
    alloc: Global,
    file: &Container,
    bytes: &[u8],
    place: &mut Progress,
) -> Result<Option<(usize, Datum)>, ManifestErr>
    requires { IsWithin bytes.now place.old }
    ensures steps { Steps file.now bytes.now place.old place.new result }
    ensures within { IsWithin bytes.now place.new }
{
    if !reach(file, bytes, place)? {
        return Ok(None);
    }
    let body = &bytes[place.from..place.to];
    match decode(alloc, &file.schema, body, place.at) {
        Ok((datum, end)) => {
            let at = place.from + place.at;
            place.at = end;
            place.count -= 1;
            Ok(Some((at, datum)))
        }
        Err(DatumErr::Memory) => Err(ManifestErr::Memory),
        Err(DatumErr::Bad { at, cause }) => {
            Err(ManifestErr::Bad {
                at: place.from + at,
                cause: ManifestCause::Value(cause),
            })
        }
    }
}
