//! Headers (Apache Avro 1.11, "Object Container Files"): the magic bytes, the metadata and the marker.

ghost use Rattle.std.specs.Prelude.{◌≡◌, ◌≤◌, length, drop, IfOk};
ghost use Rattle.avro_container.specs.Container.{IsHeaderOf, NoHeader, HeadersAreApart};
ghost use Rattle.avro_container.specs.ContainerReading.{Gives, GivesHeader, OnFault, magic_at, header_at};

use crate::fault::{BlockErr, ContainerCause, ContainerErr};
use crate::metadata::{pairs_of, read_entries, schema_of};
use crate::parts::part;
use crate::text::{MetaList, Text};
use std::alloc::Global;

const MAGIC: [u8; 4] = [0x4F, 0x62, 0x6A, 1];

/// The header of a container.
#[derive(Debug, Drop)]
pub struct Header {
    /// The value of `avro.schema`.
    pub schema_text: Text,
    /// All pairs of the metadata, in their order.
    pub meta: MetaList,
    /// The marker that stands behind each block.
    pub sync: [u8; 16],
    /// Where the header ends.
    pub end: usize,
}

#[tactic(auto, unfolding(crate::specs::ContainerReading::magic_at))]
fn magic(bytes: &[u8]) -> Result<((), usize), BlockErr>
    ensures value { Gives (λ x. x) bytes.now result (magic_at bytes.now) }
    ensures end { IfOk result (λ x. x.1 ≡ 4) }
{
    if bytes.len() >= 4 {
        if bytes[..4] == MAGIC[..] {
            return Ok(((), 4));
        }
        return Err(BlockErr {
            at: 0,
            cause: ContainerCause::BadMagic,
        });
    }
    if bytes == &MAGIC[..bytes.len()] {
        return Err(BlockErr {
            at: bytes.len(),
            cause: ContainerCause::Short,
        });
    }
    Err(BlockErr {
        at: 0,
        cause: ContainerCause::BadMagic,
    })
}

fn marker(bytes: &[u8]) -> [u8; 16]
    requires { length bytes.now ≡ 16 }
    ensures { result ≡ bytes.now }
{
    let mut sync = [0; 16];
    sync.copy_from_slice(bytes);
    sync
}

#[tactic(auto, unfolding(crate::specs::ContainerReading::header_at))]
fn whole_header(alloc: Global, bytes: &[u8]) -> Result<Header, ContainerErr>
    ensures { GivesHeader bytes.now result }
{
    let (_, from) = magic(bytes)?;
    let (entries, from) = read_entries(alloc, bytes, from)?;
    let schema = schema_of(&entries, bytes.len())?;
    let schema_text = Text::new(String::from_str(alloc, schema)?);
    let (found, end) = part(bytes, from, 16)?;
    let sync = marker(found);
    let meta = pairs_of(alloc, entries)?;
    Ok(Header {
        schema_text,
        meta,
        sync,
        end,
    })
}

/// The header at the front of the bytes. Of equal keys of the metadata the last counts, and all stay in `meta`.
pub fn read_header(alloc: Global, bytes: &[u8]) -> Result<Header, ContainerErr>
    ensures found { IfOk result (λ h. IsHeaderOf bytes.now h.schema_text h.meta h.sync h.end) }
    ensures none { OnFault result (NoHeader bytes.now) }
    // Which fault it is, and where.
    ensures exact { GivesHeader bytes.now result }
{
    whole_header(alloc, bytes)
}

/// No header begins another, so what was written is read again, whatever follows it.
pub fn headers_are_apart()
    ensures { HeadersAreApart }
{}
