//! The parts of which a container is made, read without taking memory.

ghost use Rattle.std.specs.Prelude.{◌≡◌, ◌≤◌, ◌+◌, length, drop, IfOk, MatchOption, true, false, slice_range};
ghost use Rattle.std.specs.Str.{is_utf8};
ghost use Rattle.avro_container.specs.Reading.{number_at, length_at, bytes_at, blob_at, head_at, is_size};
ghost use Rattle.avro_container.specs.ContainerReading.{Gives, causes};
ghost use Rattle.avro_container.specs.declared.parts.Head.{Head};

use crate::fault::{BlockErr, ContainerCause, NumErr};
use crate::long::read_long;

/// What the head of a block of items says: their count, and their number of bytes where it states one.
#[derive(Clone, Copy)]
pub struct Head {
    pub count: u64,
    pub size: Option<i64>,
}

#[tactic(auto, unfolding(crate::specs::Reading::number_at))]
pub(crate) fn number(bytes: &[u8], at: usize) -> Result<(i64, usize), BlockErr>
    requires { at ≤ length bytes.now }
    ensures { Gives (λ z. z) bytes.now result (number_at causes (drop at bytes.now)) }
{
    match read_long(bytes, at) {
        Ok(found) => Ok(found),
        Err(NumErr::Short) => Err(BlockErr {
            at: bytes.len(),
            cause: ContainerCause::Short,
        }),
        Err(NumErr::TooLong) => Err(BlockErr {
            at,
            cause: ContainerCause::TooLong,
        }),
    }
}

/// So many bytes.
#[tactic(auto, unfolding(crate::specs::Reading::bytes_at))]
pub(crate) fn part(bytes: &[u8], at: usize, n: usize) -> Result<(&[u8], usize), BlockErr>
    requires { at ≤ length bytes.now }
    ensures value { Gives (λ s. s.now) bytes.now result (bytes_at causes n (drop at bytes.now)) }
    ensures end { IfOk result (λ x. x.1 ≡ at + n) }
    ensures range { IfOk result (λ x. x.0.now ≡ slice_range bytes.now at x.1) }
{
    if bytes.len() - at < n {
        return Err(BlockErr {
            at: bytes.len(),
            cause: ContainerCause::Short,
        });
    }
    Ok((&bytes[at..at + n], at + n))
}

#[tactic(auto, unfolding(crate::specs::Reading::length_at))]
fn length(bytes: &[u8], at: usize) -> Result<(usize, usize), BlockErr>
    requires { at ≤ length bytes.now }
    ensures { Gives (λ n. n) bytes.now result (length_at causes (drop at bytes.now)) }
{
    let (n, end) = number(bytes, at)?;
    if n < 0 {
        return Err(BlockErr {
            at,
            cause: ContainerCause::NegativeLength,
        });
    }
    Ok((n as usize, end))
}

/// A length, and so many bytes.
#[tactic(auto, unfolding(crate::specs::Reading::blob_at))]
pub(crate) fn blob(bytes: &[u8], at: usize) -> Result<(&[u8], usize), BlockErr>
    requires { at ≤ length bytes.now }
    ensures { Gives (λ s. s.now) bytes.now result (blob_at causes (drop at bytes.now)) }
{
    let (len, from) = length(bytes, at)?;
    let (found, end) = part(bytes, from, len)?;
    Ok((found, end))
}

/// The bytes as a text, where they are UTF-8.
pub(crate) fn text_of(bytes: &[u8]) -> Option<&str>
    ensures { MatchOption result (is_utf8 bytes.now ≡ false) (λ t. (is_utf8 bytes.now ≡ true) × (t.now ≡ bytes.now)) }
{
    match str::from_utf8(bytes) {
        Ok(text) => Some(text),
        Err(_) => None,
    }
}

pub(crate) fn is_text(bytes: &[u8]) -> bool
    ensures { result ≡ is_utf8 bytes.now }
{
    match str::from_utf8(bytes) {
        Ok(_) => true,
        Err(_) => false,
    }
}

/// The head of a block of which no more than `room` items may come.
#[tactic(auto, unfolding(crate::specs::Reading::head_at))]
pub fn block_head(bytes: &[u8], at: usize, room: u64) -> Result<(Head, usize), BlockErr>
    requires { at ≤ length bytes.now }
    ensures within { IfOk result (λ x. x.0.count ≤ room) }
    ensures value { Gives (λ (h : Head). (h.count, h.size)) bytes.now result (head_at causes room (drop at bytes.now)) }
{
    let (n, from) = number(bytes, at)?;
    let count = n.unsigned_abs();
    if count > room {
        return Err(BlockErr {
            at,
            cause: ContainerCause::TooMany,
        });
    }
    if n >= 0 {
        return Ok((Head { count, size: None }, from));
    }
    let (size, from) = number(bytes, from)?;
    Ok((
        Head {
            count,
            size: Some(size),
        },
        from,
    ))
}

/// Whether the size that a block states, if it states one, is this length.
pub fn is_sized(size: Option<i64>, len: usize) -> bool
    ensures { result ≡ is_size size len }
{
    match size {
        None => true,
        Some(size) => {
            if size < 0 {
                return false;
            }
            size as u64 == len as u64
        }
    }
}
