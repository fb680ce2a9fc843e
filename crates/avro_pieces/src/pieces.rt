//! The parts, each read from a place within the bytes: what was read, and where it ends.

ghost use Rattle.std.specs.Prelude.{◌≡◌, ◌≤◌, ◌<◌, ◌+◌, pos, length, drop, Ok, IfOk, IfSome, MatchOption, true, false};
ghost use Rattle.std.specs.Str.{is_utf8};
ghost use Rattle.avro_container.specs.Reading.{number_at, length_at, bytes_at, blob_at, head_at};
ghost use Rattle.avro_pieces.specs.Pieces.{Gives, GivesBy, Lends, causes, int_at, position_at, bool_at};
ghost use Rattle.avro_container.specs.declared.parts.Head.{Head};
ghost use Rattle.avro_pieces.specs.declared.fault.DatumCause.{DatumCause};

use crate::fault::{DatumCause, SkipErr};
use avro_container::{Head, NumErr, read_long};

/// A number of 64 bits.
#[inline(always)]
#[tactic(auto, unfolding(avro_container::specs::Reading::number_at))]
pub fn number(bytes: &[u8], at: usize) -> Result<(i64, usize), SkipErr>
    requires { at ≤ length bytes.now }
    ensures { Gives bytes.now result (number_at causes (drop at bytes.now)) }
{
    match read_long(bytes, at) {
        Ok(found) => Ok(found),
        Err(NumErr::Short) => Err(SkipErr {
            at: bytes.len(),
            cause: DatumCause::Short,
        }),
        Err(NumErr::TooLong) => Err(SkipErr {
            at,
            cause: DatumCause::NumberTooLong,
        }),
    }
}

/// A number of 32 bits.
#[tactic(auto, unfolding(crate::specs::Pieces::int_at))]
pub fn int(bytes: &[u8], at: usize) -> Result<(i32, usize), SkipErr>
    requires { at ≤ length bytes.now }
    ensures { Gives bytes.now result (int_at (drop at bytes.now)) }
{
    let (n, end) = number(bytes, at)?;
    if n < -2147483648 || n > 2147483647 {
        return Err(SkipErr {
            at,
            cause: DatumCause::NumberTooLong,
        });
    }
    Ok((n as i32, end))
}

/// So many bytes.
#[inline(always)]
#[tactic(auto, unfolding(avro_container::specs::Reading::bytes_at))]
pub fn part(bytes: &[u8], at: usize, n: usize) -> Result<(&[u8], usize), SkipErr>
    requires { at ≤ length bytes.now }
    ensures value { Lends bytes.now result (bytes_at causes n (drop at bytes.now)) }
    ensures count { IfOk result (λ x. length x.0.now ≡ n) }
{
    if bytes.len() - at < n {
        return Err(SkipErr {
            at: bytes.len(),
            cause: DatumCause::Short,
        });
    }
    Ok((&bytes[at..at + n], at + n))
}

#[tactic(auto, unfolding(avro_container::specs::Reading::length_at))]
fn length(bytes: &[u8], at: usize) -> Result<(usize, usize), SkipErr>
    requires { at ≤ length bytes.now }
    ensures { Gives bytes.now result (length_at causes (drop at bytes.now)) }
{
    let (n, end) = number(bytes, at)?;
    if n < 0 {
        return Err(SkipErr {
            at,
            cause: DatumCause::NegativeLength,
        });
    }
    Ok((n as usize, end))
}

/// A length, and so many bytes.
#[tactic(auto, unfolding(avro_container::specs::Reading::blob_at))]
pub fn blob(bytes: &[u8], at: usize) -> Result<(&[u8], usize), SkipErr>
    requires { at ≤ length bytes.now }
    ensures { Lends bytes.now result (blob_at causes (drop at bytes.now)) }
{
    let (len, from) = length(bytes, at)?;
    let (found, end) = part(bytes, from, len)?;
    Ok((found, end))
}

/// The bytes as a text, where they are UTF-8. Most texts are ASCII, which is sooner seen.
#[inline(always)]
pub fn text_of(bytes: &[u8]) -> Option<&str>
    ensures { MatchOption result (is_utf8 bytes.now ≡ false) (λ t. (is_utf8 bytes.now ≡ true) × (t.now ≡ bytes.now)) }
{
    if bytes.is_ascii() {
        return Some(unsafe { str::from_utf8_unchecked(bytes) });
    }
    wide_text(bytes)
}

#[inline(never)]
fn wide_text(bytes: &[u8]) -> Option<&str>
    ensures { MatchOption result (is_utf8 bytes.now ≡ false) (λ t. (is_utf8 bytes.now ≡ true) × (t.now ≡ bytes.now)) }
{
    match str::from_utf8(bytes) {
        Ok(text) => Some(text),
        Err(_) => None,
    }
}

/// A position below `count`; any other is the fault `above`.
#[inline(always)]
pub fn position(
    count: usize,
    bytes: &[u8],
    at: usize,
    above: DatumCause,
) -> Result<(u32, usize), SkipErr>
    requires { at ≤ length bytes.now }
    ensures within { IfOk result (λ x. x.0 < count) }
    ensures value { Gives bytes.now result (position_at above count (drop at bytes.now)) }
{
    match short_position(count, bytes, at) {
        Some(n) => Ok((n, at + 1)),
        None => any_position(count, bytes, at, above),
    }
}

#[inline(never)]
#[tactic(auto, unfolding(crate::specs::Pieces::position_at))]
fn any_position(
    count: usize,
    bytes: &[u8],
    at: usize,
    above: DatumCause,
) -> Result<(u32, usize), SkipErr>
    requires { at ≤ length bytes.now }
    ensures within { IfOk result (λ x. x.0 < count) }
    ensures value { Gives bytes.now result (position_at above count (drop at bytes.now)) }
{
    let (n, end) = number(bytes, at)?;
    if n < 0 || n as u64 >= count as u64 || n > 4294967295 {
        return Err(SkipErr { at, cause: above });
    }
    Ok((n as u32, end))
}

// Most positions have one byte, and most lengths at most two. What follows reads those alone: `None` is any other, and any
// fault.

#[inline(always)]
#[tactic(auto, using(crate::proofs::Shorts::one_byte))]
fn short_count(bytes: &[u8], at: usize) -> Option<usize>
    ensures number { IfSome result (λ n. number_at causes (drop at bytes.now) ≡ Ok (pos n, drop (at + 1) bytes.now)) }
    ensures small { IfSome result (λ n. (n < 64) × (at < length bytes.now)) }
{
    if at < bytes.len() {
        let byte = bytes[at];
        if byte < 128 && byte % 2 == 0 {
            return Some(usize::from(byte / 2));
        }
    }
    None
}

/// A length of up to two bytes, and where it ends.
#[inline(always)]
fn short_length(bytes: &[u8], at: usize) -> Option<(usize, usize)>
    ensures { IfSome result (λ x. (length_at causes (drop at bytes.now) ≡ Ok (x.0, drop x.1 bytes.now)) × (x.1 ≤ length bytes.now)) }
{
    if at >= bytes.len() {
        return None;
    }
    let first = bytes[at];
    if first % 2 != 0 {
        return None;
    }
    let low = usize::from(first / 2);
    if first < 128 {
        return Some((low, at + 1));
    }
    let next = at + 1;
    if next >= bytes.len() {
        return None;
    }
    let second = bytes[next];
    if second >= 128 {
        return None;
    }
    Some((low - 64 + 64 * usize::from(second), next + 1))
}

/// Such a length, and so many bytes.
#[inline(always)]
#[tactic(auto, unfolding(avro_container::specs::Reading::blob_at))]
pub fn short_blob(bytes: &[u8], at: usize) -> Option<(&[u8], usize)>
    ensures { IfSome result (λ x. (blob_at causes (drop at bytes.now) ≡ Ok (x.0.now, drop x.1 bytes.now)) × (x.1 ≤ length bytes.now)) }
{
    let (len, from) = short_length(bytes, at)?;
    let Ok(found) = part(bytes, from, len) else {
        return None;
    };
    Some(found)
}

/// A position below `count`, and one byte of it.
#[inline(always)]
pub fn short_position(count: usize, bytes: &[u8], at: usize) -> Option<u32>
    ensures within { IfSome result (λ n. (n < count) × (at < length bytes.now)) }
    ensures value { IfSome result (λ n. (above : DatumCause) → position_at above count (drop at bytes.now) ≡ Ok (n, drop (at + 1) bytes.now)) }
{
    let n = short_count(bytes, at)?;
    if n >= count {
        return None;
    }
    Some(n as u32)
}

/// One byte, 0 or 1.
#[tactic(auto, unfolding(crate::specs::Pieces::bool_at))]
pub fn truth(bytes: &[u8], at: usize) -> Result<(bool, usize), SkipErr>
    requires { at ≤ length bytes.now }
    ensures { Gives bytes.now result (bool_at (drop at bytes.now)) }
{
    match &bytes[at..] {
        [] => Err(SkipErr {
            at: bytes.len(),
            cause: DatumCause::Short,
        }),
        [0, ..] => Ok((false, at + 1)),
        [1, ..] => Ok((true, at + 1)),
        [_, ..] => Err(SkipErr {
            at,
            cause: DatumCause::BadBool,
        }),
    }
}

/// The head of a block of which no more than `room` items may come.
#[tactic(auto, using(crate::proofs::Heads::head_told))]
pub fn block_head(bytes: &[u8], at: usize, room: u64) -> Result<(Head, usize), SkipErr>
    requires { at ≤ length bytes.now }
    ensures within { IfOk result (λ x. x.0.count ≤ room) }
    ensures value { GivesBy (λ (h : Head). (h.count, h.size)) bytes.now result (head_at causes room (drop at bytes.now)) }
{
    Ok(avro_container::block_head(bytes, at, room)?)
}
