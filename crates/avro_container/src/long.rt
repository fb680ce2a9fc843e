//! Numbers: int and long (Apache Avro 1.11, "Binary Encoding", "Primitive Types").

ghost use Rattle.std.specs.Prelude.{◌≡◌, ◌++◌, ◌<◌, ◌≤◌, ◌+◌, [], ◌∷◌, length, drop, MatchOption, IfOk, OnOk, OnErr};
ghost use Rattle.avro_container.specs.Growth.{Grows};
ghost use Rattle.avro_container.specs.Long.{IsLongAt, NoLongAt, LongsAreApart, zigzag, groups_of, written_long, WrittenLongIsShortest, WrittenLongSpells};
ghost use Rattle.avro_container.specs.LongReading.{GivesNumber, unsigned_at, long_at, unzigzag};

use crate::fault::NumErr;
use std::alloc::AllocError;

/// The byte in a place, where the bytes don't end before it.
#[inline(always)]
fn byte_at(bytes: &[u8], at: usize) -> Option<u8>
    ensures { MatchOption result (drop at bytes.now ≡ []) (λ b. (drop at bytes.now ≡ b ∷ drop (at + 1) bytes.now) × (at < length bytes.now)) }
{
    if at < bytes.len() {
        Some(bytes[at])
    } else {
        None
    }
}

fn signed(n: u64) -> i64
    ensures { result ≡ unzigzag n }
{
    if n % 2 == 0 {
        (n / 2) as i64
    } else {
        -((n / 2) as i64) - 1
    }
}

// Apart from the numbers of up to three bytes, which are most and are read where they are wanted.
#[inline(never)]
fn read_groups(bytes: &[u8], at: usize) -> Result<(u64, usize), NumErr>
    ensures { GivesNumber bytes.now result (unsigned_at (drop at bytes.now)) }
{
    let mut value = 0u64;
    let mut scale = 1u64;
    let mut end = at;
    for _ in 0..9u32 {
        let Some(byte) = byte_at(bytes, end) else {
            return Err(NumErr::Short);
        };
        let byte = u64::from(byte);
        end += 1;
        if byte < 128 {
            return Ok((value + scale * byte, end));
        }
        value += scale * (byte - 128);
        scale *= 128;
    }
    // Nine groups have 63 bits, so the tenth has one.
    let Some(last) = byte_at(bytes, end) else {
        return Err(NumErr::Short);
    };
    if last > 1 {
        return Err(NumErr::TooLong);
    }
    Ok((value + scale * u64::from(last), end + 1))
}

#[inline(always)]
#[tactic(auto, using(crate::proofs::LongGroups::one_group, crate::proofs::LongGroups::no_byte))]
fn read_unsigned(bytes: &[u8], at: usize) -> Result<(u64, usize), NumErr>
    ensures { GivesNumber bytes.now result (unsigned_at (drop at bytes.now)) }
{
    let Some(first) = byte_at(bytes, at) else {
        return Err(NumErr::Short);
    };
    if first < 128 {
        return Ok((u64::from(first), at + 1));
    }
    let next = at + 1;
    let Some(second) = byte_at(bytes, next) else {
        return read_groups(bytes, at);
    };
    let low = u64::from(first) - 128;
    if second < 128 {
        return Ok((low + 128 * u64::from(second), next + 1));
    }
    let last = next + 1;
    let Some(third) = byte_at(bytes, last) else {
        return read_groups(bytes, at);
    };
    if third < 128 {
        let middle = u64::from(second) - 128;
        return Ok((low + 128 * middle + 16384 * u64::from(third), last + 1));
    }
    read_groups(bytes, at)
}

#[inline(always)]
#[tactic(auto, unfolding(crate::specs::LongReading::long_at))]
fn read_signed(bytes: &[u8], at: usize) -> Result<(i64, usize), NumErr>
    ensures { GivesNumber bytes.now result (long_at (drop at bytes.now)) }
{
    let (n, end) = read_unsigned(bytes, at)?;
    Ok((signed(n), end))
}

/// The number that begins at `at`, and where it ends. Any spelling of at most ten bytes is taken.
/// An `at` past the end reads as at the end.
#[inline(always)]
pub fn read_long(bytes: &[u8], at: usize) -> Result<(i64, usize), NumErr>
    ensures found { IfOk result (λ x. IsLongAt bytes.now at x.1 x.0) }
    ensures none { OnErr result (NoLongAt bytes.now at) }
    // Which fault it is.
    ensures exact { GivesNumber bytes.now result (long_at (drop at bytes.now)) }
{
    read_signed(bytes, at)
}

fn unsigned(n: i64) -> u64
    ensures { result ≡ zigzag n }
{
    if n < 0 {
        2 * (-(n + 1)) as u64 + 1
    } else {
        2 * n as u64
    }
}

#[inline(never)]
fn write_groups(n: u64, to: &mut Vec<u8>) -> Result<(), AllocError>
    ensures ok { OnOk result (to.new.items ≡ to.old.items ++ groups_of 10 n) }
    ensures grows { Grows to.old.items to.new.items }
{
    let mut rest = n;
    for _ in 0..9u32 {
        if rest < 128 {
            to.push(rest as u8)?;
            return Ok(());
        }
        to.push((rest % 128 + 128) as u8)?;
        rest /= 128;
    }
    to.push(rest as u8)?;
    Ok(())
}

// The numbers of up to three bytes are written where they are wanted, as they are read.
#[inline(always)]
#[tactic(auto, using(crate::proofs::LongWritten::last_written))]
fn write_unsigned(n: u64, to: &mut Vec<u8>) -> Result<(), AllocError>
    ensures ok { OnOk result (to.new.items ≡ to.old.items ++ groups_of 10 n) }
    ensures grows { Grows to.old.items to.new.items }
{
    if n >= 2097152 {
        return write_groups(n, to);
    }
    to.reserve(3)?;
    if n < 128 {
        to.push_reserved(n as u8);
        return Ok(());
    }
    to.push_reserved((n % 128 + 128) as u8);
    let rest = n / 128;
    if rest < 128 {
        to.push_reserved(rest as u8);
        return Ok(());
    }
    to.push_reserved((rest % 128 + 128) as u8);
    to.push_reserved((rest / 128) as u8);
    Ok(())
}

/// Writes the number's shortest spelling at the end.
///
/// Where memory runs out, some bytes of it may stand at the end: a public caller cuts them off.
#[inline(always)]
#[tactic(auto, unfolding(crate::specs::Long::written_long))]
pub(crate) fn put_long(n: i64, to: &mut Vec<u8>) -> Result<(), AllocError>
    ensures ok { OnOk result (to.new.items ≡ to.old.items ++ written_long n) }
    ensures grows { Grows to.old.items to.new.items }
{
    write_unsigned(unsigned(n), to)
}

/// Writes the number's shortest spelling at the end.
#[inline(always)]
pub fn write_long(n: i64, to: &mut Vec<u8>) -> Result<(), AllocError>
    ensures written { OnOk result (to.new.items ≡ to.old.items ++ written_long n) }
    ensures err { OnErr result (to.new.items ≡ to.old.items) }
{
    let len = to.len();
    match put_long(n, to) {
        Ok(()) => Ok(()),
        Err(e) => {
            to.truncate(len);
            Err(e)
        }
    }
}

/// No spelling of a number begins another, so what was written is read again, whatever follows it.
pub fn longs_are_apart()
    ensures { LongsAreApart }
{}

/// What `write_long` writes spells the number.
pub fn written_long_spells()
    ensures { WrittenLongSpells }
{}

/// No spelling of a number is shorter than what `write_long` writes.
pub fn written_long_is_shortest()
    ensures { WrittenLongIsShortest }
{}
