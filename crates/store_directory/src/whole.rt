//! Reading until a buffer is full, and writing until all is taken, over as many calls as a stream needs.
ghost use Rattle.std.specs.Prelude.{◌≡◌, ◌≤◌, ◌<◌, ℕ, length, take, IfOk, OnErr};
ghost use Rattle.std.specs.Io.KnownBytes.{Consumes, IsAtEnd};
ghost use Rattle.store_directory.specs.Whole.{TakesFront, TakesSome};

use ice_store::Failed;
use std::io::{ErrorKind, Read, Write};

/// Reads until the buffer is full or the source ends; answers how many bytes were read. An interrupted call is made again.
pub fn fill<R: Read>(source: &mut R, buffer: &mut [u8]) -> Result<usize, Failed>
    ensures within { IfOk result (λ n. n ≤ length buffer.new) }
    ensures taken { IfOk result (λ n. Consumes (R.remaining source.old) (R.remaining source.new) (take n buffer.new)) }
    ensures kept { OnErr result ((n : ℕ) × (n ≤ length buffer.new) × Consumes (R.remaining source.old) (R.remaining source.new) (take n buffer.new)) }
    ensures whole { IfOk result (λ n. n < length buffer.new → IsAtEnd (R.remaining source.new)) }
{
    let mut filled = 0;
    for _ in 0..u64::MAX {
        if filled >= buffer.len() {
            return Ok(filled);
        }
        match source.read(&mut buffer[filled..]) {
            Ok(n) => {
                if n == 0 {
                    return Ok(filled);
                }
                filled += n;
            }
            Err(e) => {
                if e.kind() != ErrorKind::Interrupted {
                    return Err(Failed);
                }
            }
        }
    }
    Err(Failed)
}

/// Writes all of the bytes, or fails after a front of them. A write that takes nothing is a failure, and an interrupted
/// call is made again.
pub fn write_whole<W: Write>(out: &mut W, bytes: &[u8]) -> Result<(), Failed>
    ensures { TakesFront (W.contents out.old) (W.contents out.new) bytes.now result }
{
    let mut rest = bytes;
    for _ in 0..u64::MAX {
        if rest.is_empty() {
            return Ok(());
        }
        match write_once(out, rest) {
            Ok(n) => rest = &rest[n..],
            Err(_) => return Err(Failed),
        }
    }
    Err(Failed)
}

/// Writes all of the bytes and flushes them, or fails after a front of them.
pub fn put_whole<W: Write>(out: &mut W, bytes: &[u8]) -> Result<(), Failed>
    ensures { TakesFront (W.contents out.old) (W.contents out.new) bytes.now result }
{
    write_whole(out, bytes)?;
    match out.flush() {
        Ok(()) => Ok(()),
        Err(_) => Err(Failed),
    }
}

// One write of bytes, and how many of them it took: none where the call was interrupted.
fn write_once<W: Write>(out: &mut W, bytes: &[u8]) -> Result<usize, Failed>
    ensures within { IfOk result (λ n. n ≤ length bytes.now) }
    ensures taken { TakesSome (W.contents out.old) (W.contents out.new) bytes.now result }
{
    match out.write(bytes) {
        Ok(n) => {
            if n == 0 {
                return Err(Failed);
            }
            Ok(n)
        }
        Err(e) => {
            if e.kind() != ErrorKind::Interrupted {
                return Err(Failed);
            }
            Ok(0)
        }
    }
}
