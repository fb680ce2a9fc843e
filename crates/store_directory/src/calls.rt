//! Calls of the file system on single paths, and why one didn't do its work.
ghost use Rattle.std.specs.Prelude.{◌≡◌, ◌≢◌, ◌↔◌, ◌≤◌, ◌<◌, length, IfOk, IsErrOf, IsUtf8, string_bytes};
ghost use Rattle.std.specs.Io.KnownBytes.{Consumes, IsAtEnd};
ghost use Rattle.std.specs.IoError.{error_kind};
ghost use Rattle.ice_store.specs.Places.{text_of};
ghost use Rattle.store_directory.specs.Paths.{IsParent, or_root};
ghost use Rattle.store_directory.specs.declared.calls.SystemErr.TheVariants.{Memory as Lacking, Refused};

use crate::whole::fill;
use ice_store::{Bytes, Place};
use std::alloc::{AllocError, Global};
use std::fs::{File, Metadata};
use std::io::{ErrorKind, Read, Seek, SeekFrom};
use std::os::unix::fs::MetadataExt;
use std::{fs, io};

/// Why a call of the file system didn't do its work.
#[derive(Debug, Clone, Copy, PartialEq, Eq)]
pub enum SystemErr {
    /// Memory lacked, and nothing was changed.
    Memory,
    /// The system refused the call, or stopped in the middle of it.
    Refused,
    /// The system couldn't make something durable.
    Unsynced,
}

impl From<AllocError> for SystemErr {
    ghost from_gives = { λ _ e. e ≡ Lacking };

    fn from(_: AllocError) -> Self {
        SystemErr::Memory
    }
}

/// Why a call that changes nothing failed.
pub fn cause_of(error: io::Error) -> SystemErr
    ensures memory { (result ≡ Lacking) ↔ (error_kind error ≡ ErrorKind.OutOfMemory) }
    ensures refused { error_kind error ≢ ErrorKind.OutOfMemory → result ≡ Refused }
{
    match error.kind() {
        ErrorKind::OutOfMemory => SystemErr::Memory,
        _ => SystemErr::Refused,
    }
}

/// The path of a place, for the system.
pub fn path_of(place: &Place) -> Result<String, SystemErr>
    ensures ok { IfOk result (λ path. string_bytes path ≡ text_of place.now) }
    ensures refused { IsErrOf result Refused → IsUtf8 (text_of place.now) → ⊥ }
{
    match String::from_utf8(place.text()?.into_inner()) {
        Ok(path) => Ok(path),
        Err(_) => Err(SystemErr::Refused),
    }
}

/// The path of the directory that holds a path: what stands before its last slash, or the root.
pub fn parent_of(path: &str) -> &str
    ensures { IsParent path.now result.now }
{
    match path.rsplit_once('/') {
        Some((before, _)) => or_root(before),
        None => "/",
    }
}

fn or_root(text: &str) -> &str
    ensures { result.now ≡ or_root text.now }
{
    if text.is_empty() { "/" } else { text }
}

/// Whether a call failed because nothing stands at its path.
pub fn is_absent(error: &io::Error) -> bool {
    matches!(error.kind(), ErrorKind::NotFound | ErrorKind::NotADirectory)
}

/// What stands at a path, of whatever kind; symbolic links aren't followed.
pub fn look(rt: &HostRuntime, path: &str) -> Result<Option<Metadata>, SystemErr> {
    match fs::symlink_metadata(rt, path) {
        Ok(found) => Ok(Some(found)),
        Err(e) if is_absent(&e) => Ok(None),
        Err(_) => Err(SystemErr::Refused),
    }
}

/// The regular file that stands at a path. Anything else there is refused, so that no caller takes the place for free or
/// reaches another file through a link.
pub fn look_for_file(rt: &HostRuntime, path: &str) -> Result<Option<Metadata>, SystemErr> {
    match look(rt, path)? {
        Some(found) if !found.is_file() => Err(SystemErr::Refused),
        found => Ok(found),
    }
}

/// Whether a regular file stands at a path.
pub fn is_file(rt: &HostRuntime, path: &str) -> Result<bool, SystemErr> {
    Ok(look_for_file(rt, path)?.is_some())
}

/// Refuses an open file that isn't the one that was looked at, by device and inode.
pub fn check_same(looked_at: &Metadata, open: &Metadata) -> Result<(), SystemErr> {
    if looked_at.dev() == open.dev() && looked_at.ino() == open.ino() {
        Ok(())
    } else {
        Err(SystemErr::Refused)
    }
}

/// What an open file is.
pub fn metadata_of(file: &File) -> Result<Metadata, SystemErr> {
    match file.metadata() {
        Ok(found) => Ok(found),
        Err(_) => Err(SystemErr::Refused),
    }
}

/// The length in bytes of the regular file that stands at a path.
pub fn size_of(rt: &HostRuntime, path: &str) -> Result<Option<u64>, SystemErr> {
    Ok(look_for_file(rt, path)?.map(|found| found.len()))
}

/// A part of a file, as `Store::read_at` gives it.
pub fn read_part(
    rt: &HostRuntime,
    path: &str,
    from: u64,
    len: usize,
) -> Result<Option<Bytes>, SystemErr> {
    let Some(looked_at) = look_for_file(rt, path)? else {
        return Ok(None);
    };
    match File::open(rt, path) {
        Ok(mut file) => {
            let found = metadata_of(&file)?;
            check_same(&looked_at, &found)?;
            Ok(Some(part_of(rt.alloc(), &mut file, found.len(), from, len)?))
        }
        Err(e) if is_absent(&e) => Ok(None),
        Err(_) => Err(SystemErr::Refused),
    }
}

fn part_of(
    alloc: Global,
    file: &mut File,
    size: u64,
    from: u64,
    len: usize,
) -> Result<Bytes, SystemErr> {
    // what the file has behind the offset, so that a large `len` takes no more room
    let left = size.saturating_sub(from);
    let room = usize::try_from(left).unwrap_or(usize::MAX).min(len);
    if room > 0 && from > 0 && file.seek(SeekFrom::Start(from)).is_err() {
        return Err(SystemErr::Refused);
    }
    read_up_to(alloc, file, room)
}

// This many bytes of a source, or all that there are where these are fewer.
fn read_up_to<R: Read>(alloc: Global, source: &mut R, room: usize) -> Result<Bytes, SystemErr>
    ensures within { IfOk result (λ bytes. length bytes ≤ room) }
    ensures taken { IfOk result (λ bytes. Consumes (R.remaining source.old) (R.remaining source.new) bytes) }
    ensures whole { IfOk result (λ bytes. length bytes < room → IsAtEnd (R.remaining source.new)) }
{
    let mut bytes = vec![in alloc; 0u8; room]?;
    match fill(source, bytes.as_mut_slice()) {
        Ok(filled) => bytes.truncate(filled),
        Err(_) => return Err(SystemErr::Refused),
    }
    Ok(Bytes::new(bytes))
}
