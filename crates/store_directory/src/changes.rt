//! Calls that create, rename and remove regular files. Each looks first at what stands at its paths, and none replaces,
//! opens for writing or removes anything but a regular file.
ghost use Rattle.std.specs.Prelude.{OnOk};
ghost use Rattle.store_directory.specs.Noted.{KeepsNoted, IsParentNoted};

use crate::calls::{
    SystemErr, check_same, is_absent, is_file, look_for_file, metadata_of, parent_of,
};
use crate::directories::{Directories, make_parents, note_parent};
use crate::open_files::OpenFiles;
use ice_store::{Gone, Made, Moved};
use std::fs;
use std::fs::{File, Metadata, OpenOptions, TryLockError};
use std::io::ErrorKind;

/// How often the lock is tried before a rename gives up.
const LOCK_TRIES: u32 = 1_000_000;

/// The name of the lock file, in the directory of a rename's new name. No listing tells of it.
pub const LOCK_NAME: &str = ".upkeep.lock";

/// Creates an empty file, and the directories above it that lack, and keeps it open. A file that stands there already
/// isn't opened.
pub fn create_file(
    rt: &HostRuntime,
    path: String,
    open: &mut OpenFiles,
    changed: &mut Directories,
) -> Result<Made, SystemErr>
    ensures { KeepsNoted changed.old changed.new }
{
    open.reserve()?;
    note_parent(rt, path.as_str(), changed)?;
    match File::create_new(rt, path.as_str()) {
        Ok(file) => return created(path, file, open),
        Err(e) if e.kind() == ErrorKind::AlreadyExists => return existing(rt, path.as_str()),
        Err(e) if e.kind() == ErrorKind::NotFound => {}
        Err(_) => return Err(SystemErr::Refused),
    }
    make_parents(rt, path.as_str(), changed)?;
    match File::create_new(rt, path.as_str()) {
        Ok(file) => created(path, file, open),
        Err(e) if e.kind() == ErrorKind::AlreadyExists => existing(rt, path.as_str()),
        Err(_) => Err(SystemErr::Refused),
    }
}

fn created(path: String, file: File, open: &mut OpenFiles) -> Result<Made, SystemErr> {
    open.add(path, file)?;
    Ok(Made::New)
}

// Something stood at the path when it was to be created.
fn existing(rt: &HostRuntime, path: &str) -> Result<Made, SystemErr> {
    if is_file(rt, path)? {
        Ok(Made::Exists)
    } else {
        Err(SystemErr::Refused)
    }
}

/// Removes a regular file.
pub fn remove_file(
    rt: &HostRuntime,
    path: &str,
    open: &mut OpenFiles,
    changed: &mut Directories,
) -> Result<Gone, SystemErr>
    ensures { KeepsNoted changed.old changed.new }
{
    if !is_file(rt, path)? {
        return Ok(Gone::Absent);
    }
    note_parent(rt, path, changed)?;
    match fs::remove_file(rt, path) {
        Ok(()) => {
            let _ = open.take(path);
            Ok(Gone::Done)
        }
        Err(e) if is_absent(&e) => Ok(Gone::Absent),
        Err(_) => Err(SystemErr::Refused),
    }
}

/// Renames a file where nothing has the new name. The test and the rename stand under a lock on a file in the directory of
/// the new name, which is made where it lacks and is never removed.
pub fn rename_file(
    rt: &HostRuntime,
    from: &str,
    to: &str,
    changed: &mut Directories,
) -> Result<Moved, SystemErr>
    ensures kept { KeepsNoted changed.old changed.new }
    ensures from { OnOk result (IsParentNoted changed.new from.now) }
    ensures to { OnOk result (IsParentNoted changed.new to.now) }
{
    note_parent(rt, from, changed)?;
    note_parent(rt, to, changed)?;
    let lock = lock_path(rt, parent_of(to))?;
    let held = open_lock(rt, lock.as_str())?;
    take_lock(&held)?;
    // the lock ends where the file is closed
    rename_where_free(rt, from, to)
}

fn lock_path(rt: &HostRuntime, dir: &str) -> Result<String, SystemErr> {
    let mut path = String::from_str(rt.alloc(), dir)?;
    if dir != "/" {
        path.push_str("/")?;
    }
    path.push_str(LOCK_NAME)?;
    Ok(path)
}

fn rename_where_free(rt: &HostRuntime, from: &str, to: &str) -> Result<Moved, SystemErr> {
    if is_file(rt, to)? {
        return Ok(Moved::Exists);
    }
    if !is_file(rt, from)? {
        return Err(SystemErr::Refused);
    }
    match fs::rename(rt, from, to) {
        Ok(()) => Ok(Moved::Done),
        Err(_) => Err(SystemErr::Refused),
    }
}

// The lock file, made where it lacks. A file that is made new is no link, and another is the one that was looked at.
fn open_lock(rt: &HostRuntime, lock: &str) -> Result<File, SystemErr> {
    if let Some(found) = look_for_file(rt, lock)? {
        return open_found(rt, lock, &found);
    }
    match File::create_new(rt, lock) {
        Ok(file) => return Ok(file),
        Err(e) if e.kind() == ErrorKind::AlreadyExists => {}
        Err(_) => return Err(SystemErr::Refused),
    }
    match look_for_file(rt, lock)? {
        Some(found) => open_found(rt, lock, &found),
        None => Err(SystemErr::Refused),
    }
}

fn open_found(rt: &HostRuntime, path: &str, found: &Metadata) -> Result<File, SystemErr> {
    match OpenOptions::new().write(true).open(rt, path) {
        Ok(file) => {
            check_same(found, &metadata_of(&file)?)?;
            Ok(file)
        }
        Err(_) => Err(SystemErr::Refused),
    }
}

fn take_lock(file: &File) -> Result<(), SystemErr> {
    for _ in 0..LOCK_TRIES {
        match file.try_lock() {
            Ok(()) => return Ok(()),
            Err(TryLockError::WouldBlock) => {}
            Err(TryLockError::Error(_)) => return Err(SystemErr::Refused),
        }
    }
    Err(SystemErr::Refused)
}
