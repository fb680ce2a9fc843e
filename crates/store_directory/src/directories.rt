//! The directories that a run changes or lists: which are to be made durable, and where a symbolic link is refused.
ghost use Rattle.std.specs.Prelude.{true, OnOk, OnErr, string_cmp};
ghost use Rattle.std.specs.BTreeSet.{IsUnchanged, Updates};
ghost use Rattle.store_directory.specs.Noted.{KeepsNoted, Notes, NotesParent};

use crate::calls::{SystemErr, check_same, look, metadata_of, parent_of};
use std::alloc::AllocError;
use std::collections::BTreeSet;
use std::fs::{self, File};
use std::io::ErrorKind;

/// The paths of directories.
pub type Directories = BTreeSet<String>;

/// Adds a directory.
pub fn note(rt: &HostRuntime, dir: &str, noted: &mut Directories) -> Result<(), SystemErr>
    ensures ok { OnOk result (Notes noted.old noted.new dir.now) }
    ensures err { OnErr result (IsUnchanged noted.old noted.new) }
    ensures kept { KeepsNoted noted.old noted.new }
{
    if noted.contains(dir) {
        return Ok(());
    }
    let owned = String::from_str(rt.alloc(), dir)?;
    add(owned, noted)?;
    Ok(())
}

fn add(dir: String, noted: &mut Directories) -> Result<(), AllocError>
    ensures ok { OnOk result (Updates string_cmp noted.old noted.new dir true) }
    ensures err { OnErr result (IsUnchanged noted.old noted.new) }
{
    noted.insert(dir)?;
    Ok(())
}

/// Adds the directory that holds a path, before a name in it is changed.
pub fn note_parent(rt: &HostRuntime, path: &str, noted: &mut Directories) -> Result<(), SystemErr>
    ensures ok { OnOk result (NotesParent noted.old noted.new path.now) }
    ensures err { OnErr result (IsUnchanged noted.old noted.new) }
    ensures kept { KeepsNoted noted.old noted.new }
{
    note(rt, parent_of(path), noted)
}

/// Makes the directories above a path that lack.
pub fn make_parents(
    rt: &HostRuntime,
    path: &str,
    changed: &mut Directories,
) -> Result<(), SystemErr>
    ensures { KeepsNoted changed.old changed.new }
{
    for end in 1..path.len() {
        match path.split_at_checked(end) {
            Some((dir, rest)) if rest.starts_with('/') => make_directory(rt, dir, changed)?,
            _ => {}
        }
    }
    Ok(())
}

fn make_directory(rt: &HostRuntime, dir: &str, changed: &mut Directories) -> Result<(), SystemErr>
    ensures { KeepsNoted changed.old changed.new }
{
    if look(rt, dir)?.is_some() {
        return Ok(());
    }
    note_parent(rt, dir, changed)?;
    match fs::create_dir(rt, dir) {
        Ok(()) => Ok(()),
        Err(e) if e.kind() == ErrorKind::AlreadyExists => Ok(()),
        Err(_) => Err(SystemErr::Refused),
    }
}

/// Makes the bytes, or the names, of an open file or directory durable.
pub fn sync(file: &File) -> Result<(), SystemErr> {
    match file.sync_all() {
        Ok(()) => Ok(()),
        Err(_) => Err(SystemErr::Unsynced),
    }
}

/// Makes the names in these directories durable. One that is gone is a failure: nobody can say what became of its names.
pub fn sync_directories(rt: &HostRuntime, changed: &Directories) -> Result<(), SystemErr> {
    for dir in changed {
        sync_directory(rt, dir.as_str())?;
    }
    Ok(())
}

fn sync_directory(rt: &HostRuntime, dir: &str) -> Result<(), SystemErr> {
    let Some(looked_at) = look(rt, dir)? else {
        return Err(SystemErr::Refused);
    };
    match File::open(rt, dir) {
        Ok(file) => {
            check_same(&looked_at, &metadata_of(&file)?)?;
            sync(&file)
        }
        Err(_) => Err(SystemErr::Refused),
    }
}

/// Refuses a path of which a directory above its last part and below `around` is a symbolic link.
pub fn check_links(rt: &HostRuntime, around: &str, path: &str) -> Result<(), SystemErr> {
    if !is_below(path, around) {
        return Ok(());
    }
    for end in around.len()..path.len() {
        match path.split_at_checked(end) {
            Some((dir, rest)) if rest.starts_with('/') && end > around.len() => {
                refuse_link(rt, dir)?
            }
            _ => {}
        }
    }
    Ok(())
}

fn is_below(path: &str, around: &str) -> bool {
    match path.strip_prefix(around) {
        Some(rest) => around == "/" || rest.starts_with('/'),
        None => false,
    }
}

fn refuse_link(rt: &HostRuntime, path: &str) -> Result<(), SystemErr> {
    match look(rt, path)? {
        Some(found) if found.is_symlink() => Err(SystemErr::Refused),
        _ => Ok(()),
    }
}
