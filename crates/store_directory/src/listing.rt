//! The regular files under a directory.
ghost use Rattle.std.specs.Prelude.{IsPermutation};
ghost use Rattle.std.specs.List.Sorted.{IsSortedByKey};
ghost use Rattle.std.specs.Cmp.Lexicographic.{slice_cmp};
ghost use Rattle.std.specs.Ordering.{nat_cmp, on};
ghost use Rattle.ice_store.specs.Places.{joined};

use crate::calls::{SystemErr, cause_of, is_absent, look, path_of};
use crate::changes::LOCK_NAME;
use crate::clock::ms_since_1970;
use ice_store::{Items, Listed, ListedList, Place, is_part};
use std::fs;
use std::fs::Metadata;

/// All regular files under a place where something stands, at any depth, in place order, without lock files. Symbolic links
/// are neither followed nor listed, and what is gone before it is looked at isn't listed. A name that isn't UTF-8 is
/// refused.
pub fn files_under(
    rt: &HostRuntime,
    dir: &Place,
    path: &str,
    seen: &Metadata,
) -> Result<ListedList, SystemErr> {
    let mut found = Vec::new(rt.alloc());
    let mut waiting = Vec::new(rt.alloc());
    enter(rt, dir.copy()?, path, seen, &mut waiting, &mut found)?;
    for _ in 0..u64::MAX {
        match waiting.pop() {
            Some(place) => visit(rt, place, &mut waiting, &mut found)?,
            None => return Ok(in_place_order(found)),
        }
    }
    Err(SystemErr::Refused)
}

fn in_place_order(mut found: Vec<Listed>) -> ListedList
    ensures same { IsPermutation found.items result }
    ensures ordered { IsSortedByKey (λ l. l.place) (on joined (slice_cmp nat_cmp)) result }
{
    found.sort_unstable();
    Items::new(found)
}

fn visit(
    rt: &HostRuntime,
    place: Place,
    waiting: &mut Vec<Place>,
    found: &mut Vec<Listed>,
) -> Result<(), SystemErr> {
    let path = path_of(&place)?;
    match look(rt, path.as_str())? {
        Some(seen) => enter(rt, place, path.as_str(), &seen, waiting, found),
        None => Ok(()),
    }
}

// Lists the file at a place, or adds what the directory there holds to the places that wait.
fn enter(
    rt: &HostRuntime,
    place: Place,
    path: &str,
    seen: &Metadata,
    waiting: &mut Vec<Place>,
    found: &mut Vec<Listed>,
) -> Result<(), SystemErr> {
    if seen.is_dir() {
        return add_children(rt, &place, path, waiting);
    }
    if seen.is_file() && !is_lock(path) {
        return add_listed(place, seen, found);
    }
    Ok(())
}

fn is_lock(path: &str) -> bool {
    match path.rsplit_once('/') {
        Some((_, name)) => name == LOCK_NAME,
        None => false,
    }
}

fn listed(place: Place, seen: &Metadata) -> Listed {
    let ms = match seen.modified() {
        Ok(time) => ms_since_1970(time),
        Err(_) => 0,
    };
    Listed {
        place,
        ms,
        size: seen.len(),
    }
}

fn add_children(
    rt: &HostRuntime,
    dir: &Place,
    path: &str,
    waiting: &mut Vec<Place>,
) -> Result<(), SystemErr> {
    let entries = match fs::read_dir(rt, path) {
        Ok(entries) => entries,
        Err(e) if is_absent(&e) => return Ok(()),
        Err(e) => return Err(cause_of(e)),
    };
    for entry in entries {
        match entry {
            Ok(entry) => add_child(dir, entry.file_name().as_bytes(), waiting)?,
            Err(e) => return Err(cause_of(e)),
        }
    }
    Ok(())
}

fn add_child(dir: &Place, name: &[u8], waiting: &mut Vec<Place>) -> Result<(), SystemErr> {
    if !is_part(name) {
        return Err(SystemErr::Refused);
    }
    add_place(dir.child(name)?, waiting)
}

fn add_place(place: Place, waiting: &mut Vec<Place>) -> Result<(), SystemErr> {
    match waiting.push(place) {
        Ok(()) => Ok(()),
        Err(_) => Err(SystemErr::Memory),
    }
}

fn add_listed(place: Place, seen: &Metadata, found: &mut Vec<Listed>) -> Result<(), SystemErr> {
    match found.push(listed(place, seen)) {
        Ok(()) => Ok(()),
        Err(_) => Err(SystemErr::Memory),
    }
}
