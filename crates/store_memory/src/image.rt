//! What a crash leaves, by its choices.
ghost use Rattle.std.specs.Prelude.{◌≡◌, ◌++◌, ◌∷◌, [], IfOk, OnOk, map};
ghost use Rattle.std.specs.Option.{option_copied};
ghost use Rattle.ice_store.specs.Files.{find, put, renamed, without};
ghost use Rattle.ice_store.specs.History.{undone, names_by, settled};
ghost use Rattle.store_memory.specs.Torn.{torn_at};

use ice_store::{Bytes, FileRec, Held, Items, NameChange, Place};
use std::alloc::{AllocError, Global};

/// The bytes of an unsealed file after a crash.
#[derive(Debug, Drop, Clone)]
pub struct Torn {
    pub place: Place,
    pub bytes: Bytes,
}

/// A list of choices.
pub type BoolList = Items<bool>;

/// What a crash puts into unsealed files. Of several items of one place the first counts.
pub type TornList = Items<Torn>;

/// What a crash does: which of the pending name changes are done, in their order, a lacking item being false; and what then
/// stands in unsealed files, a lacking one keeping its bytes.
#[derive(Debug, Drop)]
pub struct Choice {
    pub done: BoolList,
    pub torn: TornList,
}

fn find_file<'a>(files: &'a [Held], place: &Place) -> Option<&'a Held>
    ensures { option_copied result ≡ find files.now place.now }
{
    files.iter().find(|held| held.place.is(place))
}

// Takes away what stands at a place.
fn drop_file(files: &mut Vec<Held>, place: &Place)
    ensures { files.new.items ≡ without files.old.items place.now }
{
    files.retain(|held| !held.place.is(place))
}

// Moves a file, where it stands, to a place where then no other stands.
fn move_file(files: &mut Vec<Held>, from: &Place, to: &Place) -> Result<(), AllocError>
    ensures { OnOk result (files.new.items ≡ renamed from.now to.now files.old.items) }
{
    if let Some(held) = find_file(files, from) {
        let mut held = held.copy()?;
        held.place = to.copy()?;
        drop_file(files, from);
        put_file(files, held)?;
    }
    Ok(())
}

fn put_file(files: &mut Vec<Held>, held: Held) -> Result<(), AllocError>
    ensures { OnOk result (files.new.items ≡ put held files.old.items) }
{
    drop_file(files, &held.place);
    files.push(held)?;
    Ok(())
}

fn undo(files: &mut Vec<Held>, change: &NameChange) -> Result<(), AllocError>
    ensures { OnOk result (files.new.items ≡ undone change.now files.old.items) }
{
    match change {
        NameChange::Created(place) => drop_file(files, place),
        NameChange::Renamed(from, to) => move_file(files, to, from)?,
        NameChange::Removed(held) => put_file(files, held.copy()?)?,
    }
    Ok(())
}

/// Undoes the pending changes that aren't done, the last one first.
pub fn undo_some(
    files: &mut Vec<Held>,
    done: &[bool],
    pending: &[NameChange],
) -> Result<(), AllocError>
    ensures { OnOk result (files.new.items ≡ names_by done.now pending.now files.old.items) }
{
    match (done, pending) {
        (_, []) => Ok(()),
        ([], [change, changes @ ..]) => {
            undo_some(files, done, changes)?;
            undo(files, change)
        }
        ([is_done, more @ ..], [change, changes @ ..]) => {
            undo_some(files, more, changes)?;
            if *is_done {
                Ok(())
            } else {
                undo(files, change)
            }
        }
    }
}

fn torn_bytes<'a>(torn: &'a [Torn], place: &Place) -> Option<&'a Bytes>
    ensures { option_copied result ≡ torn_at torn.now place.now }
{
    for t in torn {
        if t.place.is(place) {
            return Some(&t.bytes);
        }
    }
    None
}

fn settle(held: &Held, torn: &[Torn]) -> Result<FileRec, AllocError>
    ensures { IfOk result (λ f. f ≡ settled (torn_at torn.now) held.now) }
{
    let bytes = if held.is_sealed {
        held.bytes.copy()?
    } else {
        match torn_bytes(torn, &held.place) {
            Some(bytes) => bytes.copy()?,
            None => held.bytes.copy()?,
        }
    };
    Ok(FileRec {
        place: held.place.copy()?,
        bytes,
        ms: held.ms,
    })
}

/// The files as a crash leaves them.
pub fn settle_all(alloc: Global, files: &[Held], torn: &[Torn]) -> Result<Vec<FileRec>, AllocError>
    ensures { IfOk result (λ v. v.items ≡ map (settled (torn_at torn.now)) files.now) }
{
    let mut settled = Vec::new(alloc);
    for held in files {
        settled.push(settle(held, torn)?)?;
    }
    Ok(settled)
}
