//! A store over the real directory.
ghost use Rattle.std.specs.Prelude.{◌≡◌, ◌||◌, None, false, IsTrue, IfOk, OnOk, OnErr, string_bytes};
ghost use Rattle.std.specs.BTreeSet.{IsEmpty};
ghost use Rattle.ice_store.specs.Calls.{HasCause};
ghost use Rattle.store_directory.specs.SystemCalls.{answer_of, is_unsynced, FailsOnceLost};
ghost use Rattle.store_directory.specs.Noted.{KeepsNoted, IsParentNoted};
ghost use Rattle.ice_store.specs.Places.{text_of};

use crate::calls::{SystemErr, look, parent_of, path_of, read_part, size_of};
use crate::changes::{create_file, remove_file, rename_file};
use crate::directories::{Directories, check_links, note, sync_directories};
use crate::listing::files_under;
use crate::open_files::OpenFiles;
use ice_store::{Bytes, Gone, Items, ListedList, Made, Manners, Moved, Place, Store, StoreErr};
use std::collections::BTreeSet;

/// The files of the real directory. It tells no past and counts its failures.
///
/// A file is a regular file. Symbolic links and other things are neither listed nor touched: a call on a place where one
/// stands fails. So does a call on a place of which a directory is a symbolic link, below the directory around the one that
/// is listed first: a run lists a table's `metadata` first, so these are the directories below the table. A name that isn't
/// UTF-8 is a failure where it is listed or asked for.
///
/// Before the first rename or removal behind a listing, the names that were listed are made durable: nothing is built on,
/// or removed under, a version that a crash may undo.
#[derive(Drop)]
pub struct DirStore<M> {
    rt: HostRuntime,
    open: OpenFiles,
    // directories whose names changed, or were listed, and weren't made durable since
    changed: Directories,
    // whether there was a listing since names were last made durable
    is_listed: bool,
    // the path of the directory around the one that was listed first
    around: Option<String>,
    // a system that once failed to make something durable may say later that it did: no later sync is believed
    is_sync_lost: bool,
    /// What other writers may do.
    pub manners: M,
    /// How often the store has failed, up to the greatest 64-bit number.
    pub faults: u64,
}

impl<M> DirStore<M> {
    /// The store over the directories of this machine. A rename takes the lock file `.upkeep.lock` in the directory of its
    /// new name. Touches no file and takes no memory.
    pub fn new(rt: HostRuntime, manners: M) -> DirStore<M>
        ensures manners { result.manners ≡ manners }
        ensures faults { result.faults ≡ 0 }
    {
        DirStore {
            rt,
            open: OpenFiles::new(rt.alloc()),
            changed: BTreeSet::new(rt.alloc()),
            is_listed: false,
            around: None,
            is_sync_lost: false,
            manners,
            faults: 0,
        }
    }
}

impl<M> DirStore<M> {
    // Passes an answer on, and counts it where the system refused.
    fn answer<T>(&mut self, done: Result<T, SystemErr>) -> Result<T, StoreErr>
        ensures passed { result ≡ answer_of done }
        ensures cause { HasCause self.old.faults self.new.faults result }
        ensures manners { self.new.manners ≡ self.old.manners }
        ensures lost { self.new.is_sync_lost ≡ (self.old.is_sync_lost || is_unsynced done) }
        ensures changed { self.new.changed ≡ self.old.changed }
        ensures listed { self.new.is_listed ≡ self.old.is_listed }
    {
        let error = match done {
            Ok(value) => return Ok(value),
            Err(SystemErr::Memory) => return Err(StoreErr::Memory),
            Err(error) => error,
        };
        self.is_sync_lost = self.is_sync_lost || error == SystemErr::Unsynced;
        self.faults = self.faults.saturating_add(1);
        Err(StoreErr::Failed)
    }

    // The path of a place, where no directory of it is a symbolic link.
    fn path_to(&self, place: &Place) -> Result<String, SystemErr>
        ensures { IfOk result (λ path. string_bytes path ≡ text_of place.now) }
    {
        let path = path_of(place)?;
        self.check_links_to(path.as_str())?;
        Ok(path)
    }

    fn check_links_to(&self, path: &str) -> Result<(), SystemErr> {
        match &self.around {
            Some(around) => check_links(&self.rt, around.as_str(), path),
            None => Ok(()),
        }
    }

    fn list(&mut self, dir: &Place) -> Result<ListedList, SystemErr>
        ensures manners { self.new.manners ≡ self.old.manners }
        ensures faults { self.new.faults ≡ self.old.faults }
        ensures lost { self.new.is_sync_lost ≡ self.old.is_sync_lost }
        ensures kept { KeepsNoted self.old.changed self.new.changed }
    {
        let path = self.path_to(dir)?;
        if self.around.is_none() {
            self.around = Some(String::from_str(self.rt.alloc(), parent_of(path.as_str()))?);
        }
        match look(&self.rt, path.as_str())? {
            Some(seen) if seen.is_symlink() => Err(SystemErr::Refused),
            Some(seen) => {
                note(&self.rt, path.as_str(), &mut self.changed)?;
                self.is_listed = true;
                files_under(&self.rt, dir, path.as_str(), &seen)
            }
            None => Ok(Items::empty(self.rt.alloc())),
        }
    }

    fn size_at(&self, place: &Place) -> Result<Option<u64>, SystemErr> {
        size_of(&self.rt, self.path_to(place)?.as_str())
    }

    fn part_at(&self, place: &Place, from: u64, len: usize) -> Result<Option<Bytes>, SystemErr> {
        read_part(&self.rt, self.path_to(place)?.as_str(), from, len)
    }

    fn create_at(&mut self, place: &Place) -> Result<Made, SystemErr>
        ensures manners { self.new.manners ≡ self.old.manners }
        ensures faults { self.new.faults ≡ self.old.faults }
        ensures lost { self.new.is_sync_lost ≡ self.old.is_sync_lost }
        ensures listed { self.new.is_listed ≡ self.old.is_listed }
        ensures kept { KeepsNoted self.old.changed self.new.changed }
    {
        let path = self.path_to(place)?;
        create_file(&self.rt, path, &mut self.open, &mut self.changed)
    }

    fn append_whole(&mut self, place: &Place, bytes: &[u8]) -> Result<(), SystemErr>
        ensures manners { self.new.manners ≡ self.old.manners }
        ensures faults { self.new.faults ≡ self.old.faults }
        ensures lost { self.new.is_sync_lost ≡ self.old.is_sync_lost }
        ensures listed { self.new.is_listed ≡ self.old.is_listed }
        ensures changed { self.new.changed ≡ self.old.changed }
    {
        self.open.append(path_of(place)?.as_str(), bytes)
    }

    fn seal_file(&mut self, place: &Place) -> Result<(), SystemErr>
        ensures manners { self.new.manners ≡ self.old.manners }
        ensures faults { self.new.faults ≡ self.old.faults }
        ensures refused { FailsOnceLost self.old.is_sync_lost result }
        ensures lost { self.new.is_sync_lost ≡ self.old.is_sync_lost }
        ensures listed { self.new.is_listed ≡ self.old.is_listed }
        ensures changed { self.new.changed ≡ self.old.changed }
    {
        if self.is_sync_lost {
            return Err(SystemErr::Refused);
        }
        self.open.seal(&self.rt, path_of(place)?.as_str())
    }

    fn rename_to(&mut self, from: &Place, to: &Place) -> Result<Moved, SystemErr>
        ensures manners { self.new.manners ≡ self.old.manners }
        ensures faults { self.new.faults ≡ self.old.faults }
        ensures refused { IsTrue self.old.is_listed → FailsOnceLost self.old.is_sync_lost result }
        ensures lost { self.new.is_sync_lost ≡ self.old.is_sync_lost }
        ensures settled { OnOk result (self.new.is_listed ≡ false) }
        ensures kept { self.new.is_listed ≡ self.old.is_listed → KeepsNoted self.old.changed self.new.changed }
        ensures from { OnOk result (IsParentNoted self.new.changed (text_of from.now)) }
        ensures to { OnOk result (IsParentNoted self.new.changed (text_of to.now)) }
    {
        let from = self.path_to(from)?;
        let to = path_of(to)?;
        if parent_of(to.as_str()) != parent_of(from.as_str()) {
            self.check_links_to(to.as_str())?;
        }
        self.settle_listed()?;
        rename_file(&self.rt, from.as_str(), to.as_str(), &mut self.changed)
    }

    fn remove_at(&mut self, place: &Place) -> Result<Gone, SystemErr>
        ensures manners { self.new.manners ≡ self.old.manners }
        ensures faults { self.new.faults ≡ self.old.faults }
        ensures refused { IsTrue self.old.is_listed → FailsOnceLost self.old.is_sync_lost result }
        ensures lost { self.new.is_sync_lost ≡ self.old.is_sync_lost }
        ensures settled { OnOk result (self.new.is_listed ≡ false) }
        ensures kept { self.new.is_listed ≡ self.old.is_listed → KeepsNoted self.old.changed self.new.changed }
    {
        let path = self.path_to(place)?;
        self.settle_listed()?;
        remove_file(&self.rt, path.as_str(), &mut self.open, &mut self.changed)
    }

    // Makes the names that were listed durable, once.
    fn settle_listed(&mut self) -> Result<(), SystemErr>
        ensures manners { self.new.manners ≡ self.old.manners }
        ensures faults { self.new.faults ≡ self.old.faults }
        ensures refused { IsTrue self.old.is_listed → FailsOnceLost self.old.is_sync_lost result }
        ensures lost { self.new.is_sync_lost ≡ self.old.is_sync_lost }
        ensures settled { OnOk result (self.new.is_listed ≡ false) }
        ensures unsettled { OnErr result (self.new.is_listed ≡ self.old.is_listed) }
        ensures changed { self.new.is_listed ≡ self.old.is_listed → self.new.changed ≡ self.old.changed }
        ensures err { OnErr result (self.new.changed ≡ self.old.changed) }
    {
        if self.is_listed {
            self.sync_changed()?;
        }
        Ok(())
    }

    fn sync_changed(&mut self) -> Result<(), SystemErr>
        ensures manners { self.new.manners ≡ self.old.manners }
        ensures faults { self.new.faults ≡ self.old.faults }
        ensures refused { FailsOnceLost self.old.is_sync_lost result }
        ensures lost { self.new.is_sync_lost ≡ self.old.is_sync_lost }
        ensures settled { OnOk result (self.new.is_listed ≡ false) }
        ensures unsettled { OnErr result (self.new.is_listed ≡ self.old.is_listed) }
        ensures ok { OnOk result (IsEmpty self.new.changed) }
        ensures err { OnErr result (self.new.changed ≡ self.old.changed) }
    {
        if self.is_sync_lost {
            return Err(SystemErr::Refused);
        }
        sync_directories(&self.rt, &self.changed)?;
        self.changed.clear();
        self.is_listed = false;
        Ok(())
    }
}

impl<M: Manners> Store<M> for DirStore<M> {
    ghost past = { λ _. None };

    ghost manners = { λ s. s.manners };

    ghost faults = { λ s. s.faults };

    ghost halted = { λ _. None };

    fn names(&mut self, dir: &Place) -> Result<ListedList, StoreErr> {
        let done = self.list(dir);
        self.answer(done)
    }

    fn size(&mut self, place: &Place) -> Result<Option<u64>, StoreErr> {
        let done = self.size_at(place);
        self.answer(done)
    }

    fn read_at(&mut self, place: &Place, from: u64, len: usize) -> Result<Option<Bytes>, StoreErr> {
        let done = self.part_at(place, from, len);
        self.answer(done)
    }

    fn create(&mut self, place: &Place) -> Result<Made, StoreErr> {
        let done = self.create_at(place);
        self.answer(done)
    }

    fn append(&mut self, place: &Place, bytes: &[u8]) -> Result<(), StoreErr> {
        let done = self.append_whole(place, bytes);
        self.answer(done)
    }

    fn seal(&mut self, place: &Place) -> Result<(), StoreErr> {
        let done = self.seal_file(place);
        self.answer(done)
    }

    fn rename_new(&mut self, from: &Place, to: &Place) -> Result<Moved, StoreErr> {
        let done = self.rename_to(from, to);
        self.answer(done)
    }

    fn remove(&mut self, place: &Place) -> Result<Gone, StoreErr> {
        let done = self.remove_at(place);
        self.answer(done)
    }

    fn sync_names(&mut self) -> Result<(), StoreErr> {
        let done = self.sync_changed();
        self.answer(done)
    }
}
