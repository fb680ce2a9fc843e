//! Files in memory, by their places.
ghost use Rattle.std.specs.Prelude.{◌≡◌, ◌+◌, ◌≤◌, ◌++◌, ◌∷◌, [], Some, None, OnOk, OnErr, IfOk, if◌then◌else◌, map, filter, slice_set, vec_len, vec_capacity};
ghost use Rattle.std.specs.Option.{option_copied};
ghost use Rattle.ice_store.specs.Calls.{IsListing, listed_of};
ghost use Rattle.ice_store.specs.Places.{is_under};
ghost use Rattle.ice_store.specs.Files.{find, is_named, without, changed, put, renamed};
ghost use Rattle.ice_store.specs.History.{appended, sealed, durable, base_from};
ghost use Rattle.store_memory.specs.Slots.{standing, held_in, cleared, changed_in};

use crate::index::Index;
use ice_store::{FileRec, Held, Listed, Place};
use std::alloc::{AllocError, Global};
use std::marker::Model;

type Slots = Vec<Option<Held>>;

/// The files of a directory, in the order in which they came to their places: contracts see the list of them.
#[derive(Debug, Drop)]
pub struct Files {
    // A file takes the next slot when it comes to a place, and leaves the slot empty. So no other file moves, and the files
    // stand in the order of their slots.
    slots: Slots,
    // the number of the slot of the file at each place
    index: Index,
}

impl Model for Files {
    ghost use Rattle.std.specs.Prelude.{List};
    ghost use Rattle.ice_store.specs.declared.history.Held.{Held};
    ghost use Rattle.store_memory.specs.Slots.{standing, number_at, AreNumbered};

    ghost Value = { List Held };

    ghost view = { λ f. standing f.slots.items };

    ghost invariant = { λ f. AreNumbered f.slots.items (number_at f.index) };
}

impl Files {
    /// No file.
    pub fn empty(alloc: Global) -> Result<Files, AllocError>
        ensures { IfOk result (λ f. f ≡ []) }
    {
        Ok(Files {
            slots: Vec::new(alloc),
            index: Index::new(alloc)?,
        })
    }

    /// The files at first: of several with one place the first counts.
    pub fn of_base(alloc: Global, base: &[FileRec]) -> Result<Files, AllocError>
        ensures { IfOk result (λ f. f ≡ base_from [] base.now) }
    {
        let mut files = Files::empty(alloc)?;
        for file in base {
            add_base(&mut files, file)?;
        }
        Ok(files)
    }

    /// The file at a place. Takes no memory.
    pub fn find(&self, place: &Place) -> Option<&Held>
        ensures { option_copied result ≡ find self.now place.now }
    {
        match self.index.get(place) {
            Some(number) => held_at(&self.slots, number),
            None => None,
        }
    }

    /// Puts a file at its place, where then no other stands. Without memory the files stay as they were.
    pub fn put(&mut self, held: Held) -> Result<(), AllocError>
        ensures ok { OnOk result (self.new ≡ put held self.old) }
        ensures err { OnErr result (self.new ≡ self.old) }
    {
        self.slots.reserve(1)?;
        let old = self.index.insert(&held.place, self.slots.len())?;
        clear(&mut self.slots, old);
        push_reserved(&mut self.slots, held);
        Ok(())
    }

    /// Adds bytes to a file, where it stands. Without memory the files stay as they were.
    pub fn append(&mut self, place: &Place, more: &[u8], ms: u64) -> Result<(), AllocError>
        ensures ok { OnOk result (self.new ≡ changed (appended more.now ms) self.old place.now) }
        ensures err { OnErr result (self.new ≡ self.old) }
    {
        if let Some(number) = self.index.get(place) {
            append_at(&mut self.slots, number, more, ms)?;
        }
        Ok(())
    }

    /// Seals a file, where it stands.
    pub fn seal(&mut self, place: &Place)
        ensures { self.new ≡ changed sealed self.old place.now }
    {
        if let Some(number) = self.index.get(place) {
            seal_at(&mut self.slots, number);
        }
    }

    /// Moves a file, where it stands, to a place where then no other stands. Without memory the files stay as they were.
    pub fn rename(&mut self, from: &Place, to: &Place) -> Result<(), AllocError>
        ensures ok { OnOk result (self.new ≡ renamed from.now to.now self.old) }
        ensures err { OnErr result (self.new ≡ self.old) }
    {
        let Some(number) = self.index.get(from) else {
            return Ok(());
        };
        let place = to.copy()?;
        self.slots.reserve(1)?;
        let old = self.index.rename(from, to, self.slots.len())?;
        match take_slot(&mut self.slots, number) {
            Some(mut held) => {
                held.place = place;
                clear(&mut self.slots, old);
                push_reserved(&mut self.slots, held);
                Ok(())
            }
            None => Ok(()),
        }
    }

    /// Takes away the file at a place, and gives it back.
    pub fn remove(&mut self, place: &Place) -> Option<Held>
        ensures value { result ≡ find self.old place.now }
        ensures files { self.new ≡ without self.old place.now }
    {
        match self.index.remove(place) {
            Some(number) => take_slot(&mut self.slots, number),
            None => None,
        }
    }

    /// Equal files.
    pub fn copies(&self) -> Result<Vec<Held>, AllocError>
        ensures { IfOk result (λ v. v.items ≡ self.now) }
    {
        copy_slots(*self.slots.allocator(), &self.slots)
    }

    /// The files under a directory, in place order.
    pub fn list(&self, alloc: Global, dir: &Place) -> Result<Vec<Listed>, AllocError>
        ensures { IfOk result (λ v. IsListing dir.now self.now v.items) }
    {
        list_slots(alloc, &self.slots, dir)
    }
}

// One file more of the base.
fn add_base(files: &mut Files, file: &FileRec) -> Result<(), AllocError>
    ensures { OnOk result (files.new ≡ (if is_named files.old file.now.place then files.old else files.old ++ durable file.now ∷ [])) }
{
    if files.find(&file.place).is_none() {
        files.put(durable(file)?)?;
    }
    Ok(())
}

fn durable(file: &FileRec) -> Result<Held, AllocError>
    ensures { IfOk result (λ h. h ≡ durable file.now) }
{
    Ok(Held {
        place: file.place.copy()?,
        bytes: file.bytes.copy()?,
        ms: file.ms,
        is_sealed: true,
        maker: None,
    })
}

fn held_at(slots: &[Option<Held>], number: usize) -> Option<&Held>
    ensures { option_copied result ≡ held_in slots.now number }
{
    if number < slots.len() {
        slots[number].as_ref()
    } else {
        None
    }
}

fn seal_at(slots: &mut Slots, number: usize)
    ensures { slots.new.items ≡ changed_in sealed slots.old.items number }
{
    if number < slots.len() {
        if let Some(held) = &mut slots[number] {
            held.is_sealed = true;
        }
    }
}

fn append_at(slots: &mut Slots, number: usize, more: &[u8], ms: u64) -> Result<(), AllocError>
    ensures ok { OnOk result (slots.new.items ≡ changed_in (appended more.now ms) slots.old.items number) }
    ensures err { OnErr result (slots.new.items ≡ slots.old.items) }
{
    if number < slots.len() {
        if let Some(held) = &mut slots[number] {
            held.bytes.extend(more)?;
            held.ms = ms;
        }
    }
    Ok(())
}

// Empties a slot, and gives what was there.
fn take_slot(slots: &mut Slots, number: usize) -> Option<Held>
    ensures value { result ≡ held_in slots.old.items number }
    ensures slots { slots.new.items ≡ slice_set slots.old.items number None }
    ensures len { vec_len slots.new ≡ vec_len slots.old }
    ensures capacity { vec_capacity slots.new ≡ vec_capacity slots.old }
{
    if number < slots.len() {
        slots[number].take()
    } else {
        None
    }
}

// Empties a slot, if there is one.
fn clear(slots: &mut Slots, number: Option<usize>)
    ensures slots { slots.new.items ≡ cleared slots.old.items number }
    ensures len { vec_len slots.new ≡ vec_len slots.old }
    ensures capacity { vec_capacity slots.new ≡ vec_capacity slots.old }
{
    if let Some(number) = number {
        let _ = take_slot(slots, number);
    }
}

// There is room for it.
fn push_reserved(slots: &mut Slots, held: Held)
    requires { vec_len slots.old + 1 ≤ vec_capacity slots.old }
    ensures { slots.new.items ≡ slots.old.items ++ Some held ∷ [] }
{
    let _ = slots.push(Some(held));
}

fn copy_slots(alloc: Global, slots: &[Option<Held>]) -> Result<Vec<Held>, AllocError>
    ensures { IfOk result (λ v. v.items ≡ standing slots.now) }
{
    let mut copies = Vec::new(alloc);
    for slot in slots {
        push_copy(&mut copies, slot)?;
    }
    Ok(copies)
}

fn push_copy(copies: &mut Vec<Held>, slot: &Option<Held>) -> Result<(), AllocError>
    ensures { OnOk result (copies.new.items ≡ copies.old.items ++ standing (slot.now ∷ [])) }
{
    if let Some(held) = slot {
        copies.push(held.copy()?)?;
    }
    Ok(())
}

fn list_slots(alloc: Global, slots: &[Option<Held>], dir: &Place) -> Result<Vec<Listed>, AllocError>
    ensures { IfOk result (λ v. IsListing dir.now (standing slots.now) v.items) }
{
    let mut listed = Vec::new(alloc);
    for slot in slots {
        push_listed(&mut listed, slot, dir)?;
    }
    listed.sort()?;
    Ok(listed)
}

fn push_listed(listed: &mut Vec<Listed>, slot: &Option<Held>, dir: &Place) -> Result<(), AllocError>
    ensures { OnOk result (listed.new.items ≡ listed.old.items ++ map listed_of (filter (λ held. is_under held.place dir.now) (standing (slot.now ∷ [])))) }
{
    match slot {
        Some(held) if held.place.under(dir) => listed.push(Listed {
            place: held.place.copy()?,
            ms: held.ms,
            size: held.bytes.len() as u64,
        })?,
        _ => {}
    }
    Ok(())
}
