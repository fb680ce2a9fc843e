//! A history, beside what it leaves.
ghost use Rattle.std.specs.Prelude.{◌≡◌, ◌+◌, ◌≤◌, ◌++◌, [], ◌∷◌, OnOk, OnErr, IfOk, vec_len, vec_capacity};
ghost use Rattle.std.specs.Option.{option_copied};
ghost use Rattle.ice_store.specs.Calls.{IsListing};
ghost use Rattle.ice_store.specs.Files.{find};
ghost use Rattle.ice_store.specs.History.{new_file, files_after, pending_by, pending_after};
ghost use Rattle.ice_store.specs.History.{replay, later, image};
ghost use Rattle.ice_store.specs.declared.history.Who.TheVariants.{Us, Them};
ghost use Rattle.store_memory.specs.Torn.{torn_at};

use crate::files::Files;
use crate::image::{Torn, settle_all, undo_some};
use ice_store::{
    Bytes, Event, FileList, FileRec, Held, Items, Listed, NameChange, Past, Place, Step, Who,
};
use std::alloc::{AllocError, Global};
use std::marker::Model;

/// A history, of which its files can be asked. Contracts see the history alone.
#[derive(Debug, Drop)]
pub struct History {
    past: Past,
    // what the replay of the history leaves
    files: Files,
    pending: Vec<NameChange>,
}

impl Model for History {
    ghost use Rattle.ice_store.specs.declared.history.Past.{Past};
    ghost use Rattle.std.specs.Prelude.{◌≡◌};
    ghost use Rattle.ice_store.specs.History.{replay};

    ghost Value = { Past };

    ghost view = { λ h. h.past };

    ghost invariant = { λ h. replay h.past ≡ record { files = h.files; pending = h.pending.items } };
}

impl History {
    /// The history that starts with these files.
    pub fn new(alloc: Global, base: FileList) -> Result<History, AllocError>
        ensures { IfOk result (λ h. h ≡ record { base = base; events = [] }) }
    {
        let files = Files::of_base(alloc, base.inner())?;
        Ok(History {
            past: Past {
                base,
                events: Items::empty(alloc),
            },
            files,
            pending: Vec::new(alloc),
        })
    }

    /// Takes no memory.
    pub fn past(&self) -> &Past
        ensures { result.now ≡ self.now }
    {
        &self.past
    }

    /// The file at a place. Takes no memory.
    pub fn find(&self, place: &Place) -> Option<&Held>
        ensures { option_copied result ≡ find (replay self.now).files place.now }
    {
        self.files.find(place)
    }

    /// The files under a directory, in place order.
    pub fn list(&self, alloc: Global, dir: &Place) -> Result<Vec<Listed>, AllocError>
        ensures { IfOk result (λ v. IsListing dir.now (replay self.now).files v.items) }
    {
        self.files.list(alloc, dir)
    }

    /// Adds an event. Without memory the history stays as it was.
    pub fn add(&mut self, alloc: Global, event: Event) -> Result<(), AllocError>
        ensures ok { OnOk result (self.new ≡ later self.old (event ∷ [])) }
        ensures err { OnErr result (self.new ≡ self.old) }
    {
        let count = self.past.events.len();
        self.past.events.push(event)?;
        let event = &self.past.events.inner()[count];
        match follow(alloc, &mut self.files, &mut self.pending, event) {
            Ok(()) => Ok(()),
            Err(error) => {
                self.past.events.pop();
                Err(error)
            }
        }
    }

    /// What a crash leaves, by its choices.
    pub fn image(
        &self,
        alloc: Global,
        done: &[bool],
        torn: &[Torn],
    ) -> Result<Vec<FileRec>, AllocError>
        ensures { IfOk result (λ v. v.items ≡ image (replay self.now) done.now (torn_at torn.now)) }
    {
        let mut files = self.files.copies()?;
        undo_some(&mut files, done, &self.pending)?;
        settle_all(alloc, &files, torn)
    }
}

// Files and pending name changes follow an event. Without memory they stay as they were.
fn follow(
    alloc: Global,
    files: &mut Files,
    pending: &mut Vec<NameChange>,
    event: &Event,
) -> Result<(), AllocError>
    ensures files { OnOk result (files.new ≡ files_after files.old event.now.step event.now.who event.now.ms) }
    ensures pending { OnOk result (pending.new.items ≡ pending_by event.now.who (record { files = files.old; pending = pending.old.items }) event.now.step) }
    ensures err_files { OnErr result (files.new ≡ files.old) }
    ensures err_pending { OnErr result (pending.new.items ≡ pending.old.items) }
{
    match event.who {
        Who::Us => follow_ours(alloc, files, pending, &event.step, event.ms),
        Who::Them => {
            follow_theirs(alloc, files, &event.step, event.ms)?;
            pending.clear();
            Ok(())
        }
    }
}

// The same for a step of ours.
fn follow_ours(
    alloc: Global,
    files: &mut Files,
    pending: &mut Vec<NameChange>,
    step: &Step,
    ms: u64,
) -> Result<(), AllocError>
    ensures files { OnOk result (files.new ≡ files_after files.old step.now Us ms) }
    ensures pending { OnOk result (pending.new.items ≡ pending_after (record { files = files.old; pending = pending.old.items }) step.now) }
    ensures err_files { OnErr result (files.new ≡ files.old) }
    ensures err_pending { OnErr result (pending.new.items ≡ pending.old.items) }
{
    pending.reserve(1)?;
    match step {
        Step::Create(place) => {
            let change = NameChange::Created(place.copy()?);
            files.put(new_file(alloc, place, Who::Us, ms)?)?;
            push_reserved(pending, change);
        }
        Step::Append(place, more) => files.append(place, more.inner(), ms)?,
        Step::Seal(place) => files.seal(place),
        Step::Rename(from, to) => {
            let change = NameChange::Renamed(from.copy()?, to.copy()?);
            files.rename(from, to)?;
            push_reserved(pending, change);
        }
        Step::Remove(place) => {
            if let Some(held) = files.remove(place) {
                push_reserved(pending, NameChange::Removed(held));
            }
        }
        Step::SyncNames => pending.clear(),
    }
    Ok(())
}

// The files alone follow a step of others.
fn follow_theirs(alloc: Global, files: &mut Files, step: &Step, ms: u64) -> Result<(), AllocError>
    ensures ok { OnOk result (files.new ≡ files_after files.old step.now Them ms) }
    ensures err { OnErr result (files.new ≡ files.old) }
{
    match step {
        Step::Create(place) => files.put(new_file(alloc, place, Who::Them, ms)?)?,
        Step::Append(place, more) => files.append(place, more.inner(), ms)?,
        Step::Seal(place) => files.seal(place),
        Step::Rename(from, to) => files.rename(from, to)?,
        Step::Remove(place) => {
            let _ = files.remove(place);
        }
        Step::SyncNames => {}
    }
    Ok(())
}

fn new_file(alloc: Global, place: &Place, who: Who, ms: u64) -> Result<Held, AllocError>
    ensures { IfOk result (λ h. h ≡ new_file place.now who ms) }
{
    Ok(Held {
        place: place.copy()?,
        bytes: Bytes::new(Vec::new(alloc)),
        ms,
        is_sealed: false,
        maker: Some(who),
    })
}

// There is room for it.
fn push_reserved(changes: &mut Vec<NameChange>, change: NameChange)
    requires { vec_len changes.old + 1 ≤ vec_capacity changes.old }
    ensures { changes.new.items ≡ changes.old.items ++ change ∷ [] }
{
    let _ = changes.push(change);
}
