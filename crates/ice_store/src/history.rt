//! The history of a directory: what stood at first, and what was done since.
ghost use Rattle.std.specs.Prelude.{◌≡◌, IfOk};

use crate::{Bytes, Items, Place};
use std::alloc::AllocError;

/// A durable and sealed file.
#[derive(Debug, Drop, Clone)]
pub struct FileRec {
    pub place: Place,
    pub bytes: Bytes,
    /// The moment of its last append, in milliseconds since 1970.
    pub ms: u64,
}

/// One change of a directory.
#[derive(Debug, Drop, Clone)]
pub enum Step {
    Create(Place),
    Append(Place, Bytes),
    Seal(Place),
    Rename(Place, Place),
    Remove(Place),
    SyncNames,
}

/// Who does a step: this program, or another writer.
#[derive(Debug, Clone, Copy, PartialEq, Eq)]
pub enum Who {
    Us,
    Them,
}

/// A step that was done, by whom and when.
#[derive(Debug, Drop, Clone)]
pub struct Event {
    pub who: Who,
    pub step: Step,
    pub ms: u64,
}

/// A call of a store: it looks at a place, or takes a step.
#[derive(Debug, Drop, Clone)]
pub enum StoreCall {
    Look(Place),
    Take(Step),
}

/// A call that failed, and how many events there were then.
#[derive(Debug, Drop, Clone)]
pub struct Failure {
    pub events: usize,
    pub call: StoreCall,
}

/// A list of durable files.
pub type FileList = Items<FileRec>;

/// A list of events, the first one first.
pub type EventList = Items<Event>;

/// A list of steps.
pub type StepList = Items<Step>;

/// A history: the files that stood at first, durable and sealed, and the events since. Of several files with one place
/// the first counts.
#[derive(Debug, Drop, Clone)]
pub struct Past {
    pub base: FileList,
    pub events: EventList,
}

/// A file as it stands after some events.
#[derive(Debug, Drop, Clone)]
pub struct Held {
    pub place: Place,
    pub bytes: Bytes,
    pub ms: u64,
    pub is_sealed: bool,
    /// Who created it; none for a file that stood at first.
    pub maker: Option<Who>,
}

/// A name change that a crash may undo.
#[derive(Debug, Drop, Clone)]
pub enum NameChange {
    Created(Place),
    Renamed(Place, Place),
    /// The file that was removed, as it stood.
    Removed(Held),
}

impl Held {
    /// An equal file.
    pub fn copy(&self) -> Result<Held, AllocError>
        ensures { IfOk result (λ h. h ≡ self.now) }
    {
        self.clone()
    }
}

impl Step {
    /// An equal step.
    pub fn copy(&self) -> Result<Step, AllocError>
        ensures { IfOk result (λ s. s ≡ self.now) }
    {
        self.clone()
    }
}

impl NameChange {
    /// An equal change.
    pub fn copy(&self) -> Result<NameChange, AllocError>
        ensures { IfOk result (λ c. c ≡ self.now) }
    {
        self.clone()
    }
}
