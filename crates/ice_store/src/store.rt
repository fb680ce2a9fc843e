//! The interface of a store: the files of a directory, which other writers may change between two calls.
ghost use Rattle.std.specs.Prelude.{◌≡◌, ℕ, Option};
ghost use Rattle.std.specs.Cmp.Lexicographic.{pointwise, slice_cmp};
ghost use Rattle.std.specs.Ordering.{nat_cmp, as_partial_cmp, on};
ghost use Rattle.std.specs.Prelude.{nat_eq};
ghost use Rattle.std.proofs.Common.{rules};
ghost use Rattle.std.specs.Cmp.{partial_order_from_own_ties};
ghost use Rattle.std.specs.Cmp.Rules.{comparing};
ghost use Rattle.ice_store.specs.Places.{joined};
ghost use Rattle.ice_store.specs.declared.history.Failure.{Failure};
ghost use Rattle.ice_store.specs.declared.history.Past.{Past as Told};
ghost use Rattle.ice_store.specs.declared.history.Step.{Step as Kind};
ghost use Rattle.ice_store.specs.declared.history.StoreCall.{StoreCall as Asked};
ghost use Rattle.ice_store.specs.declared.store.StoreErr.TheVariants.{Memory};
ghost use Rattle.ice_store.specs.Others.{Answers, Stands};
ghost use Rattle.ice_store.specs.Calls.{IsUnmoved, IsOpen, CanRename, IsSettled, CreateAnswer, AppendAnswer, PlainAnswer, RenameAnswer, RemoveAnswer, SizeAnswer, NamesAnswer, ReadAnswer, HasCause, MarksFailure};

use crate::{Bytes, Items, Place};
use std::alloc::AllocError;
use std::cmp::Ordering;

/// What other writers may do: a relation between a history and a step, which contracts alone see.
pub trait Manners {
    ghost allows: { Self → Told → Kind → Type 0 };
}

/// Nobody else acts.
#[derive(Debug, Clone, Copy)]
pub struct Alone;

impl Manners for Alone {
    ghost allows = { λ _ _ _. ⊥ };
}

/// Why a call of a store did not do its work.
#[derive(Debug, Clone, Copy, PartialEq, Eq)]
pub enum StoreErr {
    /// The store failed. A changing call's step took place or didn't.
    Failed,
    /// Memory lacked. The step didn't take place.
    Memory,
}

impl From<AllocError> for StoreErr {
    ghost from_gives = { λ _ e. e ≡ Memory };

    fn from(_: AllocError) -> Self {
        StoreErr::Memory
    }
}

/// What `create` did.
#[derive(Debug, Clone, Copy, PartialEq, Eq)]
pub enum Made {
    New,
    Exists,
}

/// What `rename_new` did.
#[derive(Debug, Clone, Copy, PartialEq, Eq)]
pub enum Moved {
    Done,
    Exists,
}

/// What `remove` did.
#[derive(Debug, Clone, Copy, PartialEq, Eq)]
pub enum Gone {
    Done,
    Absent,
}

/// A file as a listing tells of it. Such items are ordered by their places.
#[derive(Debug, Drop, Clone)]
pub struct Listed {
    pub place: Place,
    /// The moment of its last append, in milliseconds since 1970.
    pub ms: u64,
    /// Its length in bytes.
    pub size: u64,
}

/// A listing.
pub type ListedList = Items<Listed>;

impl PartialEq for Listed {
    ghost eq = { on (λ l. l.place) (on joined (pointwise nat_eq)) };

    ghost laws = { Prim.search (comparing, rules) };

    fn eq(&self, other: &Listed) -> bool {
        self.place == other.place
    }
}

impl Eq for Listed {
    ghost laws = { Prim.search (comparing, rules) };
}

impl Ord for Listed {
    ghost cmp = { on (λ l. l.place) (on joined (slice_cmp nat_cmp)) };

    ghost total = { Prim.search (comparing, rules) };

    ghost matches_partial_cmp = { Prim.search (comparing, rules) };

    ghost matches_eq = { Prim.search (comparing, rules) };

    fn cmp(&self, other: &Listed) -> Ordering {
        self.place.cmp(&other.place)
    }
}

impl PartialOrd for Listed {
    ghost partial_cmp = { as_partial_cmp (on (λ l. l.place) (on joined (slice_cmp nat_cmp))) };

    ghost laws = { partial_order_from_own_ties (Prim.search (comparing, rules)) (Prim.search (comparing, rules)) };

    fn partial_cmp(&self, other: &Listed) -> Option<Ordering> {
        Some(self.cmp(other))
    }
}

/// The files of a directory, durable as the disk model says: name changes of ours are pending until the next
/// `sync_names`, and a file's bytes are durable once it is sealed. Each call first lets others act, then answers by the
/// state so reached; a changing call adds its one event.
pub trait Store<M: Manners> {
    /// What has happened, where it is told.
    ghost past: { Self → Option Told };

    /// What others may do.
    ghost manners: { Self → M };

    /// How often the store has failed, up to the greatest 64-bit number.
    ghost faults: { Self → ℕ };

    /// The call that last answered `Failed`, and how many events then stood; none where no call did.
    ghost halted: { Self → Option Failure };

    /// All files under `dir`, at any depth, in place order. A directory that lacks holds none.
    fn names(&mut self, dir: &Place) -> Result<ListedList, StoreErr>
        ensures told { Answers (M.allows (manners self.old)) (past self.old) (past self.new) (NamesAnswer dir.now result) }
        ensures manners { manners self.new ≡ manners self.old }
        ensures cause { HasCause (faults self.old) (faults self.new) result }
        ensures halted { MarksFailure (Asked.Look dir.now) (halted self.old) (halted self.new) (past self.new) result };

    /// The length of a file in bytes; none exactly where the place isn't named.
    fn size(&mut self, place: &Place) -> Result<Option<u64>, StoreErr>
        ensures told { Answers (M.allows (manners self.old)) (past self.old) (past self.new) (SizeAnswer place.now result) }
        ensures manners { manners self.new ≡ manners self.old }
        ensures cause { HasCause (faults self.old) (faults self.new) result }
        ensures halted { MarksFailure (Asked.Look place.now) (halted self.old) (halted self.new) (past self.new) result };

    /// The bytes of a file from the offset `from` on: `len` of them, or all that there are where these are fewer. None exactly
    /// where the place isn't named.
    fn read_at(&mut self, place: &Place, from: u64, len: usize) -> Result<Option<Bytes>, StoreErr>
        ensures told { Answers (M.allows (manners self.old)) (past self.old) (past self.new) (ReadAnswer place.now from len result) }
        ensures manners { manners self.new ≡ manners self.old }
        ensures cause { HasCause (faults self.old) (faults self.new) result }
        ensures halted { MarksFailure (Asked.Look place.now) (halted self.old) (halted self.new) (past self.new) result };

    /// Creates an empty unsealed file, or answers `Exists` exactly where the place is named.
    fn create(&mut self, place: &Place) -> Result<Made, StoreErr>
        requires { Stands (M.allows (manners self.old)) (past self.old) (λ d. IsUnmoved d.pending place.now) }
        ensures told { Answers (M.allows (manners self.old)) (past self.old) (past self.new) (CreateAnswer place.now result) }
        ensures manners { manners self.new ≡ manners self.old }
        ensures cause { HasCause (faults self.old) (faults self.new) result }
        ensures halted { MarksFailure (Asked.Take (Kind.Create place.now)) (halted self.old) (halted self.new) (past self.new) result };

    /// Adds bytes to an unsealed file of ours.
    fn append(&mut self, place: &Place, bytes: &[u8]) -> Result<(), StoreErr>
        requires { Stands (M.allows (manners self.old)) (past self.old) (λ d. IsOpen d place.now) }
        ensures told { Answers (M.allows (manners self.old)) (past self.old) (past self.new) (AppendAnswer place.now bytes.now result) }
        ensures manners { manners self.new ≡ manners self.old }
        ensures cause { HasCause (faults self.old) (faults self.new) result }
        ensures halted { MarksFailure (Asked.Take (Kind.Append place.now bytes.now)) (halted self.old) (halted self.new) (past self.new) result };

    /// Seals a file of ours: a crash keeps its bytes from then on.
    fn seal(&mut self, place: &Place) -> Result<(), StoreErr>
        requires { Stands (M.allows (manners self.old)) (past self.old) (λ d. IsOpen d place.now) }
        ensures told { Answers (M.allows (manners self.old)) (past self.old) (past self.new) (PlainAnswer (Kind.Seal place.now) result) }
        ensures manners { manners self.new ≡ manners self.old }
        ensures cause { HasCause (faults self.old) (faults self.new) result }
        ensures halted { MarksFailure (Asked.Take (Kind.Seal place.now)) (halted self.old) (halted self.new) (past self.new) result };

    /// Renames a sealed file, or answers `Exists` exactly where `to` is named.
    fn rename_new(&mut self, from: &Place, to: &Place) -> Result<Moved, StoreErr>
        requires { Stands (M.allows (manners self.old)) (past self.old) (CanRename from.now to.now) }
        ensures told { Answers (M.allows (manners self.old)) (past self.old) (past self.new) (RenameAnswer from.now to.now result) }
        ensures manners { manners self.new ≡ manners self.old }
        ensures cause { HasCause (faults self.old) (faults self.new) result }
        ensures halted { MarksFailure (Asked.Take (Kind.Rename from.now to.now)) (halted self.old) (halted self.new) (past self.new) result };

    /// Removes a file, or answers `Absent` exactly where the place isn't named.
    fn remove(&mut self, place: &Place) -> Result<Gone, StoreErr>
        requires { Stands (M.allows (manners self.old)) (past self.old) (λ d. IsSettled d.pending place.now) }
        ensures told { Answers (M.allows (manners self.old)) (past self.old) (past self.new) (RemoveAnswer place.now result) }
        ensures manners { manners self.new ≡ manners self.old }
        ensures cause { HasCause (faults self.old) (faults self.new) result }
        ensures halted { MarksFailure (Asked.Take (Kind.Remove place.now)) (halted self.old) (halted self.new) (past self.new) result };

    /// Makes all name changes durable.
    fn sync_names(&mut self) -> Result<(), StoreErr>
        ensures told { Answers (M.allows (manners self.old)) (past self.old) (past self.new) (PlainAnswer Kind.SyncNames result) }
        ensures manners { manners self.new ≡ manners self.old }
        ensures cause { HasCause (faults self.old) (faults self.new) result }
        ensures halted { MarksFailure (Asked.Take Kind.SyncNames) (halted self.old) (halted self.new) (past self.new) result };
}
