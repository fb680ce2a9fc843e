//! Where in the list of snapshots each id stands.
ghost use Rattle.std.specs.Prelude.{◌≡◌, ℤ, Some, IfOk, OnOk, if◌then◌else◌, is_some, option_map};
ghost use Rattle.std.specs.BTreeMap.{get};
ghost use Rattle.std.specs.Ordering.{int_cmp, int_eq};
ghost use Rattle.metadata_view.specs.Index.{IsIndex, IsIndexed};
ghost use Rattle.metadata_view.specs.Walk.{place_with, snapshot_with, place_of};

use crate::types::Snapshot;
use std::alloc::{AllocError, Global};
use std::collections::BTreeMap;

/// The place of the first snapshot with each id, in a list of snapshots.
pub type Index = BTreeMap<i64, usize>;

/// The index of a list of snapshots.
#[derive(Drop)]
pub enum Indexed {
    Whole(Index),
    /// The place of the first snapshot whose id an earlier one has.
    Double(usize),
}

/// The index of the snapshots, or the first snapshot whose id an earlier one has.
pub fn index_of(alloc: Global, snapshots: &[Snapshot]) -> Result<Indexed, AllocError>
    ensures { IfOk result (IsIndexed snapshots.now) }
{
    let mut index = BTreeMap::new(alloc);
    for (i, snapshot) in snapshots.iter().enumerate() {
        if insert(&mut index, snapshot, i)? {
            return Ok(Indexed::Double(i));
        }
    }
    Ok(Indexed::Whole(index))
}

// Whether the snapshot's id is there already; else it gets this place.
fn insert(index: &mut Index, snapshot: &Snapshot, place: usize) -> Result<bool, AllocError>
    ensures known { IfOk result (λ b. b ≡ is_some (get int_cmp index.old snapshot.now.id)) }
    ensures new { OnOk result ((id : ℤ) → get int_cmp index.new id
        ≡ (if int_eq snapshot.now.id id then Some place else get int_cmp index.old id)) }
{
    let old = index.insert(snapshot.id, place)?;
    Ok(old.is_some())
}

fn place(index: &Index, snapshots: &[Snapshot], id: i64) -> Option<usize>
    requires { IsIndex index.now snapshots.now }
    ensures { result ≡ place_with snapshots.now id }
{
    index.get(&id).copied()
}

/// The snapshot with this id.
pub fn find<'s>(index: &Index, snapshots: &'s [Snapshot], id: i64) -> Option<&'s Snapshot>
    requires { IsIndex index.now snapshots.now }
    ensures { option_map (λ s. s.now) result ≡ snapshot_with snapshots.now id }
{
    match place(index, snapshots, id) {
        Some(i) => snapshots.get(i),
        None => None,
    }
}

/// Whether there is a snapshot with this id.
pub fn has(index: &Index, snapshots: &[Snapshot], id: i64) -> bool
    requires { IsIndex index.now snapshots.now }
    ensures { result ≡ is_some (snapshot_with snapshots.now id) }
{
    find(index, snapshots, id).is_some()
}

/// The place of the snapshot where a walk goes on.
pub(crate) fn place_of(index: &Index, snapshots: &[Snapshot], next: Option<i64>) -> Option<usize>
    requires { IsIndex index.now snapshots.now }
    ensures { result ≡ place_of snapshots.now next }
{
    match next {
        Some(id) => place(index, snapshots, id),
        None => None,
    }
}
