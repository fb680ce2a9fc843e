//! Walks of parents.
ghost use Rattle.std.specs.Prelude.{◌≡◌, ◌+◌, ◌++◌, ◌∷◌, [], length, IfOk, OnOk, option_map};
ghost use Rattle.std.specs.Ordering.{int_eq};
ghost use Rattle.metadata_view.specs.Index.{IsIndex};
ghost use Rattle.metadata_view.specs.Walk.{next_snapshot, walk, has_id};

use crate::index::{Index, find};
use crate::types::Snapshot;
use std::alloc::{AllocError, Global};

#[tactic(auto, unfolding(crate::specs::Walk::next_snapshot))]
fn next_snapshot<'s>(
    index: &Index,
    snapshots: &'s [Snapshot],
    next: Option<i64>,
) -> Option<&'s Snapshot>
    requires { IsIndex index.now snapshots.now }
    ensures { option_map (λ s. s.now) result ≡ next_snapshot snapshots.now next }
{
    match next {
        Some(id) => find(index, snapshots, id),
        None => None,
    }
}

/// The ids of a walk, as far as the parents are in the table.
pub fn walk(
    alloc: Global,
    index: &Index,
    snapshots: &[Snapshot],
    from: Option<i64>,
) -> Result<Vec<i64>, AllocError>
    requires { IsIndex index.now snapshots.now }
    ensures { IfOk result (λ v. v.items ≡ walk snapshots.now (length snapshots.now + 1) from) }
{
    let mut found = Vec::new(alloc);
    let mut next = from;
    for _ in 0..snapshots.len() + 1 {
        match next_snapshot(index, snapshots, next) {
            Some(s) => {
                push_id(&mut found, s)?;
                next = s.parent;
            }
            None => return Ok(found),
        }
    }
    Ok(found)
}

fn push_id(found: &mut Vec<i64>, snapshot: &Snapshot) -> Result<(), AllocError>
    ensures { OnOk result (found.new.items ≡ found.old.items ++ snapshot.now.id ∷ []) }
{
    found.push(snapshot.id)?;
    Ok(())
}

fn is_at(snapshot: &Snapshot, id: i64) -> bool
    ensures { result ≡ int_eq snapshot.now.id id }
{
    snapshot.id == id
}

/// Whether an id is on a walk.
pub fn on_walk(index: &Index, snapshots: &[Snapshot], id: i64, from: Option<i64>) -> bool
    requires { IsIndex index.now snapshots.now }
    ensures { result ≡ has_id id (walk snapshots.now (length snapshots.now + 1) from) }
{
    let mut next = from;
    for _ in 0..snapshots.len() + 1 {
        match next_snapshot(index, snapshots, next) {
            Some(s) => {
                if is_at(s, id) {
                    return true;
                }
                next = s.parent;
            }
            None => return false,
        }
    }
    false
}
