//! Tests of what a table can lose.
ghost use Rattle.std.specs.Prelude.{◌≡◌, ◌||◌, ◌↔◌, not, IsTrue};
ghost use Rattle.metadata_view.specs.Walk.{has_id};
ghost use Rattle.metadata_snapshots.specs.Conditions.{IsKept, has_child, leaves_whole};
ghost use Rattle.metadata_snapshots.specs.Edits.{has_name};

use ice_store::Text;
use metadata_view::{Ref, Snapshot};

/// Whether a snapshot has this parent.
pub(crate) fn has_child(snapshots: &[Snapshot], id: i64) -> bool
    ensures { result ≡ has_child snapshots.now id }
{
    for snapshot in snapshots {
        if snapshot.parent == Some(id) {
            return true;
        }
    }
    false
}

/// Whether the name is among the names.
pub(crate) fn has_name(names: &[Text], name: &[u8]) -> bool
    ensures { result ≡ has_name names.now name.now }
{
    for other in names {
        if name == other.inner().as_slice() {
            return true;
        }
    }
    false
}

fn has_id(ids: &[i64], id: i64) -> bool
    ensures { result ≡ has_id id ids.now }
{
    for other in ids {
        if *other == id {
            return true;
        }
    }
    false
}

/// Whether there is no current snapshot, or it isn't among the ids.
pub(crate) fn is_kept(ids: &[i64], current: Option<i64>) -> bool
    ensures { IsTrue result ↔ IsKept ids.now current }
{
    match current {
        Some(id) => !has_id(ids, id),
        None => true,
    }
}

fn is_fine(ids: &[i64], names: &[Text], reference: &Ref) -> bool
    ensures { result ≡ (has_name names.now reference.now.name || not (has_id reference.now.id ids.now)) }
{
    has_name(names, reference.name.inner().as_slice()) || !has_id(ids, reference.id)
}

/// Whether each ref that stays names a snapshot that stays.
pub(crate) fn leaves_whole(ids: &[i64], names: &[Text], refs: &[Ref]) -> bool
    ensures { result ≡ leaves_whole ids.now names.now refs.now }
{
    for reference in refs {
        if !is_fine(ids, names, reference) {
            return false;
        }
    }
    true
}
