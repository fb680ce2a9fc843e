//! The listing of a snapshot's ancestors.
ghost use Rattle.std.specs.Prelude.{◌≡◌, Some, IfOk};
ghost use Rattle.serde_json.specs.View.{view};
ghost use Rattle.metadata_view.specs.View.{snapshots_of};
ghost use Rattle.metadata_view.specs.Walk.{snapshot_with};
ghost use Rattle.run_refs.specs.Ancestors.{IsListing, Lists, moment_in};

use ice_store::Items;
use std::alloc::{AllocError, Global};
use table_metadata::{EditErr, Meta};

/// A snapshot on a walk of parents.
#[derive(Debug, Clone, Copy, PartialEq, Eq)]
pub struct Ancestor {
    /// `snapshot-id`.
    pub id: i64,
    /// `timestamp-ms`: milliseconds since 1970-01-01 UTC.
    pub ms: u64,
}

pub type AncestorList = Items<Ancestor>;

fn moment(meta: &Meta, id: i64) -> u64
    ensures { result ≡ moment_in (snapshot_with (snapshots_of (view meta.now)) id) }
{
    match meta.snapshot(id) {
        Some(snapshot) => snapshot.ms,
        None => 0,
    }
}

fn rows_from(alloc: Global, meta: &Meta, id: i64) -> Result<AncestorList, AllocError>
    ensures { IfOk result (IsListing (snapshots_of (view meta.now)) (Some id)) }
{
    let ids = meta.ancestors(alloc, id)?;
    let mut rows = Vec::with_capacity(alloc, ids.len())?;
    for id in ids.inner() {
        rows.push(Ancestor {
            id: *id,
            ms: moment(meta, *id),
        })?;
    }
    Ok(Items::new(rows))
}

/// The snapshot and its parents, as far as they are in the table, each with its moment. Without an id the listing begins
/// at the current snapshot, and has no rows where there is none.
pub fn list_ancestors(alloc: Global, meta: &Meta, id: Option<i64>) -> Result<AncestorList, EditErr>
    ensures { Lists id (view meta.now) result }
{
    match id {
        Some(id) => if meta.has_snapshot(id) {
            Ok(rows_from(alloc, meta, id)?)
        } else {
            Err(EditErr::UnknownSnapshot { id })
        },
        None => match meta.current() {
            Some(current) => Ok(rows_from(alloc, meta, current)?),
            None => Ok(Items::empty(alloc)),
        },
    }
}
