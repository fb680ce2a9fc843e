//! Where a ref is to go.
ghost use Rattle.std.specs.Prelude.{◌≡◌, IfOk, OnOk, IsUtf8};
ghost use Rattle.serde_json.specs.View.{view};
ghost use Rattle.metadata_view.specs.View.{snapshots_of, current_of};
ghost use Rattle.metadata_view.specs.Walk.{snapshot_with};
ghost use Rattle.run_refs.specs.Moves.{Aims, AimsIfAncestor, AimsBack, AimsAt, AimsTo, AimsForward};
ghost use Rattle.run_refs.specs.Refs.{goal_ref, ref_at, branch_at};

use crate::goal::Goal;
use crate::look::{branch_at, ref_at};
use commit_protocol::Refusal;
use ice_store::Text;
use std::alloc::AllocError;
use table_metadata::Meta;

/// The snapshot where a ref is to go, or why the table refuses.
pub(crate) type Aim = Result<i64, Refusal>;

// to `aim`, if `id` is an ancestor of `of`
fn aim_if_ancestor(meta: &Meta, id: i64, of: i64, aim: i64) -> Aim
    ensures { AimsIfAncestor (snapshots_of (view meta.now)) id of aim result }
{
    if meta.ancestor_of(id, of) {
        Ok(aim)
    } else {
        Err(Refusal::NotAncestor { id, of: Some(of) })
    }
}

fn aim_back(meta: &Meta, id: i64) -> Aim
    ensures { AimsBack (snapshots_of (view meta.now)) id (snapshot_with (snapshots_of (view meta.now)) id) (current_of (view meta.now)) result }
{
    if !meta.has_snapshot(id) {
        return Err(Refusal::UnknownSnapshot { id });
    }
    match meta.current() {
        None => Err(Refusal::NotAncestor { id, of: None }),
        Some(of) => aim_if_ancestor(meta, id, of, id),
    }
}

fn aim_at(meta: &Meta, id: i64) -> Aim
    ensures { AimsAt id (snapshot_with (snapshots_of (view meta.now)) id) result }
{
    if meta.has_snapshot(id) {
        Ok(id)
    } else {
        Err(Refusal::UnknownSnapshot { id })
    }
}

fn aim_to(meta: &Meta, name: &Text) -> Result<Aim, AllocError>
    ensures { IfOk result (AimsTo (snapshots_of (view meta.now)) name.now (ref_at name.now (view meta.now))) }
{
    match ref_at(meta, name) {
        Some(id) => Ok(aim_at(meta, id)),
        None => Ok(Err(Refusal::UnknownRef { name: name.copy()? })),
    }
}

fn aim_forward(meta: &Meta, branch: &Text, to: &Text) -> Result<Aim, AllocError>
    ensures aim { IfOk result (AimsForward (snapshots_of (view meta.now)) branch.now to.now (branch_at branch.now (view meta.now)) (ref_at to.now (view meta.now))) }
    ensures utf8 { IfOk result (λ aim. OnOk aim (IsUtf8 branch.now)) }
{
    match branch_at(meta, branch) {
        Some(id) => match ref_at(meta, to) {
            Some(of) => Ok(aim_if_ancestor(meta, id, of, of)),
            None => Ok(Err(Refusal::UnknownRef { name: to.copy()? })),
        },
        None => Ok(Err(Refusal::UnknownRef {
            name: branch.copy()?,
        })),
    }
}

/// Where the ref is to go, or why the table refuses.
pub(crate) fn aim(meta: &Meta, goal: &Goal) -> Result<Aim, AllocError>
    ensures aim { IfOk result (Aims goal.now (view meta.now)) }
    ensures utf8 { IfOk result (λ aim. OnOk aim (IsUtf8 (goal_ref goal.now))) }
{
    match goal {
        Goal::Rollback { id } => Ok(aim_back(meta, *id)),
        Goal::SetCurrent { id } => Ok(aim_at(meta, *id)),
        Goal::SetCurrentTo { name } => aim_to(meta, name),
        Goal::FastForward { branch, to } => aim_forward(meta, branch, to),
    }
}
