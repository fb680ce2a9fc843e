//! What is to be done with which ref.
ghost use Rattle.std.specs.Prelude.{◌≡◌, IfOk};
ghost use Rattle.run_refs.specs.Refs.{goal_ref};

use ice_store::Text;
use std::alloc::{AllocError, Global};

/// What is to be done with which ref (after Iceberg's Spark procedures).
#[derive(Debug, Drop)]
pub enum Goal {
    /// `main` goes back to the snapshot, an ancestor of the current one.
    Rollback { id: i64 },
    /// `main` goes to the snapshot.
    SetCurrent { id: i64 },
    /// `main` goes to the snapshot of the ref.
    SetCurrentTo { name: Text },
    /// The branch goes to the snapshot of the ref `to`, of which its own snapshot is an ancestor.
    FastForward { branch: Text, to: Text },
}

impl Goal {
    /// An equal goal.
    pub fn copy(&self) -> Result<Goal, AllocError>
        ensures { IfOk result (λ copied. copied ≡ self.now) }
    {
        match self {
            Goal::Rollback { id } => Ok(Goal::Rollback { id: *id }),
            Goal::SetCurrent { id } => Ok(Goal::SetCurrent { id: *id }),
            Goal::SetCurrentTo { name } => Ok(Goal::SetCurrentTo { name: name.copy()? }),
            Goal::FastForward { branch, to } => Ok(Goal::FastForward {
                branch: branch.copy()?,
                to: to.copy()?,
            }),
        }
    }
}

/// The name of the ref that moves.
pub(crate) fn ref_name(alloc: Global, goal: &Goal) -> Result<Text, AllocError>
    ensures { IfOk result (λ name. name ≡ goal_ref goal.now) }
{
    match goal {
        Goal::Rollback { .. } => Text::copy_of(alloc, b"main"),
        Goal::SetCurrent { .. } => Text::copy_of(alloc, b"main"),
        Goal::SetCurrentTo { .. } => Text::copy_of(alloc, b"main"),
        Goal::FastForward { branch, .. } => branch.copy(),
    }
}
