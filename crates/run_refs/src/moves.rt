//! The change that moves a ref.
ghost use Rattle.std.specs.Prelude.{◌≡◌, ◌<◌, ◌^◌, ◌↔◌, pos, IfOk, IfErr, IsTrue};
ghost use Rattle.serde_json.specs.View.{view};
ghost use Rattle.run_refs.specs.Meanings.{IsMoved, moves_of, moves_same};
ghost use Rattle.run_refs.specs.Moves.{RefusesMove, HasSeen};
ghost use Rattle.run_refs.specs.Reports.{move_report};

use crate::aims::aim;
use crate::goal::{Goal, ref_name};
use crate::look::ref_at;
use crate::report::report_move;
use commit_protocol::{AttemptErr, Built, Change, Log, RemoveErr};
use ice_store::{Ids, Manners, Place, Store, Text};
use std::alloc::{AllocError, Global};
use table_metadata::Meta;

/// A move of a ref, at the moment `now`.
#[derive(Debug, Drop)]
pub struct RefMove {
    pub goal: Goal,
    /// Milliseconds since 1970-01-01 UTC.
    pub now: u64,
    /// Where the ref was in the base that was asked last; none where it wasn't there.
    pub previous: Option<i64>,
    /// Where it is to be.
    pub id: i64,
    ghost moment: { now < 2 ^ 63 },
}

impl RefMove {
    /// A move that was asked on no base yet. Takes no memory.
    pub fn new(goal: Goal, now: u64) -> RefMove
        requires { now < 2 ^ 63 }
        ensures goal { result.goal ≡ goal }
        ensures now { result.now ≡ now }
        ensures previous { result.previous ≡ None }
        ensures id { result.id ≡ pos 0 }
    {
        RefMove {
            goal,
            now,
            previous: None,
            id: 0,
        }
    }

    /// The report: where the ref was in the base that was asked last, and where it is to be; of a branch with its name.
    pub fn report(&self, alloc: Global) -> Result<Text, AllocError>
        ensures { IfOk result (λ text. text ≡ move_report self.entry.now.goal self.entry.now.previous self.entry.now.id) }
    {
        report_move(alloc, &self.goal, self.previous, self.id)
    }
}

/// A move, as it was built on a base.
#[derive(Drop)]
pub(crate) struct Moved {
    pub previous: Option<i64>,
    pub id: i64,
    pub built: Built,
}

impl<M: Manners> Change<M> for RefMove {
    ghost meanings = { λ r s. moves_of r.goal r.now (λ tree. (s.goal ≡ r.goal) × HasSeen r.goal tree s.previous s.id) };

    ghost fixed = { λ r s t told. moves_same r.goal r.now };

    fn attempt<S: Store<M>, I: Ids>(
        &mut self,
        alloc: Global,
        _store: &mut S,
        _ids: &mut I,
        _table: &Place,
        _base: &Place,
        meta: Meta,
        _log: &mut Log,
    ) -> Result<Built, AttemptErr> {
        let moved = move_on(alloc, meta, &self.goal, self.now)?;
        self.previous = moved.previous;
        self.id = moved.id;
        Ok(moved.built)
    }

    // a move makes no file
    fn lost<S: Store<M>>(
        &self,
        _store: &mut S,
        _table: &Place,
        _log: &mut Log,
    ) -> Result<(), RemoveErr> {
        Ok(())
    }
}

/// The move on this base.
pub(crate) fn move_on(alloc: Global, meta: Meta, goal: &Goal, now: u64) -> Result<Moved, AttemptErr>
    requires { now < 2 ^ 63 }
    ensures built { IfOk result (λ moved. IsMoved goal.now now (view meta) moved.built) }
    ensures seen { IfOk result (λ moved. HasSeen goal.now (view meta) moved.previous moved.id) }
    ensures refused { IfErr result (RefusesMove goal.now (view meta)) }
{
    let id = match aim(&meta, goal)? {
        Ok(id) => id,
        Err(refusal) => return Err(AttemptErr::Refused(refusal)),
    };
    let name = ref_name(alloc, goal)?;
    let previous = ref_at(&meta, &name);
    if is_at(previous, id) {
        return Ok(Moved {
            previous,
            id,
            built: Built::Same,
        });
    }
    let built = meta.into_with_ref(alloc, &name, id, now)?;
    Ok(Moved {
        previous,
        id,
        built: Built::Next(built),
    })
}

fn is_at(at: Option<i64>, id: i64) -> bool
    ensures { IsTrue result ↔ at ≡ Some id }
{
    at == Some(id)
}
