//! Other writers, as they act before the calls of a store in memory.
ghost use Rattle.std.specs.Prelude.{◌≡◌, List, [], Option, Some, IfOk};
ghost use Rattle.ice_store.specs.Others.{Allowed, WhereTold};
ghost use Rattle.ice_store.specs.declared.history.Past.{Past as Told};
ghost use Rattle.ice_store.specs.declared.history.Step.{Step as Kind};
ghost use Rattle.store_memory.specs.Neighbours.{by_them};

use crate::History;
use ice_store::{Items, Manners, StepList};
use std::alloc::{AllocError, Global};

/// Another writer, who acts before a call of a store in memory.
pub trait Neighbour<M: Manners> {
    ghost manners: { Self → M };

    /// The steps that it does when it is asked after this history, where they are told.
    ghost does: { Self → Told → Option (List Kind) };

    /// The steps that it does now, after this history, of whose files it may ask. They take the moments from `next_ms` on,
    /// and each is allowed by its manners after the ones before it.
    fn act(
        &mut self,
        alloc: Global,
        history: &History,
        next_ms: u64,
    ) -> Result<StepList, AllocError>
        ensures allowed { IfOk result (λ steps. Allowed (M.allows (manners self.old)) history.now (by_them next_ms steps)) }
        ensures told { IfOk result (λ steps. WhereTold (does self.old history.now) (λ told. steps ≡ told)) }
        ensures manners { manners self.new ≡ manners self.old };
}

/// A neighbour that does nothing.
#[derive(Debug, Drop, Clone, Copy)]
pub struct Quiet<M> {
    pub manners: M,
}

impl<M: Manners> Neighbour<M> for Quiet<M> {
    ghost manners = { λ q. q.manners };

    ghost does = { λ _ _. Some [] };

    fn act(
        &mut self,
        alloc: Global,
        _history: &History,
        _next_ms: u64,
    ) -> Result<StepList, AllocError> {
        Ok(Items::empty(alloc))
    }
}
