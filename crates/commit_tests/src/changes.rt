//! A change that sets the branch `main`.
ghost use Rattle.std.specs.Prelude.{◌≡◌, ◌<◌, ◌^◌, codes, IfOk, IfErr};
ghost use Rattle.serde_json.specs.View.{view};
ghost use Rattle.table_metadata.specs.Edits.{with_ref};
ghost use Rattle.commit_tests.specs.Mains.{RefusesMain, sets_main, sets_main_same};

use commit_protocol::{AttemptErr, Built, Change, Log, Refusal, RemoveErr};
use ice_store::{Ids, Manners, Place, Store, Text};
use std::alloc::Global;
use table_metadata::Meta;

/// Sets `main` to a snapshot.
#[derive(Drop)]
pub(crate) struct SetMain {
    pub(crate) id: i64,
    /// Milliseconds since 1970-01-01 UTC.
    pub(crate) now: u64,
    ghost moment: { now < 2 ^ 63 },
}

impl<M: Manners> Change<M> for SetMain {
    ghost meanings = { λ r s. sets_main r.id r.now };

    ghost fixed = { λ r s t told. sets_main_same r.id r.now };

    fn attempt<S: Store<M>, I: Ids>(
        &mut self,
        alloc: Global,
        _store: &mut S,
        _ids: &mut I,
        _table: &Place,
        _base: &Place,
        meta: Meta,
        _log: &mut Log,
    ) -> Result<Built, AttemptErr> {
        let built = with_main(alloc, meta, self.id, self.now)?;
        Ok(Built::Next(built))
    }

    // it makes no file
    fn lost<S: Store<M>>(
        &self,
        _store: &mut S,
        _table: &Place,
        _log: &mut Log,
    ) -> Result<(), RemoveErr> {
        Ok(())
    }
}

fn with_main(alloc: Global, meta: Meta, id: i64, now: u64) -> Result<Meta, AttemptErr>
    requires { now < 2 ^ 63 }
    ensures built { IfOk result (λ built. view built ≡ with_ref (codes "main") id now (view meta)) }
    ensures refused { IfErr result (RefusesMain id (view meta)) }
{
    if !meta.has_snapshot(id) {
        return Err(AttemptErr::Refused(Refusal::UnknownSnapshot { id }));
    }
    let name = Text::copy_of(alloc, "main".as_bytes())?;
    Ok(meta.into_with_ref(alloc, &name, id, now)?)
}
