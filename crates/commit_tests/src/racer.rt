//! Another writer of a table, who publishes the next version before one call of the store.
ghost use Rattle.std.specs.Prelude.{◌≡◌, ℕ, ◌+◌, max, List, Option, None, IfOk, IfSome, IsTrue};
ghost use Rattle.ice_store.specs.History.{replay};
ghost use Rattle.ice_store.specs.Others.{Allowed};
ghost use Rattle.ice_store.specs.Places.{Parts};
ghost use Rattle.store_memory.specs.Neighbours.{by_them};
ghost use Rattle.commit_history.specs.Listings.{greatest};
ghost use Rattle.commit_history.specs.Mannered.{AllowsStep};
ghost use Rattle.commit_history.specs.Readings.{reading_of};
ghost use Rattle.commit_history.specs.Tables.{version};
ghost use Rattle.commit_history.specs.Versions.{number_in};
ghost use Rattle.commit_protocol.specs.Metadata.{IsTableOf};
ghost use Rattle.commit_tests.specs.Publishing.{publishes};

use crate::writers::Writers;
use commit_history::{TableReading, listing_tells};
use commit_protocol::Metadata;
use commit_versions::{FILE_LIMIT, draft_place, metadata_folder, version_number, version_place};
use ice_store::{Bytes, Items, Listed, Place, Step, StepList};
use std::alloc::{AllocError, Global};
use store_memory::{History, Neighbour};
use table_metadata::{MetaErr, read_meta};

/// Publishes these bytes as the version after the last one, before the call with the number `turn`, counted from 0. It
/// does nothing where they are no metadata of the table or too long, where one of the two names is taken, or where there
/// is no next version.
#[derive(Drop)]
pub(crate) struct Racer {
    pub(crate) writers: Writers,
    pub(crate) turn: u64,
    pub(crate) bytes: Bytes,
    /// How many calls there were, up to the greatest 64-bit number.
    pub(crate) calls: u64,
}

impl Neighbour<Writers> for Racer {
    ghost manners = { λ r. r.writers };

    ghost does = { λ _ _. None };

    fn act(
        &mut self,
        alloc: Global,
        history: &History,
        _next_ms: u64,
    ) -> Result<StepList, AllocError> {
        let call = self.calls;
        self.calls = call.saturating_add(1);
        let table = &self.writers.table;
        if call != self.turn || !is_table(alloc, table, self.bytes.inner())? {
            return Ok(Items::empty(alloc));
        }
        publish::<Metadata>(alloc, table, &self.bytes, history)
    }
}

// whether they are metadata of the table, and no longer than a metadata file may be
fn is_table(alloc: Global, table: &Place, bytes: &[u8]) -> Result<bool, AllocError>
    ensures { IfOk result (λ is. IsTrue is → IsTableOf table.now bytes.now) }
{
    if bytes.len() > FILE_LIMIT {
        return Ok(false);
    }
    let meta = match read_meta(alloc, bytes) {
        Ok(meta) => meta,
        Err(MetaErr::Bad { .. }) => return Ok(false),
        Err(MetaErr::Memory) => return Err(AllocError),
    };
    match Place::read(alloc, meta.location()) {
        Ok(place) => Ok(place.is(table)),
        Err(_) => Ok(false),
    }
}

// the steps of a publish of good bytes, or none where it isn't allowed
fn publish<R: TableReading>(
    alloc: Global,
    table: &Place,
    bytes: &Bytes,
    history: &History,
) -> Result<StepList, AllocError>
    requires good { (others : Parts → Option (List ℕ)) → (R.content table.now).good bytes.now others }
    ensures { IfOk result (λ steps. (ms : ℕ) → Allowed (AllowsStep (reading_of R.content table.now)) history.now (by_them ms steps)) }
{
    let Some(next) = next_version(alloc, table, history)? else {
        return Ok(Items::empty(alloc));
    };
    let from = draft_place(alloc, table, 7000)?;
    let to = version_place(alloc, table, next)?;
    if history.find(&from).is_some() || history.find(&to).is_some() {
        return Ok(Items::empty(alloc));
    }
    publish_steps(alloc, from, to, bytes)
}

// the number of the version after the last one; none where there is a number beyond 64 bits
fn next_version(alloc: Global, table: &Place, history: &History) -> Result<Option<u64>, AllocError>
    ensures { IfOk result (λ next. IfSome next (λ n. n ≡ version (number_in table.now) (replay history.now).files + 1)) }
{
    let listed = history.list(alloc, &metadata_folder(alloc, table)?)?;
    listing_tells(table);
    match greatest_in(table, &listed) {
        Some(last) => Ok(last.checked_add(1)),
        None => Ok(None),
    }
}

fn greatest_in(table: &Place, listed: &[Listed]) -> Option<u64>
    ensures { IfSome result (λ n. n ≡ greatest (number_in table.now) listed.now) }
{
    let mut last = 0;
    for i in 0..listed.len() {
        last = greater(last, version_number(table, &listed[i].place)?);
    }
    Some(last)
}

fn greater(a: u64, b: u64) -> u64
    ensures { result ≡ max a b }
{
    if a < b { b } else { a }
}

fn publish_steps(
    alloc: Global,
    from: Place,
    to: Place,
    bytes: &Bytes,
) -> Result<StepList, AllocError>
    ensures { IfOk result (λ steps. steps ≡ publishes from to bytes.now) }
{
    let create = Step::Create(from.copy()?);
    let append = Step::Append(from.copy()?, bytes.copy()?);
    let seal = Step::Seal(from.copy()?);
    let rename = Step::Rename(from, to);
    Ok(Items::new(vec![in alloc; create, append, seal, rename]?))
}
