//! A change of a table, as a commit asks for it.
ghost use Rattle.std.specs.Prelude.{◌≡◌, ◌≤◌, [], ◌++◌, Ok, IfOk, IfErr, OnOk};
ghost use Rattle.ice_store.specs.Others.{WhereTold};
ghost use Rattle.ice_store.specs.Since.{Since};
ghost use Rattle.serde_json.specs.View.{view};
ghost use Rattle.commit_history.specs.Mannered.{IsMannered};
ghost use Rattle.commit_history.specs.Versions.{number_in};
ghost use Rattle.commit_publish.specs.Stages.{AtRest, InState};
ghost use Rattle.commit_publish.specs.Kinds.{Counts, Marks};
ghost use Rattle.commit_versions.specs.Opening.{OpenStage};
ghost use Rattle.commit_protocol.specs.Meanings.{Meanings, SaysSame, TellsSame};
ghost use Rattle.commit_protocol.specs.Metadata.{HasMetadataAt, table_rules};
ghost use Rattle.metadata_view.specs.View.{location_of};
ghost use Rattle.ice_store.specs.Places.{place_in};
ghost use Rattle.commit_protocol.specs.Attempts.{MakesOf};
ghost use Rattle.commit_protocol.specs.Kinds.{attempted_kind};
ghost use Rattle.commit_protocol.specs.Prepares.{GivesAll, Prepares, SparesAll};
ghost use Rattle.commit_protocol.specs.Withdraws.{EndsInMade, LeavesUnmade, MadeStand, TellsWithdraw, Withdrawing, withdraw_kind};

use crate::errors::{AttemptErr, RemoveErr};
use commit_publish::Log;
use ice_store::{Ids, Manners, Place, Store};
use std::alloc::Global;
use table_metadata::Meta;

/// What a change makes of a base.
#[derive(Drop)]
pub enum Built {
    /// Nothing is to be changed.
    Same,
    /// The changed metadata, before the step to the next version.
    Next(Meta),
}

/// A change of a table: it builds new metadata of a base, reads files if need be, and makes the files that the metadata
/// names. It publishes nothing. Where others took the version that it was for, it removes the files that it made.
pub trait Change<M: Manners> {
    /// What the change means, as it was when it was asked (the first) and as it is now: the second plays a part only in
    /// what was kept of the base (`seen`) and of the attempt: the identifiers that it drew, the files that it made, and what
    /// it found.
    ghost meanings: { Self → Self → Meanings };

    /// What it means follows from what was asked, the identifiers that were drawn, the files that were made and what was
    /// found: not from what was answered.
    ghost fixed: { (asked one other : Self) → TellsSame (meanings asked one) (meanings asked other) → SaysSame (meanings asked one) (meanings asked other) };

    /// Builds the change on a base: the metadata `meta` that the version file at `base` spelled when it was read. The
    /// metadata is given away, so that it can be changed in place. The moment of an edit is the change's own.
    ///
    /// It may make files: it creates them under free names that are no version file's, appends to them and seals them, as
    /// `takes` says by its end, and removes and renames none. The log's `left` has them behind what it had, in order
    /// (`made`), also where the attempt refuses or fails; and behind them, after a failed creation, its place, which may be
    /// absent. Where it builds a successor all its files stand, sealed. The identifiers that it draws are `draws`. After a
    /// failed call it makes no further one.
    fn attempt<S: Store<M>, I: Ids>(
        &mut self,
        alloc: Global,
        store: &mut S,
        ids: &mut I,
        table: &Place,
        base: &Place,
        meta: Meta,
        log: &mut Log,
    ) -> Result<Built, AttemptErr>
        requires mannered { IsMannered (table_rules table.now (M.allows (S.manners store.old))) }
        requires start { WhereTold (S.past store.old) (InState (OpenStage (number_in table.now) base.now)) }
        requires here { place_in (location_of (view meta)) ≡ Ok table.now }
        requires opened { WhereTold (S.past store.old) (InState (HasMetadataAt table.now base.now (view meta))) }
        ensures told { Since (S.past store.old) (S.past store.new) (Prepares table.now (M.allows (S.manners store.old)) (meanings self.old self.new) (view meta) (attempted_kind result) base.now (S.halted store.new)) }
        ensures met { Since (S.past store.old) (S.past store.new) (meanings self.old self.new).met }
        ensures built { IfOk result (MakesOf (meanings self.old self.new) (view meta)) }
        ensures seen { OnOk result ((meanings self.old self.new).seen (view meta)) }
        ensures refused { IfErr result ((meanings self.old self.new).refuses (view meta)) }
        ensures spare { SparesAll (meanings self.old self.new) result }
        ensures stand { OnOk result (WhereTold (S.past store.new) (MadeStand table.now (meanings self.old self.new).made)) }
        ensures keeps { SaysSame (meanings self.new self.new) (meanings self.old self.new) }
        ensures keeps_made { (meanings self.new self.new).made ≡ (meanings self.old self.new).made }
        ensures drawn { GivesAll (meanings self.old self.new).draws (I.given ids.old) (I.given ids.new) }
        ensures committed { log.new.committed.items ≡ log.old.committed.items }
        ensures left { log.new.left.items ≡ log.old.left.items ++ (meanings self.old self.new).made }
        ensures manners { S.manners store.new ≡ S.manners store.old }
        ensures cause { Counts (attempted_kind result) (S.faults store.old) (S.faults store.new) }
        ensures later { S.faults store.old ≤ S.faults store.new }
        ensures halted { Marks table.now (attempted_kind result) (S.halted store.old) (S.halted store.new) (S.past store.new) };

    /// Removes the files that the last attempt made, in order, once others took the version that would have named them, and
    /// syncs the names behind the removals. They still stand, sealed, and none is a version file. The log's `left` has them
    /// at its end, and loses those that are gone. Where none was made, no call is made. After a failed call it makes no
    /// further one.
    fn lost<S: Store<M>>(
        &self,
        store: &mut S,
        table: &Place,
        log: &mut Log,
    ) -> Result<(), RemoveErr>
        requires mannered { IsMannered (table_rules table.now (M.allows (S.manners store.old))) }
        requires rest { WhereTold (S.past store.old) (InState (λ d. AtRest d.pending)) }
        requires stand { WhereTold (S.past store.old) (MadeStand table.now (meanings self.now self.now).made) }
        requires noted { EndsInMade (meanings self.now self.now).made log.old.left.items }
        ensures told { Withdrawing S.past store.old store.new table.now (M.allows (S.manners store.old)) (meanings self.now self.now).made (S.halted store.new) result log.old.left.items log.new.left.items }
        ensures still { (meanings self.now self.now).made ≡ [] → S.past store.new ≡ S.past store.old }
        ensures none { (meanings self.now self.now).made ≡ [] → result ≡ Ok tt }
        ensures place { TellsWithdraw (meanings self.now self.now).made table.now result }
        ensures left { LeavesUnmade (meanings self.now self.now).made result log.old.left.items log.new.left.items }
        ensures committed { log.new.committed.items ≡ log.old.committed.items }
        ensures manners { S.manners store.new ≡ S.manners store.old }
        ensures cause { Counts (withdraw_kind result) (S.faults store.old) (S.faults store.new) }
        ensures later { S.faults store.old ≤ S.faults store.new }
        ensures halted { Marks table.now (withdraw_kind result) (S.halted store.old) (S.halted store.new) (S.past store.new) };
}
