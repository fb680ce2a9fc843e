//! Opening the last version: one listing, and one read of one file.
ghost use Rattle.std.specs.Prelude.{◌≡◌, ◌≤◌, ◌<◌, ◌+◌, ◌^◌, ◌++◌, ◌∷◌, [], length, slice_get, IfOk, IfErr};
ghost use Rattle.std.specs.Option.{IsSomeAnd};
ghost use Rattle.ice_store.specs.Others.{WhereTold};
ghost use Rattle.ice_store.specs.Since.{Since};
ghost use Rattle.ice_store.specs.Calls.{HasCause};
ghost use Rattle.commit_history.specs.Mannered.{IsMannered};
ghost use Rattle.commit_history.specs.Readings.{rules_of};
ghost use Rattle.commit_history.specs.Versions.{number_in, folder};
ghost use Rattle.commit_publish.specs.Stages.{Creating, InState};
ghost use Rattle.commit_publish.specs.Kinds.{Counts};
ghost use Rattle.commit_versions.specs.Opening.{OpenStage, FindLeaves, ReadLeaves, ReadOpened, FoundStage, FoundLeaves, OpenLeaves, OpenFaultAt, OpenMarks, LookMarks, opening_kind, version_file_of};
ghost use Rattle.commit_versions.specs.Latest.{IsLatest, IsBaseNumber, IsFound, HasBaseNumber};

use crate::names::metadata_folder;
use crate::numbers::version_number;
use crate::types::{FILE_LIMIT, Found, Latest, OpenErr, Opened, VERSION_LIMIT, VersionFile};
use commit_history::TableReading;
use ice_store::{Bytes, Listed, Manners, Place, ReadErr, Store, StoreErr, What};
use std::alloc::Global;

// `Err` where an item's number is beyond the limit
fn latest_of(table: &Place, listed: &[Listed]) -> Result<Latest, usize>
    ensures { IsLatest (number_in table.now) listed.now result }
{
    let mut best = Latest {
        index: 0,
        version: 0,
    };
    for i in 0..listed.len() {
        let Some(number) = version_number(table, &listed[i].place) else {
            return Err(i);
        };
        if number >= VERSION_LIMIT {
            return Err(i);
        }
        if number > best.version {
            best = Latest {
                index: i,
                version: number,
            };
        }
    }
    Ok(best)
}

// the place of an item
fn place_at(listed: &[Listed], index: usize) -> Result<Place, StoreErr>
    requires { index < length listed.now }
    ensures place { IfOk result (λ p. IsSomeAnd (slice_get listed.now index) (λ l. l.place ≡ p)) }
    ensures err { IfErr result (λ e. e ≡ StoreErr.Memory) }
{
    match listed[index].place.copy() {
        Ok(place) => Ok(place),
        Err(_) => Err(StoreErr::Memory),
    }
}

fn found_in(table: &Place, listed: &[Listed]) -> Result<Found, StoreErr>
    ensures found { IfOk result (λ f. IsFound (number_in table.now) listed.now f) }
    ensures err { IfErr result (λ e. e ≡ StoreErr.Memory) }
{
    match latest_of(table, listed) {
        Err(index) => match place_at(listed, index) {
            Ok(place) => Ok(Found::Beyond(place)),
            Err(e) => Err(e),
        },
        Ok(latest) => {
            if latest.version == 0 {
                return Ok(Found::NoVersion);
            }
            match place_at(listed, latest.index) {
                Ok(place) => Ok(Found::Base(place, latest.version)),
                Err(e) => Err(e),
            }
        }
    }
}

/// Lists the metadata's folder `dir` and finds the last version.
pub fn find_version<R: TableReading, M: Manners, S: Store<M>>(
    store: &mut S,
    table: &Place,
    dir: &Place,
) -> Result<Found, StoreErr>
    requires mannered { IsMannered (rules_of R.content table.now (M.allows (S.manners store.old))) }
    requires dir { dir.now ≡ table.now ++ folder ∷ [] }
    requires start { WhereTold (S.past store.old) (InState (λ d. Creating d.pending)) }
    ensures told { Since (S.past store.old) (S.past store.new) (FindLeaves (rules_of R.content table.now (M.allows (S.manners store.old))) result) }
    ensures numbers { IfOk result (λ f. HasBaseNumber (number_in table.now) f) }
    ensures manners { S.manners store.new ≡ S.manners store.old }
    ensures cause { HasCause (S.faults store.old) (S.faults store.new) result }
    ensures halted { LookMarks dir.now result (S.halted store.old) (S.halted store.new) (S.past store.new) }
{
    match store.names(dir) {
        Ok(listed) => found_in(table, listed.inner()),
        Err(e) => Err(e),
    }
}

fn sized(text: Bytes) -> VersionFile
    ensures { result ≡ version_file_of text }
{
    if text.len() > FILE_LIMIT {
        VersionFile::TooLong
    } else {
        VersionFile::Whole(text)
    }
}

/// Reads the version file at `place`.
pub fn read_version<R: TableReading, M: Manners, S: Store<M>>(
    store: &mut S,
    table: &Place,
    place: &Place,
) -> Result<VersionFile, StoreErr>
    requires mannered { IsMannered (rules_of R.content table.now (M.allows (S.manners store.old))) }
    requires positive { 0 < number_in table.now place.now }
    requires start { WhereTold (S.past store.old) (InState (OpenStage (number_in table.now) place.now)) }
    ensures told { Since (S.past store.old) (S.past store.new) (ReadLeaves (rules_of R.content table.now (M.allows (S.manners store.old))) place.now result) }
    ensures manners { S.manners store.new ≡ S.manners store.old }
    ensures cause { HasCause (S.faults store.old) (S.faults store.new) result }
    ensures halted { LookMarks place.now result (S.halted store.old) (S.halted store.new) (S.past store.new) }
{
    match store.read_at(place, 0, FILE_LIMIT + 1) {
        Ok(Some(text)) => Ok(sized(text)),
        Ok(None) => Ok(VersionFile::Absent),
        Err(e) => Err(e),
    }
}

fn read_opened<R: TableReading, M: Manners, S: Store<M>>(
    store: &mut S,
    table: &Place,
    place: Place,
    version: u64,
) -> Result<Opened, OpenErr>
    requires mannered { IsMannered (rules_of R.content table.now (M.allows (S.manners store.old))) }
    requires number { IsBaseNumber (number_in table.now) place version }
    requires start { WhereTold (S.past store.old) (InState (OpenStage (number_in table.now) place)) }
    ensures told { Since (S.past store.old) (S.past store.new) (ReadOpened (rules_of R.content table.now (M.allows (S.manners store.old))) place result) }
    ensures numbers { IfOk result (λ o. IsBaseNumber (number_in table.now) o.place o.version) }
    ensures manners { S.manners store.new ≡ S.manners store.old }
    ensures cause { Counts (opening_kind result) (S.faults store.old) (S.faults store.new) }
    ensures place { IfErr result (λ e. OpenFaultAt table.now e) }
    ensures later { S.faults store.old ≤ S.faults store.new }
    ensures halted { OpenMarks (opening_kind result) (S.halted store.old) (S.halted store.new) (S.past store.new) }
{
    match read_version::<R, M, S>(store, table, &place) {
        Ok(VersionFile::Whole(text)) => Ok(Opened {
            place,
            version,
            text,
        }),
        Ok(VersionFile::TooLong) => Err(OpenErr::Read(ReadErr::Unsupported {
            place,
            what: What::FileBytes,
        })),
        Ok(VersionFile::Absent) => Err(OpenErr::Read(ReadErr::Missing { place })),
        Err(StoreErr::Failed) => Err(OpenErr::Read(ReadErr::StoreFault { place })),
        Err(StoreErr::Memory) => Err(OpenErr::Read(ReadErr::Memory)),
    }
}

// goes on from what the listing found; `name` is the table
fn open_found<R: TableReading, M: Manners, S: Store<M>>(
    store: &mut S,
    table: &Place,
    name: Place,
    found: Found,
) -> Result<Opened, OpenErr>
    requires mannered { IsMannered (rules_of R.content table.now (M.allows (S.manners store.old))) }
    requires name { name ≡ table.now }
    requires number { HasBaseNumber (number_in table.now) found }
    requires start { WhereTold (S.past store.old) (FoundStage (number_in table.now) found) }
    ensures told { Since (S.past store.old) (S.past store.new) (FoundLeaves (rules_of R.content table.now (M.allows (S.manners store.old))) table.now found result) }
    ensures numbers { IfOk result (λ o. IsBaseNumber (number_in table.now) o.place o.version) }
    ensures manners { S.manners store.new ≡ S.manners store.old }
    ensures cause { Counts (opening_kind result) (S.faults store.old) (S.faults store.new) }
    ensures place { IfErr result (λ e. OpenFaultAt table.now e) }
    ensures later { S.faults store.old ≤ S.faults store.new }
    ensures halted { OpenMarks (opening_kind result) (S.halted store.old) (S.halted store.new) (S.past store.new) }
{
    match found {
        Found::Base(place, version) => read_opened::<R, M, S>(store, table, place, version),
        Found::NoVersion => Err(OpenErr::NoTable { place: name }),
        Found::Beyond(place) => Err(OpenErr::Read(ReadErr::Unsupported {
            place,
            what: What::VersionNumber,
        })),
    }
}

/// Opens the last version of the table: one listing of its metadata's folder, and one read of one file.
pub fn open_version<R: TableReading, M: Manners, S: Store<M>>(
    alloc: Global,
    store: &mut S,
    table: &Place,
) -> Result<Opened, OpenErr>
    requires mannered { IsMannered (rules_of R.content table.now (M.allows (S.manners store.old))) }
    requires start { WhereTold (S.past store.old) (InState (λ d. Creating d.pending)) }
    ensures told { Since (S.past store.old) (S.past store.new) (OpenLeaves (rules_of R.content table.now (M.allows (S.manners store.old))) table.now result) }
    ensures numbers { IfOk result (λ o. IsBaseNumber (number_in table.now) o.place o.version) }
    ensures manners { S.manners store.new ≡ S.manners store.old }
    ensures cause { Counts (opening_kind result) (S.faults store.old) (S.faults store.new) }
    ensures place { IfErr result (λ e. OpenFaultAt table.now e) }
    ensures later { S.faults store.old ≤ S.faults store.new }
    ensures halted { OpenMarks (opening_kind result) (S.halted store.old) (S.halted store.new) (S.past store.new) }
{
    let Ok(name) = table.copy() else {
        return Err(OpenErr::Read(ReadErr::Memory));
    };
    let Ok(dir) = metadata_folder(alloc, table) else {
        return Err(OpenErr::Read(ReadErr::Memory));
    };
    match find_version::<R, M, S>(store, table, &dir) {
        Ok(found) => open_found::<R, M, S>(store, table, name, found),
        Err(StoreErr::Failed) => Err(OpenErr::Read(ReadErr::StoreFault { place: dir })),
        Err(StoreErr::Memory) => Err(OpenErr::Read(ReadErr::Memory)),
    }
}
