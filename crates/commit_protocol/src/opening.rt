//! Opening a table: its last version's metadata.
ghost use Rattle.std.specs.Prelude.{◌≡◌, ◌≤◌, IfOk, IfErr};
ghost use Rattle.ice_store.specs.Others.{WhereTold};
ghost use Rattle.ice_store.specs.Since.{Since};
ghost use Rattle.serde_json.specs.View.{view};
ghost use Rattle.commit_history.specs.Mannered.{IsMannered};
ghost use Rattle.commit_history.specs.Versions.{number_in};
ghost use Rattle.table_metadata.specs.Spelling.{Spells, HasFault};
ghost use Rattle.commit_publish.specs.Stages.{Creating, InState};
ghost use Rattle.commit_publish.specs.Kinds.{Counts};
ghost use Rattle.commit_versions.specs.Latest.{IsBaseNumber};
ghost use Rattle.commit_versions.specs.Opening.{OpenFaultAt, OpenMarks, opening_kind};
ghost use Rattle.commit_protocol.specs.Metadata.{IsMetadata, ReadsTable, SaysElsewhere, TableLeaves, unsupported, metadata_content, metadata_local, table_rules};
ghost use Rattle.commit_protocol.specs.Verdicts.{IsNobody, OpenVerdict, IsExactOpening};
ghost use Rattle.ice_store.specs.History.{replay};

use commit_history::TableReading;
use commit_versions::{OpenErr, Opened, open_version};
use ice_store::{Bytes, Manners, Place, PlaceErr, ReadErr, Store, Text, What, Where};
use std::alloc::Global;
use table_metadata::{Meta, MetaCause, MetaErr, read_meta};

/// Table metadata as JSON: the bytes of a version file.
#[derive(Debug, Clone, Copy)]
pub struct Metadata;

impl TableReading for Metadata {
    ghost content = { metadata_content };

    ghost localized = { metadata_local };
}

/// A table as it was opened, at its last version.
#[derive(Drop)]
pub struct At {
    pub version: u64,
    pub meta: Meta,
    /// The place of the version file, and its bytes.
    pub place: Place,
    pub text: Bytes,
}

fn located(alloc: Global, table: &Place, opened: Opened, meta: Meta) -> Result<At, OpenErr>
    requires { Spells opened.text (view meta) }
    ensures { ReadsTable table.now opened result }
{
    match Place::read(alloc, meta.location()) {
        Ok(place) => {
            if place.is(table) {
                Ok(At {
                    version: opened.version,
                    meta,
                    place: opened.place,
                    text: opened.text,
                })
            } else {
                elsewhere(table, meta.location())
            }
        }
        Err(PlaceErr::Bad { .. }) => elsewhere(table, meta.location()),
        Err(PlaceErr::Memory) => Err(OpenErr::Read(ReadErr::Memory)),
    }
}

fn elsewhere(table: &Place, location: &Text) -> Result<At, OpenErr>
    ensures { SaysElsewhere table.now location.now result }
{
    match (table.copy(), location.copy()) {
        (Ok(table), Ok(location)) => Err(OpenErr::LocationDiffers { table, location }),
        _ => Err(OpenErr::Read(ReadErr::Memory)),
    }
}

// what isn't supported, where this is wrong with metadata
fn unsupported(cause: MetaCause) -> Option<What>
    ensures { result ≡ unsupported cause }
{
    match cause {
        MetaCause::Version(_) => Some(What::FormatVersion),
        MetaCause::NoManifestList => Some(What::NoManifestList),
        MetaCause::NotJson
        | MetaCause::Fraction
        | MetaCause::Field
        | MetaCause::DoubleId
        | MetaCause::BrokenRef
        | MetaCause::BrokenParent => None,
    }
}

fn refused(table: &Place, opened: Opened, path: Text, cause: MetaCause) -> Result<At, OpenErr>
    requires { HasFault opened.text path cause }
    ensures { ReadsTable table.now opened result }
{
    let place = opened.place;
    Err(OpenErr::Read(match unsupported(cause) {
        Some(what) => ReadErr::Unsupported { place, what },
        None => ReadErr::Damaged {
            place,
            at: Where::Path(path),
        },
    }))
}

fn read_table(alloc: Global, table: &Place, opened: Opened) -> Result<At, OpenErr>
    ensures { ReadsTable table.now opened result }
{
    match read_meta(alloc, opened.text.inner()) {
        Ok(meta) => located(alloc, table, opened, meta),
        Err(MetaErr::Memory) => Err(OpenErr::Read(ReadErr::Memory)),
        Err(MetaErr::Bad { path, cause }) => refused(table, opened, path, cause),
    }
}

/// Opens a table at its last version: one listing and one read. In the order of the answers: `NoTable` where there is no
/// version; a version number or a file beyond its limit, a file that is gone, a store failure; bytes that are no
/// metadata, where `Unsupported` stands for another format version and for a snapshot without a manifest list, and
/// `Damaged` for every other cause, at its first path; a location that isn't the table's place. Where nobody else acts,
/// the answer's exact cause stands in the files at the entry (`alone`), and no other answer has its cause there
/// (`exactly`).
pub fn open_table<M: Manners, S: Store<M>>(
    alloc: Global,
    store: &mut S,
    table: &Place,
) -> Result<At, OpenErr>
    requires mannered { IsMannered (table_rules table.now (M.allows (S.manners store.old))) }
    requires start { WhereTold (S.past store.old) (InState (λ d. Creating d.pending)) }
    ensures told { Since (S.past store.old) (S.past store.new) (TableLeaves table.now (M.allows (S.manners store.old)) result) }
    ensures numbers { IfOk result (λ at. IsBaseNumber (number_in table.now) at.place at.version) }
    ensures metadata { IfOk result (λ at. IsMetadata table.now at.text (view at.meta)) }
    ensures manners { S.manners store.new ≡ S.manners store.old }
    ensures cause { Counts (opening_kind result) (S.faults store.old) (S.faults store.new) }
    ensures place { IfErr result (λ e. OpenFaultAt table.now e) }
    ensures later { S.faults store.old ≤ S.faults store.new }
    ensures halted { OpenMarks (opening_kind result) (S.halted store.old) (S.halted store.new) (S.past store.new) }
    ensures alone { IsNobody (M.allows (S.manners store.old)) → Since (S.past store.old) (S.past store.new) (λ old new. OpenVerdict table.now (replay old).files result) }
    ensures exactly { IsNobody (M.allows (S.manners store.old)) → Since (S.past store.old) (S.past store.new) (λ old new. IsExactOpening table.now result (replay old).files) }
    ensures idle { IsNobody (M.allows (S.manners store.old)) → S.past store.new ≡ S.past store.old }
{
    match open_version::<Metadata, M, S>(alloc, store, table) {
        Ok(opened) => read_table(alloc, table, opened),
        Err(e) => Err(e),
    }
}
