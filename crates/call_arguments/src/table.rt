//! The argument table: a line for each argument of a procedure, in the order of the places.
ghost use Rattle.std.specs.Prelude.{◌≡◌};
ghost use Rattle.call_arguments.specs.Table.{argument_name, arguments_of};

use crate::options::Rewrite;
use crate::procedure::Procedure;

/// The name of an argument.
#[derive(Clone, Copy)]
pub enum ArgName {
    Table,
    SnapshotId,
    Ref,
    Branch,
    To,
    OlderThan,
    RetainLast,
    SnapshotIds,
    Location,
    DryRun,
    Strategy,
    SortOrder,
    Options,
    Where,
    UseCaching,
    SpecId,
    SourcePrefix,
    TargetPrefix,
    StartVersion,
    EndVersion,
    StagingLocation,
    Number,
    Rows,
}

/// What a value must be.
#[derive(Clone, Copy)]
pub enum Form {
    /// A string that names a place.
    Place,
    /// A string that names a place under the table's.
    PlaceUnderTable,
    /// Any string.
    Text,
    /// The string `binpack`.
    Strategy,
    Boolean,
    /// A number from -2^63 to 2^63 - 1.
    Long,
    /// A number from 0 to 2^63 - 1.
    LongFrom0,
    /// A number from 1 to 10,000,000.
    RowCount,
    /// A number from -2^31 to 2^31 - 1.
    Int,
    /// A number from 1 to 2^31 - 1.
    IntFrom1,
    /// A moment behind `TIMESTAMP`.
    Timestamp,
    /// An array of numbers from -2^63 to 2^63 - 1.
    Longs,
    /// A map of this rewrite's options.
    Options(Rewrite),
    /// No value is taken yet, NULL aside.
    Later,
}

/// Whether an argument may be left out, and how it may stand.
#[derive(Clone, Copy)]
pub enum Presence {
    Required,
    Optional,
    /// Optional, and has no place of its own.
    ByName,
    /// Required where this other argument is left out.
    Unless(ArgName),
    /// Refused where this other argument is given, and optional else.
    Without(ArgName),
}

/// A line of the table.
#[derive(Clone, Copy)]
pub struct ArgLine {
    pub name: ArgName,
    pub form: Form,
    pub presence: Presence,
}

impl ArgName {
    /// The name as the table spells it.
    #[tactic(auto, unfolding(crate::specs::Table::argument_name))]
    pub fn spelling(self) -> &'static str
        ensures { result.now ≡ argument_name self }
    {
        match self {
            ArgName::Table => "table",
            ArgName::SnapshotId => "snapshot_id",
            ArgName::Ref => "ref",
            ArgName::Branch => "branch",
            ArgName::To => "to",
            ArgName::OlderThan => "older_than",
            ArgName::RetainLast => "retain_last",
            ArgName::SnapshotIds => "snapshot_ids",
            ArgName::Location => "location",
            ArgName::DryRun => "dry_run",
            ArgName::Strategy => "strategy",
            ArgName::SortOrder => "sort_order",
            ArgName::Options => "options",
            ArgName::Where => "where",
            ArgName::UseCaching => "use_caching",
            ArgName::SpecId => "spec_id",
            ArgName::SourcePrefix => "source_prefix",
            ArgName::TargetPrefix => "target_prefix",
            ArgName::StartVersion => "start_version",
            ArgName::EndVersion => "end_version",
            ArgName::StagingLocation => "staging_location",
            ArgName::Number => "number",
            ArgName::Rows => "rows",
        }
    }
}

macro_rules! line {
    ($name:ident, $form:expr, $presence:expr) => {
        ArgLine {
            name: ArgName::$name,
            form: $form,
            presence: $presence,
        }
    };
}

const ROLLBACK_TO_SNAPSHOT: [ArgLine; 2] = [
    line!(Table, Form::Place, Presence::Required),
    line!(SnapshotId, Form::Long, Presence::Required),
];

const SET_CURRENT_SNAPSHOT: [ArgLine; 3] = [
    line!(Table, Form::Place, Presence::Required),
    line!(SnapshotId, Form::Long, Presence::Unless(ArgName::Ref)),
    line!(Ref, Form::Text, Presence::Without(ArgName::SnapshotId)),
];

const FAST_FORWARD: [ArgLine; 3] = [
    line!(Table, Form::Place, Presence::Required),
    line!(Branch, Form::Text, Presence::Required),
    line!(To, Form::Text, Presence::Required),
];

const ANCESTORS_OF: [ArgLine; 2] = [
    line!(Table, Form::Place, Presence::Required),
    line!(SnapshotId, Form::Long, Presence::Optional),
];

const EXPIRE_SNAPSHOTS: [ArgLine; 4] = [
    line!(Table, Form::Place, Presence::Required),
    line!(OlderThan, Form::Timestamp, Presence::Optional),
    line!(RetainLast, Form::IntFrom1, Presence::Optional),
    line!(SnapshotIds, Form::Longs, Presence::ByName),
];

const REMOVE_ORPHAN_FILES: [ArgLine; 4] = [
    line!(Table, Form::Place, Presence::Required),
    line!(OlderThan, Form::Timestamp, Presence::Optional),
    line!(Location, Form::PlaceUnderTable, Presence::Optional),
    line!(DryRun, Form::Boolean, Presence::Optional),
];

const REWRITE_DATA_FILES: [ArgLine; 5] = [
    line!(Table, Form::Place, Presence::Required),
    line!(Strategy, Form::Strategy, Presence::Optional),
    line!(SortOrder, Form::Later, Presence::Optional),
    line!(Options, Form::Options(Rewrite::Data), Presence::Optional),
    line!(Where, Form::Later, Presence::Optional),
];

const REWRITE_MANIFESTS: [ArgLine; 3] = [
    line!(Table, Form::Place, Presence::Required),
    line!(UseCaching, Form::Boolean, Presence::Optional),
    line!(SpecId, Form::Int, Presence::Optional),
];

const REWRITE_POSITION_DELETE_FILES: [ArgLine; 3] = [
    line!(Table, Form::Place, Presence::Required),
    line!(Options, Form::Options(Rewrite::Deletes), Presence::Optional),
    line!(Where, Form::Later, Presence::Optional),
];

const REWRITE_TABLE_PATH: [ArgLine; 6] = [
    line!(Table, Form::Place, Presence::Required),
    line!(SourcePrefix, Form::Place, Presence::Required),
    line!(TargetPrefix, Form::Place, Presence::Required),
    line!(StartVersion, Form::Later, Presence::Optional),
    line!(EndVersion, Form::Later, Presence::Optional),
    line!(StagingLocation, Form::Place, Presence::Optional),
];

const GENERATE: [ArgLine; 3] = [
    line!(Table, Form::Place, Presence::Required),
    line!(Number, Form::LongFrom0, Presence::Required),
    line!(Rows, Form::RowCount, Presence::Required),
];

/// The arguments of a procedure. A value without a name goes to the line of its place.
#[tactic(auto, unfolding(crate::specs::Table::arguments_of))]
pub(crate) fn arguments_of(procedure: Procedure) -> &'static [ArgLine]
    ensures { result.now ≡ arguments_of procedure }
{
    match procedure {
        Procedure::RollbackToSnapshot => &ROLLBACK_TO_SNAPSHOT,
        Procedure::SetCurrentSnapshot => &SET_CURRENT_SNAPSHOT,
        Procedure::FastForward => &FAST_FORWARD,
        Procedure::AncestorsOf => &ANCESTORS_OF,
        Procedure::ExpireSnapshots => &EXPIRE_SNAPSHOTS,
        Procedure::RemoveOrphanFiles => &REMOVE_ORPHAN_FILES,
        Procedure::RewriteDataFiles => &REWRITE_DATA_FILES,
        Procedure::RewriteManifests => &REWRITE_MANIFESTS,
        Procedure::RewritePositionDeleteFiles => &REWRITE_POSITION_DELETE_FILES,
        Procedure::RewriteTablePath => &REWRITE_TABLE_PATH,
        Procedure::Generate => &GENERATE,
    }
}
