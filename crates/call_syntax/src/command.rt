//! What a statement asks for.
ghost use Rattle.std.specs.Prelude.{◌≡◌};
ghost use Rattle.call_arguments.specs.Table.{procedure_name};
ghost use Rattle.call_syntax.specs.Commands.{procedure_of, table_of};

use call_arguments::Procedure;
use ice_store::{Items, Place, Text};

/// Ids of snapshots.
pub type IdList = Items<i64>;

/// The snapshot that `set_current_snapshot` makes current: the one with an id, or the one of a ref.
#[derive(Debug, Drop)]
pub enum Target {
    Id(i64),
    Ref(Text),
}

/// The options of a rewrite, with their defaults. Sizes are in bytes.
#[derive(Debug, Drop)]
pub struct OptionValues {
    /// `target-file-size-bytes`; none stands for the table's property, or 512 MiB of data and 64 MiB of deletes.
    pub target: Option<u64>,
    /// `min-file-size-bytes`; none stands for 3 / 4 of the target.
    pub min_size: Option<u64>,
    /// `max-file-size-bytes`; none stands for 9 / 5 of the target.
    pub max_size: Option<u64>,
    /// `min-input-files`
    pub min_files: u64,
    /// `max-file-group-size-bytes`
    pub max_group: u64,
    /// `rewrite-all`
    pub all: bool,
    /// `partial-progress.enabled`
    pub partial: bool,
    /// `partial-progress.max-commits`
    pub max_commits: u64,
    /// `max-concurrent-file-group-rewrites`
    pub concurrent: u64,
    /// `delete-file-threshold`
    pub threshold: u64,
    /// `use-starting-sequence-number`
    pub keep_sequence: bool,
    /// `remove-dangling-deletes`
    pub dangling: bool,
}

/// What a statement asks for, after Iceberg's Spark procedures. Moments are in milliseconds since the start of 1970.
#[derive(Debug, Drop)]
pub enum Command {
    /// `rollback_to_snapshot`
    Rollback {
        table: Place,
        snapshot_id: i64,
    },
    /// `set_current_snapshot`
    SetCurrent {
        table: Place,
        target: Target,
    },
    /// `fast_forward`
    FastForward {
        table: Place,
        branch: Text,
        to: Text,
    },
    /// `ancestors_of`; without an id those of the current snapshot.
    Ancestors {
        table: Place,
        snapshot_id: Option<i64>,
    },
    /// `expire_snapshots`
    Expire {
        table: Place,
        older_than: Option<u64>,
        retain_last: Option<u64>,
        snapshot_ids: IdList,
    },
    /// `remove_orphan_files`
    RemoveOrphans {
        table: Place,
        older_than: Option<u64>,
        location: Option<Place>,
        dry_run: bool,
    },
    /// `rewrite_data_files`. So far `sort` is false, and `sort_order` and `filter` are none.
    RewriteData {
        table: Place,
        sort: bool,
        sort_order: Option<Text>,
        options: OptionValues,
        filter: Option<Text>,
    },
    /// `rewrite_manifests`
    RewriteManifests {
        table: Place,
        spec_id: Option<i32>,
    },
    /// `rewrite_position_delete_files`. So far `filter` is none.
    RewriteDeletes {
        table: Place,
        options: OptionValues,
        filter: Option<Text>,
    },
    /// `rewrite_table_path`. So far `start` and `end` are none.
    Relocate {
        table: Place,
        source: Place,
        target: Place,
        start: Option<Text>,
        end: Option<Text>,
        staging: Option<Place>,
    },
    /// `generate`, this project's own
    Generate {
        table: Place,
        number: u64,
        rows: u64,
    },
}

impl Command {
    /// The procedure that the statement calls.
    pub fn procedure(&self) -> Procedure
        ensures { result ≡ procedure_of self.now }
    {
        match self {
            Command::Rollback { .. } => Procedure::RollbackToSnapshot,
            Command::SetCurrent { .. } => Procedure::SetCurrentSnapshot,
            Command::FastForward { .. } => Procedure::FastForward,
            Command::Ancestors { .. } => Procedure::AncestorsOf,
            Command::Expire { .. } => Procedure::ExpireSnapshots,
            Command::RemoveOrphans { .. } => Procedure::RemoveOrphanFiles,
            Command::RewriteData { .. } => Procedure::RewriteDataFiles,
            Command::RewriteManifests { .. } => Procedure::RewriteManifests,
            Command::RewriteDeletes { .. } => Procedure::RewritePositionDeleteFiles,
            Command::Relocate { .. } => Procedure::RewriteTablePath,
            Command::Generate { .. } => Procedure::Generate,
        }
    }

    /// The procedure's name, as the argument table spells it.
    pub fn procedure_name(&self) -> &'static str
        ensures { result.now ≡ procedure_name (procedure_of self.now) }
    {
        self.procedure().name()
    }

    /// Lends the table.
    pub fn table(&self) -> &Place
        ensures { result.now ≡ table_of self.now }
    {
        match self {
            Command::Rollback { table, .. }
            | Command::SetCurrent { table, .. }
            | Command::FastForward { table, .. }
            | Command::Ancestors { table, .. }
            | Command::Expire { table, .. }
            | Command::RemoveOrphans { table, .. }
            | Command::RewriteData { table, .. }
            | Command::RewriteManifests { table, .. }
            | Command::RewriteDeletes { table, .. }
            | Command::Relocate { table, .. }
            | Command::Generate { table, .. } => table,
        }
    }
}
