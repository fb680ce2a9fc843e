//! The procedures and their names.
ghost use Rattle.std.specs.Prelude.{◌≡◌, find, option_copied};
ghost use Rattle.call_arguments.specs.declared.procedure.Procedure.{Procedure as TheProcedure};
ghost use Rattle.call_arguments.specs.Table.{same_letters, procedure_name, procedures, procedure_named};

use ice_store::Text;

/// A procedure that a statement calls.
#[derive(Debug, Clone, Copy)]
pub enum Procedure {
    RollbackToSnapshot,
    SetCurrentSnapshot,
    FastForward,
    AncestorsOf,
    ExpireSnapshots,
    RemoveOrphanFiles,
    RewriteDataFiles,
    RewriteManifests,
    RewritePositionDeleteFiles,
    RewriteTablePath,
    /// This project's own: it fills a table with rows.
    Generate,
}

const PROCEDURES: [Procedure; 11] = [
    Procedure::RollbackToSnapshot,
    Procedure::SetCurrentSnapshot,
    Procedure::FastForward,
    Procedure::AncestorsOf,
    Procedure::ExpireSnapshots,
    Procedure::RemoveOrphanFiles,
    Procedure::RewriteDataFiles,
    Procedure::RewriteManifests,
    Procedure::RewritePositionDeleteFiles,
    Procedure::RewriteTablePath,
    Procedure::Generate,
];

impl Procedure {
    /// The name as the table spells it.
    #[tactic(auto, unfolding(crate::specs::Table::procedure_name))]
    pub fn name(self) -> &'static str
        ensures { result.now ≡ procedure_name self }
    {
        match self {
            Procedure::RollbackToSnapshot => "rollback_to_snapshot",
            Procedure::SetCurrentSnapshot => "set_current_snapshot",
            Procedure::FastForward => "fast_forward",
            Procedure::AncestorsOf => "ancestors_of",
            Procedure::ExpireSnapshots => "expire_snapshots",
            Procedure::RemoveOrphanFiles => "remove_orphan_files",
            Procedure::RewriteDataFiles => "rewrite_data_files",
            Procedure::RewriteManifests => "rewrite_manifests",
            Procedure::RewritePositionDeleteFiles => "rewrite_position_delete_files",
            Procedure::RewriteTablePath => "rewrite_table_path",
            Procedure::Generate => "generate",
        }
    }
}

/// Whether two names are equal but for the case of ASCII letters.
pub(crate) fn same_letters(a: &[u8], b: &[u8]) -> bool
    ensures { result ≡ same_letters a.now b.now }
{
    a.eq_ignore_ascii_case(b)
}

fn is_named(procedure: Procedure, name: &Text) -> bool
    ensures { result ≡ same_letters name.now (procedure_name procedure) }
{
    same_letters(name.inner(), procedure.name().as_bytes())
}

fn listed_procedures() -> &'static [Procedure]
    ensures { result.now ≡ procedures }
{
    &PROCEDURES
}

fn find_procedure(name: &Text) -> Option<&'static Procedure>
    ensures { option_copied result ≡ find (λ (p : TheProcedure). same_letters name.now (procedure_name p)) procedures }
{
    listed_procedures()
        .iter()
        .find(|procedure| is_named(**procedure, name))
}

/// The procedure with this name, compared without regard to the case of ASCII letters.
pub fn procedure_named(name: &Text) -> Option<Procedure>
    ensures { result ≡ procedure_named name.now }
{
    find_procedure(name).copied()
}
