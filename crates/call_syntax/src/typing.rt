//! A statement is typed as the command that it stands for.
ghost use Rattle.std.specs.Prelude.{◌≡◌, IfOk, IfErr, Ok, option_copied};
ghost use Rattle.call_syntax.specs.Commands.{rollback, set_current, fast_forward, ancestors, expire, remove_orphans, rewrite_data, rewrite_manifests, rewrite_deletes, relocate, generate, command_of, typed_as, IsRefusal, target_of};

use crate::command::{Command, Target};
use crate::value::{
    count_value, flag_value, ids_value, int_value, long_value, moment_value, needed_count,
    needed_long, needed_place, needed_text, option_values, place_value, text_value,
};
use call_arguments::{ArgName, Procedure, bad_argument, procedure_named, value_of};
use call_text::{Arg, ArgValue, Call};
use ice_store::Text;
use std::alloc::{AllocError, Global};

/// Why a statement isn't typed.
#[derive(Debug, Drop)]
pub enum ArgErr {
    /// The argument table refuses it; `name` is that of the procedure or the argument.
    Bad { name: Text },
    Memory,
}

impl From<AllocError> for ArgErr {
    ghost use Rattle.call_syntax.specs.declared.typing.ArgErr.TheVariants.{Memory};

    ghost from_gives = { λ _ e. e ≡ Memory };

    fn from(_: AllocError) -> ArgErr {
        ArgErr::Memory
    }
}

#[tactic(auto, unfolding(crate::specs::Commands::rollback))]
fn rollback(alloc: Global, args: &[Arg]) -> Result<Command, AllocError>
    ensures { IfOk result (λ c. c ≡ rollback args.now) }
{
    let p = Procedure::RollbackToSnapshot;
    Ok(Command::Rollback {
        table: needed_place(alloc, value_of(p, args, ArgName::Table))?,
        snapshot_id: needed_long(value_of(p, args, ArgName::SnapshotId)),
    })
}

fn target_of(id: Option<&ArgValue>, name: Option<&ArgValue>) -> Result<Target, AllocError>
    ensures { IfOk result (λ t. t ≡ target_of (option_copied id.entry) (option_copied name.entry)) }
{
    match text_value(name)? {
        Some(name) => Ok(Target::Ref(name)),
        None => Ok(Target::Id(needed_long(id))),
    }
}

#[tactic(auto, unfolding(crate::specs::Commands::set_current))]
fn set_current(alloc: Global, args: &[Arg]) -> Result<Command, AllocError>
    ensures { IfOk result (λ c. c ≡ set_current args.now) }
{
    let p = Procedure::SetCurrentSnapshot;
    let id = value_of(p, args, ArgName::SnapshotId);
    let name = value_of(p, args, ArgName::Ref);
    Ok(Command::SetCurrent {
        table: needed_place(alloc, value_of(p, args, ArgName::Table))?,
        target: target_of(id, name)?,
    })
}

#[tactic(auto, unfolding(crate::specs::Commands::fast_forward))]
fn fast_forward(alloc: Global, args: &[Arg]) -> Result<Command, AllocError>
    ensures { IfOk result (λ c. c ≡ fast_forward args.now) }
{
    let p = Procedure::FastForward;
    Ok(Command::FastForward {
        table: needed_place(alloc, value_of(p, args, ArgName::Table))?,
        branch: needed_text(alloc, value_of(p, args, ArgName::Branch))?,
        to: needed_text(alloc, value_of(p, args, ArgName::To))?,
    })
}

#[tactic(auto, unfolding(crate::specs::Commands::ancestors))]
fn ancestors(alloc: Global, args: &[Arg]) -> Result<Command, AllocError>
    ensures { IfOk result (λ c. c ≡ ancestors args.now) }
{
    let p = Procedure::AncestorsOf;
    Ok(Command::Ancestors {
        table: needed_place(alloc, value_of(p, args, ArgName::Table))?,
        snapshot_id: long_value(value_of(p, args, ArgName::SnapshotId)),
    })
}

#[tactic(auto, unfolding(crate::specs::Commands::expire))]
fn expire(alloc: Global, args: &[Arg]) -> Result<Command, AllocError>
    ensures { IfOk result (λ c. c ≡ expire args.now) }
{
    let p = Procedure::ExpireSnapshots;
    Ok(Command::Expire {
        table: needed_place(alloc, value_of(p, args, ArgName::Table))?,
        older_than: moment_value(value_of(p, args, ArgName::OlderThan)),
        retain_last: count_value(value_of(p, args, ArgName::RetainLast)),
        snapshot_ids: ids_value(alloc, value_of(p, args, ArgName::SnapshotIds))?,
    })
}

#[tactic(auto, unfolding(crate::specs::Commands::remove_orphans))]
fn remove_orphans(alloc: Global, args: &[Arg]) -> Result<Command, AllocError>
    ensures { IfOk result (λ c. c ≡ remove_orphans args.now) }
{
    let p = Procedure::RemoveOrphanFiles;
    Ok(Command::RemoveOrphans {
        table: needed_place(alloc, value_of(p, args, ArgName::Table))?,
        older_than: moment_value(value_of(p, args, ArgName::OlderThan)),
        location: place_value(alloc, value_of(p, args, ArgName::Location))?,
        dry_run: flag_value(value_of(p, args, ArgName::DryRun)),
    })
}

#[tactic(auto, unfolding(crate::specs::Commands::rewrite_data))]
fn rewrite_data(alloc: Global, args: &[Arg]) -> Result<Command, AllocError>
    ensures { IfOk result (λ c. c ≡ rewrite_data args.now) }
{
    let p = Procedure::RewriteDataFiles;
    Ok(Command::RewriteData {
        table: needed_place(alloc, value_of(p, args, ArgName::Table))?,
        sort: false,
        sort_order: None,
        options: option_values(value_of(p, args, ArgName::Options)),
        filter: None,
    })
}

#[tactic(auto, unfolding(crate::specs::Commands::rewrite_manifests))]
fn rewrite_manifests(alloc: Global, args: &[Arg]) -> Result<Command, AllocError>
    ensures { IfOk result (λ c. c ≡ rewrite_manifests args.now) }
{
    let p = Procedure::RewriteManifests;
    Ok(Command::RewriteManifests {
        table: needed_place(alloc, value_of(p, args, ArgName::Table))?,
        spec_id: int_value(value_of(p, args, ArgName::SpecId)),
    })
}

#[tactic(auto, unfolding(crate::specs::Commands::rewrite_deletes))]
fn rewrite_deletes(alloc: Global, args: &[Arg]) -> Result<Command, AllocError>
    ensures { IfOk result (λ c. c ≡ rewrite_deletes args.now) }
{
    let p = Procedure::RewritePositionDeleteFiles;
    Ok(Command::RewriteDeletes {
        table: needed_place(alloc, value_of(p, args, ArgName::Table))?,
        options: option_values(value_of(p, args, ArgName::Options)),
        filter: None,
    })
}

#[tactic(auto, unfolding(crate::specs::Commands::relocate))]
fn relocate(alloc: Global, args: &[Arg]) -> Result<Command, AllocError>
    ensures { IfOk result (λ c. c ≡ relocate args.now) }
{
    let p = Procedure::RewriteTablePath;
    Ok(Command::Relocate {
        table: needed_place(alloc, value_of(p, args, ArgName::Table))?,
        source: needed_place(alloc, value_of(p, args, ArgName::SourcePrefix))?,
        target: needed_place(alloc, value_of(p, args, ArgName::TargetPrefix))?,
        start: None,
        end: None,
        staging: place_value(alloc, value_of(p, args, ArgName::StagingLocation))?,
    })
}

#[tactic(auto, unfolding(crate::specs::Commands::generate))]
fn generate(alloc: Global, args: &[Arg]) -> Result<Command, AllocError>
    ensures { IfOk result (λ c. c ≡ generate args.now) }
{
    let p = Procedure::Generate;
    Ok(Command::Generate {
        table: needed_place(alloc, value_of(p, args, ArgName::Table))?,
        number: needed_count(value_of(p, args, ArgName::Number)),
        rows: needed_count(value_of(p, args, ArgName::Rows)),
    })
}

fn command_of(alloc: Global, procedure: Procedure, args: &[Arg]) -> Result<Command, AllocError>
    ensures { IfOk result (λ c. c ≡ command_of procedure args.now) }
{
    match procedure {
        Procedure::RollbackToSnapshot => rollback(alloc, args),
        Procedure::SetCurrentSnapshot => set_current(alloc, args),
        Procedure::FastForward => fast_forward(alloc, args),
        Procedure::AncestorsOf => ancestors(alloc, args),
        Procedure::ExpireSnapshots => expire(alloc, args),
        Procedure::RemoveOrphanFiles => remove_orphans(alloc, args),
        Procedure::RewriteDataFiles => rewrite_data(alloc, args),
        Procedure::RewriteManifests => rewrite_manifests(alloc, args),
        Procedure::RewritePositionDeleteFiles => rewrite_deletes(alloc, args),
        Procedure::RewriteTablePath => relocate(alloc, args),
        Procedure::Generate => generate(alloc, args),
    }
}

/// The command that a statement stands for (Iceberg's Spark procedures). `Bad` comes exactly where the argument table
/// refuses the statement, with the first name in this order: the procedure's, where it is unknown; that of the first wrong
/// argument, as they are written; that of the first required argument that lacks, in the table's order. NULL counts as left
/// out. A wrong argument has an unknown name, is repeated, stands past the last place, has a value that isn't of its form,
/// or is a `ref` beside a `snapshot_id`. An unknown name stands as it is written, `#n` names the place past the last one,
/// a map of options names its first bad option, and every other name has the table's spelling.
pub fn typed(alloc: Global, call: &Call) -> Result<Command, ArgErr>
    ensures ok { IfOk result (λ command. typed_as call.now ≡ Ok command) }
    ensures bad { IfErr result (IsRefusal (typed_as call.now)) }
{
    let Some(procedure) = procedure_named(&call.procedure) else {
        return Err(ArgErr::Bad {
            name: call.procedure.copy()?,
        });
    };
    match bad_argument(alloc, procedure, call.args.inner())? {
        Some(name) => Err(ArgErr::Bad { name }),
        None => Ok(command_of(alloc, procedure, call.args.inner())?),
    }
}
