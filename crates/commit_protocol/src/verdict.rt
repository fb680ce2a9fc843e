//! The law of verdicts: where nobody else acts, no two answers of an opening or of a commit fit the same files. The
//! functions here have empty bodies: their contracts are the law.
ghost use Rattle.std.specs.Prelude.{ℕ, List, Option};
ghost use Rattle.commit_protocol.specs.Decided.{IsOneCommitOf};
ghost use Rattle.commit_protocol.specs.Promises.{ReopensOpened};
ghost use Rattle.commit_protocol.specs.Verdicts.{IsOneOpening};

use crate::change::Change;
use ice_store::{Manners, Place};

/// Two told verdicts of one opening show the same: the place, the version, its bytes and its metadata, or the error.
pub fn one_opening(table: &Place)
    ensures { IsOneOpening table.now }
{}

/// Two told verdicts of one commit are one, where the meanings of its change exclude one another and the source of
/// identifiers tells what it gives.
pub fn one_commit<M: Manners, X: Change<M>>(table: &Place, change: &X)
    ensures { (now : ℕ) (before : Option (List ℕ)) (values : List ℕ) → IsOneCommitOf table.now now (X.meanings change.now change.now) before values }
{}

/// Reopening after a stop: what a stop of a steady history leaves is opened, in a history that begins with it, as the table
/// after a prefix of the commits that holds every acknowledged one.
pub fn stops_are_reopened(table: &Place)
    ensures { ReopensOpened table.now }
{}
