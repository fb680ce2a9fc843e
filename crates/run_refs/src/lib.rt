//! The procedures that move or show the refs of a table: rollback, a new current snapshot, fast forward, and the listing
//! of a snapshot's ancestors.
//!
//! - `goal`: what is to be done with which ref.
//! - `aims`: where the ref is to go, or why the table refuses; defined in `specs/Moves.antt`.
//! - `moves`: the change that moves it.
//! - `ancestors`: the listing; defined in `specs/Ancestors.antt`.
//! - `report`: the reports of both; defined in `specs/Reports.antt`.
//! - `laws`: what the definitions decide; stated in `specs/Laws.antt`.
//!
//! What each procedure means to a run is one record, in `specs/Procedures.antt`.
#![tactic(auto)]

mod aims;
mod ancestors;
mod goal;
mod laws;
mod look;
mod moves;
mod report;
#[cfg(test)]
mod tests;

pub use ancestors::{Ancestor, AncestorList, list_ancestors};
pub use goal::Goal;
pub use laws::{
    listings_are_decided, moves_are_decided, procedures_are_decided, refs_are_at_snapshots,
};
pub use moves::RefMove;
pub use report::report_ancestors;
