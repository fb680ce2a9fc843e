//! How a version is published: its metadata is written under a name of its own, sealed, synced, renamed to the next
//! version place and synced again. Other writers may act between any two store calls, as their manners allow.
//!
//! - `steps`: the pieces, each of a few store calls; what each leaves is defined in `specs/Leaves.antt`, by stages
//!   (`specs/Stages.antt`).
//! - `publish`: the pieces together, with the log of what was committed and what was left.
#![tactic(auto)]

mod publish;
mod steps;

pub use publish::{Log, PublishErr, publish as publish_version};
pub use steps::{PublishCall, Route, StepErr, drop_draft, fill_draft, make_draft, move_draft};
