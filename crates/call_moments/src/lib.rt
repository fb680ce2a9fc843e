//! The moments that a statement names: the strings behind `TIMESTAMP`.
//!
//! - `civil`: dates of the calendar, checked and numbered.
//! - `moment`: the text of a moment, and the milliseconds that it stands for.
#![tactic(auto)]

mod civil;
mod moment;

pub use moment::moment_of;
