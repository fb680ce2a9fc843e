//! How a run ends, and what it says.
//!
//! - `status`: how a run ended, as a status with its number, and what it did.
//! - `answers`: the status of an opening's or a commit's error.
//! - `message`: the text of each status. `put`: the message line, put on a sink piece by piece, without memory.
//! - `reports`: reports, and the cells of ids and numbers.
//! - `escape`: how texts are written in both.
#![tactic(auto)]

mod answers;
mod escape;
mod message;
mod put;
mod reports;
mod status;

pub use answers::{status_of_error, status_of_open, status_of_read, status_of_refusal};
pub use put::put_message;
pub use reports::{CellRows, columns, id_cell, number_cell, optional_id_cell, report};
pub use status::{Outcome, PlaceList, Status, Versions};
