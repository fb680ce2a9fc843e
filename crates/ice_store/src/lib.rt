//! The outside of the program, as contracts see it.
//!
//! - `text`, `items`, `place`: texts, small lists, and places, which are absolute paths in normal form.
//! - `numbers`: whole numbers as decimal digits spell them.
//! - `history`: files, steps and events. What a history leaves and what a crash may make of it is defined in
//!   `specs/History.antt`.
//! - `store`: the interface of a store, with the manners of the other writers that act between its calls.
//! - `faults`: the faults of reading files.
//! - `outside`: the clock, the source of identifiers and the sinks.
#![tactic(auto)]

mod faults;
mod history;
mod items;
mod numbers;
mod outside;
mod place;
mod store;
#[cfg(test)]
mod tests;
mod text;

pub use faults::{ReadErr, What, Where};
pub use history::{
    Event, EventList, Failure, FileList, FileRec, Held, NameChange, Past, Step, StepList,
    StoreCall, Who,
};
pub use items::Items;
pub use numbers::{LARGEST_LONG, natural_of};
pub use outside::{Clock, Failed, Ids, Sink};
pub use place::{Place, PlaceErr, TextList, is_part};
pub use store::{Alone, Gone, Listed, ListedList, Made, Manners, Moved, Store, StoreErr};
pub use text::{Bytes, Text};
