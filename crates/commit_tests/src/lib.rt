//! Tests of `commit` over the store in memory, whose neighbour is another writer of the table, or does nothing.
//!
//! - `writers`: the manners of the writers of a table.
//! - `racer`: a writer who publishes the next version before one call of the store.
//! - `changes`: a change that sets `main`.
//! - `races`: commits beside such a writer, one for each call before which it may act.
#![tactic(auto)]

#[cfg(test)]
mod changes;
#[cfg(test)]
mod racer;
#[cfg(test)]
mod races;
#[cfg(test)]
mod writers;
