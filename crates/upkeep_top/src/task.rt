//! What the words of a run ask for.
use ice_store::Place;
use run_refs::Goal;

/// The work of a statement.
#[derive(Debug, Drop)]
pub enum Work {
    /// A ref moves.
    Move(Goal),
    /// The ancestors of this snapshot are listed, or those of the current one where none is given.
    List(Option<i64>),
}

/// A statement that is built: the word with this number, counted from 0.
#[derive(Debug, Drop)]
pub struct Task {
    pub word: usize,
    pub table: Place,
    pub work: Work,
}
