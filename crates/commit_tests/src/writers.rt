//! The manners of the writers of a table.
ghost use Rattle.commit_history.specs.Mannered.{AllowsStep};
ghost use Rattle.commit_protocol.specs.Metadata.{metadata_reading};

use ice_store::{Manners, Place};

/// What the writers of the table at this place may do.
#[derive(Drop)]
pub(crate) struct Writers {
    pub(crate) table: Place,
}

impl Manners for Writers {
    ghost allows = { λ w. AllowsStep (metadata_reading w.table) };
}
