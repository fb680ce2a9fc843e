//! Why bytes are no metadata, and why an edit isn't made.
use ice_store::Text;
use metadata_form::MetaCause;
use std::alloc::AllocError;

/// Why `read_meta` refuses bytes.
#[derive(Debug, Drop)]
pub enum MetaErr {
    /// The first cause, at the first place that shows it, as `snapshots[2].sequence-number`; an empty path is the whole
    /// file.
    Bad { path: Text, cause: MetaCause },
    Memory,
}

impl From<AllocError> for MetaErr {
    ghost use Rattle.std.specs.Prelude.{◌≡◌};
    ghost use Rattle.table_metadata.specs.declared.cause.MetaErr.TheVariants.{Memory};

    ghost from_gives = { λ _ e. e ≡ Memory };

    fn from(_e: AllocError) -> MetaErr {
        MetaErr::Memory
    }
}

/// Why an edit isn't made.
#[derive(Debug, Drop)]
pub enum EditErr {
    /// The table has no snapshot with this id.
    UnknownSnapshot { id: i64 },
    Memory,
}

impl From<AllocError> for EditErr {
    ghost use Rattle.std.specs.Prelude.{◌≡◌};
    ghost use Rattle.table_metadata.specs.declared.cause.EditErr.TheVariants.{Memory};

    ghost from_gives = { λ _ e. e ≡ Memory };

    fn from(_e: AllocError) -> EditErr {
        EditErr::Memory
    }
}
