//! Why a text isn't read as a statement.
ghost use Rattle.std.specs.Prelude.{◌≡◌};
ghost use Rattle.call_text.specs.declared.error.SyntaxErr.TheVariants.{Memory};

use std::alloc::AllocError;
use thiserror::Error;

/// Why a text isn't read as a statement.
#[derive(Debug, Drop, Error)]
pub enum SyntaxErr {
    /// The text is no statement. `at` is the byte offset of the first token that, with the tokens before it, begins no
    /// statement; the offset where the bytes begin no token; or the text's length, where it ends too early.
    #[error("syntax at byte {at}")]
    Bad { at: usize },
    #[error("out of memory")]
    Memory,
}

impl From<AllocError> for SyntaxErr {
    ghost from_gives = { λ _ e. e ≡ Memory };

    fn from(_e: AllocError) -> SyntaxErr {
        SyntaxErr::Memory
    }
}
