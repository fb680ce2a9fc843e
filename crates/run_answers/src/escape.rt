//! Escapes in the texts of reports and messages.
ghost use Rattle.std.specs.Prelude.{◌≡◌, ◌∷◌, [], MatchOption};
ghost use Rattle.run_answers.specs.Escapes.{escape};

/// How a byte of a text is written, where it doesn't stand for itself.
pub(crate) fn escape_of(byte: u8) -> Option<&'static [u8]>
    ensures { MatchOption result (escape byte ≡ byte ∷ []) (λ written. escape byte ≡ written.now) }
{
    match byte {
        b'\\' => Some(b"\\\\"),
        b'\t' => Some(b"\\t"),
        b'\n' => Some(b"\\n"),
        _ => None,
    }
}
