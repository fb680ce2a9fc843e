//! Laws on the definitions that the contracts cite.
ghost use Rattle.std.specs.Prelude.{◌≡◌, ◌⊎◌, ℕ, List};
ghost use Rattle.call_text.specs.declared.call.Call.{Call as AnyCall};
ghost use Rattle.call_text.specs.Statement.{IsFault, Spells};
ghost use Rattle.call_text.specs.Writing.{CanBeWritten};

/// A text spells one call at most, is at fault at one place at most, never both, and always one of the two.
pub fn statements_are_unambiguous()
    ensures one_call { (text : List ℕ) (c d : AnyCall) → Spells text c → Spells text d → c ≡ d }
    ensures one_place { (text : List ℕ) (a b : ℕ) → IsFault text a → IsFault text b → a ≡ b }
    ensures never_both { (text : List ℕ) (c : AnyCall) (at : ℕ) → Spells text c → IsFault text at → ⊥ }
    ensures one_of_both { (text : List ℕ) → ((c : AnyCall) × Spells text c) ⊎ ((at : ℕ) × IsFault text at) }
{}

/// Every call that a text spells can be written.
pub fn read_calls_can_be_written()
    ensures written { (text : List ℕ) (c : AnyCall) → Spells text c → CanBeWritten c }
{}
