//! The law that ties the function which cuts a token off to the definition of the first token.
ghost use Rattle.std.specs.Prelude.{◌≡◌, ◌↔◌, ℕ, List, Some, None};
ghost use Rattle.call_text.specs.declared.token.Token.{Token as AnyToken};
ghost use Rattle.call_text.specs.Cutting.{token_of};
ghost use Rattle.call_text.specs.Spelling.{IsFirstToken, HasNoToken};

/// What is cut off is the first token by the longest match, and nothing is cut off exactly where there is none.
pub fn longest_match()
    ensures token { (bytes : List ℕ) (t : AnyToken) (after : List ℕ) → (token_of bytes ≡ Some (t, after)) ↔ IsFirstToken bytes t after }
    ensures none { (bytes : List ℕ) → (token_of bytes ≡ None) ↔ HasNoToken bytes }
{}
