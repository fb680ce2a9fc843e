//! Whole numbers as decimal digits spell them.
ghost use Rattle.std.specs.Prelude.{◌≡◌};
ghost use Rattle.ice_store.specs.Numbers.{natural_of};

/// The greatest `long`: 2^63 - 1.
pub const LARGEST_LONG: u64 = 0x7fff_ffff_ffff_ffff;

/// The number that one or more decimal digits spell, zeros in front allowed. None exactly where the text is empty, holds
/// another byte or spells a number above `LARGEST_LONG`. Takes no memory.
#[tactic(auto, unfolding(crate::specs::Numbers::natural_of))]
pub fn natural_of(text: &[u8]) -> Option<u64>
    ensures { result ≡ natural_of text.now }
{
    if text.is_empty() {
        return None;
    }
    let mut number: u128 = 0;
    for digit in text {
        if !digit.is_ascii_digit() {
            return None;
        }
        number = number * 10 + (*digit - b'0') as u128;
        if number > LARGEST_LONG as u128 {
            return None;
        }
    }
    Some(number as u64)
}
