//! Which version a place names.
ghost use Rattle.std.specs.Prelude.{◌≡◌, ◌+◌, ◌-◌, ◌*◌, ◌^◌, ◌≤◌, [], Some, MatchOption, nat_eq};
ghost use Rattle.std.specs.Cmp.Lexicographic.{pointwise};
ghost use Rattle.std.specs.List.{list_all};
ghost use Rattle.commit_history.specs.Versions.{is_digit, is_numeral, value, number_of, name_number, folder, rest_number, number_in};
ghost use Rattle.commit_versions.specs.Digits.{last_first};

use ice_store::{Place, Text};

/// The n of a place `metadata/v<n>.metadata.json` directly under the table, n being decimal from 1 without leading zeros,
/// and 0 for every other place. None exactly where n passes the greatest 64-bit number. Takes no memory.
pub fn version_number(table: &Place, place: &Place) -> Option<u64>
    ensures { MatchOption result (2 ^ 64 ≤ number_in table.now place.now) (λ n. n ≡ number_in table.now place.now) }
{
    match place.below(table) {
        Some(rest) => number_of_rest(rest),
        None => Some(0),
    }
}

// the n of the parts `metadata` and `v<n>.metadata.json`, and 0 for any others
fn number_of_rest(rest: &[Text]) -> Option<u64>
    ensures { MatchOption result (2 ^ 64 ≤ rest_number rest.now) (λ n. n ≡ rest_number rest.now) }
{
    match rest {
        [dir, name] if is_metadata(dir) => number_of_name(name.inner()),
        _ => Some(0),
    }
}

fn is_metadata(dir: &Text) -> bool
    ensures { result ≡ pointwise nat_eq dir.now folder }
{
    dir.inner().as_slice() == b"metadata".as_slice()
}

// the n of a name `v<n>.metadata.json`, and 0 for every other name
fn number_of_name(name: &[u8]) -> Option<u64>
    ensures { MatchOption result (2 ^ 64 ≤ name_number name.now) (λ n. n ≡ name_number name.now) }
{
    match digits_in(name) {
        Some(digits) if are_numeral(digits) => number_of_digits(digits),
        _ => Some(0),
    }
}

// what stands between the `v` and the ending
fn digits_in(name: &[u8]) -> Option<&[u8]>
    ensures { MatchOption result (name_number name.now ≡ 0) (λ digits. name_number name.now ≡ number_of (Some (last_first [] digits.now))) }
{
    name.strip_prefix(b"v")?.strip_suffix(b".metadata.json")
}

fn are_digits(bytes: &[u8]) -> bool
    ensures { result ≡ list_all is_digit bytes.now }
{
    bytes.iter().all(|b| b'0' <= *b && *b <= b'9')
}

fn are_numeral(digits: &[u8]) -> bool
    ensures { result ≡ is_numeral (last_first [] digits.now) }
{
    match digits {
        [] => false,
        [first, ..] => *first != b'0' && are_digits(digits),
    }
}

fn with_digit(number: u64, digit: u8) -> Option<u64>
    ensures { MatchOption result (2 ^ 64 ≤ 10 * number + (digit - 48)) (λ n. n ≡ 10 * number + (digit - 48)) }
{
    let tens = number.checked_mul(10)?;
    tens.checked_add(u64::from(digit.saturating_sub(b'0')))
}

fn number_of_digits(digits: &[u8]) -> Option<u64>
    ensures { MatchOption result (2 ^ 64 ≤ value (last_first [] digits.now)) (λ n. n ≡ value (last_first [] digits.now)) }
{
    let mut number = 0;
    for digit in digits {
        number = with_digit(number, *digit)?;
    }
    Some(number)
}
