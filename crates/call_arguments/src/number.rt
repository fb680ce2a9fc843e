//! Numbers as a statement writes them: decimal digits, which may begin with zeros, with an optional `-` before them and an
//! optional `L` or `l` behind, which changes nothing.
ghost use Rattle.std.specs.Prelude.{◌≡◌, ◌≤◌, ◌<◌, ◌^◌, ◌*◌, ◌+◌, ◌-◌, length, take, Some, None, nat_lt, ◌&&◌, if◌then◌else◌};
ghost use Rattle.std.specs.Char.{is_ascii_digit};
ghost use Rattle.call_arguments.specs.Numbers.{magnitude_of, without_mark, positive, negative, unmarked_long, long_of, int_in, int_of, within, count_of};

/// The greatest `int`: 2^31 - 1.
pub const LARGEST_INT: u64 = 2_147_483_647;

fn one_digit(number: u64, digit: u8) -> Option<u64>
    ensures { result ≡ (if is_ascii_digit digit && nat_lt (10 * number + (digit - 48)) (2 ^ 64) then Some (10 * number + (digit - 48)) else None) }
{
    if !digit.is_ascii_digit() {
        return None;
    }
    number.checked_mul(10)?.checked_add((digit - b'0') as u64)
}

#[tactic(auto, using(crate::proofs::NumberLaws::magnitude_is))]
fn magnitude(digits: &[u8]) -> Option<u64>
    ensures { result ≡ magnitude_of digits.now }
{
    let mut number = 0u64;
    let mut rest = digits;
    while let [digit, after @ ..] = rest {
        number = one_digit(number, *digit)?;
        rest = after;
    }
    Some(number)
}

fn without_mark(text: &[u8]) -> &[u8]
    ensures { result.now ≡ without_mark text.now }
{
    match text {
        [front @ .., b'L' | b'l'] => front,
        _ => text,
    }
}

fn positive(number: u64) -> Option<i64>
    ensures { result ≡ positive number }
{
    if number < 0x8000_0000_0000_0000 {
        Some(number as i64)
    } else {
        None
    }
}

fn negative(number: u64) -> Option<i64>
    ensures { result ≡ negative number }
{
    if number < 0x8000_0000_0000_0000 {
        Some(-(number as i64))
    } else if number == 0x8000_0000_0000_0000 {
        Some(i64::MIN)
    } else {
        None
    }
}

#[tactic(auto, unfolding(crate::specs::Numbers::unmarked_long))]
fn unmarked_long(text: &[u8]) -> Option<i64>
    ensures { result ≡ unmarked_long text.now }
{
    match text {
        [] => None,
        [b'-'] => None,
        [b'-', digits @ ..] => negative(magnitude(digits)?),
        digits => positive(magnitude(digits)?),
    }
}

/// The number of a text, where it is one from -2^63 to 2^63 - 1.
pub fn long_of(text: &[u8]) -> Option<i64>
    ensures { result ≡ long_of text.now }
{
    unmarked_long(without_mark(text))
}

fn int_in(number: i64) -> Option<i32>
    ensures { result ≡ int_in number }
{
    if i32::MIN as i64 <= number && number <= i32::MAX as i64 {
        Some(number as i32)
    } else {
        None
    }
}

/// The number of a text, where it is one from -2^31 to 2^31 - 1.
pub fn int_of(text: &[u8]) -> Option<i32>
    ensures { result ≡ int_of text.now }
{
    int_in(long_of(text)?)
}

fn within(least: u64, most: u64, number: i64) -> Option<u64>
    ensures { result ≡ within least most number }
{
    if number < 0 {
        return None;
    }
    let number = number as u64;
    if least <= number && number <= most {
        Some(number)
    } else {
        None
    }
}

/// The number of a text, where it is one from `least` to `most` and below 2^63.
pub fn count_of(least: u64, most: u64, text: &[u8]) -> Option<u64>
    ensures { result ≡ count_of least most text.now }
{
    within(least, most, long_of(text)?)
}
