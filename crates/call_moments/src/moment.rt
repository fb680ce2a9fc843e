//! The texts of moments: `YYYY-MM-DD`, and behind it, where a time of day is told, a blank or `T`, `HH:MM:SS` and
//! optionally a dot and one to six digits.
ghost use Rattle.std.specs.Prelude.{◌≡◌, ◌<◌, IfSome, option_map};
ghost use Rattle.std.specs.List.{list_all};
ghost use Rattle.std.specs.Char.{is_ascii_digit};
ghost use Rattle.call_moments.specs.Moments.{two_digits, thousandths, fraction_of, time_at, time_of, date_in, moment_of};

use crate::civil::{date_at, ms_since_1970};

// a date at the front of a text, and what stands behind it
#[derive(Clone, Copy)]
struct Dated<'a> {
    year: u64,
    month: u64,
    day: u64,
    rest: &'a [u8],
}

fn two_digits(tens: u8, ones: u8) -> Option<u64>
    ensures value { result ≡ two_digits tens ones }
    ensures small { IfSome result (λ n. n < 100) }
{
    if tens.is_ascii_digit() && ones.is_ascii_digit() {
        Some((tens - b'0') as u64 * 10 + (ones - b'0') as u64)
    } else {
        None
    }
}

fn are_digits(bytes: &[u8]) -> bool
    ensures { result ≡ list_all is_ascii_digit bytes.now }
{
    bytes.iter().all(|b| b.is_ascii_digit())
}

#[tactic(auto, unfolding(crate::specs::Moments::thousandths))]
fn thousandths(digits: &[u8]) -> Option<u64>
    ensures value { result ≡ thousandths digits.now }
    ensures small { IfSome result (λ n. n < 1000) }
{
    match digits {
        [a] => {
            let a = *a;
            if a.is_ascii_digit() {
                Some((a - b'0') as u64 * 100)
            } else {
                None
            }
        }
        [a, b] => {
            let (a, b) = (*a, *b);
            if a.is_ascii_digit() && b.is_ascii_digit() {
                Some((a - b'0') as u64 * 100 + (b - b'0') as u64 * 10)
            } else {
                None
            }
        }
        [a, b, c, more @ ..] => {
            let (a, b, c) = (*a, *b, *c);
            if a.is_ascii_digit()
                && b.is_ascii_digit()
                && c.is_ascii_digit()
                && more.len() <= 3
                && are_digits(more)
            {
                Some((a - b'0') as u64 * 100 + (b - b'0') as u64 * 10 + (c - b'0') as u64)
            } else {
                None
            }
        }
        [] => None,
    }
}

#[tactic(auto, unfolding(crate::specs::Moments::fraction_of))]
fn fraction_of(bytes: &[u8]) -> Option<u64>
    ensures value { result ≡ fraction_of bytes.now }
    ensures small { IfSome result (λ n. n < 1000) }
{
    match bytes {
        [] => Some(0),
        [b'.', digits @ ..] => thousandths(digits),
        [_, ..] => None,
    }
}

fn time_at(hour: u64, minute: u64, second: u64, ms: u64) -> Option<u64>
    requires { ms < 1000 }
    ensures value { result ≡ time_at hour minute second ms }
    ensures small { IfSome result (λ n. n < 86_400_000) }
{
    if hour < 24 && minute < 60 && second < 60 {
        Some(((hour * 60 + minute) * 60 + second) * 1000 + ms)
    } else {
        None
    }
}

#[tactic(auto, unfolding(crate::specs::Moments::time_of))]
fn time_of(bytes: &[u8]) -> Option<u64>
    ensures value { result ≡ time_of bytes.now }
    ensures small { IfSome result (λ n. n < 86_400_000) }
{
    match bytes {
        [] => Some(0),
        [gap, h1, h2, colon, m1, m2, second, s1, s2, rest @ ..] => {
            if (*gap == b' ' || *gap == b'T') && *colon == b':' && *second == b':' {
                let h = two_digits(*h1, *h2)?;
                let m = two_digits(*m1, *m2)?;
                let s = two_digits(*s1, *s2)?;
                let ms = fraction_of(rest)?;
                time_at(h, m, s, ms)
            } else {
                None
            }
        }
        _ => None,
    }
}

#[tactic(auto, unfolding(crate::specs::Moments::date_in))]
fn date_in(bytes: &[u8]) -> Option<Dated<'_>>
    ensures value { option_map (λ d. record { year = d.year; month = d.month; day = d.day; rest = d.rest.now }) result ≡ date_in bytes.now }
    ensures small { IfSome result (λ d. (d.year < 10_000) × (d.month < 100) × (d.day < 100)) }
{
    match bytes {
        [y1, y2, y3, y4, dash, m1, m2, second, d1, d2, rest @ ..] => {
            if *dash == b'-' && *second == b'-' {
                let century = two_digits(*y1, *y2)?;
                let year = two_digits(*y3, *y4)?;
                let month = two_digits(*m1, *m2)?;
                let day = two_digits(*d1, *d2)?;
                Some(Dated {
                    year: century * 100 + year,
                    month,
                    day,
                    rest,
                })
            } else {
                None
            }
        }
        _ => None,
    }
}

/// The moment that the string behind `TIMESTAMP` stands for, in milliseconds since the start of 1970, UTC. The text is
/// `YYYY-MM-DD`, or this, a blank or `T`, `HH:MM:SS`, and optionally a dot and one to six digits, of which those past the
/// third are dropped. A date without a time is its midnight, and a moment before 1970 counts as 0. None exactly where the
/// text has another form, the calendar has no such day, or the hours, minutes or seconds pass 23, 59 or 59.
pub fn moment_of(text: &[u8]) -> Option<u64>
    ensures { result ≡ moment_of text.now }
{
    let dated = date_in(text)?;
    let date = date_at(dated.year, dated.month, dated.day)?;
    let of_day = time_of(dated.rest)?;
    Some(ms_since_1970(date, of_day))
}
