//! Dates of the proleptic Gregorian calendar.
ghost use Rattle.std.specs.Prelude.{◌≡◌, ◌↔◌, ◌<◌, ℤ, pos, ◌+ℤ◌, ◌*ℤ◌, IsSome, IfSome, MatchOption, true, false};
ghost use Rattle.jiff.specs.Words.{epoch_day, IsDate, IsYmd};
ghost use Rattle.jiff_core.specs.Calendar.{days_from_civil};
ghost use Rattle.call_moments.specs.Moments.{is_date, since_1970};

use jiff::civil::Date;

fn date_of(year: i16, month: i8, day: i8) -> Option<Date>
    ensures some { IsSome result ↔ IsDate year month day }
    ensures value { IfSome result (IsYmd year month day) }
{
    Date::new(year, month, day).ok()
}

fn small_date(year: u64, month: u64, day: u64) -> Option<Date>
    requires year { year < 10_000 }
    requires month { month < 100 }
    requires day { day < 100 }
    ensures some { IsSome result ↔ IsDate (pos year) (pos month) (pos day) }
    ensures value { IfSome result (IsYmd (pos year) (pos month) (pos day)) }
{
    date_of(year as i16, month as i8, day as i8)
}

/// The date with these numbers; none exactly where the calendar has no such day.
pub fn date_at(year: u64, month: u64, day: u64) -> Option<Date>
    requires year { year < 10_000 }
    requires month { month < 100 }
    requires day { day < 100 }
    ensures { MatchOption result (is_date year month day ≡ false)
        (λ date. (is_date year month day ≡ true) × (epoch_day date ≡ days_from_civil (pos year) month day)) }
{
    small_date(year, month, day)
}

// the milliseconds from the start of 1970 to the start of the day
fn midnight_ms(date: Date) -> i128
    ensures { result ≡ epoch_day date *ℤ pos 86_400_000 }
{
    date.duration_since(Date::constant(1970, 1, 1)).as_millis()
}

/// The milliseconds since the start of 1970, where the day has had `of_day` of them: 0 before 1970.
pub fn ms_since_1970(date: Date, of_day: u64) -> u64
    requires { of_day < 86_400_000 }
    ensures { result ≡ since_1970 (epoch_day date) of_day }
{
    let midnight = midnight_ms(date);
    if midnight < 0 {
        0
    } else {
        midnight as u64 + of_day
    }
}
