// The Gregorian rules: which years are leap, and how long years and months are.
ghost use Rattle.std.specs.Prelude.{◌≡◌};
ghost use Rattle.calendar.specs.Gregorian.{leap, year_days, month_days};

// The Gregorian cycle: 400 years are always as many days.
pub(crate) const CYCLE_YEARS: u64 = 400;

pub(crate) const CYCLE_DAYS: u64 = 146_097;

// Every year divisible by 4, but of those divisible by 100 only the ones divisible by 400.
pub(crate) fn is_leap(year: u64) -> bool
    ensures { result ≡ leap year }
{
    (year % 4 == 0) & ((year % 100 != 0) | (year % 400 == 0))
}

pub(crate) fn year_days(year: u64) -> u64
    ensures { result ≡ year_days year }
{
    if is_leap(year) { 366 } else { 365 }
}

// The lengths of January to December in a year that isn't leap.
const MONTH_DAYS: [u8; 12] = [31, 28, 31, 30, 31, 30, 31, 31, 30, 31, 30, 31];

// How many days a month has: 0 for a number that is no month.
pub fn month_days(year: u64, month: u64) -> u64
    ensures { result ≡ month_days year month }
{
    if month < 1 {
        return 0;
    }
    if 12 < month {
        return 0;
    }
    if is_leap(year) & (month == 2) {
        return 29;
    }
    MONTH_DAYS[(month - 1) as usize] as u64
}
