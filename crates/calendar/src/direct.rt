// The date of a minute, and the days before a year and a month, with no loop.
ghost use Rattle.std.specs.Prelude.{◌≡◌, ◌-◌, ◌≤◌};
ghost use Rattle.calendar.specs.Gregorian.{year_days, month_days};
ghost use Rattle.calendar.specs.Walk.{span};
ghost use Rattle.calendar.specs.Dates.{last_minute, date_at};

use crate::gregorian::{CYCLE_DAYS, is_leap};
use crate::{DAY_MINUTES, Date, FIRST_YEAR};

// From 0000-03-01 to 1970-01-01. Where years begin in March, a leap day is the last of its year: of every fourth, but
// at a century's end of every fourth century only.
const MARCH_DAYS_BEFORE_1970: u64 = 719_468;

// The days of four years of one century.
const FOUR_YEARS_DAYS: u64 = 1461;

// The days from March to December: January and February belong to the next year.
const MARCH_TO_DECEMBER: u64 = 306;

// Months from March on have 31 30 31 30 31 days over and over, 153 in five. As parts of a month, 16384 / 535 days for each
// month are near enough for one year, and divide by a shift. A year begins with month 3, and 332 parts into it.
const DAY_PARTS: u64 = 535;

const MONTH_PARTS: u64 = 16384;

const MARCH_PARTS: u64 = 49_484;

// The date of a minute of the calendar, as Neri and Schneider work it out. Century c begins at day c * 146097 / 4, rounded down: each has
// 36524 days, and every fourth a day more. So day n is in century (4 * n + 3) / 146097, and a fourth of the remainder is
// its day there. The years of a century go by the same rule, with 1461.
pub fn date_at(minute: u64) -> Date
    requires { minute ≤ last_minute }
    ensures { result ≡ date_at minute }
{
    let day = minute / DAY_MINUTES;
    let in_cycles = 4 * (day + MARCH_DAYS_BEFORE_1970) + 3;
    let in_century = 4 * (in_cycles % CYCLE_DAYS / 4) + 3;
    let from_march = in_century % FOUR_YEARS_DAYS / 4;
    let in_months = from_march * DAY_PARTS + MARCH_PARTS;
    let next_year = (MARCH_TO_DECEMBER <= from_march) as u64;
    let time = minute % DAY_MINUTES;
    Date {
        year: in_cycles / CYCLE_DAYS * 100 + in_century / FOUR_YEARS_DAYS + next_year,
        month: in_months / MONTH_PARTS - 12 * next_year,
        day: in_months % MONTH_PARTS / DAY_PARTS + 1,
        hour: time / 60,
        minute: time % 60,
        weekday: (day + 4) % 7,
    }
}

// The leap days of the years 1 to 1969.
const LEAP_DAYS_BEFORE_1970: u64 = 477;

// The days from 1970 to a year: 365 for each, and the leap days of the years before it.
pub(crate) fn days_before_year(year: u64) -> u64
    requires { (1970 ≤ year) × (year ≤ 9999) }
    ensures { result ≡ span year_days 1970 (year - 1970) }
{
    let last = year - 1;
    365 * (year - FIRST_YEAR) + last / 4 + last / 400 - (last / 100 + LEAP_DAYS_BEFORE_1970)
}

// The days of the year before January to December, where it isn't leap.
const DAYS_BEFORE_MONTH: [u16; 12] = [0, 31, 59, 90, 120, 151, 181, 212, 243, 273, 304, 334];

pub(crate) fn days_before_month(year: u64, month: u64) -> u64
    requires { (1 ≤ month) × (month ≤ 12) }
    ensures { result ≡ span (month_days year) 1 (month - 1) }
{
    let days = DAYS_BEFORE_MONTH[(month - 1) as usize] as u64;
    if is_leap(year) & (2 < month) {
        days + 1
    } else {
        days
    }
}
