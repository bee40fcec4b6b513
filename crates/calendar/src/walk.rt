// The same dates and minutes by walking: whole cycles of 400 years at once, then year by year and month by month. Only tests
// and benchmarks call this; everything else goes the direct way.
ghost use Rattle.std.specs.Prelude.{◌≡◌, ◌-◌, ◌≤◌, ◌<◌};
ghost use Rattle.calendar.specs.Gregorian.{year_days};
ghost use Rattle.calendar.specs.Walk.{span};
ghost use Rattle.calendar.specs.Dates.{calendar_days, year_of, month_of, date_of, minute_of};

use crate::gregorian::{CYCLE_DAYS, CYCLE_YEARS, month_days, year_days};
use crate::{DAY_MINUTES, Date, FIRST_YEAR, LAST_MINUTE, minute_in, on_calendar};
use refusal::Refusal;

// Where a day falls: the year, or the month, and the days of it that are over.
#[derive(Clone, Copy)]
pub(crate) struct Place {
    pub(crate) at: u64,
    pub(crate) rest: u64,
}

// The date of a minute, by the walk.
pub fn date_by_walk(minute: u64) -> Result<Date, Refusal>
    ensures { result ≡ date_of minute }
{
    if LAST_MINUTE < minute {
        return Err(Refusal::NotOnCalendar);
    }
    let day = minute / DAY_MINUTES;
    let year = year_of(day);
    let month = month_of(year.at, year.rest);
    Ok(Date {
        year: year.at,
        month: month.at,
        day: month.rest + 1,
        hour: minute % DAY_MINUTES / 60,
        minute: minute % 60,
        weekday: (day + 4) % 7,
    })
}

// The minute of a date, by the walk. It is `minute_of` but for the days before the year; to pass those as a closure would be no shorter.
pub fn minute_by_walk(
    year: u64,
    month: u64,
    day: u64,
    hour: u64,
    minute: u64,
) -> Result<u64, Refusal>
    ensures { result ≡ minute_of year month day hour minute }
{
    if on_calendar(year, month, day, hour, minute) {
        let start = days_before_year(year);
        return Ok(minute_in(start, year, month, day, hour, minute));
    }
    Err(Refusal::NotOnCalendar)
}

// Whole cycles of 400 years at once, then year by year to the year of a day.
pub(crate) fn year_of(day: u64) -> Place
    requires { day < calendar_days }
    ensures { result ≡ year_of day }
{
    let mut at = FIRST_YEAR + day / CYCLE_DAYS * CYCLE_YEARS;
    let mut rest = day % CYCLE_DAYS;
    // No range over years: the last one is known when the days run out.
    loop {
        let days = year_days(at);
        if rest < days {
            return Place { at, rest };
        }
        rest -= days;
        at += 1;
    }
}

// Month by month to the month of a day of the year.
pub(crate) fn month_of(year: u64, day: u64) -> Place
    requires { day < year_days year }
    ensures { result ≡ month_of year day }
{
    let mut at = 1;
    let mut rest = day;
    // Nor over months.
    loop {
        let days = month_days(year, at);
        if rest < days {
            return Place { at, rest };
        }
        rest -= days;
        at += 1;
    }
}

// The days from 1970 to a year: whole cycles of 400 years at once, then year by year.
pub(crate) fn days_before_year(year: u64) -> u64
    requires { (1970 ≤ year) × (year ≤ 9999) }
    ensures { result ≡ span year_days 1970 (year - 1970) }
{
    let cycles = (year - FIRST_YEAR) / CYCLE_YEARS;
    let first = FIRST_YEAR + cycles * CYCLE_YEARS;
    let mut days = cycles * CYCLE_DAYS;
    for at in first..year {
        days += year_days(at);
    }
    days
}
