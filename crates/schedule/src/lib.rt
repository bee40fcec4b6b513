// What a schedule means (M1, M2, N1): whether a minute matches, and when the entry fires next.
#![tactic(auto)]

pub mod clock;
mod day;
pub mod jump;
pub mod local;
mod never;
mod time;

ghost use Rattle.std.specs.Prelude.{◌≡◌, ◌+◌, ◌≤◌, ◌<◌};
ghost use Rattle.calendar.specs.Dates.{calendar_days, last_minute};
ghost use Rattle.schedule.specs.Match.{matches_date, matches, is_due, matches_on};
ghost use Rattle.schedule.specs.Search.{from};

use calendar::{CALENDAR_DAYS, DAY_MINUTES, Date, LAST_MINUTE};
use day::{day_from, matches_day};
use time::time_from;

// Which fields begin with `*`. Matching looks at the two day fields alone.
#[derive(Clone, Copy, PartialEq, Eq)]
pub struct Stars {
    pub minutes: bool,
    pub hours: bool,
    pub days: bool,
    pub months: bool,
    pub weekdays: bool,
}

// An entry's times: bit n of a set stands for the value n, and Sunday is bit 0 only.
#[derive(Clone, Copy, PartialEq, Eq)]
pub struct Schedule {
    pub minutes: u64,
    pub hours: u32,
    pub days: u32,
    pub months: u16,
    pub weekdays: u8,
    pub stars: Stars,
}

// Whether a date matches, whatever numbers it has.
pub fn matches_date(s: Schedule, date: Date) -> bool
    ensures { result ≡ matches_date s date }
{
    matches_day(s, date.month, date.day, date.weekday)
        & (octets::set::has(s.hours as u64, date.hour) & octets::set::has(s.minutes, date.minute))
}

// Whether a minute of the calendar matches; no other does.
pub fn matches(s: Schedule, minute: u64) -> bool
    ensures { result ≡ is_due s minute }
{
    if LAST_MINUTE < minute {
        return false;
    }
    matches_date(s, calendar::date_at(minute))
}

// Whether a day of the calendar matches, counted from 1970-01-01.
fn matches_on(s: Schedule, day: u64) -> bool
    requires { day < calendar_days }
    ensures { result ≡ matches_on s day }
{
    let date = calendar::date_at(day * DAY_MINUTES);
    matches_day(s, date.month, date.day, date.weekday)
}

// The least matching minute from `start` on, in the rest of its day or the first time of a later day; the minute after the calendar's last
// where none is left.
pub(crate) fn minute_from(s: Schedule, start: u64) -> u64
    requires { start ≤ last_minute }
    ensures { result ≡ from (matches s) (last_minute + 1) start }
{
    let day = start / DAY_MINUTES;
    let time = time_from(s, start % DAY_MINUTES);
    if matches_on(s, day) & (time < DAY_MINUTES) {
        return day * DAY_MINUTES + time;
    }
    let later = day_from(s, day + 1);
    let first = time_from(s, 0);
    if (later < CALENDAR_DAYS) & (first < DAY_MINUTES) {
        return later * DAY_MINUTES + first;
    }
    LAST_MINUTE + 1
}
