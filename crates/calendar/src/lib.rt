// The calendar (G1 to G10): minute 0 is 1970-01-01 00:00, a Thursday, and the last minute is 9999-12-31 23:59; proleptic
// Gregorian. `date_of` gives the date of a minute and `minute_of` the minute of a date, for any numbers whatever; `date_at` the date of a minute
// that is known to be on the calendar.
#![tactic(auto)]

mod direct;
pub mod gregorian;
pub mod walk;

ghost use Rattle.std.specs.Prelude.{◌≡◌, true, ◌&&◌, ◌-◌, leb};
ghost use Rattle.calendar.specs.Gregorian.{year_days};
ghost use Rattle.calendar.specs.Walk.{span};
ghost use Rattle.calendar.specs.Dates.{first_year, last_year, date_of, exists, month_start, minute_at, minute_of};

pub use direct::date_at;
use direct::{days_before_month, days_before_year};
use gregorian::month_days;
use refusal::Refusal;

const FIRST_YEAR: u64 = 1970;

const LAST_YEAR: u64 = 9999;

// The last minute of the calendar, 9999-12-31 23:59.
pub const LAST_MINUTE: u64 = 4_223_371_679;

// How many days the calendar has.
pub const CALENDAR_DAYS: u64 = 2_932_897;

// The minutes of the cycle of 400 years, after which the calendar comes again.
pub const CYCLE_MINUTES: u64 = 210_379_680;

pub const DAY_MINUTES: u64 = 1440;

// A date with its weekday, Sunday 0 to Saturday 6.
#[derive(Clone, Copy, PartialEq, Eq)]
pub struct Date {
    pub year: u64,
    pub month: u64,
    pub day: u64,
    pub hour: u64,
    pub minute: u64,
    pub weekday: u64,
}

// The date of a minute.
pub fn date_of(minute: u64) -> Result<Date, Refusal>
    ensures { result ≡ date_of minute }
{
    if LAST_MINUTE < minute {
        return Err(Refusal::NotOnCalendar);
    }
    Ok(date_at(minute))
}

// Whether there is such a date, in any year.
fn is_date(year: u64, month: u64, day: u64, hour: u64, minute: u64) -> bool
    ensures { result ≡ exists year month day hour minute }
{
    (1 <= day) & (day <= month_days(year, month)) & (hour < 24) & (minute < 60)
}

// Whether there is such a date, and its year is on the calendar.
pub(crate) fn on_calendar(year: u64, month: u64, day: u64, hour: u64, minute: u64) -> bool
    ensures { result ≡ (exists year month day hour minute && leb first_year year && leb year last_year) }
{
    is_date(year, month, day, hour, minute) & (FIRST_YEAR <= year) & (year <= LAST_YEAR)
}

// The minute of a date.
pub fn minute_of(year: u64, month: u64, day: u64, hour: u64, minute: u64) -> Result<u64, Refusal>
    ensures { result ≡ minute_of year month day hour minute }
{
    if on_calendar(year, month, day, hour, minute) {
        let start = days_before_year(year);
        return Ok(minute_in(start, year, month, day, hour, minute));
    }
    Err(Refusal::NotOnCalendar)
}

// The minute of a date of the calendar, from the days before its year, however they were counted.
pub(crate) fn minute_in(start: u64, year: u64, month: u64, day: u64, hour: u64, minute: u64) -> u64
    requires start_value { start ≡ span year_days 1970 (year - 1970) }
    requires last_year_value { (exists year month day hour minute && leb first_year year && leb year last_year) ≡ true }
    ensures { result ≡ minute_at year month day hour minute }
{
    let days = start + days_before_month(year, month) + (day - 1);
    days * DAY_MINUTES + hour * 60 + minute
}

// The first day of a month, counted from 1970-01-01; months are counted through the years, 12 for each. One that isn't on the calendar
// begins where the calendar ends.
pub fn month_start(count: u64) -> u64
    ensures { result ≡ month_start count }
{
    let year = count / 12;
    if (FIRST_YEAR <= year) & (year <= LAST_YEAR) {
        return days_before_year(year) + days_before_month(year, count % 12 + 1);
    }
    CALENDAR_DAYS
}
