// A whole date in one call, and the walk beside the direct way.
ghost use Rattle.std.specs.Prelude.{◌≡◌, IfOk};
ghost use Rattle.calendar.specs.Dates.{date_of, minute_of};
ghost use Rattle.test_calls.specs.Numbers.{number_of};
ghost use Rattle.test_calls.specs.Dates.{Small, parts_number, date_number};

use crate::number_of;
use calendar::Date;
use refusal::Refusal;

// The parts side by side, each in bits of its own: from the lowest weekday 3, minute 6, hour 5, day 5, month 4, year 14.
fn parts_number(date: Date) -> u64
    requires { Small date }
    ensures { result ≡ parts_number date }
{
    let months = date.year * 16 + date.month;
    let hours = (months * 32 + date.day) * 32 + date.hour;
    (hours * 64 + date.minute) * 8 + date.weekday
}

// A date by its parts; a refusal's number stands in the 8 bits above them, and they are 0.
fn date_number(answer: Result<Date, Refusal>) -> u64
    requires { IfOk answer Small }
    ensures { result ≡ date_number answer }
{
    match answer {
        Ok(date) => parts_number(date),
        Err(refusal) => u8::from(refusal) as u64 * 137_438_953_472,
    }
}

#[unsafe(no_mangle)]
pub extern "C" fn calendar_date(minute: u64) -> u64
    ensures { result ≡ date_number (date_of minute) }
{
    date_number(calendar::date_of(minute))
}

#[unsafe(no_mangle)]
pub extern "C" fn calendar_date_by_walk(minute: u64) -> u64
    ensures { result ≡ date_number (date_of minute) }
{
    date_number(calendar::walk::date_by_walk(minute))
}

#[unsafe(no_mangle)]
pub extern "C" fn calendar_minute(year: u64, month: u64, day: u64, hour: u64, minute: u64) -> u64
    ensures { result ≡ number_of (minute_of year month day hour minute) }
{
    number_of(calendar::minute_of(year, month, day, hour, minute))
}

#[unsafe(no_mangle)]
pub extern "C" fn calendar_minute_by_walk(
    year: u64,
    month: u64,
    day: u64,
    hour: u64,
    minute: u64,
) -> u64
    ensures { result ≡ number_of (minute_of year month day hour minute) }
{
    number_of(calendar::walk::minute_by_walk(year, month, day, hour, minute))
}
