// Minutes and dates.
ghost use Rattle.std.specs.Prelude.{◌≡◌, ◌≤◌, length};
ghost use Rattle.octets.specs.OverFront.{over_front};
ghost use Rattle.eremothyn.specs.Dates.{part_in, date_part, date_minute, Small, parts_of, date_answer, date_run};

use crate::answer::answer;
use calendar::Date;
use refusal::Refusal;

// How many numbers a date has.
const DATE_PARTS: usize = 6;

#[unsafe(no_mangle)]
pub extern "C" fn eremothyn_minute_of_date(
    year: u64,
    month: u64,
    day: u64,
    hour: u64,
    minute: u64,
) -> u64
    ensures { result ≡ date_minute year month day hour minute }
{
    answer(calendar::minute_of(year, month, day, hour, minute))
}

// Parts by name and no closure: `AnswersDistinct` says of each of them that its answer is no refusal.
#[derive(Clone, Copy)]
enum DatePart {
    Year,
    Month,
    Day,
    Hour,
    Minute,
    Weekday,
}

fn part_in(date: Date, part: DatePart) -> u64
    ensures { result ≡ part_in date part }
{
    match part {
        DatePart::Year => date.year,
        DatePart::Month => date.month,
        DatePart::Day => date.day,
        DatePart::Hour => date.hour,
        DatePart::Minute => date.minute,
        DatePart::Weekday => date.weekday,
    }
}

fn date_part(minute: u64, part: DatePart) -> u64
    ensures { result ≡ date_part minute part }
{
    match calendar::date_of(minute) {
        Ok(date) => part_in(date, part),
        Err(refusal) => answer(Err(refusal)),
    }
}

#[unsafe(no_mangle)]
pub extern "C" fn eremothyn_year(minute: u64) -> u64
    ensures { result ≡ date_part minute DatePart.Year }
{
    date_part(minute, DatePart::Year)
}

#[unsafe(no_mangle)]
pub extern "C" fn eremothyn_month(minute: u64) -> u64
    ensures { result ≡ date_part minute DatePart.Month }
{
    date_part(minute, DatePart::Month)
}

#[unsafe(no_mangle)]
pub extern "C" fn eremothyn_day(minute: u64) -> u64
    ensures { result ≡ date_part minute DatePart.Day }
{
    date_part(minute, DatePart::Day)
}

#[unsafe(no_mangle)]
pub extern "C" fn eremothyn_hour(minute: u64) -> u64
    ensures { result ≡ date_part minute DatePart.Hour }
{
    date_part(minute, DatePart::Hour)
}

#[unsafe(no_mangle)]
pub extern "C" fn eremothyn_minute_of_hour(minute: u64) -> u64
    ensures { result ≡ date_part minute DatePart.Minute }
{
    date_part(minute, DatePart::Minute)
}

#[unsafe(no_mangle)]
pub extern "C" fn eremothyn_weekday(minute: u64) -> u64
    ensures { result ≡ date_part minute DatePart.Weekday }
{
    date_part(minute, DatePart::Weekday)
}

// A date at the front of a run that has room for it.
fn put(date: Date, run: &mut [u16])
    requires { (6 ≤ length run.old) × Small date }
    ensures { run.new ≡ over_front (parts_of date) run.old }
{
    run[0] = date.year as u16;
    run[1] = date.month as u16;
    run[2] = date.day as u16;
    run[3] = date.hour as u16;
    run[4] = date.minute as u16;
    run[5] = date.weekday as u16;
}

#[unsafe(no_mangle)]
pub extern "C" fn eremothyn_date(minute: u64, run: &mut [u16]) -> u64
    ensures answer { result ≡ date_answer minute run.old }
    ensures run { run.new ≡ date_run minute run.old }
{
    let date = match calendar::date_of(minute) {
        Ok(date) => date,
        Err(refusal) => return answer(Err(refusal)),
    };
    if run.len() < DATE_PARTS {
        return answer(Err(Refusal::TooShort));
    }
    put(date, run);
    DATE_PARTS as u64
}
