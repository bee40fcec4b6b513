// A schedule's functions, with no text to read.
ghost use Rattle.std.specs.Prelude.{◌≡◌};
ghost use Rattle.schedule.specs.Local.{OffsetInRange};
ghost use Rattle.test_calls.specs.Schedules.{schedule_of, offset_of, next_number, clock_number, match_number};

use crate::number_of;
use refusal::Refusal;
use schedule::{Schedule, Stars};

// The sets by their numbers, cut to their widths; bit 0 of `stars` is for the days, bit 1 for the weekdays, and no other field begins with `*`.
fn schedule_of(
    minutes: u64,
    hours: u64,
    days: u64,
    months: u64,
    weekdays: u64,
    stars: u64,
) -> Schedule
    ensures { result ≡ schedule_of minutes hours days months weekdays stars }
{
    let begin = Stars {
        minutes: false,
        hours: false,
        days: stars % 2 == 1,
        months: false,
        weekdays: stars / 2 % 2 == 1,
    };
    Schedule {
        minutes,
        hours: (hours % 4294967296) as u32,
        days: (days % 4294967296) as u32,
        months: (months % 65536) as u16,
        weekdays: (weekdays % 256) as u8,
        stars: begin,
    }
}

// An offset from -720 to 840 is itself, any other is 0.
fn offset_of(offset: i32) -> i32
    ensures value { result ≡ offset_of offset }
    ensures zone { OffsetInRange result }
{
    if (offset < -720) | (840 < offset) {
        return 0;
    }
    offset
}

// The next firing after a minute, under an offset, by the search that answers a table's entries.
#[unsafe(no_mangle)]
pub extern "C" fn schedule_next(
    minutes: u64,
    hours: u64,
    days: u64,
    months: u64,
    weekdays: u64,
    stars: u64,
    offset: i32,
    minute: u64,
) -> u64
    ensures { result ≡ next_number (schedule_of minutes hours days months weekdays stars) offset minute }
{
    if calendar::LAST_MINUTE < minute {
        return number_of(Err(Refusal::NotOnCalendar));
    }
    let s = schedule_of(minutes, hours, days, months, weekdays, stars);
    number_of(schedule::local::next_firing_in(s, offset_of(offset), minute))
}

// The same by the clock, minute by minute. An entry that never fires takes seconds.
#[unsafe(no_mangle)]
pub extern "C" fn schedule_next_by_clock(
    minutes: u64,
    hours: u64,
    days: u64,
    months: u64,
    weekdays: u64,
    stars: u64,
    offset: i32,
    minute: u64,
) -> u64
    ensures { result ≡ clock_number (schedule_of minutes hours days months weekdays stars) offset minute }
{
    if calendar::LAST_MINUTE < minute {
        return number_of(Err(Refusal::NotOnCalendar));
    }
    let s = schedule_of(minutes, hours, days, months, weekdays, stars);
    number_of(schedule::clock::next_by_clock(s, offset_of(offset), minute))
}

// 1 if the minute matches, otherwise 0.
#[unsafe(no_mangle)]
pub extern "C" fn schedule_matches(
    minutes: u64,
    hours: u64,
    days: u64,
    months: u64,
    weekdays: u64,
    stars: u64,
    minute: u64,
) -> u64
    ensures { result ≡ match_number (schedule_of minutes hours days months weekdays stars) minute }
{
    let s = schedule_of(minutes, hours, days, months, weekdays, stars);
    if schedule::matches(s, minute) { 1 } else { 0 }
}
