// The least day: month by month, and within a month day by day.
ghost use Rattle.std.specs.Prelude.{◌≡◌, ◌+◌, ◌≤◌, ◌<◌};
ghost use Rattle.calendar.specs.Dates.{calendar_days};
ghost use Rattle.schedule.specs.Match.{both_must, matches_day, matches_on};
ghost use Rattle.schedule.specs.Search.{from};
ghost use Rattle.schedule.specs.Days.{matches_in_month, month_set, MonthAfter};

use crate::Schedule;
use calendar::{CALENDAR_DAYS, DAY_MINUTES};
use octets::set::{has, next};

// Whether day and weekday must both match: either field begins with `*`.
pub(crate) fn both_must(s: Schedule) -> bool
    ensures { result ≡ both_must s }
{
    let stars = s.stars;
    stars.days | stars.weekdays
}

// Whether a day matches by its month, its number in the month and its weekday.
pub(crate) fn matches_day(s: Schedule, month: u64, day: u64, weekday: u64) -> bool
    ensures { result ≡ matches_day s month day weekday }
{
    let by_month = has(s.months as u64, month);
    let by_day = has(s.days as u64, day);
    let by_weekday = has(s.weekdays as u64, weekday);
    if both_must(s) {
        return by_month & (by_day & by_weekday);
    }
    by_month & (by_day | by_weekday)
}

// The sum of six weeks' first days: a set of weekdays times this goes on week by week.
const SIX_WEEKS: u64 = 34_630_287_489;

// The days that match in a month of the set that begins on a weekday: bit n stands for day n.
fn month_set(s: Schedule, weekday: u64) -> u64
    requires { weekday < 7 }
    ensures { result ≡ month_set s weekday }
{
    let weekly = (s.weekdays & 127) as u64 * SIX_WEEKS;
    let by_weekday = (weekly >> weekday) * 2;
    let days = s.days as u64;
    if both_must(s) {
        return days & by_weekday;
    }
    days | by_weekday
}

// The least matching day from `at` on in a month that is the days from `first` to before `end`; `end` where there is none.
fn day_in_month(s: Schedule, month: u64, first: u64, at: u64, end: u64) -> u64
    requires { (first ≤ at) × (at ≤ end) × (end ≤ calendar_days) × (end ≤ first + 31) }
    ensures { result ≡ from (matches_in_month s month first) end at }
{
    if has(s.months as u64, month) {
        let set = month_set(s, (first + 4) % 7);
        return first + next(set, at - first + 1, end - first + 1) - 1;
    }
    end
}

// The next month after one that is in the set, or the calendar's end. Months are counted through the years, 12 for each.
fn month_after(s: Schedule, count: u64) -> u64
    requires { (23640 ≤ count) × (count < 120000) }
    ensures { MonthAfter s count result }
{
    let months = s.months as u64;
    let month = count % 12 + 1;
    let later = next(months, month + 1, 13);
    if later < 13 {
        return count - month + later;
    }
    let found = count - month + 12 + next(months, 1, 13);
    if found < LAST_MONTH {
        return found;
    }
    LAST_MONTH
}

// The month after the calendar's last.
const LAST_MONTH: u64 = 120_000;

// The least matching day from `day` on, or the number of the calendar's days where there is none left.
pub(crate) fn day_from(s: Schedule, day: u64) -> u64
    ensures { result ≡ from (matches_on s) calendar_days day }
{
    if CALENDAR_DAYS <= day {
        return day;
    }
    let date = calendar::date_at(day * DAY_MINUTES);
    let mut count = date.year * 12 + (date.month - 1);
    let mut first = day - (date.day - 1);
    let mut at = day;
    while at < CALENDAR_DAYS {
        let month = count % 12 + 1;
        let end = first + calendar::gregorian::month_days(count / 12, month);
        let found = day_in_month(s, month, first, at, end);
        if found < end {
            return found;
        }
        count = month_after(s, count);
        first = calendar::month_start(count);
        at = first;
    }
    at
}
