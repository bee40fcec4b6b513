// Whether an entry ever fires: a closed test, with no search over days or minutes.
ghost use Rattle.std.specs.Prelude.{◌≡◌};
ghost use Rattle.schedule.specs.Search.{from};
ghost use Rattle.schedule.specs.Days.{has_date, some_day};
ghost use Rattle.schedule.specs.Next.{can_fire};

use crate::Schedule;
use crate::day::both_must;
use crate::time::time_from;
use calendar::DAY_MINUTES;
use octets::set::{has, next};

// A leap year, in which each month is as long as it ever is.
const LEAP_YEAR: u64 = 2000;

// Whether a month is in the set and ever has a day of the set.
fn has_date(s: Schedule, month: u64) -> bool
    ensures { result ≡ has_date s month }
{
    if has(s.months as u64, month) {
        let end = calendar::gregorian::month_days(LEAP_YEAR, month) + 1;
        return next(s.days as u64, 1, end) < end;
    }
    false
}

// The first month that has a date, or 13.
fn month_with_date(s: Schedule) -> u64
    ensures { result ≡ from (has_date s) 13 1 }
{
    for month in 1..13 {
        if has_date(s, month) {
            return month;
        }
    }
    13
}

// Whether any day ever matches.
fn some_day(s: Schedule) -> bool
    ensures { result ≡ some_day s }
{
    let by_month = next(s.months as u64, 1, 13) < 13;
    let by_weekday = next(s.weekdays as u64, 0, 7) < 7;
    let by_date = month_with_date(s) < 13;
    if both_must(s) {
        return by_weekday & by_date;
    }
    by_month & (by_weekday | by_date)
}

// Whether some minute of the cycle matches.
pub(crate) fn can_fire(s: Schedule) -> bool
    ensures { result ≡ can_fire s }
{
    (time_from(s, 0) < DAY_MINUTES) & some_day(s)
}
