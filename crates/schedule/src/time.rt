// The least time of a day.
ghost use Rattle.std.specs.Prelude.{◌≡◌, ◌<◌};
ghost use Rattle.schedule.specs.Match.{matches_at};
ghost use Rattle.schedule.specs.Search.{from};

use crate::Schedule;
use calendar::DAY_MINUTES;
use octets::set::{has, next};

// The least minute of the day from `t` on whose hour and minute are in their sets, or 1,440.
pub(crate) fn time_from(s: Schedule, t: u64) -> u64
    requires { t < 1440 }
    ensures { result ≡ from (matches_at s) 1440 t }
{
    let hours = s.hours as u64;
    let hour = t / 60;
    let minute = next(s.minutes, t % 60, 60);
    if has(hours, hour) & (minute < 60) {
        return hour * 60 + minute;
    }
    let later = next(hours, hour + 1, 24);
    let first = next(s.minutes, 0, 60);
    if (later < 24) & (first < 60) {
        return later * 60 + first;
    }
    DAY_MINUTES
}
