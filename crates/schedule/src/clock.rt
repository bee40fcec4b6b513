// The next firing under an offset by a plain clock walk, minute by minute. It is slow, and there for the tests alone.
ghost use Rattle.std.specs.Prelude.{◌≡◌, ◌+◌, ◌-◌, ◌≤◌};
ghost use Rattle.calendar.specs.Dates.{last_minute};
ghost use Rattle.schedule.specs.Local.{OffsetInRange, biased_offset};
ghost use Rattle.schedule.specs.Clocks.{clock, clock_after_in};

use crate::Schedule;
use crate::local::{local_date, matches_local};
use calendar::{CYCLE_MINUTES, LAST_MINUTE};
use refusal::Refusal;

// So many minutes from one on, up to the first that matches.
fn clock(s: Schedule, offset: i32, minutes: u64, from: u64) -> Result<u64, Refusal>
    requires { OffsetInRange offset × (from + minutes ≤ last_minute + 1) }
    ensures { result ≡ clock s (biased_offset offset) minutes from }
{
    for minute in from..from + minutes {
        if matches_local(s, local_date(offset, minute)) {
            return Ok(minute);
        }
    }
    Err(Refusal::PastEnd)
}

// The minutes after one, to the calendar's end.
fn rest(s: Schedule, offset: i32, minute: u64) -> Result<u64, Refusal>
    requires { OffsetInRange offset }
    ensures { result ≡ clock s (biased_offset offset) (last_minute - minute) (minute + 1) }
{
    if LAST_MINUTE <= minute {
        return Err(Refusal::PastEnd);
    }
    clock(s, offset, LAST_MINUTE - minute, minute + 1)
}

// When an entry fires next under an offset, strictly after a minute, both in UTC: never, where no minute of the whole cycle matches.
pub fn next_by_clock(s: Schedule, offset: i32, minute: u64) -> Result<u64, Refusal>
    requires { OffsetInRange offset }
    ensures { result ≡ clock_after_in s (biased_offset offset) minute }
{
    match clock(s, 0, CYCLE_MINUTES, 0) {
        Ok(_) => rest(s, offset, minute),
        Err(_) => Err(Refusal::Never),
    }
}
