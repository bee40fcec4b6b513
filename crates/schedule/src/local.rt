// The minutes of an entry under an offset from UTC, which is added before matching (O4). An offset is a number of minutes from
// -720 to 840.
ghost use Rattle.std.specs.Prelude.{◌≡◌, true, ℕ, ◌+◌, ◌≤◌, ◌<◌};
ghost use Rattle.calendar.specs.Dates.{last_minute};
ghost use Rattle.schedule.specs.Match.{matches_at};
ghost use Rattle.schedule.specs.Search.{from};
ghost use Rattle.schedule.specs.Local.{OffsetInRange, biased_offset, local_of, matches_in, local_date, matches_local, firing_from_in, firing_after_in, next_after_in};

use crate::never::can_fire;
use crate::time::time_from;
use crate::{Schedule, matches_date, minute_from};
use calendar::{DAY_MINUTES, Date, LAST_MINUTE};
use refusal::Refusal;

// The local minute of a UTC minute.
#[derive(Clone, Copy)]
pub enum LocalMinute {
    // Below zero.
    Before,
    // This minute of the calendar.
    At(u64),
    // Past the calendar.
    After,
}

// The local minute of a minute of the calendar.
pub fn local_minute(offset: i32, minute: u64) -> LocalMinute
    requires { OffsetInRange offset × (minute ≤ last_minute) }
    ensures { result ≡ local_of (biased_offset offset) minute }
{
    let local = minute as i64 + offset as i64;
    if local < 0 {
        return LocalMinute::Before;
    }
    if (LAST_MINUTE as i64) < local {
        return LocalMinute::After;
    }
    LocalMinute::At(local as u64)
}

// The local date of a minute of the calendar; none where the local minute isn't on the calendar.
pub fn local_date(offset: i32, minute: u64) -> Option<Date>
    requires { OffsetInRange offset × (minute ≤ last_minute) }
    ensures { result ≡ local_date (biased_offset offset) minute }
{
    match local_minute(offset, minute) {
        LocalMinute::At(local) => Some(calendar::date_at(local)),
        LocalMinute::Before | LocalMinute::After => None,
    }
}

// Whether a local date matches.
pub fn matches_local(s: Schedule, date: Option<Date>) -> bool
    ensures { result ≡ matches_local s date }
{
    match date {
        Some(local) => matches_date(s, local),
        None => false,
    }
}

// The least matching minute from `utc` on, where the local minute of `utc` is `local`.
fn firing_from(s: Schedule, local: u64, utc: u64) -> Result<u64, Refusal>
    requires { (local ≤ last_minute) × (utc ≤ last_minute) }
    ensures { (o : ℕ) → utc + o ≡ local + 720 → result ≡ firing_from_in s o utc }
{
    let found = minute_from(s, local);
    let minute = utc + (found - local);
    if (found <= LAST_MINUTE) & (minute <= LAST_MINUTE) {
        return Ok(minute);
    }
    Err(Refusal::PastEnd)
}

// The least matching minute after a minute. Where that is below zero locally, the search begins at the local minute 0.
fn firing_after_in(s: Schedule, offset: i32, minute: u64) -> Result<u64, Refusal>
    requires { OffsetInRange offset × (minute ≤ last_minute) }
    ensures { result ≡ firing_after_in s (biased_offset offset) minute }
{
    if LAST_MINUTE <= minute {
        return Err(Refusal::PastEnd);
    }
    let start = minute + 1;
    match local_minute(offset, start) {
        LocalMinute::Before => firing_from(s, 0, (0 - offset) as u64),
        LocalMinute::At(local) => firing_from(s, local, start),
        LocalMinute::After => Err(Refusal::PastEnd),
    }
}

// When an entry fires next under an offset, strictly after a minute of the calendar, both in UTC.
pub fn next_firing_in(s: Schedule, offset: i32, minute: u64) -> Result<u64, Refusal>
    requires { OffsetInRange offset × (minute ≤ last_minute) }
    ensures { result ≡ next_after_in s (biased_offset offset) minute }
{
    if can_fire(s) {
        return firing_after_in(s, offset, minute);
    }
    Err(Refusal::Never)
}

// The least time of a day after `t`, or 1,440.
fn time_after(s: Schedule, t: u64) -> u64
    requires { t < 1440 }
    ensures { result ≡ from (matches_at s) 1440 (t + 1) }
{
    let next = t + 1;
    if next < DAY_MINUTES {
        return time_from(s, next);
    }
    next
}

// The same after a minute at which the entry fires: its local date matches, so that the rest of that day needs no calendar.
pub fn next_after_firing(s: Schedule, offset: i32, minute: u64) -> Result<u64, Refusal>
    requires { OffsetInRange offset × (minute ≤ last_minute) × (matches_in s (biased_offset offset) minute ≡ true) }
    ensures { result ≡ next_after_in s (biased_offset offset) minute }
{
    let LocalMinute::At(local) = local_minute(offset, minute) else {
        return next_firing_in(s, offset, minute);
    };
    let time = local % DAY_MINUTES;
    let later = time_after(s, time);
    let found = minute + (later - time);
    if (later < DAY_MINUTES) & (found <= LAST_MINUTE) {
        return Ok(found);
    }
    next_firing_in(s, offset, minute)
}
