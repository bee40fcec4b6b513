// The next firing of an entry as a minute, where there may be none.
ghost use Rattle.std.specs.Prelude.{◌≡◌, true, ◌+◌, ◌≤◌};
ghost use Rattle.octets.specs.Search.{from};
ghost use Rattle.calendar.specs.Dates.{last_minute};
ghost use Rattle.schedule.specs.Local.{OffsetInRange};
ghost use Rattle.crontab.specs.Firings.{fires_at};
ghost use Rattle.firings.specs.Keys.{minute_or_end};

use calendar::LAST_MINUTE;
use crontab::entry::Entry;
use line::time::When;
use refusal::Refusal;
use schedule::local;

const END: u64 = LAST_MINUTE + 1;

// A firing, or the minute after the calendar's last where there is none.
fn minute_of(next: Result<u64, Refusal>) -> u64
    ensures { result ≡ minute_or_end next }
{
    match next {
        Ok(minute) => minute,
        Err(_) => END,
    }
}

// The first firing after a minute.
pub(crate) fn firing_after(entry: Entry, minute: u64) -> u64
    requires { OffsetInRange entry.offset × (minute ≤ last_minute) }
    ensures { result ≡ from (fires_at entry) (last_minute + 1) (minute + 1) }
{
    let when = entry.when;
    match when {
        When::Reboot => END,
        When::Timed(times) => minute_of(local::next_firing_in(times, entry.offset, minute)),
    }
}

// The same after a minute at which the entry fires, which is quicker.
// Two functions and no closure: what the quicker search asks stands in a contract of its own.
pub(crate) fn following(entry: Entry, minute: u64) -> u64
    requires { OffsetInRange entry.offset × (minute ≤ last_minute) × (fires_at entry minute ≡ true) }
    ensures { result ≡ from (fires_at entry) (last_minute + 1) (minute + 1) }
{
    let when = entry.when;
    match when {
        When::Reboot => END,
        When::Timed(times) => minute_of(local::next_after_firing(times, entry.offset, minute)),
    }
}
