// Whether an entry is due at a minute, and when it fires next.
ghost use Rattle.std.specs.Prelude.{◌≡◌, ◌≤◌};
ghost use Rattle.octets.specs.Search.{passes};
ghost use Rattle.calendar.specs.Dates.{last_minute};
ghost use Rattle.schedule.specs.Local.{OffsetInRange, biased_offset, local_date};
ghost use Rattle.schedule.specs.Jumps.{judged};
ghost use Rattle.crontab.specs.Tables.{table_of};
ghost use Rattle.crontab.specs.Firings.{is_boot, is_fixed, fires_on, fires_at, due_of, next_of, due_in, next_in};

use crate::entry::Entry;
use crate::table::find_entry;
use calendar::{Date, LAST_MINUTE};
use line::Rules;
use line::time::When;
use refusal::Refusal;
use schedule::jump::Case;
use schedule::local;

// Whether an entry is an `@reboot` entry.
pub fn is_boot(entry: Entry) -> bool
    ensures { result ≡ is_boot entry }
{
    match entry.when {
        When::Reboot => true,
        When::Timed(_) => false,
    }
}

// Whether an entry matches a local date.
pub fn fires_on(entry: Entry, date: Option<Date>) -> bool
    ensures { result ≡ fires_on entry date }
{
    match entry.when {
        When::Reboot => false,
        When::Timed(times) => local::matches_local(times, date),
    }
}

// Whether an entry is due at a minute.
fn due_at(entry: Entry, minute: u64) -> Result<bool, Refusal>
    requires { OffsetInRange entry.offset }
    ensures { result ≡ due_of entry minute }
{
    if LAST_MINUTE < minute {
        return Err(Refusal::NotOnCalendar);
    }
    let date = local::local_date(entry.offset, minute);
    Ok(fires_on(entry, date))
}

// When an entry fires next, strictly after a minute.
fn next_after(entry: Entry, minute: u64) -> Result<u64, Refusal>
    requires { OffsetInRange entry.offset }
    ensures { result ≡ next_of entry minute }
{
    if LAST_MINUTE < minute {
        return Err(Refusal::NotOnCalendar);
    }
    let when = entry.when;
    match when {
        When::Reboot => Err(Refusal::AtBootOnly),
        When::Timed(times) => local::next_firing_in(times, entry.offset, minute),
    }
}

// Whether an entry is fixed: neither its minute nor its hour field begins with `*` (M6).
fn is_fixed(entry: Entry) -> bool
    ensures { result ≡ is_fixed entry }
{
    let When::Timed(times) = entry.when else {
        return false;
    };
    let stars = times.stars;
    !(stars.minutes | stars.hours)
}

// Whether an entry matches any minute after a mark, up to a minute of the calendar: its next firing after the mark tells.
fn caught_up(entry: Entry, mark: u64, minute: u64) -> bool
    requires { OffsetInRange entry.offset × (minute ≤ last_minute) }
    ensures { result ≡ passes (fires_at entry) mark minute }
{
    match next_after(entry, mark) {
        Ok(next) => next <= minute,
        Err(_) => false,
    }
}

// Whether an announced minute calls an entry, by its case and by the local date under the entry's offset.
pub fn is_called(entry: Entry, minute: u64, case: Case, date: Option<Date>) -> bool
    requires { OffsetInRange entry.offset × (minute ≤ last_minute) × (date ≡ local_date (biased_offset entry.offset) minute) }
    ensures { result ≡ judged case (is_fixed entry) (fires_at entry) minute }
{
    if is_fixed(entry) {
        return match case {
            Case::Anew => fires_on(entry, date),
            Case::After(mark) => caught_up(entry, mark, minute),
            Case::Held => false,
        };
    }
    fires_on(entry, date)
}

// The same of an entry of a table, by its number.
pub fn due(s: &[u8], rules: Rules, entry: u64, minute: u64) -> Result<bool, Refusal>
    ensures { result ≡ due_in (table_of rules s.now) entry minute }
{
    let found = find_entry(s, rules, entry)?;
    due_at(found, minute)
}

pub fn next(s: &[u8], rules: Rules, entry: u64, minute: u64) -> Result<u64, Refusal>
    ensures { result ≡ next_in (table_of rules s.now) entry minute }
{
    let found = find_entry(s, rules, entry)?;
    next_after(found, minute)
}
