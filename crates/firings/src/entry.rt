// The firings of one entry.
ghost use Rattle.std.specs.Prelude.{◌≡◌, ◌≤◌};
ghost use Rattle.calendar.specs.Dates.{last_minute};
ghost use Rattle.schedule.specs.Local.{OffsetInRange};
ghost use Rattle.firings.specs.Lists.{firings_of};
ghost use Rattle.firings.specs.Calls.{listed_entry};

use crate::Filled;
use crate::after::{firing_after, following};
use crontab::entry::Entry;

// From firing to firing.
pub(crate) fn fill(entry: Entry, a: u64, b: u64, run: &mut [u32]) -> Filled
    requires { OffsetInRange entry.offset × (a ≤ last_minute) × (b ≤ last_minute) }
    ensures answer { Ok result ≡ (listed_entry (firings_of entry a b) run.old).answer }
    ensures run { run.new ≡ (listed_entry (firings_of entry a b) run.old).run }
{
    // Counted by hand: a for over the places of the run would need an arm more at its end.
    let mut n = 0;
    let mut minute = firing_after(entry, a);
    while minute <= b {
        if n == run.len() {
            return Filled::More(n);
        }
        run[n] = minute as u32;
        n += 1;
        minute = following(entry, minute);
    }
    Filled::All(n)
}
