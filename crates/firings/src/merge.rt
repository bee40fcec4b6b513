// The firings of a whole table, by minute and then entry.
ghost use Rattle.std.specs.Prelude.{◌≡◌, ◌≤◌, ◌+◌};
ghost use Rattle.calendar.specs.Dates.{last_minute};
ghost use Rattle.firings.specs.Lists.{fires_in, merged_up_to};
ghost use Rattle.firings.specs.Calls.{listed_merged};
ghost use Rattle.firings.specs.Keys.{Good};

use crate::Filled;
use crate::after::following;
use crate::tree::{WIDTH, build, key, put};
use crontab::table::Table;

// The greatest count of a list.
const MAX_PLACES: usize = 4_294_967_295;

// From firing to firing, each entry's next one being searched for when it has fired.
pub(crate) fn fill(table: Table, a: u64, b: u64, minutes: &mut [u32], numbers: &mut [u16]) -> Filled
    requires { Good table.entries table.count × (a ≤ last_minute) × (b ≤ last_minute) }
    ensures answer { Ok result ≡ (listed_merged (merged_up_to (fires_in table.entries) table.count b (a + 1)) minutes.old numbers.old).answer }
    ensures minutes { minutes.new ≡ (listed_merged (merged_up_to (fires_in table.entries) table.count b (a + 1)) minutes.old numbers.old).minutes }
    ensures entries { numbers.new ≡ (listed_merged (merged_up_to (fires_in table.entries) table.count b (a + 1)) minutes.old numbers.old).entries }
{
    let room = minutes.len().min(numbers.len()).min(MAX_PLACES);
    let mut tree = build(table, a);
    // Counted by hand, as in entry.
    let mut n = 0;
    while tree[1] / WIDTH <= b {
        if n == room {
            return Filled::More(n);
        }
        let minute = tree[1] / WIDTH;
        let i = (tree[1] % WIDTH) as usize;
        minutes[n] = minute as u32;
        numbers[n] = i as u16;
        n += 1;
        put(&mut tree, i, key(following(table.entries[i], minute), i));
    }
    Filled::All(n)
}
