// The next firings of a table's entries as a tree of keys: a key is minute * 512 + entry, the leaves are the entries' keys, and every
// other node is the lesser of its two children. So the root is the next firing of all, by minute and then entry.
ghost use Rattle.std.specs.Prelude.{◌≡◌, cond, ℕ, ◌<◌, ◌≤◌, ◌+◌, ◌*◌, min, eqb};
ghost use Rattle.calendar.specs.Dates.{last_minute};
ghost use Rattle.crontab.specs.Limits.{max_entries};
ghost use Rattle.firings.specs.Lists.{fires_in};
ghost use Rattle.firings.specs.Keys.{Tree, leaf, is_firing, Tournament, Good};

use crate::after::firing_after;
use calendar::LAST_MINUTE;
use crontab::MAX_ENTRIES;
use crontab::table::Table;

// An entry's number in a key.
pub(crate) const WIDTH: u64 = 512;

// Nothing is allocated, so the tree lies in an array, and no BinaryHeap keeps it.
pub(crate) const NODES: usize = 1024;

// Greater than the key of any minute of the calendar.
const END: u64 = (LAST_MINUTE + 1) * WIDTH;

// Puts a key in the place of an entry's, and sets its ancestors right, from the leaf to the root.
pub(crate) fn put(tree: &mut [u64; NODES], i: usize, key: u64)
    requires { Tree tree.old × (i < max_entries) }
    ensures shape { Tree tree.new }
    ensures leaves { (j : ℕ) → j < max_entries → leaf tree.new j ≡ cond (eqb j i) key (leaf tree.old j) }
{
    let mut at = MAX_ENTRIES + i;
    let mut low = key;
    tree[at] = low;
    while 1 < at {
        let other = 4 * (at / 2) + 1 - at;
        low = low.min(tree[other]);
        at /= 2;
        tree[at] = low;
    }
}

// The key of a firing, or of the minute after the calendar's last.
pub(crate) fn key(minute: u64, i: usize) -> u64
    requires { (minute ≤ last_minute + 1) × (i < max_entries) }
    ensures { result ≡ minute * max_entries + i }
{
    minute * WIDTH + i as u64
}

// The tree of the first firings of so many entries after a minute.
pub(crate) fn build(table: Table, minute: u64) -> [u64; NODES]
    requires { Good table.entries table.count × (minute ≤ last_minute) }
    ensures { Tournament (is_firing (fires_in table.entries) table.count) table.count ((minute + 1) * max_entries) result }
{
    let mut tree = [END; NODES];
    for i in 0..table.count {
        put(&mut tree, i, key(firing_after(table.entries[i], minute), i));
    }
    tree
}
