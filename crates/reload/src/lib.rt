// A table that has changed: a queued entry keeps its place, as the entry of the new table that means the same.
#![tactic(auto)]

mod peers;
mod same_meaning;

ghost use Rattle.std.specs.Prelude.{◌≡◌, ◌≤◌, ◌<◌, true, length, take};
ghost use Rattle.octets.specs.BitSets.{has_member};
ghost use Rattle.crontab.specs.Tables.{table_of, count_in};
ghost use Rattle.fifo.specs.Layout.{queue_of, is_queue};
ghost use Rattle.reload.specs.Targets.{ranked_or_last, target_in, reloaded};
ghost use Rattle.reload.specs.Calls.{reload_tables};

use crontab::MAX_ENTRIES;
use crontab::select::WORDS;
use crontab::table::{check, find_entry};
use line::Rules;
use octets::bitset;
use refusal::Refusal;

// Of the numbers below n in a set the one of a rank, or the last one if there are fewer; n if there is none.
fn ranked_or_last(members: &[u64], n: usize, rank: usize) -> usize
    ensures { result ≡ ranked_or_last (has_member members.now) n rank }
{
    let at = bitset::ranked(members, n, rank);
    if at < n {
        return at;
    }
    let total = bitset::below(members, n);
    if total == 0 {
        return n;
    }
    bitset::ranked(members, n, total - 1)
}

// The entry of the new table that an entry of the old one becomes, or how many the new one has, where there is none.
fn counterpart(old: &[u8], new: &[u8], rules: Rules, entry: u64) -> usize
    requires { entry < count_in (table_of rules old.now) }
    ensures { result ≡ target_in rules old.now new.now entry }
{
    let Ok(found) = find_entry(old, rules, entry) else {
        return 0;
    };
    let Ok(here) = peers::read(old, rules, old, found) else {
        return 0;
    };
    let Ok(there) = peers::read(new, rules, old, found) else {
        return 0;
    };
    let members = here.members;
    let others = there.members;
    let rank = bitset::below(&members, entry as usize);
    ranked_or_last(&others, there.count, rank)
}

// The queue from now on: so many of the entries, the front first.
// An array with a count: nothing is allocated.
#[derive(Clone, Copy)]
struct Kept {
    count: usize,
    entries: [u16; MAX_ENTRIES],
}

// The entries that the room queues, as entries of the new table, which has n. One that isn't there is dropped, and one that is queued already.
fn who_waits(old: &[u8], new: &[u8], rules: Rules, room: &[u8], n: usize) -> Kept
    requires { (is_queue (count_in (table_of rules old.now)) room.now ≡ true) × (n ≡ count_in (table_of rules new.now)) }
    ensures { (take result.count result.entries ≡ reloaded rules old.now new.now (queue_of room.now).waiting) × (result.count ≤ length result.entries) }
{
    let mut entries = [0u16; MAX_ENTRIES];
    let mut queued = [0u64; WORDS];
    let mut count = 0;
    for place in 0..fifo::waiting(room) {
        let entry = fifo::standing(room, place as u64).unwrap();
        let to = counterpart(old, new, rules, entry as u64);
        if (to < n) & !bitset::has(&queued, to) {
            bitset::add(&mut queued, to);
            entries[count] = to as u16;
            count += 1;
        }
    }
    Kept { count, entries }
}

// The queue of the old table becomes one of the new table. No entry joins, and the mark stays. Answers how many are queued.
pub fn reload(old: &[u8], new: &[u8], rules: Rules, room: &mut [u8]) -> Result<usize, Refusal>
    ensures answer { result ≡ (reload_tables rules old.now new.now room.old).answer }
    ensures room { room.new ≡ (reload_tables rules old.now new.now room.old).room }
{
    let before = check(old, rules)?;
    let n = check(new, rules)?;
    if fifo::is_queue(room, before) & fifo::has_room(room, n) {
        let kept = who_waits(old, new, rules, room, n);
        fifo::refill(room, n as u16, &kept.entries[..kept.count]);
        return Ok(kept.count);
    }
    Err(Refusal::NotAQueue)
}
