// The queue of a table (Q1), by table bytes and the buffer that holds it: a fresh queue (init), an announcement (tick), a request (pop)
// and a look (entry_at).
#![tactic(auto)]

ghost use Rattle.std.specs.Prelude.{◌≡◌};
ghost use Rattle.crontab.specs.Tables.{table_of};
ghost use Rattle.runqueue.specs.Calls.{init_table, tick_table, pop_table, entry_table};

use crontab::select;
use crontab::select::Selector;
use crontab::table::check;
use fifo::head::mark_of;
use line::Rules;
use refusal::Refusal;
use schedule::jump::case_of;

// A fresh line of a table, whatever the room held: the boot jobs in file order. Answers how many wait.
pub fn init(table: &[u8], rules: Rules, room: &mut [u8]) -> Result<usize, Refusal>
    ensures answer { result ≡ (init_table (table_of rules table.now) room.old).answer }
    ensures room { room.new ≡ (init_table (table_of rules table.now) room.old).room }
{
    let jobs = select::read(table, rules, Selector::AtBoot)?;
    fifo::init(room, jobs.count as u16, &jobs.members)
}

// Announces a minute: each time-based entry that it calls, beside the line's mark, and that doesn't wait joins in file order. Answers how
// many joined.
pub fn tick(table: &[u8], rules: Rules, room: &mut [u8], minute: u64) -> Result<usize, Refusal>
    ensures answer { result ≡ (tick_table (table_of rules table.now) minute room.old).answer }
    ensures room { room.new ≡ (tick_table (table_of rules table.now) minute room.old).room }
{
    let case = case_of(mark_of(room), minute);
    let jobs = select::read(table, rules, Selector::At { minute, case })?;
    fifo::tick(room, jobs.count as u16, &jobs.members, minute)
}

// Requests the next job: removes and names the front entry, or says that nothing waits.
pub fn pop(table: &[u8], rules: Rules, room: &mut [u8]) -> Result<Option<u16>, Refusal>
    ensures answer { result ≡ (pop_table (table_of rules table.now) room.old).answer }
    ensures room { room.new ≡ (pop_table (table_of rules table.now) room.old).room }
{
    let count = check(table, rules)?;
    fifo::pop(room, count)
}

// Who stands at a place of the line, 0 the front, or that nothing waits there. Nobody leaves.
pub fn entry_at(table: &[u8], rules: Rules, room: &[u8], place: u64) -> Result<Option<u16>, Refusal>
    ensures { result ≡ entry_table (table_of rules table.now) place room.now }
{
    let count = check(table, rules)?;
    fifo::entry_at(room, count, place)
}
