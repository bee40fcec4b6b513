// The run queue: the line of waiting jobs of a table, in a room that the caller lends.
ghost use Rattle.std.specs.Prelude.{◌≡◌};
ghost use Rattle.eremothyn.specs.Queue.{tick_number, pop_number};
ghost use Rattle.eremothyn.specs.Calls.{queue_init_call, queue_init_room, queue_tick_call, queue_tick_room, queue_pop_call, queue_pop_room, queue_entry_call, queue_reload_call, queue_reload_room};

use crate::answer::{REFUSED, answer};
use crate::rules::rules_of;
use refusal::Refusal;

// How many joined, or the refusal.
#[tactic(auto, unfolding(crate::specs::Queue::tick_number, crate::specs::Answer::answer_of))]
fn ticked_number(ticked: Result<usize, Refusal>) -> u64
    ensures { result ≡ tick_number ticked }
{
    match ticked {
        Ok(n) => n as u64,
        Err(refusal) => answer(Err(refusal)),
    }
}

// The entry, "nothing waits", or the refusal.
#[tactic(auto, unfolding(crate::specs::Queue::pop_number, crate::specs::Answer::answer_of))]
fn popped_number(popped: Result<Option<u16>, Refusal>) -> u64
    ensures { result ≡ pop_number popped }
{
    match popped {
        Ok(Some(e)) => e as u64,
        Ok(None) => REFUSED,
        Err(refusal) => answer(Err(refusal)),
    }
}

#[unsafe(no_mangle)]
pub extern "C" fn eremothyn_queue_init(
    table: &[u8],
    kind: u64,
    dialect: u64,
    room: &mut [u8],
) -> u64
    ensures answer { result ≡ queue_init_call table.now kind dialect room.old }
    ensures room { room.new ≡ queue_init_room table.now kind dialect room.old }
{
    ticked_number(runqueue::init(table, rules_of(kind, dialect), room))
}

#[unsafe(no_mangle)]
pub extern "C" fn eremothyn_queue_tick(
    table: &[u8],
    kind: u64,
    dialect: u64,
    room: &mut [u8],
    minute: u64,
) -> u64
    ensures answer { result ≡ queue_tick_call table.now kind dialect room.old minute }
    ensures room { room.new ≡ queue_tick_room table.now kind dialect room.old minute }
{
    ticked_number(runqueue::tick(table, rules_of(kind, dialect), room, minute))
}

#[unsafe(no_mangle)]
pub extern "C" fn eremothyn_queue_pop(table: &[u8], kind: u64, dialect: u64, room: &mut [u8]) -> u64
    ensures answer { result ≡ queue_pop_call table.now kind dialect room.old }
    ensures room { room.new ≡ queue_pop_room table.now kind dialect room.old }
{
    popped_number(runqueue::pop(table, rules_of(kind, dialect), room))
}

#[unsafe(no_mangle)]
pub extern "C" fn eremothyn_queue_entry(
    table: &[u8],
    kind: u64,
    dialect: u64,
    room: &[u8],
    place: u64,
) -> u64
    ensures { result ≡ queue_entry_call table.now kind dialect room.now place }
{
    popped_number(runqueue::entry_at(table, rules_of(kind, dialect), room, place))
}

#[unsafe(no_mangle)]
pub extern "C" fn eremothyn_queue_reload(
    old: &[u8],
    new: &[u8],
    kind: u64,
    dialect: u64,
    room: &mut [u8],
) -> u64
    ensures answer { result ≡ queue_reload_call old.now new.now kind dialect room.old }
    ensures room { room.new ≡ queue_reload_room old.now new.now kind dialect room.old }
{
    ticked_number(reload::reload(old, new, rules_of(kind, dialect), room))
}
