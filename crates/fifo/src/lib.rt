// A queue (Q1) in lent bytes, the buffer: its mark and the waiting entries. It knows no table.
// The layout has its names in specs/Layout; every function says what each byte of the buffer is at exit.
#![tactic(auto)]

pub mod head;
mod queue;

ghost use Rattle.std.specs.Prelude.{◌≡◌, true, [], ℕ, length};
ghost use Rattle.schedule.specs.Jumps.{is_mark};
ghost use Rattle.fifo.specs.Queues.{entries_of};
ghost use Rattle.fifo.specs.Layout.{queue_of, stored, roomy, is_queue};
ghost use Rattle.fifo.specs.Steps.{pop_step, standing, entry_step, refilled};
ghost use Rattle.fifo.specs.Inner.{WaitingBits, callees, joined, init_called, tick_called};

use calendar::LAST_MINUTE;
use head::mark_of;
use queue::{COUNT, FIRST, WORDS, number};
use refusal::Refusal;
use schedule::jump::mark_after;

// Whether the buffer has room for n entries.
pub fn has_room(buffer: &[u8], n: usize) -> bool
    ensures { result ≡ roomy n buffer.now }
{
    let places = buffer.len() / 2;
    FIRST <= places && n <= places - FIRST
}

// How many wait in a buffer.
pub fn waiting(buffer: &[u8]) -> usize
    ensures { result ≡ length (queue_of buffer.now).waiting }
{
    let most = (buffer.len() / 2).saturating_sub(FIRST);
    most.min(number(buffer, COUNT) as usize)
}

// Whether the buffer holds a queue of a table of n entries. If so, the empty set then has those who wait.
fn gather(buffer: &[u8], n: usize, seen: &mut [u64; WORDS]) -> bool
    requires { WaitingBits seen.old [] × (length seen.old ≡ 1024) }
    ensures answer { result ≡ is_queue n buffer.now }
    ensures seen { result ≡ true → WaitingBits seen.new (queue_of buffer.now).waiting }
{
    let count = number(buffer, COUNT) as usize;
    if has_room(buffer, n) & head::is_head(buffer) & (count <= n) {
        return queue::gather_entries(buffer, count, n, seen);
    }
    false
}

// Whether the buffer holds a queue of a table of n entries.
pub fn is_queue(buffer: &[u8], n: usize) -> bool
    ensures { result ≡ is_queue n buffer.now }
{
    let mut seen = [0u64; WORDS];
    gather(buffer, n, &mut seen)
}

// A fresh queue of a table of n entries, whatever the buffer held: no mark, and those that are called, in file order. Answers how many wait.
pub fn init(buffer: &mut [u8], n: u16, called: &[u64]) -> Result<usize, Refusal>
    ensures answer { result ≡ (init_called n called.now buffer.old).answer }
    ensures room { buffer.new ≡ (init_called n called.now buffer.old).room }
{
    if has_room(buffer, n as usize) {
        head::clear(buffer);
        let waiting = [0u64; WORDS];
        return Ok(queue::join(buffer, n, called, &waiting));
    }
    Err(Refusal::NotAQueue)
}

// The mark is set, and those of n entries that are called and don't wait join in file order. Answers how many joined.
fn announce(
    buffer: &mut [u8],
    n: u16,
    called: &[u64],
    waiting: &[u64; WORDS],
    mark: Option<u64>,
) -> usize
    requires { (is_queue n buffer.old ≡ true) × WaitingBits waiting.now (queue_of buffer.old).waiting × (is_mark mark ≡ true) }
    ensures answer { result ≡ length (callees n called.now (queue_of buffer.old).waiting) }
    ensures room { buffer.new ≡ stored (joined n called.now mark (queue_of buffer.old)) buffer.old }
{
    head::set_mark(buffer, mark);
    queue::join(buffer, n, called, waiting)
}

// The entries that a minute calls join the queue of a table of n entries, unless they wait. Answers how many joined.
pub fn tick(buffer: &mut [u8], n: u16, called: &[u64], minute: u64) -> Result<usize, Refusal>
    ensures answer { result ≡ (tick_called n called.now minute buffer.old).answer }
    ensures room { buffer.new ≡ (tick_called n called.now minute buffer.old).room }
{
    let mut waiting = [0u64; WORDS];
    if gather(buffer, n as usize, &mut waiting) {
        if LAST_MINUTE < minute {
            return Err(Refusal::NotOnCalendar);
        }
        let mark = mark_after(mark_of(buffer), minute);
        return Ok(announce(buffer, n, called, &waiting, mark));
    }
    Err(Refusal::NotAQueue)
}

// Removes and names the front entry of a queue of a table of n entries, if one waits.
pub fn pop(buffer: &mut [u8], n: usize) -> Result<Option<u16>, Refusal>
    ensures answer { result ≡ (pop_step n buffer.old).answer }
    ensures room { buffer.new ≡ (pop_step n buffer.old).room }
{
    if is_queue(buffer, n) {
        let count = number(buffer, COUNT);
        if count == 0 {
            return Ok(None);
        }
        let e = number(buffer, FIRST);
        queue::drop_front(buffer, count);
        return Ok(Some(e));
    }
    Err(Refusal::NotAQueue)
}

// The entry at a place of the queue in a buffer, 0 the front, if one waits there.
pub fn standing(buffer: &[u8], place: u64) -> Option<u16>
    ensures { result ≡ standing place (queue_of buffer.now).waiting }
{
    if place < waiting(buffer) as u64 {
        return Some(number(buffer, FIRST + place as usize));
    }
    None
}

// The same of a queue of a table of n entries. None leaves.
pub fn entry_at(buffer: &[u8], n: usize, place: u64) -> Result<Option<u16>, Refusal>
    ensures { result ≡ entry_step n place buffer.now }
{
    if is_queue(buffer, n) {
        return Ok(standing(buffer, place));
    }
    Err(Refusal::NotAQueue)
}

// The entries of a list, which are those of a table of n entries, wait from now on, and no others. The mark stays.
pub fn refill(buffer: &mut [u8], n: u16, entries: &[u16])
    requires { ((k : ℕ) × (is_queue k buffer.old ≡ true)) × (roomy n buffer.old ≡ true) × (entries_of n entries.now ≡ true) }
    ensures { buffer.new ≡ refilled entries.now buffer.old }
{
    queue::store(buffer, COUNT, 0);
    for &e in entries {
        queue::push(buffer, e);
    }
}
