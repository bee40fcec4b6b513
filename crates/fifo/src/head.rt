// The numbers in front of a queue's entries: the format number and the mark, two places each, and the count.
ghost use Rattle.std.specs.Prelude.{◌≡◌, true, [], ℕ, ◌≤◌, length, None};
ghost use Rattle.schedule.specs.Jumps.{is_mark};
ghost use Rattle.fifo.specs.Layout.{numbers, number32, mark_number, mark_of, queue_of, stored, queue_size, is_head, is_queue};

use crate::queue::{COUNT, number, store};
use calendar::LAST_MINUTE;

// The bytes of `ERQ1`.
const FORMAT: u64 = 827_413_061;

const FORMAT_LOW: u16 = 21_061;

const FORMAT_HIGH: u16 = 12_625;

const MARK: usize = 2;

// The number of 32 bits at a place and the next.
fn number32(buffer: &[u8], i: usize) -> u64
    requires { i ≤ 2 }
    ensures { result ≡ number32 (numbers buffer.now) i }
{
    number(buffer, i) as u64 + 65536 * (number(buffer, i + 1) as u64)
}

// The mark of the queue in a buffer.
pub fn mark_of(buffer: &[u8]) -> Option<u64>
    ensures { result ≡ mark_of buffer.now }
{
    let n = number32(buffer, MARK);
    if n == 0 {
        return None;
    }
    Some(n - 1)
}

// Whether the mark is none or a minute of the calendar.
fn is_mark(mark: Option<u64>) -> bool
    ensures { result ≡ is_mark mark }
{
    match mark {
        None => true,
        Some(minute) => minute <= LAST_MINUTE,
    }
}

// Whether the buffer begins as a queue does.
pub(crate) fn is_head(buffer: &[u8]) -> bool
    ensures { result ≡ is_head buffer.now }
{
    (number32(buffer, 0) == FORMAT) & is_mark(mark_of(buffer))
}

// Makes an empty queue with no mark, whatever the buffer held.
pub(crate) fn clear(buffer: &mut [u8])
    requires { queue_size 0 ≤ length buffer.old }
    ensures { buffer.new ≡ stored (record { mark = None; waiting = [] }) buffer.old }
{
    store(buffer, 0, FORMAT_LOW);
    store(buffer, 1, FORMAT_HIGH);
    store(buffer, MARK, 0);
    store(buffer, MARK + 1, 0);
    store(buffer, COUNT, 0);
}

fn mark_number(mark: Option<u64>) -> u64
    requires { is_mark mark ≡ true }
    ensures { result ≡ mark_number mark }
{
    match mark {
        None => 0,
        Some(minute) => minute + 1,
    }
}

// Gives the queue in a buffer another mark.
pub(crate) fn set_mark(buffer: &mut [u8], mark: Option<u64>)
    requires { ((n : ℕ) × (is_queue n buffer.old ≡ true)) × (is_mark mark ≡ true) }
    ensures { buffer.new ≡ stored (record { mark = mark; waiting = (queue_of buffer.old).waiting }) buffer.old }
{
    let n = mark_number(mark);
    store(buffer, MARK, (n % 65536) as u16);
    store(buffer, MARK + 1, (n / 65536) as u16);
}
