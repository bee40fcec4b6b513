// The numbers of a queue in lent bytes, the buffer, and its entries: entry numbers below n, none twice, the front first. The layout has its
// names in specs/Layout.
ghost use Rattle.std.specs.Prelude.{◌≡◌, true, cond, [], ◌+◌, ◌/◌, ◌≤◌, ◌<◌, length, get_or, drop};
ghost use Rattle.std.proofs.Math.Seq.{paste};
ghost use Rattle.fifo.specs.Queues.{entries_of};
ghost use Rattle.fifo.specs.Layout.{numbers, queue_of, stored, is_queue};
ghost use Rattle.fifo.specs.Steps.{popped};
ghost use Rattle.fifo.specs.Inner.{with_number, CanPush, pushed, WaitingBits, callees, joined};

use octets::bitset;

// The place of the count.
pub(crate) const COUNT: usize = 4;

// The place of the front.
pub(crate) const FIRST: usize = 5;

// The number in the two bytes at place i, and 0 past the end.
pub(crate) fn number(buffer: &[u8], i: usize) -> u16
    ensures { result ≡ get_or (numbers buffer.now) i 0 }
{
    if buffer.len() / 2 <= i {
        return 0;
    }
    let at = 2 * i;
    u16::from_le_bytes([buffer[at], buffer[at + 1]])
}

// Puts a number into the two bytes at place i.
pub(crate) fn store(buffer: &mut [u8], i: usize, x: u16)
    requires { i < length buffer.old / 2 }
    ensures { buffer.new ≡ with_number i x buffer.old }
{
    let at = 2 * i;
    let [low, high] = x.to_le_bytes();
    buffer[at] = low;
    buffer[at + 1] = high;
}

// A bit for each number of 16 bits, in words of 64.
pub(crate) const WORDS: usize = 1024;

// Whether so many entries that wait are below n, none twice. Each that was passed is put into an empty set.
pub(crate) fn gather_entries(buffer: &[u8], count: usize, n: usize, seen: &mut [u64; WORDS]) -> bool
    requires { (count ≡ length (queue_of buffer.now).waiting) × WaitingBits seen.old [] × (length seen.old ≡ 1024) }
    ensures answer { result ≡ entries_of n (queue_of buffer.now).waiting }
    ensures seen { result ≡ true → WaitingBits seen.new (queue_of buffer.now).waiting }
{
    for i in 0..count {
        let e = number(buffer, FIRST + i) as usize;
        if n <= e {
            return false;
        }
        if bitset::has(seen, e) {
            return false;
        }
        bitset::add(seen, e);
    }
    true
}

// Entry e joins at the back.
pub(crate) fn push(buffer: &mut [u8], e: u16)
    requires { CanPush buffer.old }
    ensures { buffer.new ≡ stored (pushed e (queue_of buffer.old)) buffer.old }
{
    let n = number(buffer, COUNT);
    store(buffer, FIRST + n as usize, e);
    store(buffer, COUNT, n + 1);
}

// The entries below n that are called and don't wait join in file order. Answers how many joined.
pub(crate) fn join(buffer: &mut [u8], n: u16, called: &[u64], waiting: &[u64; WORDS]) -> usize
    requires { (is_queue n buffer.old ≡ true) × WaitingBits waiting.now (queue_of buffer.old).waiting }
    ensures answer { result ≡ length (callees n called.now (queue_of buffer.old).waiting) }
    ensures bytes { buffer.new ≡ stored (joined n called.now (queue_of buffer.old).mark (queue_of buffer.old)) buffer.old }
{
    let mut count = 0;
    for i in 0..n {
        let e = i as usize;
        if bitset::has(called, e) & !bitset::has(waiting, e) {
            push(buffer, i);
            count += 1;
        }
    }
    count
}

// Takes the front of so many entries out of the queue.
pub(crate) fn drop_front(buffer: &mut [u8], count: u16)
    requires { (stored (queue_of buffer.old) buffer.old ≡ buffer.old) × (count ≡ length (queue_of buffer.old).waiting) × (0 < count) }
    ensures { buffer.new ≡ stored (popped (queue_of buffer.old)) buffer.old }
{
    let end = FIRST + count as usize;
    buffer.copy_within(2 * (FIRST + 1)..2 * end, 2 * FIRST);
    store(buffer, COUNT, count - 1);
}
