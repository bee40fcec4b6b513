// Numbers in bytes, the low byte first.
ghost use Rattle.std.specs.Prelude.{◌≡◌, ◌+◌, ◌≤◌, ◌<◌, length};
ghost use Rattle.octets.specs.Runs.{between};
ghost use Rattle.octets.specs.Clipped.{Wrote};
ghost use Rattle.octets.specs.LittleEndian.{little_endian, number_of, width};

use crate::write::{after, byte};

// The number of so many bytes at a place. It is put together from its high byte on.
pub fn read(s: &[u8], at: usize, size: usize) -> u64
    requires { (at + size ≤ length s.now) × (size ≤ 8) }
    ensures { (result ≡ number_of (between s.now at (at + size))) × (result < width size) }
{
    let mut n: u64 = 0;
    for i in (at..at + size).rev() {
        n = n * 256 + u64::from(s[i]);
    }
    n
}

// Writes a number in so many bytes at a place, as far as they fit, and answers the place after them. Where nothing fits, no byte is worked out.
pub fn write(out: &mut [u8], at: usize, n: u64, size: usize) -> usize
    ensures { Wrote at (little_endian size n) out.old result out.new }
{
    if out.len() <= at {
        return after(at, size);
    }
    let mut next = at;
    let mut rest = n;
    for _i in 0..size {
        next = byte(out, next, (rest % 256) as u8);
        rest /= 256;
    }
    next
}
