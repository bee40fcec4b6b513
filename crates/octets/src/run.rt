// Runs of bytes of one kind. A place counts from 0.
ghost use Rattle.std.specs.Prelude.{◌≡◌, ◌+◌, ◌-◌, ◌≤◌, length, get_or, drop};
ghost use Rattle.octets.specs.Runs.{skipped, trimmed};

use crate::class::{Class, is_blank, is_in};

// The byte at a place, 0 past the end.
pub fn byte_at(s: &[u8], at: usize) -> u8
    ensures { result ≡ get_or s.now at 0 }
{
    s.get(at).copied().unwrap_or(0)
}

// Where the run of such bytes that starts at a place ends.
pub fn skip(s: &[u8], from: usize, class: Class) -> usize
    ensures { (result ≡ skipped class s.now from) × (from ≤ result) × (result ≤ from + (length s.now - from)) }
{
    // The hottest loop: as a `for`, which answers the greater of two places at its end, it was a tenth slower.
    let mut at = from;
    while at < s.len() {
        if is_in(class, s[at]) {
            at += 1;
        } else {
            return at;
        }
    }
    at
}

// Where the bytes from a place on end without the blanks that trail them.
pub fn trimmed_end(s: &[u8], from: usize) -> usize
    ensures { result ≡ from + trimmed (drop from s.now) }
{
    for last in (from..s.len()).rev() {
        if !is_blank(s[last]) {
            return last + 1;
        }
    }
    from
}
